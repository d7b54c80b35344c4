//! What the definitions of an extract mean for each file.

ghost use Rattle.std.specs.Prelude.{◌≡◌, ◌↔◌, ℕ, List, true, None};
ghost use Rattle.wire_read.specs.Varint.{AreBytes};
ghost use Rattle.osm_model.specs.Extract.{AreWithin};
ghost use Rattle.osm_model.specs.declared.extract.Extract.{Extract};
ghost use Rattle.osm_objects.specs.Objects.{Objects};
ghost use Rattle.osm_blocks.specs.declared.fault.ExtractFault.{ExtractFault};
ghost use Rattle.osm_blocks.specs.Faults.{is_of_bytes};
ghost use Rattle.osm_blocks.specs.Counts.{counts_of, first_past};
ghost use Rattle.osm_blocks.specs.FileContent.{IsFileOf};
ghost use Rattle.osm_blocks.specs.FileFaults.{IsFaultyFile};
ghost use Rattle.osm_blocks.specs.Extracts.{Reading, IsReading, IsRead, Reads, Refuses, lists_of};

use osm_messages::block_law;
use osm_objects::object_law;
use pbf_blobs::framing_law;

/// For each list of numbers there is a reading, the lists of one extract or one fault, and only one. The lists are
/// those of an extract, a fault is one of the bytes, and the limits on counts are those of an extract.
pub fn reading_law()
    ensures read { (bytes : List ℕ) → IsRead bytes }
    ensures one_way { (bytes : List ℕ) (one other : Reading) → IsReading bytes one → IsReading bytes other → one ≡ other }
    ensures extract { (bytes : List ℕ) (lists : Objects) → Reads bytes lists → (x : Extract) × (lists_of x ≡ lists) }
    ensures of_bytes { (bytes : List ℕ) (fault : ExtractFault) → Refuses bytes fault → is_of_bytes fault ≡ true }
    ensures limits { (lists : Objects) → (first_past (counts_of lists) ≡ None) ↔ AreWithin lists.nodes lists.ways lists.relations }
{
    framing_law();
}

/// A file reads as lists exactly where it says them by the format: it is triples with a header before each data blob,
/// and the objects that its blocks mean are these, each kind in order of id, within the limits.
pub fn content_law()
    ensures { (bytes : List ℕ) → AreBytes bytes → (lists : Objects) → Reads bytes lists ↔ IsFileOf bytes lists }
{
    framing_law();
    block_law();
    object_law();
}

/// A file has a fault exactly where it is the first one by the format: that of the bytes behind the last whole triple,
/// or that of the first blob with one, or, where no blob has one, that of the whole file.
pub fn refusal_law()
    ensures { (bytes : List ℕ) → AreBytes bytes → (fault : ExtractFault) → Refuses bytes fault ↔ IsFaultyFile bytes fault }
{
    framing_law();
    block_law();
    object_law();
}
