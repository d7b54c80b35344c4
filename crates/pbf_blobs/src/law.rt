//! What the definitions of the framing mean, in the words of the grammar.

ghost use Rattle.std.specs.Prelude.{◌≡◌, ◌↔◌, ℕ, List, drop};
ghost use Rattle.wire_read.specs.Varint.{AreBytes};
ghost use Rattle.pbf_blobs.specs.declared.blob.Blob.{Blob};
ghost use Rattle.pbf_blobs.specs.Triple.{AreTriples};
ghost use Rattle.pbf_blobs.specs.Next.{Outcome, Ends, next_of};
ghost use Rattle.pbf_blobs.specs.Means.{Means};
ghost use Rattle.pbf_blobs.specs.Frames.{Frames, IsFramed, IsLast};

/// Each outcome stands exactly where the grammar has its cause. An input without fault is a concatenation of triples.
/// For each list of numbers and each place there is a list of blobs and a last outcome behind it, and only one.
pub fn framing_law()
    ensures causes { (at : ℕ) (rest : List ℕ) → AreBytes rest →
        (outcome : Outcome) → (next_of at rest ≡ outcome) ↔ Means at rest outcome }
    ensures triples { (bytes : List ℕ) → AreBytes bytes → (at : ℕ) (blobs : List Blob) →
        Frames bytes at blobs Ends ↔ AreTriples at (drop at bytes) blobs }
    ensures framed { (bytes : List ℕ) (at : ℕ) → IsFramed bytes at }
    ensures one_way { (bytes : List ℕ) (at : ℕ) (blobs others : List Blob) (outcome other : Outcome) → IsLast outcome → IsLast other
        → Frames bytes at blobs outcome → Frames bytes at others other → (others ≡ blobs) × (other ≡ outcome) }
{}
