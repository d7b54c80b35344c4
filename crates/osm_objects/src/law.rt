//! What the definitions of objects mean, in the words of the format.

ghost use Rattle.std.specs.Prelude.{◌≡◌, ◌↔◌, ℕ, List, Ok, Err};
ghost use Rattle.wire_read.specs.Varint.{AreBytes};
ghost use Rattle.osm_messages.specs.Blocks.{Block};
ghost use Rattle.osm_messages.specs.Means.{IsPrimitiveBlock};
ghost use Rattle.osm_objects.specs.declared.fault.ObjectFault.{ObjectFault};
ghost use Rattle.osm_objects.specs.Objects.{Objects, objects_of};
ghost use Rattle.osm_objects.specs.Means.{IsObjects};
ghost use Rattle.osm_objects.specs.Causes.{IsFirstOfBlock};

use osm_messages::block_law;

/// A block gives objects exactly where they are what its messages mean by the format. Else it gives the first fault
/// that stands in it.
pub fn object_law()
    ensures objects { (at : ℕ) (bytes : List ℕ) → AreBytes bytes → (block : Block) → IsPrimitiveBlock at bytes block →
        (objects : Objects) → (objects_of at block ≡ Ok objects) ↔ IsObjects block objects }
    ensures fault { (at : ℕ) (bytes : List ℕ) → AreBytes bytes → (block : Block) → IsPrimitiveBlock at bytes block →
        (fault : ObjectFault) → (objects_of at block ≡ Err fault) ↔ IsFirstOfBlock at block fault }
{
    block_law();
}
