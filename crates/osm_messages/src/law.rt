//! What the definitions of the messages mean, in the words of the format.

ghost use Rattle.std.specs.Prelude.{◌≡◌, ◌↔◌, ℕ, List, Ok, Err};
ghost use Rattle.wire_read.specs.Varint.{AreBytes};
ghost use Rattle.osm_messages.specs.declared.fault.MessageFault.{MessageFault};
ghost use Rattle.osm_messages.specs.declared.kind.ObjectKind.{ObjectKind};
ghost use Rattle.osm_messages.specs.Numbers.{shape_of, numbers_in};
ghost use Rattle.osm_messages.specs.Blocks.{Block, block_in};
ghost use Rattle.osm_messages.specs.Headers.{features_in};
ghost use Rattle.osm_messages.specs.Means.{IsPrimitiveBlock, IsHeaderBlock, IsObject};
ghost use Rattle.osm_messages.specs.Faults.{InNone, InNumbers, InBlock, IsFirst};

/// Bytes give a block, a header's required features and an object's numbers exactly where they are such a message
/// by the format. Else they give the first fault that stands in them.
pub fn block_law()
    ensures block { (at : ℕ) (bytes : List ℕ) → AreBytes bytes → (block : Block) → (block_in at bytes ≡ Ok block) ↔ IsPrimitiveBlock at bytes block }
    ensures header { (at : ℕ) (bytes : List ℕ) → AreBytes bytes → (features : List (ℕ × List ℕ)) → (features_in at bytes ≡ Ok features) ↔ IsHeaderBlock at bytes features }
    ensures object { (kind : ObjectKind) (at : ℕ) (bytes : List ℕ) → AreBytes bytes → (numbers : List (ℕ × ℕ)) → (numbers_in (shape_of kind) at bytes ≡ Ok numbers) ↔ IsObject kind at bytes numbers }
    ensures block_fault { (at : ℕ) (bytes : List ℕ) → AreBytes bytes → (fault : MessageFault) → (block_in at bytes ≡ Err fault) ↔ IsFirst InBlock at bytes fault }
    ensures header_fault { (at : ℕ) (bytes : List ℕ) → AreBytes bytes → (fault : MessageFault) → (features_in at bytes ≡ Err fault) ↔ IsFirst InNone at bytes fault }
    ensures object_fault { (kind : ObjectKind) (at : ℕ) (bytes : List ℕ) → AreBytes bytes → (fault : MessageFault) → (numbers_in (shape_of kind) at bytes ≡ Err fault) ↔ IsFirst (InNumbers kind) at bytes fault }
{}
