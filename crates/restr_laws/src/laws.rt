//! Laws of patterns by codes, which hold by the definitions alone.

ghost use Rattle.restr_laws.specs.AtCodes.{FlagsAtCodes, MasksAtCodes, StoredAtCodes};
ghost use Rattle.restr_laws.specs.CodePlaces.{KeptAtCodes, LocalsAtCodes, PiecesAtCodes, StartsAtCodes};

/// The mask of an edge in the folder is that of its code.
pub fn masks_at_codes()
    ensures { MasksAtCodes }
{}

/// A piece is flagged in the folder exactly where the piece of its code is.
pub fn flags_at_codes()
    ensures { FlagsAtCodes }
{}

/// The patterns that the folder stores are those that are stored by codes, in the same order.
pub fn stored_at_codes()
    ensures { StoredAtCodes }
{}

/// There are two codes for each piece of the roads: forward with twice its index, and backward with one more.
pub fn pieces_at_codes()
    ensures { PiecesAtCodes }
{}

/// The codes of roads that aren't refused start at the junctions, and few at each.
pub fn starts_at_codes()
    ensures { StartsAtCodes }
{}

/// The local indexes that follow from where the codes start are those of the directed pieces.
pub fn locals_at_codes()
    ensures { LocalsAtCodes }
{}

/// The pieces that an asked mode may use in some direction are those that the folder keeps.
pub fn kept_at_codes()
    ensures { KeptAtCodes }
{}
