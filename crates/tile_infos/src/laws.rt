//! Laws of the definitions.
ghost use Rattle.std.specs.Prelude.{◌≡◌, ◌<◌, ◌≤◌, ◌^◌, ℕ, List, Some, length, take, slice_get, slice_index_or, sum_by, All, AllPairs};
ghost use Rattle.edge_info.specs.declared.infos.Info.{Info};
ghost use Rattle.edge_info.specs.Entries.{InfosPass, names_of, starts_of};
ghost use Rattle.edge_info.specs.Texts.{TextsPass};
ghost use Rattle.road_pieces.specs.declared.rows.Piece.{Piece};
ghost use Rattle.tile_infos.specs.TileTexts.{texts_of_pieces};
ghost use Rattle.tile_infos.specs.TileEntries.{pieces_at, entries_of_pieces, size_of_entry};
ghost use Rattle.tile_infos.specs.TileChecks.{HasEntry, KeysRise};

/// Entries and texts of pieces that may have an entry, and whose keys rise, pass the checks of a tile file.
pub fn tile_infos_pass()
    ensures infos { (pieces : List Piece) → All HasEntry pieces → KeysRise pieces → length (texts_of_pieces pieces) ≤ 2 ^ 32
        → InfosPass (length (texts_of_pieces pieces)) (entries_of_pieces pieces) }
    ensures texts { (pieces : List Piece) → All HasEntry pieces
        → TextsPass (names_of (entries_of_pieces pieces)) (texts_of_pieces pieces) }
{}

/// There is a piece for each place, it is the one at that place, and what holds of all pieces holds of these: each may
/// have an entry, and keys rise where the places do.
pub fn pieces_at_places()
    ensures count { (pieces : List Piece) (places : List ℕ) → All (λ place. place < length pieces) places
        → length (pieces_at pieces places) ≡ length places }
    ensures each { (pieces : List Piece) (places : List ℕ) (i : ℕ) (d : Piece) → All (λ place. place < length pieces) places
        → i < length places → slice_index_or (pieces_at pieces places) i d ≡ slice_index_or pieces (slice_index_or places i 0) d }
    ensures entries { (pieces : List Piece) (places : List ℕ) → All HasEntry pieces → All (λ place. place < length pieces) places
        → All HasEntry (pieces_at pieces places) }
    ensures rise { (pieces : List Piece) (places : List ℕ) → KeysRise pieces → All (λ place. place < length pieces) places
        → AllPairs (λ a b. a < b) places → KeysRise (pieces_at pieces places) }
{}

/// There is an offset for each entry: the sum of the sizes of those before it.
pub fn starts_are_sums()
    ensures count { (infos : List Info) → length (starts_of infos) ≡ length infos }
    ensures each { (infos : List Info) (i : ℕ) → i < length infos
        → slice_get (starts_of infos) i ≡ Some (sum_by size_of_entry (take i infos)) }
{}
