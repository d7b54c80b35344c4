//! What the types of keys and of texts say of pieces.
ghost use Rattle.std.specs.Prelude.{◌≡◌, true, All};
ghost use Rattle.std.specs.Str.{IsUtf8, is_utf8};
ghost use Rattle.edge_info.specs.Entries.{KeyFits};
ghost use Rattle.kept_checks.specs.KeptChecks.{IsSpellable};

use osm_model::PieceKey;
use road_pieces::{NamesView, PieceView, Pieces};

/// Does nothing: it tells the caller that a text is UTF-8.
fn text_spells(text: &str)
    ensures { IsUtf8 text.now }
{
    let _ = text.len();
}

/// Does nothing: it tells the caller that the numbers of a key fit their bytes.
fn key_spells(key: PieceKey)
    ensures { KeyFits key }
{
    let (_, _, _) = (key.way, key.run, key.piece);
}

/// Does nothing: it tells the caller that these names are UTF-8.
fn names_spell(names: &NamesView<'_>)
    ensures { All (λ name. is_utf8 name ≡ true) names.now }
{
    for k in 0..names.len() {
        text_spells(names.at(k));
    }
}

/// Does nothing: it tells the caller what the types of its key and its names say of a piece.
fn piece_spells(piece: &PieceView<'_>)
    ensures { IsSpellable piece.now }
{
    key_spells(piece.key());
    names_spell(piece.names());
}

/// Does nothing: it tells the caller what the types of their keys and names say of pieces.
pub fn pieces_spell(pieces: &Pieces)
    ensures { All IsSpellable pieces.now }
{
    for i in 0..pieces.len() {
        piece_spells(&pieces.at(i));
    }
}
