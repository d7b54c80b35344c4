//! Which pieces of the roads are kept.

ghost use Rattle.std.specs.Prelude.{◌≡◌, map, IfOk};
ghost use Rattle.complex_restr.specs.KeptPieces.{is_kept_piece};

use road_pieces::{PieceView, Pieces};
use std::alloc::{AllocError, Global};

/// Whether an asked mode may use the piece in some direction.
fn is_kept(piece: &PieceView<'_>, asked: u16) -> bool
    ensures { result ≡ is_kept_piece asked piece.now }
{
    (piece.forward() | piece.backward()) & asked != 0
}

/// Of each piece whether an asked mode may use it in some direction. `asked` are modes as bits.
pub fn kept_pieces(alloc: Global, pieces: &Pieces, asked: u16) -> Result<Vec<bool>, AllocError>
    ensures { IfOk result (λ kept. kept.items ≡ map (is_kept_piece asked) pieces.now) }
{
    let mut kept = Vec::with_capacity(alloc, pieces.len())?;
    for i in 0..pieces.len() {
        kept.push(is_kept(&pieces.at(i), asked))?;
    }
    Ok(kept)
}
