//! Whether few junctions lie behind a piece, from the rows at hand.
ghost use Rattle.std.specs.Prelude.{◌≡◌, ◌<◌, List, length};
ghost use Rattle.work_tile.specs.Places.{NumbersRise};
ghost use Rattle.work_tile.specs.WorkRows.{WorkRows};
ghost use Rattle.enhancer.specs.Graph.{leads_nowhere};
ghost use Rattle.enhancer.specs.Tells.{Holds, HeldRise, IfKnown, IfMissing};

use crate::held::{Held, Told};
use crate::looks::{Look, has_seen, see_neighbours};
use crate::names::NodeName;
use arrayvec::ArrayVec;
use work_tile::Places;

/// Whether the piece `left` from `u` to `v` leads nowhere, or the place whose rows are missing.
pub(crate) fn side_of(
    places: &Places,
    held: &[Held],
    level: u32,
    left: u32,
    u: NodeName,
    v: NodeName,
) -> Told<bool>
    requires places { NumbersRise places.now }
    requires held { HeldRise held.now }
    ensures known { IfKnown result (λ b. (ps : List WorkRows) → Holds held.now ps → b ≡ leads_nowhere places.now ps level left u v) }
    ensures missing { IfMissing result (λ j. j < length places.now) }
{
    let mut seen: ArrayVec<NodeName, 63> = ArrayVec::new();
    seen.push(v);
    for n in 0..63 {
        if has_seen(seen.as_slice(), &u) {
            return Told::Known(false);
        }
        if n >= seen.len() {
            return Told::Known(true);
        }
        let at = seen.as_slice()[n];
        match see_neighbours(places, held, level, left, at, &mut seen) {
            Look::Looked => {}
            Look::Full => return Told::Known(false),
            Look::Unread(j) => return Told::Missing(j),
        }
    }
    Told::Known(!has_seen(seen.as_slice(), &u))
}
