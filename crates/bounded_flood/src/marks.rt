//! Marks of the junctions that a flood has seen.

ghost use Rattle.std.specs.Prelude.{◌≡◌, ◌<◌, ◌≤◌, true, false, nat_eq, length, All, replicate, IfOk, ◌++◌, ◌∷◌, []};
ghost use Rattle.bounded_flood.specs.Flood.{seen_all};
ghost use Rattle.bounded_flood.specs.FlatGraph.{MarksShow, ends_without, side_limit};

use crate::links::Link;
use arrayvec::ArrayVec;
use std::alloc::{AllocError, Global};

/// As many marks as said, none of them set.
pub(crate) fn no_marks(alloc: Global, count: usize) -> Result<Vec<bool>, AllocError>
    ensures { IfOk result (λ v. v.items ≡ replicate count false) }
{
    vec![in alloc; false; count]
}

/// A junction that has no mark yet is seen.
pub(crate) fn see_new(y: u32, marks: &mut [bool], seen: &mut ArrayVec<u32, 63>)
    requires inside { y < length marks.old }
    requires room { length seen.old.items < 63 }
    requires marked { MarksShow marks.old seen.old.items }
    ensures seen { seen.new.items ≡ seen.old.items ++ y ∷ [] }
    ensures marked { MarksShow marks.new seen.new.items }
{
    marks[y as usize] = true;
    seen.push(y);
}

/// The ends of these links are seen, but for those of the piece `left`. False where there are more than 63.
pub(crate) fn see_ends(
    links: &[Link],
    left: u32,
    marks: &mut [bool],
    seen: &mut ArrayVec<u32, 63>,
) -> bool
    requires inside { All (λ l. l.end < length marks.old) links.now }
    requires few { length seen.old.items ≤ 63 }
    requires marked { MarksShow marks.old seen.old.items }
    ensures marked { MarksShow marks.new seen.new.items }
    ensures few { length seen.new.items ≤ 63 }
    ensures all { result ≡ true → seen.new.items ≡ seen_all nat_eq seen.old.items (ends_without left links.now) }
    ensures full { result ≡ false → side_limit < length (seen_all nat_eq seen.old.items (ends_without left links.now)) }
{
    for link in links {
        if link.piece != left && !marks[link.end as usize] {
            if seen.is_full() {
                return false;
            }
            see_new(link.end, marks, seen);
        }
    }
    true
}

/// Takes the marks of these junctions back.
pub(crate) fn clear_marks(seen: &[u32], marks: &mut [bool])
    requires { MarksShow marks.old seen.now }
    ensures { MarksShow marks.new [] }
{
    for junction in seen {
        marks[*junction as usize] = false;
    }
}
