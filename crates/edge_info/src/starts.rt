//! Where entries start.
ghost use Rattle.std.specs.Prelude.{◌≡◌, ◌<◌, ◌≤◌, ◌+◌, ◌*◌, ◌^◌, ℕ, List, length, replicate, false, IfOk};
ghost use Rattle.edge_info.specs.Entries.{info_bytes, infos_bytes, starts_of, starts_at};
ghost use Rattle.edge_info.specs.Starts.{is_marked, MarkStarts, with_mark};

use crate::infos::{InfoView, Infos};
use std::alloc::{AllocError, Global};

/// The bytes of an entry without points and names.
const BARE_ENTRY: usize = 24;

/// The number of an entry's bytes.
fn size_of(info: &InfoView<'_>) -> usize
    requires { length (info_bytes info.now) < 2 ^ 64 }
    ensures { result ≡ length (info_bytes info.now) }
{
    BARE_ENTRY + 8 * info.shape().len() + 4 * info.texts().len()
}

/// As many marks as said, none of them set.
fn unmarked(alloc: Global, count: usize) -> Result<Vec<bool>, AllocError>
    ensures { IfOk result (λ v. v.items ≡ replicate count false) }
{
    vec![in alloc; false; count]
}

/// Sets the mark of an offset.
#[tactic(auto, unfolding(crate::specs::Starts::with_mark))]
fn mark(marks: &mut Vec<bool>, at: usize)
    ensures { marks.new.items ≡ with_mark marks.old.items at }
{
    let number = at / 4;
    if number < marks.len() {
        marks[number] = true;
    }
}

/// Marks the offsets at which entries start that take so many bytes, of which the first starts at 0: entries start at
/// multiples of 4, and there is a mark for each such offset.
pub fn entry_starts(alloc: Global, infos: &Infos, size: usize) -> Result<Vec<bool>, AllocError>
    requires { length (infos_bytes infos.now) ≡ size }
    ensures { IfOk result (λ marks. MarkStarts marks.items (starts_of infos.now)) }
{
    let mut marks = unmarked(alloc, size / 4)?;
    let mut at: usize = 0;
    for i in 0..infos.len() {
        mark(&mut marks, at);
        at += size_of(&infos.at(i));
    }
    Ok(marks)
}

/// Whether an offset is marked as a start.
#[inline]
pub fn is_start(marks: &[bool], at: u32) -> bool
    ensures { (starts : List ℕ) → MarkStarts marks.now starts → result ≡ starts_at starts at }
{
    let number = (at / 4) as usize;
    at % 4 == 0 && number < marks.len() && marks[number]
}
