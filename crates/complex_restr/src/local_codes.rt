//! Local indexes, from where directed pieces start.

ghost use Rattle.std.specs.Prelude.{◌≡◌, ◌<◌, ◌+◌, ◌≤◌, length, replicate, IfOk, OnOk, slice_index, slice_set, []};
ghost use Rattle.complex_restr.specs.Locals.{AreCodeLocals, AreFewStarts};

use std::alloc::{AllocError, Global};

/// As many counters as said, each at 0.
fn no_counts(alloc: Global, count: usize) -> Result<Vec<u8>, AllocError>
    ensures { IfOk result (λ v. v.items ≡ replicate count 0) }
{
    vec![in alloc; 0; count]
}

/// Counts one more at a junction, and gives how many there were.
fn count_up(counts: &mut [u8], junction: u32) -> u8
    requires inside { junction < length counts.old }
    requires room { slice_index counts.old junction < 255 }
    ensures was { result ≡ slice_index counts.old junction }
    ensures after { counts.new ≡ slice_set counts.old junction (slice_index counts.old junction + 1) }
{
    let was = counts[junction as usize];
    counts[junction as usize] = was + 1;
    was
}

/// Puts the local index of each code, with a counter for each junction.
fn put_locals(starts: &[u32], counts: &mut [u8], locals: &mut Vec<u8>) -> Result<(), AllocError>
    requires few { AreFewStarts (length counts.old) starts.now }
    requires zero { counts.old ≡ replicate (length counts.old) 0 }
    requires none { locals.old.items ≡ [] }
    ensures { OnOk result (AreCodeLocals starts.now locals.new.items) }
{
    for start in starts {
        locals.push(count_up(counts, *start))?;
    }
    Ok(())
}

/// The local index of each directed piece, by its code: its place among those that start at the same junction, in
/// order of code. `starts` has for each code the place of the junction where it starts, among `junctions`.
pub fn local_indexes(alloc: Global, starts: &[u32], junctions: usize) -> Result<Vec<u8>, AllocError>
    requires { AreFewStarts junctions starts.now }
    ensures { IfOk result (λ locals. AreCodeLocals starts.now locals.items) }
{
    let mut counts = no_counts(alloc, junctions)?;
    let mut locals = Vec::with_capacity(alloc, starts.len())?;
    put_locals(starts, &mut counts, &mut locals)?;
    Ok(locals)
}
