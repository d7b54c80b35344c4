//! Lists of signed numbers, each written as its difference from the one before it.
ghost use Rattle.osm_objects.specs.Sums.{sums_of};
ghost use Rattle.osm_objects.specs.Answers.{Becomes};

use crate::fault::ObjectFault;
use wire_read::unzigzag;

/// Puts the numbers of these zigzag differences into the list, in place of what it held. The object stands at `at`.
pub fn sum_up(at: u64, differences: &[u64], sums: &mut Vec<i64>) -> Result<(), ObjectFault>
    ensures { Becomes result sums.new.items (sums_of at differences.now) }
{
    sums.clear();
    sums.reserve(differences.len())?;
    let mut last: i64 = 0;
    for i in 0..differences.len() {
        let Some(next) = last.checked_add(unzigzag(differences[i])) else {
            return Err(ObjectFault::BadNumber { at });
        };
        sums.push(next)?;
        last = next;
    }
    Ok(())
}
