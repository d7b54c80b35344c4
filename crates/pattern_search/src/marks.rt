//! The most letters that may come at each junction.

ghost use Rattle.std.specs.Prelude.{◌≡◌, ℤ, OnOk, unwrap_or, if◌then◌else◌};
ghost use Rattle.std.specs.BTreeMap.{get};
ghost use Rattle.std.specs.Ordering.{int_eq, int_cmp};
ghost use Rattle.pattern_search.specs.Most.{greater_of};

use std::alloc::{AllocError, Global};
use std::collections::BTreeMap;

/// Raises the mark of a junction to this number. A junction without a mark has 0. The other marks stay.
pub fn raise(marks: &mut BTreeMap<i64, u8>, junction: i64, most: u8) -> Result<(), AllocError>
    ensures { OnOk result ((j : ℤ) → unwrap_or (get int_cmp marks.new j) 0 ≡ (if int_eq junction j then greater_of (unwrap_or (get int_cmp marks.old junction) 0) most else unwrap_or (get int_cmp marks.old j) 0)) }
{
    let now = match marks.get(&junction) {
        Some(mark) => *mark,
        None => 0,
    };
    if now < most {
        marks.insert(junction, most)?;
    }
    Ok(())
}
