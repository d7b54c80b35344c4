//! The keys and values of DenseNodes: `keys_vals`.
ghost use Rattle.std.specs.Prelude.{◌≡◌};
ghost use Rattle.osm_objects.specs.Groups.{groups_of};
ghost use Rattle.osm_objects.specs.FirstGroups.{group_read};
ghost use Rattle.osm_objects.specs.Answers.{Answers, Admits};
ghost use Rattle.osm_objects.specs.Seen.{table_of};

use crate::fault::ObjectFault;
use crate::texts::Texts;
use osm_model::Tag;
use std::alloc::Global;

/// Checks that `keys_vals` has one group for each of `count` nodes. The DenseNodes stands at `at`.
pub fn check_groups(at: u64, count: usize, keys_vals: &[u64]) -> Result<(), ObjectFault>
    ensures { Admits result (groups_of at count keys_vals.now) }
{
    if keys_vals.is_empty() {
        return Ok(());
    }
    let mut groups: usize = 0;
    let mut rest = keys_vals;
    while let Some((key, behind)) = rest.split_first() {
        if *key == 0 {
            groups += 1;
            rest = behind;
        } else {
            if behind.len() < 2 {
                return Err(ObjectFault::Uneven { at });
            }
            rest = &behind[1..];
        }
    }
    if groups == count {
        Ok(())
    } else {
        Err(ObjectFault::Uneven { at })
    }
}

/// Puts the kept tags of the group that the numbers begin with into the list, in place of what it held, and gives the
/// numbers behind the group. Where there is no number it is an empty group.
pub fn read_group<'n>(
    alloc: Global,
    texts: &mut Texts<'_>,
    at: u64,
    numbers: &'n [u64],
    tags: &mut Vec<Tag>,
) -> Result<&'n [u64], ObjectFault>
    ensures tags { Answers (λ behind. (tags.new.items, behind.now)) result (group_read (table_of texts.old) at numbers.now) }
    ensures table { table_of texts.new ≡ table_of texts.old }
{
    tags.clear();
    let mut rest = numbers;
    while let Some((key, behind)) = rest.split_first() {
        if *key == 0 {
            return Ok(behind);
        }
        let Some((value, behind)) = behind.split_first() else {
            return Ok(behind);
        };
        texts.add_tag(alloc, at, *key, *value, tags)?;
        rest = behind;
    }
    Ok(rest)
}
