//! The tags of an object whose keys and values are two lists.
ghost use Rattle.std.specs.Prelude.{◌≡◌, length};
ghost use Rattle.std.specs.List.{zip};
ghost use Rattle.osm_objects.specs.Tags.{tags_of};
ghost use Rattle.osm_objects.specs.Answers.{Becomes};
ghost use Rattle.osm_objects.specs.Seen.{table_of};

use crate::fault::ObjectFault;
use crate::texts::Texts;
use osm_model::Tag;
use std::alloc::Global;

/// Puts the kept ones among the tags of these keys and values into the list, in place of what it held. The object
/// stands at `at`.
pub fn read_tags(
    alloc: Global,
    texts: &mut Texts<'_>,
    at: u64,
    keys: &[u64],
    values: &[u64],
    tags: &mut Vec<Tag>,
) -> Result<(), ObjectFault>
    requires { length keys.now ≡ length values.now }
    ensures tags { Becomes result tags.new.items (tags_of (table_of texts.old) at (zip keys.now values.now)) }
    ensures table { table_of texts.new ≡ table_of texts.old }
{
    tags.clear();
    for i in 0..keys.len() {
        texts.add_tag(alloc, at, keys[i], values[i], tags)?;
    }
    Ok(())
}
