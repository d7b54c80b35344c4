//! The numbers of one object.
ghost use Rattle.std.specs.Prelude.{◌+◌, ◌<◌, ◌^◌, length};
ghost use Rattle.wire_read.specs.Fields.{seen, inner_length, content_of};
ghost use Rattle.osm_messages.specs.Answers.{Becomes};
ghost use Rattle.osm_messages.specs.Numbers.{shape_of, numbers_in};
ghost use Rattle.osm_messages.specs.Lists.{seen_lists, listed_numbers, list_step};
ghost use Rattle.osm_messages.specs.Passes.{spelled, check_step};

use crate::fault::MessageFault;
use crate::kind::{ObjectKind, is_list, is_single};
use crate::lists::NumberLists;
use crate::object::RawObject;
use crate::packed::check_packed;
use wire_read::{Body, Field, Fields};

/// Appends the numbers of a field to those of its list.
fn add_numbers(
    kind: ObjectKind,
    lists: &mut NumberLists,
    field: Field<'_>,
) -> Result<(), MessageFault>
    requires { field.body_at + inner_length (content_of field.body) < 2 ^ 64 }
    ensures { Becomes result (seen_lists lists.new) (list_step (shape_of kind) (seen_lists lists.old) (seen field.entry)) }
{
    match field.body {
        Body::Bytes(bytes) if is_list(kind, field.number) => {
            lists.push_packed(field.number, bytes, field.body_at)
        }
        Body::Varint(number) if is_list(kind, field.number) || is_single(kind, field.number) => {
            lists.push(field.number, number)
        }
        _ => Ok(()),
    }
}

/// Reads the numbers of an object (`Node`, `DenseNodes`, `Way` or `Relation` of osmformat.proto) into the lists, in
/// place of what they held. The fault is the first one of the wire format. Nothing is promised of the lists then.
pub fn read_numbers(object: &RawObject<'_>, lists: &mut NumberLists) -> Result<(), MessageFault>
    ensures { Becomes result (seen_lists lists.new) (listed_numbers (numbers_in (shape_of object.now.kind) object.now.at object.now.bytes.now)) }
{
    lists.clear();
    for field in Fields::new(object.bytes, object.at) {
        let field = field?;
        add_numbers(object.kind, lists, field)?;
    }
    Ok(())
}

/// Looks for the first fault of the numbers that a field of an object holds.
fn check_field(kind: ObjectKind, field: Field<'_>) -> Result<(), MessageFault>
    requires { field.body_at + inner_length (content_of field.body) < 2 ^ 64 }
    ensures { Becomes result tt (check_step (shape_of kind) tt (seen field.entry)) }
{
    match field.body {
        Body::Bytes(bytes) if is_list(kind, field.number) => {
            check_packed(bytes, field.body_at)?;
            Ok(())
        }
        _ => Ok(()),
    }
}

/// Looks for the first fault of the numbers of an object. Nothing is kept of them.
pub fn check_numbers(kind: ObjectKind, bytes: &[u8], at: u64) -> Result<(), MessageFault>
    requires { at + length bytes.now < 2 ^ 64 }
    ensures { Becomes result tt (spelled (numbers_in (shape_of kind) at bytes.now)) }
{
    for field in Fields::new(bytes, at) {
        let field = field?;
        check_field(kind, field)?;
    }
    Ok(())
}
