//! PrimitiveGroups.
ghost use Rattle.std.specs.Prelude.{◌+◌, ◌<◌, ◌^◌, length, map};
ghost use Rattle.wire_read.specs.Fields.{seen, inner_length, content_of};
ghost use Rattle.osm_messages.specs.Answers.{Becomes};
ghost use Rattle.osm_messages.specs.Groups.{with_object, group_in};
ghost use Rattle.osm_messages.specs.Passes.{behind, pass_step};
ghost use Rattle.osm_messages.specs.Seen.{seen_object};

use crate::fault::MessageFault;
use crate::fields::{GROUP_DENSE, GROUP_NODES, GROUP_RELATIONS, GROUP_WAYS};
use crate::kind::ObjectKind;
use crate::numbers::check_numbers;
use crate::object::RawObject;
use wire_read::{Body, Field, Fields};

/// Appends an object. The numbers of its fields are looked through first, nothing of them is kept: each fault of the
/// wire format in a block comes before the first fault of what its objects mean.
fn add_object<'a>(
    objects: &mut Vec<RawObject<'a>>,
    object: RawObject<'a>,
) -> Result<(), MessageFault>
    ensures { Becomes result (map seen_object objects.new.items) (with_object (map seen_object objects.old.items) (seen_object object.entry)) }
{
    check_numbers(object.kind, object.bytes, object.at)?;
    objects.push(object)?;
    Ok(())
}

/// Appends the object that a field of a PrimitiveGroup holds. `has_dense` says whether the group has a DenseNodes.
fn add_field<'a>(
    objects: &mut Vec<RawObject<'a>>,
    has_dense: &mut bool,
    field: Field<'a>,
) -> Result<(), MessageFault>
    requires { field.body_at + inner_length (content_of field.body) < 2 ^ 64 }
    ensures { Becomes result (map seen_object objects.new.items, has_dense.new) (pass_step (map seen_object objects.old.items, has_dense.old) (seen field.entry)) }
{
    let Body::Bytes(bytes) = field.body else {
        return Ok(());
    };
    let at = field.body_at;
    match field.number {
        GROUP_NODES => add_object(
            objects,
            RawObject {
                kind: ObjectKind::Node,
                at,
                bytes,
            },
        ),
        GROUP_DENSE => {
            if *has_dense {
                return Err(MessageFault::Repeated {
                    at: field.at,
                    number: GROUP_DENSE,
                });
            }
            *has_dense = true;
            add_object(
                objects,
                RawObject {
                    kind: ObjectKind::DenseNodes,
                    at,
                    bytes,
                },
            )
        }
        GROUP_WAYS => add_object(
            objects,
            RawObject {
                kind: ObjectKind::Way,
                at,
                bytes,
            },
        ),
        GROUP_RELATIONS => add_object(
            objects,
            RawObject {
                kind: ObjectKind::Relation,
                at,
                bytes,
            },
        ),
        _ => Ok(()),
    }
}

/// Appends the objects of a PrimitiveGroup, whose first byte stands at `at`.
pub fn read_primitive_group<'a>(
    objects: &mut Vec<RawObject<'a>>,
    bytes: &'a [u8],
    at: u64,
) -> Result<(), MessageFault>
    requires { at + length bytes.now < 2 ^ 64 }
    ensures { Becomes result (map seen_object objects.new.items) (behind (map seen_object objects.old.items) (group_in at bytes.now)) }
{
    let mut has_dense = false;
    for field in Fields::new(bytes, at) {
        let field = field?;
        add_field(objects, &mut has_dense, field)?;
    }
    Ok(())
}
