//! PrimitiveBlocks.
ghost use Rattle.std.specs.Prelude.{◌≡◌, ◌+◌, ◌<◌, ◌≤◌, ◌^◌, length, map, All, IfOk};
ghost use Rattle.wire_read.specs.Fields.{seen, inner_length, content_of};
ghost use Rattle.osm_messages.specs.Answers.{Answers, Becomes};
ghost use Rattle.osm_messages.specs.Groups.{HasNumbers};
ghost use Rattle.osm_messages.specs.Blocks.{with_table, with_scalar, block_step, block_in};
ghost use Rattle.osm_messages.specs.Seen.{seen_object, seen_block};
ghost use Rattle.osm_messages.specs.Sizes.{object_bytes};

use crate::fault::MessageFault;
use crate::fields::{
    BLOCK_GRANULARITY, BLOCK_LAT_OFFSET, BLOCK_LON_OFFSET, BLOCK_PRIMITIVEGROUP, BLOCK_STRINGTABLE,
};
use crate::group::read_primitive_group;
use crate::object::RawObject;
use crate::texts::read_texts;
use std::alloc::Global;
use wire_read::{Body, Field, Fields};

/// A PrimitiveBlock, before anything is known of what its objects mean. A coordinate counts `granularity` times, and the
/// offset is added to it; both are in units of 1e-9 degree.
#[derive(Drop)]
pub struct RawPrimitiveBlock<'a> {
    /// The strings of the string table, where the block has one.
    pub texts: Option<Vec<&'a [u8]>>,
    /// The objects of all groups, in order.
    pub objects: Vec<RawObject<'a>>,
    pub granularity: i64,
    pub lat_offset: i64,
    pub lon_offset: i64,
}

impl<'a> RawPrimitiveBlock<'a> {
    /// Sets the scalar that a field of this number holds.
    fn set_scalar(&mut self, number: u32, n: u64)
        ensures { seen_block self.new ≡ with_scalar (seen_block self.old) number n }
    {
        match number {
            BLOCK_GRANULARITY => self.granularity = n.cast_signed(),
            BLOCK_LAT_OFFSET => self.lat_offset = n.cast_signed(),
            BLOCK_LON_OFFSET => self.lon_offset = n.cast_signed(),
            _ => {}
        }
    }
}

/// Reads the string table of the field at `at`. Its first byte stands at `body_at`.
fn add_table<'a>(
    alloc: Global,
    block: &mut RawPrimitiveBlock<'a>,
    at: u64,
    body_at: u64,
    bytes: &'a [u8],
) -> Result<(), MessageFault>
    requires { body_at + length bytes.now < 2 ^ 64 }
    ensures { Becomes result (seen_block block.new) (with_table (seen_block block.old) at body_at bytes.now) }
{
    if block.texts.is_some() {
        return Err(MessageFault::Repeated {
            at,
            number: BLOCK_STRINGTABLE,
        });
    }
    let texts = read_texts(alloc, bytes, body_at)?;
    block.texts = Some(texts);
    Ok(())
}

/// Reads one field of a PrimitiveBlock.
fn add_field<'a>(
    alloc: Global,
    block: &mut RawPrimitiveBlock<'a>,
    field: Field<'a>,
) -> Result<(), MessageFault>
    requires { field.body_at + inner_length (content_of field.body) < 2 ^ 64 }
    ensures { Becomes result (seen_block block.new) (block_step (seen_block block.old) (seen field.entry)) }
{
    match field.body {
        Body::Bytes(bytes) => match field.number {
            BLOCK_STRINGTABLE => add_table(alloc, block, field.at, field.body_at, bytes),
            BLOCK_PRIMITIVEGROUP => read_primitive_group(&mut block.objects, bytes, field.body_at),
            _ => Ok(()),
        },
        Body::Varint(n) => {
            block.set_scalar(field.number, n);
            Ok(())
        }
        _ => Ok(()),
    }
}

/// Reads a PrimitiveBlock (osmformat.proto), the first byte of which stands at `at`. Its objects' numbers are looked
/// through, so that reading them has no fault.
///
/// The fault is the first in the order of the bytes: `Wire` in the block, its string table, a PrimitiveGroup, an object
/// or packed numbers, or `Repeated` for a second string table or a PrimitiveGroup's second DenseNodes.
pub fn read_primitive_block<'a>(
    alloc: Global,
    bytes: &'a [u8],
    at: u64,
) -> Result<RawPrimitiveBlock<'a>, MessageFault>
    requires { at + length bytes.now < 2 ^ 64 }
    ensures block { Answers seen_block result (block_in at bytes.now) }
    ensures spelled { IfOk result (λ raw. All HasNumbers (map seen_object raw.objects.items)) }
    ensures few { IfOk result (λ raw. object_bytes (map seen_object raw.objects.items) ≤ length bytes.now) }
{
    let mut block = RawPrimitiveBlock {
        texts: None,
        objects: Vec::new(alloc),
        granularity: 100,
        lat_offset: 0,
        lon_offset: 0,
    };
    for field in Fields::new(bytes, at) {
        let field = field?;
        add_field(alloc, &mut block, field)?;
    }
    Ok(block)
}
