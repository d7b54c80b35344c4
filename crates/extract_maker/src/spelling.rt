//! Numbers and fields of the wire format, put behind bytes. Each number has its shortest spelling.

ghost use Rattle.std.specs.Prelude.{◌≡◌, ◌+◌, ◌*◌, ◌<◌, ◌≤◌, ◌++◌, length, OnOk};
ghost use Rattle.extract_maker.specs.Spelling.{varint_bytes, number_field, field_front, bytes_field, packed_differences, packed};
ghost use Rattle.extract_maker.specs.GridFile.{rising};

use std::alloc::AllocError;

/// Puts a number behind the bytes.
pub(crate) fn push_varint(out: &mut Vec<u8>, number: u64) -> Result<(), AllocError>
    ensures { OnOk result (out.new.items ≡ out.old.items ++ varint_bytes number) }
{
    let mut left = number;
    for used in 0..9_u64 {
        if left < 128 {
            out.push(left as u8)?;
            return Ok(());
        }
        out.push((left % 128 + 128) as u8)?;
        left /= 128;
    }
    out.push((left % 128) as u8)?;
    Ok(())
}

/// How many bytes a number has.
pub(crate) fn varint_len(number: u64) -> u64
    ensures is { result ≡ length (varint_bytes number) }
    ensures few { result ≤ 10 }
{
    let mut left = number;
    for used in 0..9_u64 {
        if left < 128 {
            return used + 1;
        }
        left /= 128;
    }
    10
}

/// Puts a field that holds a number.
pub(crate) fn push_number(out: &mut Vec<u8>, field: u64, number: u64) -> Result<(), AllocError>
    requires { field < 16 }
    ensures { OnOk result (out.new.items ≡ out.old.items ++ number_field field number) }
{
    push_varint(out, 8 * field)?;
    push_varint(out, number)
}

/// Puts what stands before the bytes of a field, of which there are so many.
pub(crate) fn push_front(out: &mut Vec<u8>, field: u64, many: u64) -> Result<(), AllocError>
    requires { field < 16 }
    ensures { OnOk result (out.new.items ≡ out.old.items ++ field_front field many) }
{
    push_varint(out, 8 * field + 2)?;
    push_varint(out, many)
}

/// Puts a field that holds bytes.
pub(crate) fn push_bytes(out: &mut Vec<u8>, field: u64, bytes: &[u8]) -> Result<(), AllocError>
    requires { field < 16 }
    ensures { OnOk result (out.new.items ≡ out.old.items ++ bytes_field field bytes.now) }
{
    push_front(out, field, bytes.len() as u64)?;
    out.extend_from_slice(bytes)?;
    Ok(())
}

/// How many bytes a field has that holds so many.
pub(crate) fn field_len(field: u64, many: u64) -> u64
    requires field { field < 16 }
    requires many { many ≤ 10000000 }
    ensures is { result ≡ length (field_front field many) + many }
    ensures few { result ≤ many + 20 }
{
    varint_len(8 * field + 2) + varint_len(many) + many
}

/// Puts numbers as packed differences: the first, and so many in all, each a step above the one before it.
pub(crate) fn push_rising(
    out: &mut Vec<u8>,
    first: u64,
    step: u64,
    many: u64,
) -> Result<(), AllocError>
    requires first { first ≤ 10000000 }
    requires step { step ≤ 10000 }
    requires many { many ≤ 500 }
    ensures { OnOk result (out.new.items ≡ out.old.items ++ packed_differences (rising first step many)) }
{
    let mut last = 0;
    for i in 0..many {
        let next = first + i * step;
        push_varint(out, 2 * (next - last))?;
        last = next;
    }
    Ok(())
}
