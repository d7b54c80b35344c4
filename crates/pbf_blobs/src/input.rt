//! Reading a number of bytes, in whatever pieces a host gives them.

ghost use Rattle.std.specs.Prelude.{◌≡◌, ◌+◌, ◌-◌, ◌≤◌, ◌++◌, length, replicate, take, Some, false, IfOk};
ghost use Rattle.host_port.specs.Told.{moved};
ghost use Rattle.host_port.specs.HostState.{OnlyReads};
ghost use Rattle.host_port.specs.Faults.{Counted, IfFailed, NeedsNone};
ghost use Rattle.pbf_blobs.specs.Input.{Fills, Extends};

use host_port::{Host, HostFault};
use std::alloc::{AllocError, Global};

/// Reads until the buffer is full or the input ends, and answers how many bytes it read.
pub fn read_full<H: Host>(host: &mut H, buf: &mut [u8]) -> Result<usize, HostFault>
    ensures most { IfOk result (λ n. n ≤ length buf.new) }
    ensures bytes { IfOk result (λ n. Fills (H.state host.old).told n buf.new) }
    ensures moved { IfOk result (λ n. (H.state host.new).told ≡ moved n (H.state host.old).told) }
    ensures memory { NeedsNone result }
    ensures frame { OnlyReads (H.state host.old) (H.state host.new) }
    ensures faults { Counted (H.state host.old).read_faults (H.state host.new).read_faults result }
    ensures cause { (H.state host.old).willing → IfFailed result ((H.state host.old).told.is_open ≡ Some false) }
{
    let mut filled = 0;
    while filled < buf.len() {
        let count = host.read(&mut buf[filled..])?;
        if count == 0 {
            return Ok(filled);
        }
        filled += count;
    }
    Ok(filled)
}

/// Reads the next `left` bytes, or all up to the input's end, behind these at the front.
pub fn read_behind<H: Host>(
    alloc: Global,
    host: &mut H,
    front: &[u8],
    left: usize,
) -> Result<Vec<u8>, HostFault>
    requires { length front.now + left ≤ 1073741824 }
    ensures front { IfOk result (λ bytes. take (length front.now) bytes.items ≡ front.now) }
    ensures least { IfOk result (λ bytes. length front.now ≤ length bytes.items) }
    ensures most { IfOk result (λ bytes. length bytes.items ≤ length front.now + left) }
    ensures bytes { IfOk result (λ bytes. Extends (H.state host.old).told front.now left bytes.items) }
    ensures moved { IfOk result (λ bytes. (H.state host.new).told ≡ moved (length bytes.items - length front.now) (H.state host.old).told) }
    ensures frame { OnlyReads (H.state host.old) (H.state host.new) }
    ensures faults { Counted (H.state host.old).read_faults (H.state host.new).read_faults result }
    ensures cause { (H.state host.old).willing → IfFailed result ((H.state host.old).told.is_open ≡ Some false) }
{
    let Ok(mut bytes) = with_room(alloc, front, left) else {
        return Err(HostFault::OutOfMemory);
    };
    let count = front.len();
    let read = read_full(host, &mut bytes[count..])?;
    bytes.truncate(count + read);
    Ok(bytes)
}

/// A copy of the front, and room for so many bytes behind it.
fn with_room(alloc: Global, front: &[u8], left: usize) -> Result<Vec<u8>, AllocError>
    requires { length front.now + left ≤ 1073741824 }
    ensures { IfOk result (λ bytes. bytes.items ≡ front.now ++ replicate left 0) }
{
    let mut bytes = Vec::with_capacity(alloc, front.len() + left)?;
    bytes.extend_from_slice(front)?;
    bytes.resize(front.len() + left, 0)?;
    Ok(bytes)
}
