//! What is put: the files of a command that is done.

ghost use Rattle.std.specs.Prelude.{◌≡◌, ℕ, List, [], OnOk, OnErr};
ghost use Rattle.host_port.specs.HostState.{OnlyPuts};
ghost use Rattle.host_port.specs.Faults.{Counted, IfFailed};
ghost use Rattle.mjolnir_cli.specs.Puts.{PutsAll, IsFront, Unput};

use host_port::{Bytes, Host, HostFault, Text};

/// Puts these files, one after the other. At a fault those before it are put.
pub(crate) fn put_files<H: Host>(host: &mut H, files: &[(Text, Bytes)]) -> Result<(), HostFault>
    ensures all { OnOk result (PutsAll files.now (H.state host.old).told (H.state host.new).told) }
    ensures front { OnErr result ((front : List (List ℕ × List ℕ)) × IsFront front files.now × PutsAll front (H.state host.old).told (H.state host.new).told) }
    ensures none { files.now ≡ [] → Unput (H.state host.old).told (H.state host.new).told × ((H.state host.new).put_faults ≡ (H.state host.old).put_faults) }
    ensures frame { OnlyPuts (H.state host.old) (H.state host.new) }
    ensures faults { Counted (H.state host.old).put_faults (H.state host.new).put_faults result }
    ensures cause { (H.state host.old).willing → IfFailed result ⊥ }
{
    for file in files {
        host.put(file.0.as_str(), file.1.as_slice())?;
    }
    Ok(())
}
