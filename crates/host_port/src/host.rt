//! The trait of hosts.

ghost use Rattle.std.specs.Prelude.{◌≡◌, false, Some, None, IsSome, OnOk, OnErr, IfOk};
ghost use Rattle.std.specs.Io.{ReadsAtMost};
ghost use Rattle.host_port.specs.Told.{Opened, Gives, Stored, moved, spoken, named, TellsBytes};
ghost use Rattle.host_port.specs.HostState.{HostState, OnlyOpens, OnlyReads, OnlyPuts, OnlySays};
ghost use Rattle.host_port.specs.Faults.{Counted, IfFailed, NeedsNone};

/// Why a host call failed; it has then changed nothing.
#[derive(Clone, Copy, Debug, PartialEq, Eq)]
pub enum HostFault {
    /// The outside failed; the count of this kind of fault rose in the call.
    Failed,
    /// There was no memory for it.
    OutOfMemory,
}

/// The operations of the program on files and output.
///
/// What contracts see of a host is one value, its `state`: what it tells of the outside, each part told or not told;
/// three counts, which never fall, of faults of reading (a failed `open_input` or `read`), of putting and of saying;
/// and whether it is willing, so that it fails only where what it tells shows the cause.
///
/// Each call has a `frame`, what it leaves as it was whatever it answers; `faults`, by which it answers `Failed` exactly
/// where its count rose in that call; and a `cause`, which a willing host has for that. On any `Err`, what is told is as
/// before.
pub trait Host {
    /// What contracts see of the host.
    ghost state: { Self → HostState };

    /// Opens the file of that path as the input, at its first byte, in place of the input that was open.
    fn open_input(&mut self, path: &str) -> Result<(), HostFault>
        ensures ok { OnOk result (Opened path.now (state self.old).told (state self.new).told) }
        ensures err { OnErr result ((state self.new).told ≡ (state self.old).told) }
        ensures frame { OnlyOpens (state self.old) (state self.new) }
        ensures faults { Counted (state self.old).read_faults (state self.new).read_faults result }
        ensures cause { (state self.old).willing → IfFailed result (named path.now (state self.old).told ≡ None) };

    /// Reads the next bytes of the input into the front of `buf`, and answers how many: none only at the
    /// input's end, or for an empty `buf`.
    fn read(&mut self, buf: &mut [u8]) -> Result<usize, HostFault>
        ensures most { ReadsAtMost result buf.new }
        ensures bytes { IfOk result (λ n. Gives (state self.old).told n buf.new) }
        ensures moved { IfOk result (λ n. (state self.new).told ≡ moved n (state self.old).told) }
        ensures err { OnErr result ((state self.new).told ≡ (state self.old).told) }
        ensures closed { (state self.old).told.is_open ≡ Some false → OnOk result ⊥ }
        ensures memory { NeedsNone result }
        ensures frame { OnlyReads (state self.old) (state self.new) }
        ensures faults { Counted (state self.old).read_faults (state self.new).read_faults result }
        ensures cause { (state self.old).willing → IfFailed result ((state self.old).told.is_open ≡ Some false) };

    /// Makes the file of that path hold exactly these bytes, and closes the input. Other files stay.
    fn put(&mut self, path: &str, bytes: &[u8]) -> Result<(), HostFault>
        ensures ok { OnOk result (Stored path.now bytes.now (state self.old).told (state self.new).told) }
        ensures err { OnErr result ((state self.new).told ≡ (state self.old).told) }
        ensures frame { OnlyPuts (state self.old) (state self.new) }
        ensures faults { Counted (state self.old).put_faults (state self.new).put_faults result }
        ensures cause { (state self.old).willing → IfFailed result ⊥ };

    /// Says the bytes, after all that was said before.
    fn say(&mut self, bytes: &[u8]) -> Result<(), HostFault>
        ensures ok { OnOk result ((state self.new).told ≡ spoken bytes.now (state self.old).told) }
        ensures err { OnErr result ((state self.new).told ≡ (state self.old).told) }
        ensures frame { OnlySays (state self.old) (state self.new) }
        ensures faults { Counted (state self.old).say_faults (state self.new).say_faults result }
        ensures cause { (state self.old).willing → IfFailed result ⊥ };

    /// A host that tells its files tells the bytes of the input and the place in it too.
    ghost tells_input: { (host : Self) → IsSome (state host).told.files → IsSome (state host).told.input × IsSome (state host).told.place };

    /// What is told of a file or of the input is bytes.
    ghost tells_bytes: { (host : Self) → TellsBytes (state host).told };

    /// A willing host tells its files, and whether an input is open.
    ghost willing_tells: { (host : Self) → (state host).willing → IsSome (state host).told.files × IsSome (state host).told.is_open };
}
