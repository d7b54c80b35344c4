//! A host in memory.

ghost use Rattle.std.specs.Prelude.{◌≡◌, ◌↔◌, ◌∷◌, ◌++◌, ◌<◌, All, length, min, max, take, drop, refl, IsTrue, None, [], OnOk, OnErr};
ghost use Rattle.std.specs.Option.{option_copied};
ghost use Rattle.host_port.specs.Counts.{one_more};
ghost use Rattle.host_port.specs.Told.{stored};
ghost use Rattle.host_port.specs.ByteFacts.{mem_tells_bytes};
ghost use Rattle.host_port.specs.MemHost.{state_of, open_in, after_read_fault, IsFailing, Opens, Reads, Puts, Says};

use crate::bytes::Bytes;
use crate::counts::one_more;
use crate::host::{Host, HostFault};
use crate::lists::{HostFiles, Numbers, Paths};
use crate::text::Text;
use std::alloc::{AllocError, Global};

/// A host in memory, for tests. It tells everything.
///
/// Each of its calls has one clause, its own law, which pins the answer, the host after it and the buffer
/// by the host before. What the trait asks of every host is proved of it from these laws.
#[derive(Debug, Drop)]
pub struct MemHost {
    pub files: HostFiles,
    /// The number in `files` of the file that is open. A number past the files opens none.
    pub input: Option<u64>,
    /// The place in the open file of the byte that is read next.
    pub place: u64,
    /// The bytes said so far.
    pub said: Bytes,
    /// The paths that were put, in order.
    pub puts: Paths,
    /// The number of the call that comes next. Each call counts, unless it found no memory.
    pub calls: u64,
    /// How many calls failed to open or to read.
    pub read_faults: u64,
    /// How many puts failed.
    pub put_faults: u64,
    /// How many says failed.
    pub say_faults: u64,
    /// The numbers of the calls that fail.
    pub failing: Numbers,
    /// The most bytes that one read gives. It counts as at least 1.
    pub piece: u64,
}

impl MemHost {
    /// A host with these files, before its first call. Takes no memory: `alloc` is for the lists that
    /// are empty at first and grow later.
    pub fn new(alloc: Global, files: Vec<(Text, Bytes)>, failing: Vec<u64>, piece: u64) -> MemHost
        ensures { result ≡ record {
          files = files.items;
          input = None;
          place = 0;
          said = [];
          puts = [];
          calls = 0;
          read_faults = 0;
          put_faults = 0;
          say_faults = 0;
          failing = failing.items;
          piece = piece;
        } }
    {
        MemHost {
            files: HostFiles::from(files),
            input: None,
            place: 0,
            said: Bytes::new(alloc),
            puts: Paths::new(alloc),
            calls: 0,
            read_faults: 0,
            put_faults: 0,
            say_faults: 0,
            failing: Numbers::from(failing),
            piece,
        }
    }

    /// Whether the call that begins is one of those that fail.
    fn is_failing(&self) -> bool
        ensures { IsTrue result ↔ IsFailing self.now }
    {
        self.failing.as_slice().contains(&self.calls)
    }

    /// Counts the call that ends.
    fn count_call(&mut self)
        ensures { self.new ≡ record self.old { calls = one_more self.old.calls } }
    {
        self.calls = one_more(self.calls);
    }

    /// The fault of a call that opens or reads, counted.
    fn reading_fault(&mut self) -> HostFault
        ensures fault { result ≡ HostFault.Failed }
        ensures leaves { self.new ≡ after_read_fault self.old }
    {
        self.count_call();
        self.read_faults = one_more(self.read_faults);
        HostFault::Failed
    }

    /// The bytes of the open file, where one is open.
    fn open_file(&self) -> Option<&[u8]>
        ensures { option_copied result ≡ open_in self.now }
    {
        self.files.bytes_numbered(self.input?)
    }
}

impl Host for MemHost {
    ghost state = { state_of };

    #[tactic(auto, using(crate::proofs::Numbered::found_some))]
    fn open_input(&mut self, path: &str) -> Result<(), HostFault>
        ensures law { Opens path.now self.old result self.new }
    {
        let found = self.files.number_of(path);
        if self.is_failing() || found.is_none() {
            return Err(self.reading_fault());
        }
        self.count_call();
        self.input = found;
        self.place = 0;
        Ok(())
    }

    fn read(&mut self, buf: &mut [u8]) -> Result<usize, HostFault>
        ensures law { Reads self.old buf.old result buf.new self.new }
    {
        if self.is_failing() {
            return Err(self.reading_fault());
        }
        match self.open_file() {
            Some(bytes) => {
                let count = give(bytes, self.place, self.piece, buf);
                self.count_call();
                self.place += count as u64;
                Ok(count)
            }
            None => Err(self.reading_fault()),
        }
    }

    fn put(&mut self, path: &str, bytes: &[u8]) -> Result<(), HostFault>
        ensures law { Puts path.now bytes.now self.old result self.new }
    {
        if self.is_failing() {
            self.count_call();
            self.put_faults = one_more(self.put_faults);
            return Err(HostFault::Failed);
        }
        match put_in(&mut self.files, &mut self.puts, path, bytes) {
            Ok(()) => {
                self.input = None;
                self.count_call();
                Ok(())
            }
            Err(_) => Err(HostFault::OutOfMemory),
        }
    }

    fn say(&mut self, bytes: &[u8]) -> Result<(), HostFault>
        ensures law { Says bytes.now self.old result self.new }
    {
        if self.is_failing() {
            self.count_call();
            self.say_faults = one_more(self.say_faults);
            return Err(HostFault::Failed);
        }
        match self.said.extend_from_slice(bytes) {
            Ok(()) => {
                self.count_call();
                Ok(())
            }
            Err(_) => Err(HostFault::OutOfMemory),
        }
    }

    ghost tells_input = { λ host files. (refl, refl) };

    ghost tells_bytes = { mem_tells_bytes };

    ghost willing_tells = { λ host willing. (refl, refl) };
}

/// Copies the bytes from the place on to the front of `buf`, at most a piece of them.
fn give(bytes: &[u8], place: u64, piece: u64, buf: &mut [u8]) -> usize
    ensures count { result ≡ min (length buf.old) (min (max piece 1) (length (drop place bytes.now))) }
    ensures bytes { buf.new ≡ take result (drop place bytes.now) ++ drop result buf.old }
    ensures are_bytes { All (λ byte. byte < 256) (drop place bytes.now) }
{
    let start = bytes.len().min(place as usize);
    let left = &bytes[start..];
    let count = buf.len().min((piece as usize).max(1).min(left.len()));
    buf[..count].copy_from_slice(&left[..count]);
    count
}

/// Makes the file of that path hold these bytes, and adds the path to the puts. Where there is no memory,
/// both lists are as before: the copies are made first, and a path that was added in vain is taken away.
fn put_in(
    files: &mut HostFiles,
    puts: &mut Paths,
    path: &str,
    bytes: &[u8],
) -> Result<(), AllocError>
    ensures files { OnOk result (files.new ≡ stored path.now bytes.now files.old) }
    ensures puts { OnOk result (puts.new ≡ puts.old ++ path.now ∷ []) }
    ensures files_err { OnErr result (files.new ≡ files.old) }
    ensures puts_err { OnErr result (puts.new ≡ puts.old) }
    ensures are_bytes { All (λ byte. byte < 256) bytes.now }
{
    let alloc = puts.allocator();
    let listed = Text::from_str(alloc, path)?;
    let name = Text::from_str(alloc, path)?;
    let copy = Bytes::from_slice(alloc, bytes)?;
    puts.push(listed)?;
    match files.store(name, copy) {
        Ok(()) => Ok(()),
        Err(fault) => {
            puts.drop_last();
            Err(fault)
        }
    }
}
