//! The lists that a host in memory is made of.

ghost use Rattle.std.specs.Prelude.{◌≡◌, ◌<◌, length, IfSome, OnOk, OnErr};
ghost use Rattle.std.specs.Option.{option_copied};
ghost use Rattle.host_port.specs.HostFiles.{number_of, bytes_numbered};
ghost use Rattle.host_port.specs.Told.{stored};

use crate::bytes::Bytes;
use crate::seq::Seq;
use crate::text::Text;
use std::alloc::AllocError;

/// A list of numbers.
pub type Numbers = Seq<u64>;

/// A list of paths.
pub type Paths = Seq<Text>;

/// The files of a host in memory, as pairs of a path and its bytes.
pub type HostFiles = Seq<(Text, Bytes)>;

impl Seq<(Text, Bytes)> {
    /// The index of the first file of that path.
    pub fn number_of(&self, path: &str) -> Option<u64>
        ensures { result ≡ number_of path.now self.now }
    {
        number_in(self.as_slice(), path)
    }

    /// The bytes of the file at that index, where there is one.
    pub fn bytes_numbered(&self, number: u64) -> Option<&[u8]>
        ensures { option_copied result ≡ bytes_numbered self.now number }
    {
        match self.as_slice().get(number as usize) {
            Some(file) => Some(file.1.as_slice()),
            None => None,
        }
    }

    /// Makes the file of that path hold these bytes: a known path keeps its index, a new one goes last.
    #[tactic(auto, using(crate::proofs::Numbered::stored_known, crate::proofs::Numbered::stored_new))]
    pub fn store(&mut self, path: Text, bytes: Bytes) -> Result<(), AllocError>
        ensures ok { OnOk result (self.new ≡ stored path bytes self.old) }
        ensures err { OnErr result (self.new ≡ self.old) }
    {
        match number_in(self.as_slice(), path.as_str()) {
            Some(number) => self.set(number as usize, (path, bytes)),
            None => self.push((path, bytes))?,
        }
        Ok(())
    }
}

fn number_in(files: &[(Text, Bytes)], path: &str) -> Option<u64>
    ensures first { result ≡ number_of path.now files.now }
    ensures within { IfSome result (λ number. number < length files.now) }
{
    for (number, file) in files.iter().enumerate() {
        if path == file.0.as_str() {
            return Some(number as u64);
        }
    }
    None
}
