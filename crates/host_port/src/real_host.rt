//! The host over real files and the standard output: the edge that is trusted.

ghost use Rattle.std.specs.Prelude.{◌≡◌, ◌≤◌, length, IfSome};
ghost use Rattle.host_port.specs.RealHost.{untold, no_bytes_told};

use crate::counts::one_more;
use crate::host::{Host, HostFault};
use std::fs::{OpenFile, OpenOptions};
use std::io::{BufReader, ErrorKind, Read, Write};
use std::path::Path;
use std::rt::Files;
use std::{fs, io};

/// So many names are tried for a part of a file.
const MOST_PARTS: u32 = 100;

/// So many bytes are read ahead, so that small reads make few calls of the system. Greater ones go past them.
const READ_AHEAD: usize = 65_536;

/// The files, folders and standard output that the program runs with. It tells nothing of them.
///
/// Each error of the system is a fault and counts as one, also where the system finds no memory.
#[derive(Drop)]
pub struct RealHost<'a, R: Files + Print + Alloc> {
    rt: &'a R,
    process: u32,
    input: Option<BufReader<R::File, R::A>>,
    read_faults: u64,
    put_faults: u64,
    say_faults: u64,
}

impl<'a, R: Files + Print + Alloc> RealHost<'a, R> {
    /// A host with no input open and no fault counted. The number of the process names the files that it writes
    /// before they take their paths, so that two runs never write into one.
    pub fn new(rt: &'a R, process: u32) -> RealHost<'a, R>
        ensures reads { (⟦<RealHost<'a, R> as Host>⟧.state result).read_faults ≡ 0 }
        ensures puts { (⟦<RealHost<'a, R> as Host>⟧.state result).put_faults ≡ 0 }
        ensures says { (⟦<RealHost<'a, R> as Host>⟧.state result).say_faults ≡ 0 }
    {
        RealHost {
            rt,
            process,
            input: None,
            read_faults: 0,
            put_faults: 0,
            say_faults: 0,
        }
    }
}

impl<'a, R: Files + Print + Alloc> Host for RealHost<'a, R> {
    ghost state = { λ host. untold host.read_faults host.put_faults host.say_faults };

    fn open_input(&mut self, path: &str) -> Result<(), HostFault> {
        match open_ahead(self.rt, path) {
            Ok(file) => {
                self.input = Some(file);
                Ok(())
            }
            Err(_) => {
                self.read_faults = one_more(self.read_faults);
                Err(HostFault::Failed)
            }
        }
    }

    fn read(&mut self, buf: &mut [u8]) -> Result<usize, HostFault> {
        match read_some(&mut self.input, buf) {
            Some(count) => Ok(count),
            None => {
                self.read_faults = one_more(self.read_faults);
                Err(HostFault::Failed)
            }
        }
    }

    /// Makes the folders that are missing on the way to the file. A file that was there stays as it was until the
    /// new one is whole.
    fn put(&mut self, path: &str, bytes: &[u8]) -> Result<(), HostFault> {
        match write_file(self.rt, self.process, path, bytes) {
            Ok(()) => {
                self.input = None;
                Ok(())
            }
            Err(_) => {
                self.put_faults = one_more(self.put_faults);
                Err(HostFault::Failed)
            }
        }
    }

    /// Writes to the standard output, which keeps nothing back.
    fn say(&mut self, bytes: &[u8]) -> Result<(), HostFault> {
        match self.rt.write_all(bytes) {
            Ok(()) => Ok(()),
            Err(_) => {
                self.say_faults = one_more(self.say_faults);
                Err(HostFault::Failed)
            }
        }
    }

    ghost tells_input = { λ host files. (files, files) };

    ghost tells_bytes = { λ host. no_bytes_told };

    ghost willing_tells = { λ host willing. absurd willing };
}

/// The file of that path, opened for reading.
fn open_ahead<R: Files + Alloc>(rt: &R, path: &str) -> io::Result<BufReader<R::File, R::A>> {
    BufReader::with_capacity(rt.alloc(), READ_AHEAD, fs::open(rt, path)?)
}

/// The next bytes of the file that is open, if one is and the system gives them. A read that a signal interrupts is
/// tried again.
fn read_some<F: Read>(input: &mut Option<F>, buf: &mut [u8]) -> Option<usize>
    ensures { IfSome result (λ count. count ≤ length buf.new) }
{
    let Some(file) = input else {
        return None;
    };
    for _ in 0..u64::MAX {
        match file.read(buf) {
            Ok(count) => return Some(count),
            Err(error) if error.kind() == ErrorKind::Interrupted => {}
            Err(_) => return None,
        }
    }
    None
}

/// Makes the file hold these bytes, and before that the folders that are missing. They are written to a file of their
/// own, the part, which takes the path once the system has them whole. So an error leaves what had the path before, and
/// no part.
fn write_file<R: Files + Alloc>(rt: &R, process: u32, path: &str, bytes: &[u8]) -> io::Result<()> {
    if let Some(folder) = Path::new(path).parent() {
        fs::create_dir_all(rt, folder)?;
    }
    let (file, part) = new_part(rt, process, path)?;
    let written = write_whole(file, bytes).and_then(|()| fs::rename(rt, part.as_str(), path));
    if written.is_err() {
        // What went wrong first is what is answered.
        let _ = fs::remove_file(rt, part.as_str());
    }
    written
}

/// A new file beside the one of that path, and its own path: the first of `PATH.PROCESS.part0`, `PATH.PROCESS.part1`, ..
/// that nothing has. So no other file is touched, and no other run takes this path while the part is written.
fn new_part<R: Files + Alloc>(
    rt: &R,
    process: u32,
    path: &str,
) -> io::Result<(R::File, String<R::A>)> {
    for number in 0..MOST_PARTS {
        let part = format!(in rt.alloc(); "{path}.{process}.part{number}")?;
        let mut options = OpenOptions::new();
        match options.write(true).create_new(true).open(rt, part.as_str()) {
            Ok(file) => return Ok((file, part)),
            Err(error) if error.kind() == ErrorKind::AlreadyExists => {}
            Err(error) => return Err(error),
        }
    }
    Err(io::Error::from(ErrorKind::AlreadyExists))
}

/// Writes the bytes to the file and closes it. Before that the system is asked to store them, since it may tell only
/// then that it can't, as where a disk over the network is full.
fn write_whole(mut file: impl Write + OpenFile + Drop, bytes: &[u8]) -> io::Result<()> {
    file.write_all(bytes)?;
    file.sync_all()
}
