//! The commands.

use host_port::Text;

/// What `build` is asked for.
#[derive(Debug, Drop)]
pub struct BuildOptions {
    /// The path of the extract.
    pub input: Text,
    /// The folder that the files are put into.
    pub output: Text,
    /// The number of workers, from 1 to 64.
    pub workers: u64,
    /// The modes that are asked for, one bit each.
    pub modes: u16,
}

/// A command with its values.
#[derive(Debug, Drop)]
pub enum Request {
    /// List the blobs of the file of this path.
    Blobs { path: Text },
    /// Build the tiles of an extract.
    Build(BuildOptions),
    /// Build the tiles of an extract that is made for it: a grid of so many rows and columns, from 2 to 500, whose
    /// turn restrictions are drawn from a seed below 2^31.
    Demo { side: u64, seed: u64, workers: u64 },
}
