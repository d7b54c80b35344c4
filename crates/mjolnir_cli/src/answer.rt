//! What a command that is done puts and says.

use host_port::{HostFiles, Text};

/// What a command that is done gives: the files that are put, in this order, and the text that is said then.
#[derive(Debug, Drop)]
pub struct Answer {
    pub files: HostFiles,
    pub text: Text,
}
