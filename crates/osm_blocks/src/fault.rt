//! Why an extract isn't read.

ghost use Rattle.std.specs.Prelude.{◌≡◌};
ghost use Rattle.osm_blocks.specs.Faults.{framed_as, spelled_as, meant_as};
ghost use Rattle.osm_blocks.specs.FaultLines.{kind_name, counted_name};

use osm_messages::MessageFault;
use osm_model::{MemberKind, TagText};
use osm_objects::ObjectFault;
use pbf_blobs::PbfFault;
use std::error::Error;
use std::fmt;
use wire_read::WireFault;

/// What is counted over a whole extract.
#[derive(Clone, Copy, Debug, PartialEq, Eq)]
pub enum Counted {
    Nodes,
    Ways,
    Relations,
    /// The refs of all ways.
    Refs,
    /// The members of all relations.
    Members,
    /// The kept tags of all objects.
    Tags,
}

/// The first fault of an extract. Places, lengths and ends are in bytes, from the input's start. An object's place is
/// that of its message's first byte, and a block's that of its payload's first byte.
#[derive(Debug, PartialEq, Eq, Drop)]
pub enum ExtractFault {
    /// The host's count of read faults rose in the call.
    Read,
    /// The input ends inside the length, the header or the Blob that begins at the place `at`.
    Truncated { at: u64 },
    /// The triple at the place `at` begins with a length of 65,536 or more.
    HeaderTooLong { at: u64, len: u64 },
    /// The Blob of the triple at the place `at` has more than 33,554,496 bytes.
    BlobTooLong { at: u64, len: u64 },
    /// The Blob at the place `at` has a field 3 to 7, which holds a compressed payload.
    Compressed { at: u64, field: u32 },
    /// A message or a list of packed numbers isn't in the wire format.
    Wire { fault: WireFault },
    /// The Blob at the place `at` has no raw payload.
    NoPayload { at: u64 },
    /// A Blob would end at the place `bytes`, past 536,870,912.
    TooLarge { bytes: u64 },
    /// There was no memory for it.
    OutOfMemory,
    /// The BlobHeader, the block or the object at the place `at` has no field of that number.
    MissingField { at: u64, number: u32 },
    /// The type in the BlobHeader at the place `at` isn't UTF-8.
    BadType { at: u64 },
    /// An OSMData blob, whose triple stands at the place `at`, comes before any OSMHeader blob; or none comes before
    /// the end of the input, `at`.
    NoHeader { at: u64 },
    /// The required feature whose field stands at the place `at` isn't read. The text is `?` where it isn't UTF-8.
    Feature { at: u64, text: TagText },
    /// The object at the place `at` names a text that isn't in the string table, or one that is kept and isn't UTF-8.
    BadString { at: u64, index: u64 },
    /// In the object at the place `at`, lists that go together differ in length, or a member has a type that isn't one.
    Uneven { at: u64 },
    /// Two objects of one kind have one id: the least such id of the first such kind.
    DuplicateId { kind: MemberKind, id: i64 },
    /// The node's coordinates are outside ±90 and ±180 degrees.
    BadCoordinate { id: i64 },
    /// There are more of these than an extract may have.
    TooMany { what: Counted, count: u64 },
    /// A field that may come once comes again at the place `at`.
    Repeated { at: u64, number: u32 },
    /// In the object at the place `at`, a sum of differences isn't a signed number of 64 bits: it is too large, or too
    /// small.
    BadNumber { at: u64 },
}

/// Converts a framing fault into an extract fault.
impl From<PbfFault> for ExtractFault {
    ghost from_gives = { λ fault made. made ≡ framed_as fault };

    fn from(fault: PbfFault) -> ExtractFault {
        match fault {
            PbfFault::Read => ExtractFault::Read,
            PbfFault::Truncated { at } => ExtractFault::Truncated { at },
            PbfFault::HeaderTooLong { at, len } => ExtractFault::HeaderTooLong { at, len },
            PbfFault::BlobTooLong { at, len } => ExtractFault::BlobTooLong { at, len },
            PbfFault::Compressed { at, field } => ExtractFault::Compressed { at, field },
            PbfFault::Wire { fault } => ExtractFault::Wire { fault },
            PbfFault::NoPayload { at } => ExtractFault::NoPayload { at },
            PbfFault::TooLarge { bytes } => ExtractFault::TooLarge { bytes },
            PbfFault::OutOfMemory => ExtractFault::OutOfMemory,
            PbfFault::MissingField { at, number } => ExtractFault::MissingField { at, number },
            PbfFault::BadType { at } => ExtractFault::BadType { at },
        }
    }
}

/// Converts a fault of a block's messages into an extract fault.
pub fn spelled(fault: MessageFault) -> ExtractFault
    ensures { result ≡ spelled_as fault }
{
    match fault {
        MessageFault::Wire { fault } => ExtractFault::Wire { fault },
        MessageFault::Repeated { at, number } => ExtractFault::Repeated { at, number },
        MessageFault::OutOfMemory => ExtractFault::OutOfMemory,
    }
}

/// Converts a fault of a block's objects into an extract fault.
pub fn meant(fault: ObjectFault) -> ExtractFault
    ensures { result ≡ meant_as fault }
{
    match fault {
        ObjectFault::MissingField { at, number } => ExtractFault::MissingField { at, number },
        ObjectFault::Uneven { at } => ExtractFault::Uneven { at },
        ObjectFault::BadNumber { at } => ExtractFault::BadNumber { at },
        ObjectFault::BadString { at, index } => ExtractFault::BadString { at, index },
        ObjectFault::BadCoordinate { id } => ExtractFault::BadCoordinate { id },
        ObjectFault::OutOfMemory => ExtractFault::OutOfMemory,
    }
}

/// The name of an object of a kind.
pub fn kind_name(kind: MemberKind) -> &'static str
    ensures { result.now ≡ kind_name kind }
{
    match kind {
        MemberKind::Node => "node",
        MemberKind::Way => "way",
        MemberKind::Relation => "relation",
    }
}

/// The name of what is counted.
fn counted_name(what: Counted) -> &'static str
    ensures { result.now ≡ counted_name what }
{
    match what {
        Counted::Nodes => "nodes",
        Counted::Ways => "ways",
        Counted::Relations => "relations",
        Counted::Refs => "refs",
        Counted::Members => "members",
        Counted::Tags => "tags",
    }
}

/// The fault as the program says it: its name, and what it names. What a layer below finds is said by that layer.
impl fmt::Display for ExtractFault {
    ghost use Rattle.std.specs.Prelude.{Some};
    ghost use Rattle.osm_blocks.specs.FaultLines.{extract_fault_line};

    ghost output = { λ fault. Some (extract_fault_line fault) };

    fn fmt<W: fmt::Write>(&self, f: &mut fmt::Formatter<W>) -> fmt::Result {
        match self {
            ExtractFault::Read => write!(f, "{}", PbfFault::Read),
            ExtractFault::Truncated { at } => write!(f, "{}", PbfFault::Truncated { at: *at }),
            ExtractFault::HeaderTooLong { at, len } => {
                write!(f, "{}", PbfFault::HeaderTooLong { at: *at, len: *len })
            }
            ExtractFault::BlobTooLong { at, len } => {
                write!(f, "{}", PbfFault::BlobTooLong { at: *at, len: *len })
            }
            ExtractFault::Compressed { at, field } => {
                write!(
                    f,
                    "{}",
                    PbfFault::Compressed {
                        at: *at,
                        field: *field
                    }
                )
            }
            ExtractFault::Wire { fault } => write!(f, "{}", PbfFault::Wire { fault: *fault }),
            ExtractFault::NoPayload { at } => write!(f, "{}", PbfFault::NoPayload { at: *at }),
            ExtractFault::TooLarge { bytes } => {
                write!(f, "{}", PbfFault::TooLarge { bytes: *bytes })
            }
            ExtractFault::OutOfMemory => write!(f, "{}", PbfFault::OutOfMemory),
            ExtractFault::MissingField { at, number } => {
                write!(
                    f,
                    "{}",
                    PbfFault::MissingField {
                        at: *at,
                        number: *number
                    }
                )
            }
            ExtractFault::BadType { at } => write!(f, "{}", PbfFault::BadType { at: *at }),
            ExtractFault::NoHeader { at } => write!(f, "NoHeader at={at}"),
            ExtractFault::Feature { at, text } => {
                write!(f, "Feature at={at} text={}", text.as_str())
            }
            ExtractFault::BadString { at, index } => {
                write!(
                    f,
                    "{}",
                    ObjectFault::BadString {
                        at: *at,
                        index: *index
                    }
                )
            }
            ExtractFault::Uneven { at } => write!(f, "{}", ObjectFault::Uneven { at: *at }),
            ExtractFault::DuplicateId { kind, id } => {
                write!(f, "DuplicateId kind={} id={id}", kind_name(*kind))
            }
            ExtractFault::BadCoordinate { id } => {
                write!(f, "{}", ObjectFault::BadCoordinate { id: *id })
            }
            ExtractFault::TooMany { what, count } => {
                write!(f, "TooMany what={} count={count}", counted_name(*what))
            }
            ExtractFault::Repeated { at, number } => {
                write!(
                    f,
                    "{}",
                    MessageFault::Repeated {
                        at: *at,
                        number: *number
                    }
                )
            }
            ExtractFault::BadNumber { at } => write!(f, "{}", ObjectFault::BadNumber { at: *at }),
        }
    }
}

impl Error for ExtractFault {}
