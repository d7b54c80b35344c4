//! Rows of turns, and the restrictions that are skipped.

use osm_model::{Refs, Seq};

/// Where a turn leads through: a node, or ways one after the other.
#[derive(Debug, Drop)]
pub enum Via {
    Node(i64),
    Ways(Refs),
}

/// What a relation says of turns: from one of these ways through `via` to one of those, these modes may go
/// nowhere else (`only`) or may not go.
#[derive(Debug, Drop)]
pub struct TurnRow {
    pub relation: i64,
    pub only: bool,
    pub u_turn: bool,
    pub from: Refs,
    pub via: Via,
    pub to: Refs,
    pub modes: u16,
}

/// Why a restriction is skipped. The first six are told by the relation alone, the others by the roads.
#[derive(Clone, Copy, Debug, PartialEq, Eq)]
pub enum SkipReason {
    /// It is told under a condition alone.
    Conditional,
    /// No key says what it is, or it has an unknown value.
    UnknownKind,
    /// It leaves out each mode of which it speaks.
    NoModes,
    /// It hasn't as many ways in the role `from` as its kind asks.
    WrongFrom,
    /// The same for the role `to`.
    WrongTo,
    /// Its members in the role `via` are neither one node nor ways alone.
    BadVia,
    /// A way of it has no run.
    NoSuchWay,
    /// No steps of the roads are a match of it.
    NoMatch,
    /// A pattern of it has too many pieces.
    TooLong,
    /// It has too many patterns.
    TooManyMatches,
}

/// A restriction that is skipped.
#[derive(Clone, Copy, Debug, PartialEq, Eq)]
pub struct Skipped {
    pub relation: i64,
    pub reason: SkipReason,
}

/// A list of rows of turns.
pub type TurnRows = Seq<TurnRow>;

/// A list of restrictions that are skipped.
pub type SkippedRows = Seq<Skipped>;

/// What an extract says of turns.
#[derive(Debug, Drop)]
pub struct Turns {
    pub rows: TurnRows,
    pub skipped: SkippedRows,
}
