//! Parts of one list.

/// A part of a list: from an index up to another, which isn't in it.
#[derive(Clone, Copy, Debug)]
pub struct Span {
    pub from: usize,
    pub to: usize,
}
