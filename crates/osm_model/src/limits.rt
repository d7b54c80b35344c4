//! How many objects, refs, members and tags an extract may have.

/// The most nodes.
pub const MOST_NODES: u64 = 10_000_000;

/// The most ways.
pub const MOST_WAYS: u64 = 2_000_000;

/// The most relations.
pub const MOST_RELATIONS: u64 = 500_000;

/// The most refs of all ways together.
pub const MOST_REFS: u64 = 20_000_000;

/// The most members of all relations together.
pub const MOST_MEMBERS: u64 = 20_000_000;

/// The most kept tags of all objects together.
pub const MOST_TAGS: u64 = 20_000_000;
