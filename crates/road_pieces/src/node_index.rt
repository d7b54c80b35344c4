//! An index of nodes by id.

ghost use Rattle.std.specs.Prelude.{◌≡◌, ◌<◌, ◌≤◌, ◌+◌, ◌-◌, ◌++◌, true, false, length, replicate, IfOk, OnOk, IfSome, IfNone};
ghost use Rattle.osm_model.specs.Extract.{NodesRise};
ghost use Rattle.osm_model.specs.declared.limits.TheConstants.{MOST_NODES};
ghost use Rattle.road_pieces.specs.Runs.{has_node};
ghost use Rattle.road_pieces.specs.Lines.{place_of};
ghost use Rattle.road_pieces.specs.NodeIndex.{bucket_of, BeginsAt, TakesBuckets, IsIndex};

use crate::places::find_within;
use osm_model::Nodes;
use std::alloc::{AllocError, Global};

/// No shift is wider: it makes two buckets at most.
const WIDEST: u32 = 63;

/// The nodes of a list, whose ids rise, in buckets by id. Bucket k has the nodes whose ids are k times
/// `2 ^ shift` or more above the first, but not k + 1 times; they stand at the places from `starts[k]` on
/// and before `starts[k + 1]`. There are no more buckets than nodes.
#[derive(Debug, Drop)]
pub(crate) struct NodeIndex {
    first: i64,
    shift: u32,
    starts: Vec<u32>,
}

impl NodeIndex {
    /// Makes the index, in one pass over the nodes.
    pub fn new(alloc: Global, nodes: &Nodes) -> Result<NodeIndex, AllocError>
        requires rises { NodesRise nodes.now }
        requires few { length nodes.now ≤ MOST_NODES }
        ensures { IfOk result (λ index. IsIndex nodes.now index.first index.shift index.starts.items) }
    {
        let first = first_id(nodes);
        let shift = find_shift(nodes, first);
        let mut starts = Vec::with_capacity(alloc, nodes.len() + 1)?;
        for place in 0..nodes.len() {
            let id = nodes.id_at(place);
            start_buckets(&mut starts, bucket(first, shift, &id), place as u32)?;
        }
        starts.push(nodes.len() as u32)?;
        Ok(NodeIndex {
            first,
            shift,
            starts,
        })
    }

    /// The place of the node with that id, and `None` where there is none. It is sought in its bucket alone,
    /// at `guess` first: neighbours on a road are often neighbours in the list.
    pub fn find(&self, nodes: &Nodes, id: &i64, guess: usize) -> Option<usize>
        requires rises { NodesRise nodes.now }
        requires index { IsIndex nodes.now self.now.first self.now.shift self.now.starts.items }
        ensures inside { IfSome result (λ place. place < length nodes.now) }
        ensures place { IfSome result (λ place. place_of nodes.now id.now ≡ place) }
        ensures some { IfSome result (λ _. has_node nodes.now id.now ≡ true) }
        ensures none { IfNone result (has_node nodes.now id.now ≡ false) }
    {
        let bucket = bucket(self.first, self.shift, id) as usize;
        // The last start only ends the last bucket.
        if bucket >= self.starts.len().saturating_sub(1) {
            return None;
        }
        let low = self.starts[bucket] as usize;
        let high = self.starts[bucket + 1] as usize;
        find_within(nodes, low, high, id, guess)
    }
}

/// The bucket of an id. An id below the first maps to a bucket too, but isn't found there.
fn bucket(first: i64, shift: u32, id: &i64) -> u64
    requires { shift < 64 }
    ensures { result ≡ bucket_of first shift id.now }
{
    id.abs_diff(first) >> shift
}

/// The id of the first node, or any id where there is no node.
fn first_id(nodes: &Nodes) -> i64
    requires { NodesRise nodes.now }
    ensures { BeginsAt nodes.now result }
{
    if nodes.len() == 0 { 0 } else { nodes.id_at(0) }
}

/// The least shift that makes no more buckets than nodes.
fn find_shift(nodes: &Nodes, first: i64) -> u32
    requires rises { NodesRise nodes.now }
    requires first { BeginsAt nodes.now first }
    ensures narrow { result < 64 }
    ensures few { TakesBuckets nodes.now first result (length nodes.now) }
{
    if nodes.len() == 0 {
        return 0;
    }
    let last = nodes.id_at(nodes.len() - 1);
    for shift in 0..WIDEST {
        if bucket(first, shift, &last) < nodes.len() as u64 {
            return shift;
        }
    }
    WIDEST
}

/// Starts each bucket up to this one that isn't started yet, at this place.
fn start_buckets(starts: &mut Vec<u32>, bucket: u64, place: u32) -> Result<(), AllocError>
    ensures { OnOk result (starts.new.items ≡ starts.old.items ++ replicate (bucket + 1 - length starts.old.items) place) }
{
    while starts.len() as u64 <= bucket {
        starts.push(place)?;
    }
    Ok(())
}
