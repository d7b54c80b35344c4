//! What others may read of a tile.
ghost use Rattle.std.specs.Prelude.{◌≡◌, ◌<◌, ◌≤◌, length, IfOk, IfSome, position};
ghost use Rattle.std.specs.List.{slice_index_or};
ghost use Rattle.std.specs.Ordering.{int_eq, int_cmp};
ghost use Rattle.osm_model.specs.Extract.{IdsRise};
ghost use Rattle.work_tile.specs.WorkRows.{WorkNode};
ghost use Rattle.enhancer.specs.ReadableRows.{plain_node, plain_rows};

use std::alloc::AllocError;
use std::cmp::Ordering;
use std::marker::Model;
use work_tile::{NodeView, TileRows, WorkTile, copy_tile};

/// What others may read of a tile while it is enhanced. It shares the rows of the tile, which nobody changes. Contracts
/// see these rows with the fields that are written meanwhile as they are at first.
#[derive(Drop)]
pub struct ReadableTile {
    tile: WorkTile,
}

impl Model for ReadableTile {
    ghost use Rattle.work_tile.specs.WorkRows.{WorkRows};
    ghost use Rattle.enhancer.specs.ReadableRows.{plain_rows};

    ghost Value = { WorkRows };

    ghost view = { λ r. plain_rows r.tile };
}

/// How the OSM id of the node at index `i` stands to `osm`.
fn order_at(rows: &TileRows, i: usize, osm: &i64) -> Ordering
    requires { i < length rows.now.nodes }
    ensures { (d : WorkNode) → result ≡ int_cmp (slice_index_or rows.now.nodes i d).osm osm.now }
{
    rows.node(i).osm().cmp(osm)
}

/// The index of the node with this OSM id, by halves.
fn node_place(rows: &TileRows, osm: &i64) -> Option<usize>
    requires { IdsRise (λ (n : WorkNode). n.osm) rows.now.nodes }
    ensures { result ≡ position (λ n. int_eq n.osm osm.now) rows.now.nodes }
{
    let mut low = 0;
    let mut high = rows.nodes_len();
    while low < high {
        let middle = low + (high - low) / 2;
        match order_at(rows, middle, osm) {
            Ordering::Less => low = middle + 1,
            Ordering::Equal => return Some(middle),
            Ordering::Greater => high = middle,
        }
    }
    None
}

impl ReadableTile {
    /// What others may read of this tile.
    pub fn of_tile(tile: &WorkTile) -> Result<ReadableTile, AllocError>
        ensures { IfOk result (λ r. r ≡ plain_rows tile.now) }
    {
        let tile = copy_tile(tile)?;
        Ok(ReadableTile { tile })
    }

    /// The rows, in which the other fields may have any value.
    pub(crate) fn rows(&self) -> &TileRows
        ensures { plain_rows result.now ≡ self.now }
    {
        self.tile.rows()
    }

    /// The index of the node with this OSM id.
    pub(crate) fn find(&self, osm: &i64) -> Option<usize>
        requires { IdsRise (λ (n : WorkNode). n.osm) self.now.nodes }
        ensures { result ≡ position (λ n. int_eq n.osm osm.now) self.now.nodes }
    {
        node_place(self.rows(), osm)
    }

    /// The number of nodes.
    pub(crate) fn nodes_len(&self) -> usize
        ensures { result ≡ length self.now.nodes }
    {
        self.rows().nodes_len()
    }

    /// The node at index `i`, in which the other fields may have any value.
    pub(crate) fn node(&self, i: usize) -> NodeView<'_>
        requires { i < length self.now.nodes }
        ensures { plain_node result ≡ slice_index_or self.now.nodes i (plain_node result) }
    {
        self.rows().node(i)
    }
}
