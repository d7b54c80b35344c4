//! A list of pieces.

ghost use Rattle.std.specs.Prelude.{◌≡◌, ◌<◌, ◌≤◌, ◌+◌, ◌↔◌, ◌++◌, ◌∷◌, [], length, All, IfOk, OnOk, IsTrue, slice_index_or};
ghost use Rattle.osm_model.specs.OsmNode.{IsPlaced};
ghost use Rattle.osm_model.specs.declared.limits.TheConstants.{MOST_REFS};
ghost use Rattle.road_pieces.specs.PieceRows.{piece_over};

use crate::courses::{add_course, length_of};
use crate::name_rows::{NameRows, NamesView};
use fixed_geo::Point;
use osm_model::{Names, Nodes, PieceKey};
use std::alloc::{AllocError, Global};
use std::marker::Model;

/// What a piece is beside its course and its names.
#[derive(Clone, Copy, Debug)]
pub(crate) struct PieceHead {
    pub key: PieceKey,
    pub start: i64,
    pub end: i64,
    pub class: u8,
    pub forward: u16,
    pub backward: u16,
}

/// A piece, and where its shape and its names stand among those of all pieces.
#[derive(Clone, Copy, Debug)]
pub(crate) struct PieceRow {
    head: PieceHead,
    cm: u64,
    shape_from: u32,
    shape_to: u32,
    names_from: u32,
    names_to: u32,
}

/// Pieces that are made one after the other. Contracts see them as a draft: the pieces, how many points and names they
/// have in all, and the names of the pieces that come next.
#[derive(Debug, Drop)]
pub(crate) struct DraftPieces {
    rows: Vec<PieceRow>,
    points: Vec<Point>,
    names: NameRows,
    names_from: u32,
    names_to: u32,
}

impl Model for DraftPieces {
    ghost use Rattle.road_pieces.specs.PieceRows.{Drafted, drafted, AreDrafted};

    ghost Value = { Drafted };

    ghost view = { λ a. drafted a.points.items a.names a.rows.items a.names_from a.names_to };

    ghost invariant = { λ a. AreDrafted a.points.items a.names a.rows.items a.names_from a.names_to };
}

impl DraftPieces {
    /// No piece yet, with room for so many pieces with so many points in all.
    pub fn with_room(alloc: Global, pieces: usize, points: usize) -> Result<DraftPieces, AllocError>
        ensures done { IfOk result (λ made. made.done ≡ []) }
        ensures points { IfOk result (λ made. made.points ≡ 0) }
        ensures named { IfOk result (λ made. made.named ≡ 0) }
    {
        Ok(DraftPieces {
            rows: Vec::with_capacity(alloc, pieces)?,
            points: Vec::with_capacity(alloc, points)?,
            names: NameRows::new(alloc),
            names_from: 0,
            names_to: 0,
        })
    }

    /// Gives names to the pieces that come next. They are kept once for all of these.
    pub fn name(&mut self, names: &Names) -> Result<(), AllocError>
        requires room { self.old.named + length names.now ≤ 4_294_967_295 }
        ensures done { self.new.done ≡ self.old.done }
        ensures points { self.new.points ≡ self.old.points }
        ensures named { OnOk result (self.new.named ≡ self.old.named + length names.now) }
        ensures names { OnOk result (self.new.names ≡ names.now) }
    {
        let from = self.names.len();
        self.names.extend(names.as_slice())?;
        self.names_from = from as u32;
        self.names_to = self.names.len() as u32;
        Ok(())
    }

    /// Puts a piece over the nodes at these places after the last one.
    pub fn push(&mut self, head: PieceHead, nodes: &Nodes, places: &[u32]) -> Result<(), AllocError>
        requires placed { All IsPlaced nodes.now }
        requires inside { All (λ p. p < length nodes.now) places.now }
        requires short { length places.now ≤ MOST_REFS }
        requires room { self.old.points + length places.now ≤ 4_294_967_295 }
        ensures done { OnOk result (self.new.done ≡ self.old.done ++ piece_over nodes.now head places.now self.old.names ∷ []) }
        ensures points { OnOk result (self.new.points ≡ self.old.points + length places.now) }
        ensures named { self.new.named ≡ self.old.named }
        ensures names { self.new.names ≡ self.old.names }
    {
        let shape_from = self.points.len();
        add_course(&mut self.points, nodes, places)?;
        let cm = length_of(&self.points[shape_from..]);
        self.rows.push(PieceRow {
            head,
            cm,
            shape_from: shape_from as u32,
            shape_to: self.points.len() as u32,
            names_from: self.names_from,
            names_to: self.names_to,
        })?;
        Ok(())
    }

    /// The pieces.
    pub fn finish(self) -> Pieces
        ensures { result ≡ self.done }
    {
        Pieces {
            rows: self.rows,
            points: self.points,
            names: self.names,
        }
    }
}

/// A list of pieces. Contracts see it as that list. A piece takes a row of 64 bytes, and 8 bytes for each point of
/// its shape; where its shape and its names stand are numbers of 32 bits, which the limits of an extract never pass.
#[derive(Debug, Drop)]
pub struct Pieces {
    rows: Vec<PieceRow>,
    points: Vec<Point>,
    names: NameRows,
}

impl Model for Pieces {
    ghost use Rattle.std.specs.Prelude.{List, map};
    ghost use Rattle.road_pieces.specs.declared.rows.Piece.{Piece};

    ghost Value = { List Piece };

    ghost use Rattle.road_pieces.specs.PieceRows.{piece_of, AreWithin};

    ghost view = { λ a. map (piece_of a.points.items a.names) a.rows.items };

    ghost invariant = { λ a. AreWithin a.points.items a.names a.rows.items };
}

impl Pieces {
    /// The number of pieces.
    pub fn len(&self) -> usize
        ensures { result ≡ length self.now }
    {
        self.rows.len()
    }

    /// Whether there is none.
    pub fn is_empty(&self) -> bool
        ensures { IsTrue result ↔ (self.now ≡ []) }
    {
        self.rows.is_empty()
    }

    /// The piece at place `i`.
    pub fn at(&self, i: usize) -> PieceView<'_>
        requires { i < length self.now }
        ensures { result ≡ slice_index_or self.now i result }
    {
        let row = &self.rows[i];
        PieceView {
            row,
            shape: &self.points[row.shape_from as usize..row.shape_to as usize],
            names: self
                .names
                .part(row.names_from as usize, row.names_to as usize),
        }
    }
}

/// A piece, to be read. Contracts see it as that piece.
#[derive(Debug, Drop)]
pub struct PieceView<'a> {
    row: &'a PieceRow,
    shape: &'a [Point],
    names: NamesView<'a>,
}

impl<'a> Model for PieceView<'a> {
    ghost use Rattle.road_pieces.specs.declared.rows.Piece.{Piece};

    ghost Value = { Piece };

    ghost use Rattle.road_pieces.specs.PieceRows.{headed};

    ghost view = { λ v. headed v.row.now.head v.shape.now v.row.now.cm v.names };
}

impl<'a> PieceView<'a> {
    /// Its way, run and number.
    pub fn key(&self) -> PieceKey
        ensures { result ≡ self.now.key }
    {
        self.row.head.key
    }

    /// The id of the junction where it starts.
    pub fn start(&self) -> i64
        ensures { result ≡ self.now.start }
    {
        self.row.head.start
    }

    /// The id of the junction where it ends.
    pub fn end(&self) -> i64
        ensures { result ≡ self.now.end }
    {
        self.row.head.end
    }

    /// Its course from start to end.
    pub fn shape(&self) -> &'a [Point]
        ensures { result.now ≡ self.now.shape }
    {
        self.shape
    }

    /// Its length in centimetres.
    pub fn cm(&self) -> u64
        ensures { result ≡ self.now.cm }
    {
        self.row.cm
    }

    /// Its class.
    pub fn class(&self) -> u8
        ensures { result ≡ self.now.class }
    {
        self.row.head.class
    }

    /// The modes that may use it forward.
    pub fn forward(&self) -> u16
        ensures { result ≡ self.now.forward }
    {
        self.row.head.forward
    }

    /// The modes that may use it backward.
    pub fn backward(&self) -> u16
        ensures { result ≡ self.now.backward }
    {
        self.row.head.backward
    }

    /// Its names.
    pub fn names(&self) -> &NamesView<'a>
        ensures { result.now ≡ self.now.names }
    {
        &self.names
    }
}
