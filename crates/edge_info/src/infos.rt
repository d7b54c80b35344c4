//! What a tile says of pieces of roads.
ghost use Rattle.std.specs.Prelude.{◌≡◌, ◌<◌, ◌+◌, ◌*◌, ◌↔◌, ◌++◌, ◌∷◌, [], length, OnOk, OnErr, IsTrue, slice_index_or, slice_range, ◌≤◌};
ghost use Rattle.edge_info.specs.InfoRows.{point_begin, name_begin};

use fixed_geo::{Point, Shape};
use osm_model::{PieceKey, Seq, TagText};
use section_grammar::SectionFault;
use std::alloc::{AllocError, Global};
use std::marker::Model;

/// The places of names among the texts of a tile, in order.
pub type TextPlaces = Seq<u32>;

/// The entry of a piece: its key, its course, and the places of its names among the texts.
#[derive(Debug, Drop)]
pub struct Info {
    pub key: PieceKey,
    pub shape: Shape,
    pub texts: TextPlaces,
}

/// The key of an entry, and where its points and its names end among those of all entries.
#[derive(Clone, Copy, Debug)]
pub(crate) struct InfoRow {
    key: PieceKey,
    points_to: usize,
    names_to: usize,
}

/// Entries, in order of key. Contracts see it as the list of them. Nothing is on the heap for an entry: the points of
/// all entries are one list, and their names another.
#[derive(Debug, Drop)]
pub struct Infos {
    rows: Vec<InfoRow>,
    points: Vec<Point>,
    names: Vec<u32>,
}

impl Model for Infos {
    ghost use Rattle.std.specs.Prelude.{List, length};
    ghost use Rattle.edge_info.specs.declared.infos.Info.{Info};

    ghost Value = { List Info };

    ghost use Rattle.edge_info.specs.InfoRows.{infos_from, RowsFill};

    ghost view = { λ s. infos_from s.points.items s.names.items 0 0 s.rows.items };

    ghost invariant = { λ s. RowsFill (length s.points.items) (length s.names.items) 0 0 s.rows.items };
}

/// Where the points and the names of the entry at place `i` begin.
fn begins(rows: &[InfoRow], i: usize) -> (usize, usize)
    requires { i < length rows.now }
    ensures points { result.0 ≡ point_begin 0 rows.now i }
    ensures names { result.1 ≡ name_begin 0 rows.now i }
{
    if i == 0 {
        return (0, 0);
    }
    let row = rows[i - 1];
    (row.points_to, row.names_to)
}

/// The row at place `i`.
fn row_at(rows: &[InfoRow], i: usize) -> InfoRow
    requires { i < length rows.now }
    ensures { result ≡ slice_index_or rows.now i result }
{
    rows[i]
}

/// The items from an index up to another.
fn part<T>(items: &[T], from: usize, to: usize) -> &[T]
    requires rise { from ≤ to }
    requires inside { to ≤ length items.now }
    ensures { result.now ≡ slice_range items.now from to }
{
    &items[from..to]
}

/// Puts points and names behind the others; without memory both lists stay as they were.
fn put_parts(
    points: &mut Vec<Point>,
    names: &mut Vec<u32>,
    shape: &[Point],
    texts: &[u32],
) -> Result<(), AllocError>
    ensures points { OnOk result (points.new.items ≡ points.old.items ++ shape.now) }
    ensures names { OnOk result (names.new.items ≡ names.old.items ++ texts.now) }
    ensures no_points { OnErr result (points.new.items ≡ points.old.items) }
    ensures no_names { OnErr result (names.new.items ≡ names.old.items) }
{
    let count = points.len();
    points.extend_from_slice(shape)?;
    match names.extend_from_slice(texts) {
        Ok(()) => Ok(()),
        Err(fault) => {
            points.truncate(count);
            Err(fault)
        }
    }
}

impl Infos {
    ghost use Rattle.edge_info.specs.Entries.{names_of, infos_bytes};

    /// No entry yet. Takes no memory.
    pub fn new(alloc: Global) -> Infos
        ensures { result ≡ [] }
    {
        Infos {
            rows: Vec::new(alloc),
            points: Vec::new(alloc),
            names: Vec::new(alloc),
        }
    }

    /// The number of entries.
    #[tactic(auto, using(crate::proofs::RowLaws::rows_length))]
    pub fn len(&self) -> usize
        ensures { result ≡ length self.now }
    {
        self.rows.len()
    }

    /// Whether there is none.
    #[tactic(auto, using(crate::proofs::RowLaws::rows_length))]
    pub fn is_empty(&self) -> bool
        ensures { IsTrue result ↔ (self.now ≡ []) }
    {
        self.rows.is_empty()
    }

    /// Puts an entry behind the others. Without memory the list stays as it was.
    pub fn push(&mut self, info: &Info) -> Result<(), AllocError>
        ensures ok { OnOk result (self.new ≡ self.old ++ info.now ∷ []) }
        ensures err { OnErr result (self.new ≡ self.old) }
    {
        self.push_parts(info.key, info.shape.as_slice(), info.texts.as_slice())
    }

    /// Puts the entry of these parts behind the others. Without memory the list stays as it was.
    pub fn push_parts(
        &mut self,
        key: PieceKey,
        shape: &[Point],
        texts: &[u32],
    ) -> Result<(), AllocError>
        ensures ok { OnOk result (self.new ≡ self.old ++ record { key = key; shape = shape.now; texts = texts.now } ∷ []) }
        ensures err { OnErr result (self.new ≡ self.old) }
    {
        let (points, names) = (self.points.len(), self.names.len());
        put_parts(&mut self.points, &mut self.names, shape, texts)?;
        let row = InfoRow {
            key,
            points_to: self.points.len(),
            names_to: self.names.len(),
        };
        match self.rows.push(row) {
            Ok(()) => Ok(()),
            Err(_) => {
                self.points.truncate(points);
                self.names.truncate(names);
                Err(AllocError)
            }
        }
    }

    /// The entry at place `i`, from 0 on.
    pub fn at(&self, i: usize) -> InfoView<'_>
        requires { i < length self.now }
        ensures { result ≡ slice_index_or self.now i result }
    {
        let rows = self.rows.as_slice();
        let (point, name) = begins(rows, i);
        let row = row_at(rows, i);
        InfoView {
            key: row.key,
            shape: part(&self.points, point, row.points_to),
            texts: part(&self.names, name, row.names_to),
        }
    }

    /// The names of all entries, one after the other, as places among the texts.
    pub fn names(&self) -> &[u32]
        ensures { result.now ≡ names_of self.now }
    {
        &self.names
    }

    /// The number of the bytes of all entries.
    pub fn size(&self) -> u128
        ensures { result ≡ length (infos_bytes self.now) }
    {
        24 * self.rows.len() as u128 + 8 * self.points.len() as u128 + 4 * self.names.len() as u128
    }
}

/// An entry, to be read. Contracts see it as that entry.
#[derive(Debug, Drop)]
pub struct InfoView<'a> {
    key: PieceKey,
    shape: &'a [Point],
    texts: &'a [u32],
}

impl<'a> Model for InfoView<'a> {
    ghost use Rattle.edge_info.specs.declared.infos.Info.{Info};

    ghost Value = { Info };

    ghost view = { λ v. record { key = v.key; shape = v.shape.now; texts = v.texts.now } };
}

impl<'a> InfoView<'a> {
    /// Its key.
    pub fn key(&self) -> PieceKey
        ensures { result ≡ self.now.key }
    {
        self.key
    }

    /// Its course.
    pub fn shape(&self) -> &'a [Point]
        ensures { result.now ≡ self.now.shape }
    {
        self.shape
    }

    /// The places of its names among the texts.
    pub fn texts(&self) -> &'a [u32]
        ensures { result.now ≡ self.now.texts }
    {
        self.texts
    }
}

/// Texts, in the order in which the entries first name them.
pub type Texts = Seq<TagText>;

/// Entries and the texts that they name.
#[derive(Debug, Drop)]
pub struct InfoSet {
    pub infos: Infos,
    pub texts: Texts,
}

/// Why bytes are no infos: the first check that fails (13 for entries, 15 for texts, 16 for the padding) and the offset
/// at which it does, or want of memory.
pub type InfoFault = SectionFault;
