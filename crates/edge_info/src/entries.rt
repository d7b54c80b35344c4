//! Reading entries.
ghost use Rattle.std.specs.Prelude.{◌≡◌, ◌<◌, ◌≤◌, length, drop, [], ℕ, List, IfOk};
ghost use Rattle.fixed_geo.specs.declared.points.Point.{Point};
ghost use Rattle.osm_model.specs.declared.piece_key.PieceKey.{PieceKey};
ghost use Rattle.section_grammar.specs.declared.fault.SectionFault.{SectionFault};
ghost use Rattle.section_grammar.specs.Reads.{read_many};
ghost use Rattle.section_grammar.specs.Answers.{FailedCheck, Check, Gives, place_of};
ghost use Rattle.edge_info.specs.declared.infos.Info.{Info};
ghost use Rattle.edge_info.specs.Entries.{comes_before, key_rises};
ghost use Rattle.edge_info.specs.EntryReading.{bad_entry, key_in, key_at, point_in, point_at, name_at, counted_at, entry_at, entries_at, is_place};
ghost use Rattle.edge_info.specs.EntryLoops.{rises_after};

use crate::infos::Infos;
use fixed_geo::Point;
use osm_model::PieceKey;
use section_grammar::{SectionFault, half, place, word};
use std::alloc::Global;

/// The number of the check on entries.
const ENTRY_CHECK: u8 = 13;

/// What is wrong with the entry at an offset.
fn bad(at: u64) -> SectionFault
    ensures { result ≡ SectionFault.Bad 13 at }
{
    SectionFault::Bad {
        check: ENTRY_CHECK,
        at,
    }
}

/// Whether a key comes before another, in order of way, run and piece.
fn is_before(a: PieceKey, b: PieceKey) -> bool
    ensures { result ≡ comes_before a b }
{
    a.way < b.way || (a.way <= b.way && (a.run < b.run || (a.run == b.run && a.piece < b.piece)))
}

/// Whether a key goes on where entries end with this key.
fn goes_on(last: Option<PieceKey>, key: PieceKey) -> bool
    ensures { result ≡ rises_after last key }
{
    match last {
        None => true,
        Some(last) => is_before(last, key),
    }
}

/// The key at the front of 16 bytes.
fn key_front(rest: &[u8]) -> PieceKey
    requires { 16 ≤ length rest.now }
    ensures { result ≡ key_in rest.now }
{
    PieceKey {
        way: word(rest).cast_signed(),
        run: half(&rest[8..]),
        piece: half(&rest[12..]),
    }
}

/// The key at the front, which goes on where the entries before end with the last key.
#[tactic(auto, unfolding(crate::specs::EntryReading::key_at))]
fn key_of(at: u64, last: Option<PieceKey>, rest: &[u8]) -> Result<(PieceKey, &[u8]), SectionFault>
    ensures { (before : List Info) → ((key : PieceKey) → key_rises before key ≡ rises_after last key)
        → Gives (λ x. (x.0, x.1.now)) result (key_at (Check 13 at) before rest.now) }
{
    if rest.len() < 16 {
        return Err(bad(at));
    }
    let key = key_front(rest);
    if !goes_on(last, key) {
        return Err(bad(at));
    }
    let (_, rest) = rest.split_at(16);
    Ok((key, rest))
}

/// The point at the front of 8 bytes.
fn point_front(rest: &[u8]) -> Point
    requires { 8 ≤ length rest.now }
    ensures { result ≡ point_in rest.now }
{
    Point {
        lat: half(rest).cast_signed(),
        lon: half(&rest[4..]).cast_signed(),
    }
}

/// Whether a point is a place.
fn is_placed(point: Point) -> bool
    ensures { result ≡ is_place point }
{
    point.is_place()
}

/// The place at the front.
#[tactic(auto, unfolding(crate::specs::EntryReading::point_at))]
fn point_of(at: u64, rest: &[u8]) -> Result<(Point, &[u8]), SectionFault>
    ensures { (before : List Point) → Gives (λ x. (x.0, x.1.now)) result (point_at (Check 13 at) before rest.now) }
{
    if rest.len() < 8 {
        return Err(bad(at));
    }
    let point = point_front(rest);
    if !is_placed(point) {
        return Err(bad(at));
    }
    let (_, rest) = rest.split_at(8);
    Ok((point, rest))
}

/// Fills a list with so many places.
fn points_of<'a>(
    at: u64,
    count: u32,
    points: &mut Vec<Point>,
    rest: &'a [u8],
) -> Result<&'a [u8], SectionFault>
    ensures { Gives (λ r. (points.new.items, r.now)) result (read_many (point_at (Check 13 at)) count [] rest.now) }
{
    points.clear();
    let mut rest = rest;
    for _ in 0..count {
        let (point, after) = point_of(at, rest)?;
        points.push(point)?;
        rest = after;
    }
    Ok(rest)
}

/// The course at the front, put in place of the points: how many places, two or more, and the places.
#[tactic(auto, unfolding(crate::specs::EntryReading::counted_at))]
fn shape_of<'a>(at: u64, points: &mut Vec<Point>, rest: &'a [u8]) -> Result<&'a [u8], SectionFault>
    ensures { Gives (λ r. (points.new.items, r.now)) result (counted_at (Check 13 at) 2 (point_at (Check 13 at)) rest.now) }
{
    if rest.len() < 4 {
        return Err(bad(at));
    }
    let count = half(rest);
    if count < 2 {
        return Err(bad(at));
    }
    let (_, rest) = rest.split_at(4);
    points_of(at, count, points, rest)
}

/// The name at the front: the place of one of so many texts.
#[tactic(auto, unfolding(crate::specs::EntryReading::name_at))]
fn name_of(at: u64, texts: u64, rest: &[u8]) -> Result<(u32, &[u8]), SectionFault>
    ensures { (before : List ℕ) → Gives (λ x. (x.0, x.1.now)) result (name_at (Check 13 at) texts before rest.now) }
{
    if rest.len() < 4 {
        return Err(bad(at));
    }
    let name = half(rest);
    if u64::from(name) >= texts {
        return Err(bad(at));
    }
    let (_, rest) = rest.split_at(4);
    Ok((name, rest))
}

/// Fills a list with so many names.
fn names_of<'a>(
    at: u64,
    texts: u64,
    count: u32,
    names: &mut Vec<u32>,
    rest: &'a [u8],
) -> Result<&'a [u8], SectionFault>
    ensures { Gives (λ r. (names.new.items, r.now)) result (read_many (name_at (Check 13 at) texts) count [] rest.now) }
{
    names.clear();
    let mut rest = rest;
    for _ in 0..count {
        let (name, after) = name_of(at, texts, rest)?;
        names.push(name)?;
        rest = after;
    }
    Ok(rest)
}

/// The names at the front, put in place of the names: how many, and the places of their texts.
#[tactic(auto, unfolding(crate::specs::EntryReading::counted_at))]
fn all_names<'a>(
    at: u64,
    texts: u64,
    names: &mut Vec<u32>,
    rest: &'a [u8],
) -> Result<&'a [u8], SectionFault>
    ensures { Gives (λ r. (names.new.items, r.now)) result (counted_at (Check 13 at) 0 (name_at (Check 13 at) texts) rest.now) }
{
    if rest.len() < 4 {
        return Err(bad(at));
    }
    let count = half(rest);
    let (_, rest) = rest.split_at(4);
    names_of(at, texts, count, names, rest)
}

/// The entry at the front, behind entries with this last key, in a section that ends at `end`: its key is answered, and
/// its points and names are put in place of the others.
#[tactic(auto, unfolding(crate::specs::EntryReading::entry_at))]
fn entry_of<'a>(
    end: u64,
    texts: u64,
    last: Option<PieceKey>,
    points: &mut Vec<Point>,
    names: &mut Vec<u32>,
    rest: &'a [u8],
) -> Result<(PieceKey, &'a [u8]), SectionFault>
    ensures { (before : List Info) → ((key : PieceKey) → key_rises before key ≡ rises_after last key)
        → Gives (λ x. (record { key = x.0; shape = points.new.items; texts = names.new.items }, x.1.now)) result (entry_at end texts before rest.now) }
{
    let at = place(end, rest);
    let (key, rest) = key_of(at, last, rest)?;
    let rest = shape_of(at, points, rest)?;
    let rest = all_names(at, texts, names, rest)?;
    Ok((key, rest))
}

/// The entries that fill a section which ends at the offset `end` and before which so many texts are said to follow, or
/// the first that is none, by its offset.
#[tactic(auto, unfolding(crate::specs::EntryReading::entries_at))]
pub fn read_entries(
    alloc: Global,
    end: u64,
    texts: u64,
    section: &[u8],
) -> Result<Infos, SectionFault>
    ensures { Gives (λ x. x) result (entries_at end texts section.now) }
{
    let mut infos = Infos::new(alloc);
    let mut points = Vec::new(alloc);
    let mut names = Vec::new(alloc);
    let mut last: Option<PieceKey> = None;
    let mut rest = section;
    while !rest.is_empty() {
        let (key, after) = entry_of(end, texts, last, &mut points, &mut names, rest)?;
        infos.push_parts(key, &points, &names)?;
        last = Some(key);
        rest = after;
    }
    Ok(infos)
}
