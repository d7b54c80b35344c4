//! The roads of an extract as the definitions say them, computed slowly: each function here is one of theirs. Tests
//! compare `cut` with it, and so try what the definitions mean; nothing here is promised.

use fixed_geo::{Point, Shape, segment_cm};
use osm_model::{Extract, Nodes, PieceKey, WayView};
use road_pieces::{Junction, Piece};
use std::alloc::{AllocError, Global};
use way_tags::{Dir, access_of, class_of, is_barrier, names, node_access};

/// The junctions of an extract.
pub(crate) fn plain_junctions(
    alloc: Global,
    extract: &Extract,
) -> Result<Vec<Junction>, AllocError> {
    let runs = all_runs(alloc, extract)?;
    let mut junctions = Vec::new(alloc);
    for i in 0..extract.nodes.len() {
        let node = extract.nodes.at(i);
        if is_junction(extract, &runs, node.id()) {
            junctions.push(Junction {
                osm: node.id(),
                at: Point {
                    lat: node.lat(),
                    lon: node.lon(),
                },
                access: node_access(&node.tags()),
                barrier: is_barrier(&node.tags()),
            })?;
        }
    }
    Ok(junctions)
}

/// The pieces of an extract.
pub(crate) fn plain_pieces(alloc: Global, extract: &Extract) -> Result<Vec<Piece>, AllocError> {
    let runs = all_runs(alloc, extract)?;
    let mut pieces = Vec::new(alloc);
    for i in 0..extract.ways.len() {
        add_way(alloc, extract, &runs, &extract.ways.at(i), &mut pieces)?;
    }
    Ok(pieces)
}

/// How many ways are routable.
pub(crate) fn plain_ways(extract: &Extract) -> u64 {
    let mut count = 0u64;
    for i in 0..extract.ways.len() {
        if class_of(extract.ways.at(i).tags()).is_some() {
            count = count.saturating_add(1);
        }
    }
    count
}

/// How many runs there are.
pub(crate) fn plain_runs(alloc: Global, extract: &Extract) -> Result<u64, AllocError> {
    let runs = all_runs(alloc, extract)?;
    Ok(runs.len() as u64)
}

/// At how many places of the refs of routable ways the node isn't there.
pub(crate) fn plain_missing(extract: &Extract) -> u64 {
    let mut count = 0u64;
    for i in 0..extract.ways.len() {
        let way = extract.ways.at(i);
        if class_of(way.tags()).is_some() {
            count = count.saturating_add(missing_in(&extract.nodes, way.refs()));
        }
    }
    count
}

/// At how many places of refs the node isn't there.
fn missing_in(nodes: &Nodes, refs: &[i64]) -> u64 {
    refs.iter().filter(|id| !has_node(nodes, **id)).count() as u64
}

/// Whether there is a node of that id.
fn has_node(nodes: &Nodes, id: i64) -> bool {
    for i in 0..nodes.len() {
        if nodes.at(i).id() == id {
            return true;
        }
    }
    false
}

/// Whether there is a node of that id with a barrier.
fn has_barrier(nodes: &Nodes, id: i64) -> bool {
    for i in 0..nodes.len() {
        let node = nodes.at(i);
        if node.id() == id && is_barrier(&node.tags()) {
            return true;
        }
    }
    false
}

/// The runs of all ways.
fn all_runs(alloc: Global, extract: &Extract) -> Result<Vec<Vec<i64>>, AllocError> {
    let mut found = Vec::new(alloc);
    for i in 0..extract.ways.len() {
        let mut more = way_runs(alloc, &extract.nodes, &extract.ways.at(i))?;
        found.append(&mut more)?;
    }
    Ok(found)
}

/// The runs of a way.
fn way_runs(alloc: Global, nodes: &Nodes, way: &WayView<'_>) -> Result<Vec<Vec<i64>>, AllocError> {
    if class_of(way.tags()).is_some() {
        runs_of(alloc, nodes, way.refs())
    } else {
        Ok(Vec::new(alloc))
    }
}

/// The runs of refs.
fn runs_of(alloc: Global, nodes: &Nodes, refs: &[i64]) -> Result<Vec<Vec<i64>>, AllocError> {
    let mut found = Vec::new(alloc);
    let mut stretch = Vec::new(alloc);
    for id in refs {
        if has_node(nodes, *id) {
            stretch.push(*id)?;
        } else {
            add_stretch(&mut found, stretch)?;
            stretch = Vec::new(alloc);
        }
    }
    add_stretch(&mut found, stretch)?;
    Ok(found)
}

/// Adds the run of a stretch of refs whose nodes are there, if it has one.
fn add_stretch(found: &mut Vec<Vec<i64>>, stretch: Vec<i64>) -> Result<(), AllocError> {
    let mut run = stretch;
    run.dedup();
    if run.len() >= 2 {
        found.push(run)?;
    }
    Ok(())
}

/// Whether a node is a junction of the extract with these runs.
fn is_junction(extract: &Extract, runs: &[Vec<i64>], id: i64) -> bool {
    let places = all_times(id, runs);
    is_some_end(id, runs) || places >= 2 || (has_barrier(&extract.nodes, id) && places >= 1)
}

/// At how many places of all runs a node stands.
fn all_times(id: i64, runs: &[Vec<i64>]) -> u64 {
    let mut count = 0u64;
    for run in runs {
        count = count.saturating_add(run.iter().filter(|other| **other == id).count() as u64);
    }
    count
}

/// Whether a node is the first or the last of some run.
fn is_some_end(id: i64, runs: &[Vec<i64>]) -> bool {
    runs.iter().any(|run| run.first().copied() == Some(id) || run.last().copied() == Some(id))
}

/// Adds the pieces of a way, run by run.
fn add_way(
    alloc: Global,
    extract: &Extract,
    runs: &[Vec<i64>],
    way: &WayView<'_>,
    pieces: &mut Vec<Piece>,
) -> Result<(), AllocError> {
    let own = way_runs(alloc, &extract.nodes, way)?;
    let mut number = 0u32;
    for run in &own {
        add_run(alloc, extract, runs, way, number, run, pieces)?;
        number = number.saturating_add(1);
    }
    Ok(())
}

/// Adds the pieces of a run, one between each two successive places with junctions.
fn add_run(
    alloc: Global,
    extract: &Extract,
    runs: &[Vec<i64>],
    way: &WayView<'_>,
    run: u32,
    ids: &[i64],
    pieces: &mut Vec<Piece>,
) -> Result<(), AllocError> {
    let stops = stops_of(alloc, extract, runs, ids)?;
    let mut piece = 0u32;
    for i in 1..stops.len() {
        let (from, to) = (stops[i - 1], stops[i]);
        if let Some(part) = ids.get(from..to.saturating_add(1)) {
            let key = PieceKey {
                way: way.id(),
                run,
                piece,
            };
            pieces.push(piece_of(alloc, extract, way, key, part)?)?;
        }
        piece = piece.saturating_add(1);
    }
    Ok(())
}

/// The places of a run with junctions.
fn stops_of(
    alloc: Global,
    extract: &Extract,
    runs: &[Vec<i64>],
    ids: &[i64],
) -> Result<Vec<usize>, AllocError> {
    let mut found = Vec::new(alloc);
    for (place, id) in ids.iter().enumerate() {
        if is_junction(extract, runs, *id) {
            found.push(place)?;
        }
    }
    Ok(found)
}

/// The piece over these nodes.
fn piece_of(
    alloc: Global,
    extract: &Extract,
    way: &WayView<'_>,
    key: PieceKey,
    ids: &[i64],
) -> Result<Piece, AllocError> {
    let mut points = Vec::new(alloc);
    for id in ids {
        points.push(point_of(&extract.nodes, *id))?;
    }
    Ok(Piece {
        key,
        start: ids.first().copied().unwrap_or(0),
        end: ids.last().copied().unwrap_or(0),
        cm: course_cm(&points),
        shape: Shape::from_vec(points),
        class: class_of(way.tags()).unwrap_or(7),
        forward: access_of(way.tags(), Dir::Forward),
        backward: access_of(way.tags(), Dir::Backward),
        names: names(alloc, way.tags())?,
    })
}

/// Where the node of that id is; without one, where the equator meets the first meridian.
fn point_of(nodes: &Nodes, id: i64) -> Point {
    for i in 0..nodes.len() {
        let node = nodes.at(i);
        if node.id() == id {
            return Point {
                lat: node.lat(),
                lon: node.lon(),
            };
        }
    }
    Point { lat: 0, lon: 0 }
}

/// The length of a course.
fn course_cm(points: &[Point]) -> u64 {
    let mut cm = 0u64;
    for i in 1..points.len() {
        let (from, to) = (points[i - 1], points[i]);
        if from.is_place() && to.is_place() {
            cm = cm.saturating_add(segment_cm(from, to));
        }
    }
    cm
}
