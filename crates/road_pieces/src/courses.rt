//! Courses of roads over the nodes at given places, and their lengths.

ghost use Rattle.std.specs.Prelude.{◌≡◌, ◌<◌, ◌≤◌, ◌++◌, length, map, All, OnOk};
ghost use Rattle.fixed_geo.specs.Place.{IsPlace};
ghost use Rattle.osm_model.specs.Grew.{Grew};
ghost use Rattle.osm_model.specs.declared.limits.TheConstants.{MOST_REFS};
ghost use Rattle.road_pieces.specs.Rows.{course_cm};
ghost use Rattle.road_pieces.specs.Parts.{point_at};

use fixed_geo::{Point, segment_cm};
use osm_model::Nodes;
use std::alloc::AllocError;

/// Adds the points of the nodes at these places.
pub(crate) fn add_course(
    points: &mut Vec<Point>,
    nodes: &Nodes,
    places: &[u32],
) -> Result<(), AllocError>
    requires { All (λ p. p < length nodes.now) places.now }
    ensures course { OnOk result (points.new.items ≡ points.old.items ++ map (point_at nodes.now) places.now) }
    ensures grew { Grew points.old.items points.new.items }
{
    for place in places {
        points.push(point_at(nodes, *place))?;
    }
    Ok(())
}

/// The point of the node at a place.
fn point_at(nodes: &Nodes, place: u32) -> Point
    requires { place < length nodes.now }
    ensures { result ≡ point_at nodes.now place }
{
    let node = nodes.at(place as usize);
    Point {
        lat: node.lat(),
        lon: node.lon(),
    }
}

/// The length of a course in centimetres: the sum of the lengths of its segments.
pub(crate) fn length_of(points: &[Point]) -> u64
    requires placed { All IsPlace points.now }
    requires short { length points.now ≤ MOST_REFS }
    ensures { result ≡ course_cm points.now }
{
    let mut cm = 0;
    for i in 1..points.len() {
        cm += segment_cm(points[i - 1], points[i]);
    }
    cm
}
