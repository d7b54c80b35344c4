//! How many pieces there are, and how many places.

ghost use Rattle.std.specs.Prelude.{◌≡◌, ◌<◌, ◌≤◌, length, All};
ghost use Rattle.osm_model.specs.declared.limits.TheConstants.{MOST_REFS};
ghost use Rattle.road_pieces.specs.Counts.{pieces_in, pieces_of_lines, places_of_lines};

use crate::lines::Lines;

/// The number of pieces of all lines, each of which begins at a junction.
pub(crate) fn count_pieces(lines: &Lines, flags: &[bool]) -> u64
    requires inside { All (λ l. All (λ p. p < length flags.now) l.places) lines.now.done }
    requires short { places_of_lines lines.now.done ≤ MOST_REFS }
    ensures { result ≡ pieces_of_lines flags.now lines.now.done }
{
    let mut count = 0;
    for i in 0..lines.len() {
        count += count_line(lines.line(i).places, flags);
    }
    count
}

/// The number of junctions on a line after its first node.
fn count_line(places: &[u32], flags: &[bool]) -> u64
    requires { All (λ p. p < length flags.now) places.now }
    ensures value { result ≡ pieces_in flags.now places.now }
    ensures bound { result ≤ length places.now }
{
    let mut count = 0;
    for i in 1..places.len() {
        if flags[places[i] as usize] {
            count += 1;
        }
    }
    count
}

/// The number of places of all lines.
pub(crate) fn count_places(lines: &Lines) -> u64
    requires { places_of_lines lines.now.done ≤ MOST_REFS }
    ensures { result ≡ places_of_lines lines.now.done }
{
    let mut count = 0;
    for i in 0..lines.len() {
        count += lines.line(i).places.len() as u64;
    }
    count
}
