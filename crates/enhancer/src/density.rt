//! How much road is near a place.
ghost use Rattle.std.specs.Prelude.{◌≡◌, ◌≤◌, ◌+◌, sum_by};
ghost use Rattle.fixed_geo.specs.Length.{latitude_difference, longitude_difference};
ghost use Rattle.enhancer.specs.Density.{is_near, cut_cm};

use fixed_geo::Point;
use work_tile::NodeView;

/// A length in centimetres at which the density is greatest; sums go no further.
pub(crate) const ENOUGH_CM: u32 = 15_000_000;

/// The difference of two latitudes.
#[tactic(auto, unfolding(fixed_geo::specs::Length::latitude_difference))]
fn northward(a: Point, b: Point) -> u32
    ensures { result ≡ latitude_difference a b }
{
    a.lat.abs_diff(b.lat)
}

/// The difference of two longitudes, the short way round.
#[tactic(auto, unfolding(fixed_geo::specs::Length::longitude_difference, fixed_geo::specs::Length::short_way))]
fn round_way(a: Point, b: Point) -> u32
    ensures { result ≡ longitude_difference a b }
{
    let difference = a.lon.abs_diff(b.lon);
    difference.min(3_600_000_000u32.saturating_sub(difference))
}

/// Whether two places are at most 0.02 degrees apart on each axis.
#[tactic(auto, unfolding(crate::specs::Density::is_near))]
pub(crate) fn near_each_other(a: Point, b: Point) -> bool
    ensures { result ≡ is_near a b }
{
    northward(a, b) <= 200_000 && round_way(a, b) <= 200_000
}

/// A sum that is cut.
pub(crate) fn cut_sum(total: u32, cm: u32) -> u32
    requires { total ≤ 15_000_000 }
    ensures { result ≡ cut_cm (total + cm) }
{
    total.saturating_add(cm).min(ENOUGH_CM)
}

/// The length of the edges of a node, cut.
pub(crate) fn cm_of(node: &NodeView<'_>) -> u32
    ensures { result ≡ cut_cm (sum_by (λ e. e.cm) node.now.edges) }
{
    let mut sum = 0;
    for k in 0..node.edges_len() {
        sum = cut_sum(sum, node.edge(k).cm);
    }
    sum
}
