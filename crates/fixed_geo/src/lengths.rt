//! Lengths of segments, and which points are near each other.
ghost use Rattle.std.specs.Prelude.{◌≡◌, ℕ, ◌+◌, ◌*◌, ◌/◌, ◌^◌, ◌<◌, ◌≤◌, ◌↔◌, ℤ, pos, neg_ℤ, IsTrue};
ghost use Rattle.fixed_geo.specs.Place.{IsPlace};
ghost use Rattle.fixed_geo.specs.Length.{quarter, mean_latitude, cosine_of, latitude_difference, short_way, longitude_difference, west_east, length_cm, IsNear, on_meridian};
ghost use Rattle.fixed_geo.specs.declared.points.Point.{Point};

use crate::points::Point;
use crate::roots::small_root;

/// A quarter of the way round the earth: 90 degrees, in units.
const QUARTER: u64 = 900_000_000;

/// The length of the segment between two places, in centimetres.
///
/// The difference of longitudes is taken the short way round and shrinks by the cosine of the mean
/// latitude, for which a quotient of whole numbers stands; a unit of latitude is 1.1132 cm.
pub fn segment_cm(a: Point, b: Point) -> u64
    requires from { IsPlace a }
    requires to { IsPlace b }
    ensures length { result ≡ length_cm a b }
    ensures bound { result < 2 ^ 32 }
{
    let eastward = eastward(a, b);
    let northward = northward(a, b);
    small_root(eastward * eastward + northward * northward) * 11132 / 10000
}

/// Whether two places are at most 200,000 units apart on each axis, the short way round.
pub fn near(a: Point, b: Point) -> bool
    requires from { IsPlace a }
    requires to { IsPlace b }
    ensures { IsTrue result ↔ IsNear a b }
{
    northward(a, b) <= 200_000 && round_way(a, b) <= 200_000
}

/// The way from west to east between two places, in units of latitude.
#[tactic(auto, unfolding(crate::specs::Length::west_east))]
fn eastward(a: Point, b: Point) -> u64
    requires from { IsPlace a }
    requires to { IsPlace b }
    ensures value { result ≡ west_east a b }
    ensures bound { result ≤ 1_800_000_000 }
{
    round_way(a, b) * cosine(middle(a, b)) / 0x10_0000
}

/// The difference of the latitudes of two places, in units.
#[tactic(auto, unfolding(crate::specs::Length::latitude_difference))]
fn northward(a: Point, b: Point) -> u64
    requires from { IsPlace a }
    requires to { IsPlace b }
    ensures value { result ≡ latitude_difference a b }
    ensures bound { result ≤ 1_800_000_000 }
{
    u64::from(a.lat.abs_diff(b.lat))
}

/// The difference of the longitudes of two places in units, the short way round: the meridians of
/// 180 and -180 degrees are one.
#[tactic(auto, unfolding(crate::specs::Length::longitude_difference, crate::specs::Length::short_way))]
fn round_way(a: Point, b: Point) -> u64
    requires from { IsPlace a }
    requires to { IsPlace b }
    ensures value { result ≡ longitude_difference a b }
    ensures bound { result ≤ 1_800_000_000 }
{
    let difference = u64::from(a.lon.abs_diff(b.lon));
    difference.min(4 * QUARTER - difference)
}

/// How far from the equator two places are in the mean, in units.
#[tactic(auto, unfolding(crate::specs::Length::mean_latitude))]
fn middle(a: Point, b: Point) -> u64
    requires from { IsPlace a }
    requires to { IsPlace b }
    ensures value { result ≡ mean_latitude a b }
    ensures bound { result ≤ quarter }
{
    (i64::from(a.lat) + i64::from(b.lat)).unsigned_abs() / 2
}

/// The cosine of a latitude in units, scaled by 2^20.
#[tactic(auto, unfolding(crate::specs::Length::cosine_of))]
fn cosine(latitude: u64) -> u64
    requires { latitude ≤ quarter }
    ensures value { result ≡ cosine_of latitude }
    ensures bound { result ≤ 2 ^ 20 }
{
    let square = latitude * latitude;
    scaled_quotient(QUARTER * QUARTER - square, 4 * QUARTER * QUARTER + square)
}

/// 2^22 times the quotient of two numbers, rounded down, by one division of 64 bits.
///
/// The leading bits of both give the quotient or a little less, and the steps up make it exact:
/// a division of 128 bits takes longer.
fn scaled_quotient(upper: u64, lower: u64) -> u64
    requires small { upper < lower }
    requires large { lower < 2 ^ 62 }
    ensures { result ≡ 2 ^ 22 * upper / lower }
{
    let dividend = u128::from(upper) * 0x40_0000;
    let mut quotient = (upper >> 20) * 0x40_0000 / ((lower >> 20) + 1);
    while u128::from(quotient + 1) * u128::from(lower) <= dividend {
        quotient += 1;
    }
    quotient
}

/// The meridians of 180 and -180 degrees are one: there is no way from west to east between them,
/// and a point on the one is as far from each place as the same point on the other.
pub fn one_meridian()
    ensures no_way { (lat other : ℤ) → west_east (on_meridian lat (pos 1_800_000_000))
        (on_meridian other (neg_ℤ (pos 1_800_000_000))) ≡ 0 }
    ensures as_far { (p : Point) (lat : ℤ) → IsPlace p → length_cm p (on_meridian lat (pos 1_800_000_000))
        ≡ length_cm p (on_meridian lat (neg_ℤ (pos 1_800_000_000))) }
{}

/// A length is the same both ways.
pub fn same_both_ways()
    ensures { (a b : Point) → length_cm a b ≡ length_cm b a }
{}

/// The lengths of some segments: 0.001 degrees on the equator, at 60 degrees, and across the meridian of 180 degrees; from
/// a point to itself; and 5 units to the north, which are 5.566 cm.
pub fn worked_lengths()
    ensures equator { length_cm (record { lat = pos 0; lon = pos 0 }) (record { lat = pos 0; lon = pos 10_000 }) ≡ 11_132 }
    ensures sixty { length_cm (record { lat = pos 600_000_000; lon = pos 0 }) (record { lat = pos 600_000_000; lon = pos 10_000 }) ≡ 5_566 }
    ensures across { length_cm (record { lat = pos 0; lon = pos 1_799_995_000 }) (record { lat = pos 0; lon = neg_ℤ (pos 1_799_995_000) }) ≡ 11_132 }
    ensures itself { length_cm (record { lat = pos 412_500_000; lon = pos 7 }) (record { lat = pos 412_500_000; lon = pos 7 }) ≡ 0 }
    ensures rounded_down { length_cm (record { lat = pos 0; lon = pos 0 }) (record { lat = pos 5; lon = pos 0 }) ≡ 5 }
{}
