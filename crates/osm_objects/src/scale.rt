//! The coordinates of a block.
ghost use Rattle.std.specs.Prelude.{◌≡◌, ◌≤ℤ◌, ◌+ℤ◌, ◌*ℤ◌, pos, false, true, MatchOption};
ghost use Rattle.std.specs.Int.{int_div_euclid};
ghost use Rattle.osm_objects.specs.Scales.{units_of, is_within};

/// The most units from the equator to a latitude.
const MOST_LAT: i64 = 900_000_000;

/// The most units from the meridian of Greenwich to a longitude.
const MOST_LON: i64 = 1_800_000_000;

/// What one unit of a block's coordinates is, and what is added to them, in units of 1e-9 degree.
#[derive(Clone, Copy, Debug)]
pub struct Scale {
    pub granularity: i64,
    pub lat_offset: i64,
    pub lon_offset: i64,
}

/// The number, where it isn't further from 0 than the limit.
fn within(number: i64, limit: i64) -> Option<i32>
    requires low { pos 0 ≤ℤ limit }
    requires high { limit ≤ℤ pos 1_800_000_000 }
    ensures { MatchOption result (is_within limit number ≡ false) (λ found. (is_within limit number ≡ true) × (found ≡ number)) }
{
    if -limit <= number && number <= limit {
        Some(number as i32)
    } else {
        None
    }
}

/// The same, for a number of 128 bits.
fn wide_within(number: i128, limit: i64) -> Option<i32>
    requires low { pos 0 ≤ℤ limit }
    requires high { limit ≤ℤ pos 1_800_000_000 }
    ensures { MatchOption result (is_within limit number ≡ false) (λ found. (is_within limit number ≡ true) × (found ≡ number)) }
{
    let most = i128::from(limit);
    if -most <= number && number <= most {
        Some(number as i32)
    } else {
        None
    }
}

/// A coordinate in units of 1e-9 degree.
fn nanodegrees(granularity: i64, offset: i64, number: i64) -> i128
    ensures { result ≡ offset +ℤ (granularity *ℤ number) }
{
    let steps = i128::from(granularity) * i128::from(number);
    i128::from(offset) + steps
}

/// Units of 1e-9 degree to units of 1e-7 degree, rounded down.
fn rounded_down(nanodegrees: i128) -> i128
    ensures { result ≡ int_div_euclid nanodegrees (pos 100) }
{
    nanodegrees.div_euclid(100)
}

/// A coordinate in units of 1e-7 degree, rounded down, where it isn't further from 0 than the limit.
fn units(granularity: i64, offset: i64, number: i64, limit: i64) -> Option<i32>
    requires low { pos 0 ≤ℤ limit }
    requires high { limit ≤ℤ pos 1_800_000_000 }
    ensures { let units = units_of granularity offset number in MatchOption result (is_within limit units ≡ false) (λ found. (is_within limit units ≡ true) × (found ≡ units)) }
{
    // one step is one unit
    if granularity == 100 && offset == 0 {
        return within(number, limit);
    }
    wide_within(
        rounded_down(nanodegrees(granularity, offset, number)),
        limit,
    )
}

impl Scale {
    ghost use Rattle.std.specs.Prelude.{IfSome, IfNone, ℤ, List, Ok, Err};
    ghost use Rattle.osm_model.specs.declared.tags.Tag.{Tag};
    ghost use Rattle.osm_objects.specs.declared.fault.ObjectFault.TheVariants.{BadCoordinate};
    ghost use Rattle.osm_objects.specs.Coordinates.{node_at};

    /// The latitude and the longitude of a node in units of 1e-7 degree, where they are those of a place on the earth.
    pub fn place(self, lat: i64, lon: i64) -> Option<(i32, i32)>
        ensures placed { IfSome result (λ place. (id : ℤ) (tags : List Tag) → node_at self id lat lon tags ≡ Ok (record { id = id; lat = place.0; lon = place.1; tags = tags })) }
        ensures misplaced { IfNone result ((id : ℤ) (tags : List Tag) → node_at self id lat lon tags ≡ Err (BadCoordinate id)) }
    {
        let Some(lat) = units(self.granularity, self.lat_offset, lat, MOST_LAT) else {
            return None;
        };
        let Some(lon) = units(self.granularity, self.lon_offset, lon, MOST_LON) else {
            return None;
        };
        Some((lat, lon))
    }
}
