//! Points in fixed-point coordinates.
ghost use Rattle.std.specs.Prelude.{◌↔◌, IsTrue};

/// A point of the earth's surface: latitude and longitude in units of 1e-7 degree, as in an
/// OpenStreetMap extract. North and east are positive.
#[derive(Clone, Copy, Debug, PartialEq, Eq, PartialOrd, Ord, Hash)]
pub struct Point {
    pub lat: i32,
    pub lon: i32,
}

impl Point {
    ghost use Rattle.fixed_geo.specs.Place.{IsPlace};

    /// Whether the latitude is from -90 to 90 degrees and the longitude from -180 to 180.
    pub fn is_place(&self) -> bool
        ensures { IsTrue result ↔ IsPlace self.now }
    {
        let latitudes = -900_000_000..=900_000_000;
        let longitudes = -1_800_000_000..=1_800_000_000;
        latitudes.contains(&self.lat) && longitudes.contains(&self.lon)
    }
}
