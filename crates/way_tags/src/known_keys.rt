//! The keys that are known, by number.

ghost use Rattle.std.specs.Prelude.{◌≡◌, ◌<◌, ℕ, ◌==◌};
ghost use Rattle.std.specs.Str.{bytes_eq};
ghost use Rattle.way_tags.specs.KnownKeys.{known_key, likely_number};

pub(crate) const HIGHWAY: usize = 0;

pub(crate) const AREA: usize = 1;

pub(crate) const ONEWAY: usize = 2;

pub(crate) const JUNCTION: usize = 3;

pub(crate) const ONEWAY_BICYCLE: usize = 4;

pub(crate) const ONEWAY_BUS: usize = 5;

pub(crate) const ONEWAY_PSV: usize = 6;

pub(crate) const BARRIER: usize = 7;

pub(crate) const ACCESS: usize = 8;

pub(crate) const VEHICLE: usize = 9;

pub(crate) const MOTOR_VEHICLE: usize = 10;

pub(crate) const MOTORCAR: usize = 11;

pub(crate) const HGV: usize = 12;

pub(crate) const PSV: usize = 13;

pub(crate) const BUS_KEY: usize = 14;

pub(crate) const BICYCLE_KEY: usize = 15;

pub(crate) const FOOT: usize = 16;

pub(crate) const NAME: usize = 17;

pub(crate) const REF: usize = 18;

/// How many keys are known. As a number it stands for every other key.
pub(crate) const KEY_COUNT: usize = 19;

/// One slot for each known key, and one for every other key.
pub(crate) const SLOTS: usize = KEY_COUNT + 1;

/// The number of a key. It is compared with one known key alone.
pub(crate) fn key_number(key: &str) -> usize
    ensures within { result < SLOTS }
    ensures number { (k : ℕ) → k < KEY_COUNT → bytes_eq key.now (known_key k) ≡ (k == result) }
{
    let number = likely_key(key);
    if key == text_of(number) {
        number
    } else {
        KEY_COUNT
    }
}

/// The number of the one known key that a text may be, by its length and one byte.
fn likely_key(key: &str) -> usize
    ensures number { result ≡ likely_number key.now }
    ensures within { result < SLOTS }
{
    let bytes = key.as_bytes();
    match bytes.len() {
        3 => match bytes[0] {
            b'h' => HGV,
            b'p' => PSV,
            b'b' => BUS_KEY,
            _ => REF,
        },
        4 => match bytes[0] {
            b'a' => AREA,
            b'n' => NAME,
            _ => FOOT,
        },
        6 => match bytes[0] {
            b'o' => ONEWAY,
            _ => ACCESS,
        },
        7 => match bytes[2] {
            b'g' => HIGHWAY,
            b'h' => VEHICLE,
            b'c' => BICYCLE_KEY,
            _ => BARRIER,
        },
        8 => match bytes[0] {
            b'j' => JUNCTION,
            _ => MOTORCAR,
        },
        10 => match bytes[7] {
            b'b' => ONEWAY_BUS,
            _ => ONEWAY_PSV,
        },
        13 => MOTOR_VEHICLE,
        14 => ONEWAY_BICYCLE,
        _ => KEY_COUNT,
    }
}

/// The key of a number, and no text where there is none.
fn text_of(number: usize) -> &'static str
    ensures { result.now ≡ known_key number }
{
    match number {
        HIGHWAY => "highway",
        AREA => "area",
        ONEWAY => "oneway",
        JUNCTION => "junction",
        ONEWAY_BICYCLE => "oneway:bicycle",
        ONEWAY_BUS => "oneway:bus",
        ONEWAY_PSV => "oneway:psv",
        BARRIER => "barrier",
        ACCESS => "access",
        VEHICLE => "vehicle",
        MOTOR_VEHICLE => "motor_vehicle",
        MOTORCAR => "motorcar",
        HGV => "hgv",
        PSV => "psv",
        BUS_KEY => "bus",
        BICYCLE_KEY => "bicycle",
        FOOT => "foot",
        NAME => "name",
        REF => "ref",
        _ => "",
    }
}
