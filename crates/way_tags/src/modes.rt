//! The modes of travel, each a bit of a number.

ghost use Rattle.std.specs.Prelude.{◌≡◌, Bool, unwrap_or, if◌then◌else◌};
ghost use Rattle.way_tags.specs.Modes.{Mode, word_of};

pub const AUTO: u16 = 1;

pub const PEDESTRIAN: u16 = 2;

pub const BICYCLE: u16 = 4;

pub const TRUCK: u16 = 8;

pub const BUS: u16 = 64;

/// The bits of all modes together.
pub const ALL: u16 = AUTO | PEDESTRIAN | BICYCLE | TRUCK | BUS;

/// The bits of all modes but pedestrians.
pub const VEHICLES: u16 = AUTO | BICYCLE | TRUCK | BUS;

/// The bits of the modes with a motor.
pub(crate) const MOTOR_VEHICLES: u16 = AUTO | TRUCK | BUS;

/// The word after a verdict on some modes: with none, these modes stay as they were.
pub(crate) fn overridden(word: u16, modes: u16, verdict: Option<bool>) -> u16
    ensures { (f g : Mode → Bool) → word ≡ word_of f → modes ≡ word_of g → result ≡ word_of (λ mode. unwrap_or (if g mode then verdict else None) (f mode)) }
{
    match verdict {
        Some(true) => word | modes,
        Some(false) => word & (ALL ^ modes),
        None => word,
    }
}
