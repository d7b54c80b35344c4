//! The key `except`.

ghost use Rattle.std.specs.Prelude.{◌≡◌, ◌==◌, bit_and, bit_xor, fold};
ghost use Rattle.std.specs.List.{slice_split};
ghost use Rattle.way_tags.specs.Modes.{word_of};
ghost use Rattle.osm_restrictions.specs.Exceptions.{past_spaces, without_spaces, is_taken_away, taken_modes, restricted_modes};

use crate::keys::spoken_modes;
use osm_model::TagsView;
use way_tags::{ALL, AUTO, BICYCLE, BUS, TRUCK};

/// The modes that are restricted: those of which the deciding key speaks, without those that are excepted.
pub(crate) fn restricted_modes(tags: &TagsView<'_>) -> u16
    ensures { result ≡ restricted_modes tags.now }
{
    let modes = spoken_modes(tags);
    match tags.value("except") {
        Some(value) => left_by(modes, value.as_bytes()),
        None => modes,
    }
}

/// The modes that are left where those of each part are taken away.
fn left_by(modes: u16, value: &[u8]) -> u16
    ensures { result ≡ fold (λ left part. bit_and left (bit_xor ALL (taken_modes part))) modes (slice_split (λ byte. byte == 59) value.now) }
{
    value
        .split(|byte| *byte == b';')
        .fold(modes, |left, part| left & (ALL ^ taken_by(part)))
}

#[tactic(auto, unfolding(crate::specs::Exceptions::taken_modes))]
/// The modes that a part takes away.
fn taken_by(part: &[u8]) -> u16
    ensures { result ≡ taken_modes part.now }
{
    modes_of(without_spaces(part))
}

/// The modes that a part without spaces takes away.
fn modes_of(part: &[u8]) -> u16
    ensures { result ≡ word_of (is_taken_away part.now) }
{
    if part == b"bicycle".as_slice() {
        BICYCLE
    } else if part == b"bus".as_slice() || part == b"psv".as_slice() {
        BUS
    } else if part == b"hgv".as_slice() {
        TRUCK
    } else if part == b"motorcar".as_slice() {
        AUTO
    } else if part == b"motor_vehicle".as_slice() {
        AUTO | TRUCK | BUS
    } else {
        0
    }
}

/// A text without the spaces at both ends.
fn without_spaces(text: &[u8]) -> &[u8]
    ensures { result.now ≡ without_spaces text.now }
{
    let mut rest = past_spaces(text);
    while let Some((last, front)) = rest.split_last()
        && *last == b' '
    {
        rest = front;
    }
    rest
}

/// A text without the spaces at its front.
fn past_spaces(text: &[u8]) -> &[u8]
    ensures { result.now ≡ past_spaces text.now }
{
    let mut rest = text;
    while let Some((first, behind)) = rest.split_first()
        && *first == b' '
    {
        rest = behind;
    }
    rest
}
