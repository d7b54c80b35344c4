//! The rules on values.

ghost use Rattle.std.specs.Prelude.{◌≡◌, ◌==◌, ◌∷◌, []};
ghost use Rattle.std.specs.List.{list_all, slice_split};
ghost use Rattle.command_words.specs.Values.{is_plain_number, has_no_needless_zero, is_digit, number_within, mode_of, with_mode, with_modes, modes_of};

/// The number from `low` to `high` that the text writes in decimal digits, without a sign or a needless zero.
pub(crate) fn number_within(text: &str, low: u64, high: u64) -> Option<u64>
    ensures { result ≡ number_within low high text.now }
{
    if !is_plain_number(text.as_bytes()) {
        return None;
    }
    match text.parse::<u64>() {
        Ok(number) => {
            if low <= number && number <= high {
                Some(number)
            } else {
                None
            }
        }
        Err(_) => None,
    }
}

/// Whether these are decimal digits, the first of which isn't a needless zero.
fn is_plain_number(text: &[u8]) -> bool
    ensures { result ≡ is_plain_number text.now }
{
    has_no_needless_zero(text) && are_digits(text)
}

#[tactic(auto, using(crate::proofs::Digits::digits_more, crate::proofs::Digits::digits_at))]
fn are_digits(text: &[u8]) -> bool
    ensures { result ≡ list_all is_digit text.now }
{
    for byte in text {
        if !is_digit(*byte) {
            return false;
        }
    }
    true
}

fn is_digit(byte: u8) -> bool
    ensures { result ≡ is_digit byte }
{
    48 <= byte && byte <= 57
}

fn has_no_needless_zero(text: &[u8]) -> bool
    ensures { result ≡ has_no_needless_zero text.now }
{
    match text {
        [] => false,
        [byte, bytes @ ..] => *byte != b'0' || bytes.is_empty(),
    }
}

/// The modes of a list of names with commas between them, each a mode's and none twice.
pub(crate) fn modes_of(text: &str) -> Option<u16>
    ensures { result ≡ modes_of text.now }
{
    with_modes(0, text)
}

/// The modes with those of the list.
fn with_modes(modes: u16, text: &str) -> Option<u16>
    ensures { result ≡ with_modes modes (slice_split (λ byte. byte == 44) text.now) }
{
    match text.split_once(',') {
        None => one_more(modes, text),
        Some((name, names)) => match one_more(modes, name) {
            None => None,
            Some(all) => with_modes(all, names),
        },
    }
}

fn one_more(modes: u16, name: &str) -> Option<u16>
    ensures { result ≡ with_modes modes (name.now ∷ []) }
{
    match mode_of(name) {
        None => None,
        Some(mode) => {
            if modes & mode == 0 {
                Some(modes | mode)
            } else {
                None
            }
        }
    }
}

/// The bit of the mode with that name.
fn mode_of(name: &str) -> Option<u16>
    ensures { result ≡ mode_of name.now }
{
    if name == "auto" {
        Some(1)
    } else if name == "pedestrian" {
        Some(2)
    } else if name == "bicycle" {
        Some(4)
    } else if name == "truck" {
        Some(8)
    } else if name == "bus" {
        Some(64)
    } else {
        None
    }
}
