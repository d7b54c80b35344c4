//! Numbers at the front of bytes, and parts of bytes.
ghost use Rattle.std.specs.Prelude.{◌≡◌, ◌≤◌, length, take, drop};
ghost use Rattle.section_grammar.specs.WordBytes.{word_in, words_in, half_in};
ghost use Rattle.section_grammar.specs.Answers.{place_of};

/// The offset of what is left, in a file that ends at `end`.
#[inline]
pub fn place(end: u64, rest: &[u8]) -> u64
    ensures { result ≡ place_of end rest.now }
{
    end.saturating_sub(rest.len() as u64)
}

/// The word that the first eight bytes spell.
#[inline]
#[tactic(auto, unfolding(crate::specs::WordBytes::word_in))]
pub fn word(bytes: &[u8]) -> u64
    requires { 8 ≤ length bytes.now }
    ensures { result ≡ word_in bytes.now }
{
    u64::from_le_bytes([
        bytes[0], bytes[1], bytes[2], bytes[3], bytes[4], bytes[5], bytes[6], bytes[7],
    ])
}

/// The first four words.
#[inline]
pub fn four_words(bytes: &[u8]) -> [u64; 4]
    requires { 32 ≤ length bytes.now }
    ensures { result ≡ words_in 4 bytes.now }
{
    [
        word(bytes),
        word(&bytes[8..]),
        word(&bytes[16..]),
        word(&bytes[24..]),
    ]
}

/// The half that the first four bytes spell.
#[inline]
#[tactic(auto, unfolding(crate::specs::WordBytes::half_in))]
pub fn half(bytes: &[u8]) -> u32
    requires { 4 ≤ length bytes.now }
    ensures { result ≡ half_in bytes.now }
{
    u32::from_le_bytes([bytes[0], bytes[1], bytes[2], bytes[3]])
}

/// The front of so many bytes, or all where there are fewer, and what follows.
pub fn cut(bytes: &[u8], len: usize) -> (&[u8], &[u8])
    ensures front { result.0.now ≡ take len bytes.now }
    ensures rest { result.1.now ≡ drop len bytes.now }
{
    if len < bytes.len() {
        bytes.split_at(len)
    } else {
        (bytes, &bytes[bytes.len()..])
    }
}
