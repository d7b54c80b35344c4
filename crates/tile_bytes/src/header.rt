//! The header of a tile file.
ghost use Rattle.std.specs.Prelude.{◌≡◌, ◌≤◌, ◌<◌, ◌^◌, ◌+◌, ◌*◌, length, drop, slice_index, is_some, IsTrue, IfSome, IfOk, nat_le, ◌==◌, ◌&&◌, ◌%◌};
ghost use Rattle.std.specs.Int.{w32, cast_unsigned};
ghost use Rattle.graph_id.specs.GraphId.{level_of};
ghost use Rattle.section_grammar.specs.WordBytes.{words_in};
ghost use Rattle.section_grammar.specs.Answers.{Gives};
ghost use Rattle.tile_bytes.specs.Header.{corner_word, file_size, header_at, names_tile, are_modes, header_of, header_words};

use fixed_geo::Point;
use graph_id::GraphId;
use section_grammar::{SectionFault, four_words, word};
use tile_geometry::south_west;
use way_tags::ALL;

/// The eight bytes `MJTILE01`, as a word.
pub const SIGNATURE: u64 = 0x3130_454c_4954_4a4d;

/// The most nodes, and the most edges, of a tile.
pub const MOST_RECORDS: u32 = 2_097_151;

/// What a header says.
#[derive(Clone, Copy, Debug)]
pub struct Header {
    pub id: GraphId,
    pub modes: u16,
    pub nodes: u32,
    pub edges: u32,
    pub transitions: u32,
    pub chain_words: u32,
    pub sequence_words: u32,
    pub texts: u32,
    pub info_bytes: u32,
    pub text_bytes: u32,
}

/// The first eight words.
fn eight_words(bytes: &[u8]) -> [u64; 8]
    requires { 64 ≤ length bytes.now }
    ensures { result ≡ words_in 8 bytes.now }
{
    let (_, second) = bytes.split_at(8);
    let (_, third) = second.split_at(8);
    let (_, fourth) = third.split_at(8);
    let (_, fifth) = fourth.split_at(8);
    let [e, f, g, h] = four_words(fifth);
    [
        word(bytes),
        word(second),
        word(third),
        word(fourth),
        e,
        f,
        g,
        h,
    ]
}

/// A place as a word.
fn point_word(p: Point) -> u64
    ensures { result ≡ cast_unsigned w32 p.lat + 2 ^ 32 * cast_unsigned w32 p.lon }
{
    u64::from(p.lat.cast_unsigned()) + (u64::from(p.lon.cast_unsigned()) << 32)
}

/// The tile that a word names, and its south-west corner as a word.
#[tactic(auto, unfolding(crate::specs::Header::corner_word))]
pub(crate) fn named_tile(word: u64) -> Option<(GraphId, u64)>
    ensures some { is_some result ≡ names_tile word }
    ensures id { IfSome result (λ t. t.0 ≡ word) }
    ensures corner { IfSome result (λ t. t.1 ≡ corner_word word) }
    ensures level { IfSome result (λ t. level_of t.0 ≤ 2) }
{
    let id = GraphId::of_value(word).ok()?;
    if id.id() != 0 {
        return None;
    }
    let corner = south_west(id.level(), id.tile())?;
    Some((id, point_word(corner)))
}

/// The bytes of the file of a header.
pub(crate) fn file_size(header: &Header) -> u64
    ensures { result ≡ file_size header.now }
{
    let (nodes, edges, transitions) = (header.nodes, header.edges, header.transitions);
    let (chain_words, sequence_words) = (header.chain_words, header.sequence_words);
    let (info_bytes, text_bytes) = (header.info_bytes, header.text_bytes);
    let records = 32 * u64::from(nodes) + 32 * u64::from(edges) + 8 * u64::from(transitions);
    let lists = 8 * u64::from(chain_words) + 8 * u64::from(sequence_words);
    let last = u64::from(info_bytes) + u64::from(text_bytes);
    64 + records + lists + last + (8 - last % 8) % 8
}

/// Whether there are modes, all of them known.
fn are_modes(modes: u16) -> bool
    ensures { result ≡ are_modes modes }
{
    modes > 0 && modes & ALL == modes
}

/// The header that eight words say, of which the second is this GraphId.
fn header_of(id: GraphId, words: [u64; 8]) -> Header
    requires { id ≡ slice_index words 1 }
    ensures { result ≡ header_of words }
{
    Header {
        id,
        modes: (words[7] >> 48) as u16,
        nodes: (words[3] & 0xffff_ffff) as u32,
        edges: (words[3] >> 32) as u32,
        transitions: (words[4] & 0xffff_ffff) as u32,
        chain_words: (words[4] >> 32) as u32,
        sequence_words: (words[5] & 0xffff_ffff) as u32,
        texts: (words[5] >> 32) as u32,
        info_bytes: (words[6] & 0xffff_ffff) as u32,
        text_bytes: (words[6] >> 32) as u32,
    }
}

/// Whether neither nodes nor edges are too many.
fn few_records(header: &Header) -> bool
    ensures { result ≡ (nat_le header.now.nodes MOST_RECORDS && nat_le header.now.edges MOST_RECORDS) }
{
    header.nodes <= MOST_RECORDS && header.edges <= MOST_RECORDS
}

/// Whether the transitions are at most twice the nodes.
fn few_transitions(header: &Header) -> bool
    ensures { result ≡ nat_le header.now.transitions (2 * header.now.nodes) }
{
    let nodes = header.nodes;
    u64::from(header.transitions) <= 2 * u64::from(nodes)
}

/// Whether a file of so many bytes has the size that its last word and its sections say, and modes.
fn has_size(size: u64, last_word: u64, header: &Header) -> bool
    ensures is { result ≡ (last_word % 2 ^ 48 == size && file_size header.now == size && are_modes header.now.modes) }
    ensures whole { IsTrue result → file_size header.now ≡ size }
{
    last_word & 0xffff_ffff_ffff == size && file_size(header) == size && are_modes(header.modes)
}

/// The header of a file.
#[tactic(auto, unfolding(crate::specs::Header::header_at))]
pub(crate) fn read_header(bytes: &[u8]) -> Result<Header, SectionFault>
    ensures header { Gives (λ h. (h, drop 64 bytes.now)) result (header_at bytes.now) }
    ensures whole { IfOk result (λ _. 64 ≤ length bytes.now) }
    ensures level { IfOk result (λ h. level_of h.id ≤ 2) }
    ensures size { IfOk result (λ h. file_size h ≡ length bytes.now) }
{
    let size = bytes.len() as u64;
    if size < 64 {
        return Err(SectionFault::Bad { check: 1, at: size });
    }
    let words = eight_words(bytes);
    if words[0] != SIGNATURE {
        return Err(SectionFault::Bad { check: 2, at: 0 });
    }
    let Some((id, corner)) = named_tile(words[1]) else {
        return Err(SectionFault::Bad { check: 3, at: 8 });
    };
    if words[2] != corner {
        return Err(SectionFault::Bad { check: 4, at: 16 });
    }
    let header = header_of(id, words);
    if !few_records(&header) {
        return Err(SectionFault::Bad { check: 5, at: 24 });
    }
    if !few_transitions(&header) {
        return Err(SectionFault::Bad { check: 6, at: 32 });
    }
    if !has_size(size, words[7], &header) {
        return Err(SectionFault::Bad { check: 7, at: 56 });
    }
    Ok(header)
}

/// A word of two halves.
fn word_of_halves(low: u32, high: u32) -> u64
    ensures { result ≡ low + 2 ^ 32 * high }
{
    u64::from(low) + (u64::from(high) << 32)
}

/// The last word of a header: the size of the file and the modes.
fn last_word(size: u64, modes: u16) -> u64
    requires { size < 2 ^ 48 }
    ensures { result ≡ size + 2 ^ 48 * modes }
{
    size + (u64::from(modes) << 48)
}

/// The words of a header.
#[tactic(auto, unfolding(crate::specs::Header::header_words))]
pub(crate) fn header_words(header: &Header, corner: u64) -> [u64; 8]
    requires corner { corner ≡ corner_word header.now.id }
    requires size { file_size header.now < 2 ^ 48 }
    ensures { result ≡ header_words header.now }
{
    [
        SIGNATURE,
        header.id.value(),
        corner,
        word_of_halves(header.nodes, header.edges),
        word_of_halves(header.transitions, header.chain_words),
        word_of_halves(header.sequence_words, header.texts),
        word_of_halves(header.info_bytes, header.text_bytes),
        last_word(file_size(header), header.modes),
    ]
}
