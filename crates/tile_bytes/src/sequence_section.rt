//! The sequence section, read.
ghost use Rattle.std.specs.Prelude.{◌≡◌, ◌≤◌, ◌*◌, length, IfOk, OnOk};
ghost use Rattle.std.specs.Cmp.Lexicographic.{slice_cmp};
ghost use Rattle.std.specs.Ordering.{nat_cmp};
ghost use Rattle.section_grammar.specs.WordBytes.{words_in};
ghost use Rattle.section_grammar.specs.Answers.{Gives};
ghost use Rattle.tile_bytes.specs.Items.{rises};
ghost use Rattle.tile_bytes.specs.Sequences.{sequence_less, sequence_passes, first_word_passes, sequence_at, sequences_at};

use crate::ids::{LevelRule, ids_of};
use crate::sequences::{FEWEST_EDGES, MOST_EDGES, Sequences};
use graph_id::GraphId;
use section_grammar::{SectionFault, place, word};
use std::alloc::{AllocError, Global};
use std::cmp::Ordering;
use way_tags::VEHICLES;

/// GraphIds compared with words, number by number, a prefix first.
fn compare(ids: &[GraphId], words: &[u64]) -> Ordering
    ensures { result ≡ slice_cmp nat_cmp ids.now words.now }
{
    for i in 0..ids.len().min(words.len()) {
        match ids[i].value().cmp(&words[i]) {
            Ordering::Less => return Ordering::Less,
            Ordering::Greater => return Ordering::Greater,
            Ordering::Equal => {}
        }
    }
    ids.len().cmp(&words.len())
}

/// Whether these words and modes are above the last sequence.
fn rises_behind(sequences: &Sequences, words: &[u64], modes: u16) -> bool
    ensures { result ≡ rises sequence_less sequences.now (record { edges = words.now; modes = modes }) }
{
    let len = sequences.len();
    if len == 0 {
        return true;
    }
    match compare(sequences.edges(len - 1), words) {
        Ordering::Less => true,
        Ordering::Equal => sequences.modes(len - 1) < modes,
        Ordering::Greater => false,
    }
}

/// Whether these words and modes pass as a sequence.
fn sequence_passes(sequences: &Sequences, words: &[u64], modes: u16) -> bool
    ensures { result ≡ sequence_passes sequences.now (record { edges = words.now; modes = modes }) }
{
    words.len() >= FEWEST_EDGES
        && words.len() <= MOST_EDGES
        && modes > 0
        && modes & VEHICLES == modes
        && rises_behind(sequences, words, modes)
}

/// Fills a list with so many words.
fn fill_words(words: &mut Vec<u64>, count: usize, bytes: &[u8]) -> Result<(), AllocError>
    requires { 8 * count ≤ length bytes.now }
    ensures { OnOk result (words.new.items ≡ words_in count bytes.now) }
{
    words.clear();
    let mut rest = bytes;
    for _ in 0..count {
        words.push(word(rest))?;
        let (_, after) = rest.split_at(8);
        rest = after;
    }
    Ok(())
}

/// Whether the first word of a sequence passes.
fn first_word_passes(
    sequences: &Sequences,
    words: &mut Vec<u64>,
    bytes: &[u8],
) -> Result<bool, AllocError>
    requires { 8 ≤ length bytes.now }
    ensures { IfOk result (λ b. b ≡ first_word_passes sequences.now bytes.now) }
{
    let first = word(bytes);
    let (_, rest) = bytes.split_at(8);
    let count = (first & 0xffff) as usize;
    if first >> 32 != 0 || rest.len() / 8 < count {
        return Ok(false);
    }
    fill_words(words, count, rest)?;
    Ok(sequence_passes(sequences, words, (first >> 16 & 0xffff) as u16))
}

/// A sequence at the front: its edges are put into `ids`, and its modes are answered.
#[tactic(auto, unfolding(crate::specs::Sequences::sequence_at))]
fn sequence_of<'a>(
    end: u64,
    sequences: &Sequences,
    words: &mut Vec<u64>,
    ids: &mut Vec<GraphId>,
    bytes: &'a [u8],
) -> Result<(u16, &'a [u8]), SectionFault>
    ensures { Gives (λ x. (record { edges = ids.new.items; modes = x.0 }, x.1.now)) result (sequence_at end sequences.now bytes.now) }
{
    ids.clear();
    let at = place(end, bytes);
    if bytes.len() < 8 {
        return Err(SectionFault::Bad { check: 12, at });
    }
    if !first_word_passes(sequences, words, bytes)? {
        return Err(SectionFault::Bad { check: 12, at });
    }
    let first = word(bytes);
    let (_, rest) = bytes.split_at(8);
    let rest = ids_of(
        LevelRule::Any,
        12,
        end,
        (first & 0xffff) as usize,
        rest,
        ids,
    )?;
    Ok(((first >> 16 & 0xffff) as u16, rest))
}

/// The sequences that fill a section, which ends at this place.
pub(crate) fn sequences_in(alloc: Global, end: u64, bytes: &[u8]) -> Result<Sequences, SectionFault>
    ensures { Gives (λ s. s) result (sequences_at end bytes.now) }
{
    let mut sequences = Sequences::new(alloc);
    let mut words = Vec::new(alloc);
    let mut ids = Vec::new(alloc);
    let mut rest = bytes;
    while !rest.is_empty() {
        let (modes, after) = sequence_of(end, &sequences, &mut words, &mut ids, rest)?;
        sequences.push(&ids, modes)?;
        rest = after;
    }
    Ok(sequences)
}
