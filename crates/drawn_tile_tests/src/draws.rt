//! Tiles drawn by a fixed generator, written and read again, and such files with a byte changed.
ghost use Rattle.std.specs.Prelude.{◌≤◌, ◌<◌};

use section_grammar::{push_half, push_record, push_word, push_zeros};
use std::alloc::{AllocError, Global};
use std::test::Fail;
use tile_bytes::{SIGNATURE, TileFault, read_tile, write_tile};

/// The tile of the files: 519120 of level 2, whose south-west corner is at (0, 0).
const TILE: u64 = 4_152_962;

/// The texts of a file are the first of these letters, one each.
const LETTERS: [u8; 16] = *b"abcdefghijklmnop";

/// How many things of each kind a file has.
#[derive(Clone, Copy, Debug)]
struct Counts {
    nodes: u64,
    sequences: u64,
    entries: u64,
}

/// The next number of a row of pseudo-random numbers, below `limit`.
fn below(state: &mut u64, limit: u64) -> u64
    requires { 1 ≤ limit }
    ensures { result < limit }
{
    *state = state
        .wrapping_mul(6_364_136_223_846_793_005)
        .wrapping_add(1_442_695_040_888_963_407);
    (*state >> 33) % limit
}

/// A GraphId of a level, whose tile and id are drawn.
fn drawn_id(state: &mut u64, level: u64) -> u64 {
    below(state, 1 << 30) << 15 | below(state, 1 << 12) << 3 | level
}

/// The counts of a file: up to 12 nodes, up to 4 sequences, and up to 16 entries.
fn drawn_counts(state: &mut u64) -> Counts {
    Counts {
        nodes: 1 + below(state, 12),
        sequences: below(state, 5),
        entries: 1 + below(state, 16),
    }
}

/// How many of the first numbers are multiples of another.
fn multiples(numbers: u64, of: u64) -> u64
    requires { 1 ≤ of }
{
    numbers.div_ceil(of)
}

/// The words of a header. A node has two edges, and each third a transition; each fifth edge is a shortcut, whose chain
/// has four words, as a sequence has; an entry has 44 bytes, and its text 5.
fn header_words(counts: Counts) -> [u64; 8] {
    let nodes = counts.nodes;
    let edges = nodes.wrapping_mul(2);
    let transitions = multiples(nodes, 3);
    let chain_words = multiples(edges, 5).wrapping_mul(4);
    let sequence_words = counts.sequences.wrapping_mul(4);
    let infos = counts.entries.wrapping_mul(44);
    let texts = counts.entries.wrapping_mul(5);
    let records = nodes
        .wrapping_mul(32)
        .wrapping_add(edges.wrapping_mul(32))
        .wrapping_add(transitions.wrapping_mul(8));
    let lists = chain_words.wrapping_add(sequence_words).wrapping_mul(8);
    let last = infos.wrapping_add(texts);
    let size = records
        .wrapping_add(lists)
        .wrapping_add(last.wrapping_add(71) & !7);
    [
        SIGNATURE,
        TILE,
        0,
        nodes | edges << 32,
        transitions | chain_words << 32,
        sequence_words | counts.entries << 32,
        infos | texts << 32,
        size | 1 << 48,
    ]
}

/// The words of the node with this number.
fn node_words(state: &mut u64, number: u64) -> [u64; 4] {
    let transition = u64::from(number % 3 == 0);
    [
        number.wrapping_mul(1000) | below(state, 8),
        below(state, 2_400_000) | below(state, 2_400_000) << 32,
        number.wrapping_mul(2) | 2 << 21 | multiples(number, 3) << 29 | transition << 51,
        below(state, 1 << 21),
    ]
}

/// The words of the edge with this number.
fn edge_words(state: &mut u64, number: u64, entries: u64) -> [u64; 4] {
    let shortcut = u64::from(number % 5 == 0);
    let chain = shortcut.wrapping_mul(number / 5).wrapping_mul(4);
    [
        TILE | below(state, 1 << 20) << 25 | below(state, 1 << 16) << 46,
        below(state, 1 << 28)
            | below(state, 1 << 15) << 28
            | shortcut << 43
            | below(state, 16) << 44,
        below(state, 1 << 31) | 6 << 32 | below(state, 256) << 35,
        below(state, entries.max(1)).wrapping_mul(44) | chain << 32,
    ]
}

/// The words of a chain of three edges.
fn chain_words(state: &mut u64) -> [u64; 4] {
    [
        3,
        drawn_id(state, 2),
        drawn_id(state, 2),
        drawn_id(state, 2),
    ]
}

/// The words of the sequence with this number: three edges, of which the first is higher in each.
fn sequence_words(state: &mut u64, number: u64) -> [u64; 4] {
    let modes = 1 | below(state, 2) << 2 | below(state, 2) << 3 | below(state, 2) << 6;
    [
        3 | modes << 16,
        TILE | number << 25,
        drawn_id(state, 1),
        drawn_id(state, 0),
    ]
}

/// A half word that may be a latitude.
fn drawn_half(state: &mut u64) -> u32 {
    below(state, 900_000_000) as u32
}

/// The half words of the entry with this number: its way, run and piece, two points, and its one name.
fn entry_halves(state: &mut u64, number: u64) -> [u32; 11] {
    let number = (number & 0xff) as u32;
    [
        number,
        0,
        drawn_half(state),
        drawn_half(state),
        2,
        drawn_half(state),
        drawn_half(state),
        drawn_half(state),
        drawn_half(state),
        1,
        number,
    ]
}

/// Puts half words behind the bytes.
fn push_halves(out: &mut Vec<u8>, halves: &[u32]) -> Result<(), AllocError> {
    for half in halves {
        push_half(out, *half)?;
    }
    Ok(())
}

/// Puts a header and the records behind the bytes.
fn push_records(out: &mut Vec<u8>, state: &mut u64, counts: Counts) -> Result<(), AllocError> {
    for word in header_words(counts) {
        push_word(out, word)?;
    }
    for number in 0..counts.nodes {
        push_record(out, node_words(state, number))?;
    }
    for number in 0..counts.nodes.wrapping_mul(2) {
        push_record(out, edge_words(state, number, counts.entries))?;
    }
    Ok(())
}

/// Puts transitions, chains and sequences behind the bytes.
fn push_lists(out: &mut Vec<u8>, state: &mut u64, counts: Counts) -> Result<(), AllocError> {
    for _ in 0..multiples(counts.nodes, 3) {
        push_word(out, drawn_id(state, 1))?;
    }
    for _ in 0..multiples(counts.nodes.wrapping_mul(2), 5) {
        push_record(out, chain_words(state))?;
    }
    for number in 0..counts.sequences {
        push_record(out, sequence_words(state, number))?;
    }
    Ok(())
}

/// Puts entries, their texts and the padding behind the bytes.
fn push_infos(out: &mut Vec<u8>, state: &mut u64, counts: Counts) -> Result<(), AllocError> {
    for number in 0..counts.entries {
        push_halves(out, &entry_halves(state, number))?;
    }
    for letter in LETTERS.iter().take(counts.entries as usize) {
        push_half(out, 1)?;
        out.push(*letter)?;
    }
    let size = out.len();
    push_zeros(out, (8 - size % 8) % 8)
}

/// A drawn file.
fn drawn_file(alloc: Global, state: &mut u64) -> Result<Vec<u8>, AllocError> {
    let counts = drawn_counts(state);
    let mut out = Vec::new(alloc);
    push_records(&mut out, state, counts)?;
    push_lists(&mut out, state, counts)?;
    push_infos(&mut out, state, counts)?;
    Ok(out)
}

/// What becomes of bytes: read, and written as these very bytes; refused at a check; or anything else.
#[derive(Clone, Copy, Debug, PartialEq, Eq)]
enum Outcome {
    Written,
    Refused,
    Wrong,
}

/// What becomes of these bytes.
fn outcome_of(alloc: Global, bytes: &[u8]) -> Outcome {
    match read_tile(alloc, bytes) {
        Ok(tile) => match write_tile(alloc, &tile) {
            Ok(written) if written.as_slice() == bytes => Outcome::Written,
            _ => Outcome::Wrong,
        },
        Err(TileFault::Bad { .. }) => Outcome::Refused,
        Err(TileFault::OutOfMemory) => Outcome::Wrong,
    }
}

/// What becomes of a file with a drawn byte changed.
fn changed(alloc: Global, state: &mut u64, file: &[u8]) -> Result<Outcome, AllocError> {
    let mut bytes = Vec::new(alloc);
    bytes.extend_from_slice(file)?;
    if !bytes.is_empty() {
        let at = below(state, bytes.len() as u64) as usize;
        bytes[at] ^= 1 + below(state, 255) as u8;
    }
    Ok(outcome_of(alloc, &bytes))
}

/// How many outcomes of each kind there were.
#[derive(Clone, Copy, Debug)]
struct Tally {
    written: u32,
    refused: u32,
    wrong: u32,
}

/// Counts an outcome.
fn count(tally: &mut Tally, outcome: Outcome) {
    match outcome {
        Outcome::Written => tally.written = tally.written.saturating_add(1),
        Outcome::Refused => tally.refused = tally.refused.saturating_add(1),
        Outcome::Wrong => tally.wrong = tally.wrong.saturating_add(1),
    }
}

/// The outcomes of so many drawn files, each of which is `Wrong` if it isn't written as it was read, and of so many
/// changes of each.
fn tally_of(alloc: Global, files: u32, changes: u32) -> Result<Tally, AllocError> {
    let mut state = 7;
    let mut tally = Tally {
        written: 0,
        refused: 0,
        wrong: 0,
    };
    for _ in 0..files {
        let file = drawn_file(alloc, &mut state)?;
        if outcome_of(alloc, &file) != Outcome::Written {
            count(&mut tally, Outcome::Wrong);
        }
        for _ in 0..changes {
            count(&mut tally, changed(alloc, &mut state, &file)?);
        }
    }
    Ok(tally)
}

#[test]
fn drawn_files(rt: HostRuntime) -> Result<(), Fail> {
    let tally = tally_of(rt.alloc(), 30, 40)?;
    assert_eq!(rt;
        (tally.wrong, tally.written > 100, tally.refused > 100),
        (0, true, true),
        "{tally:?}"
    );
    Ok(())
}
