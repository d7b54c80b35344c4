//! The chain section, read.
ghost use Rattle.std.specs.Prelude.{◌≡◌, ◌≤◌, ◌<◌, ◌^◌, ◌+◌, ◌∷◌, length, drop, List, ℕ, true, Err, MatchOption, IfSome, IfOk};
ghost use Rattle.std.specs.Int.{from_bool};
ghost use Rattle.tile_records.specs.Edges.{EdgeFields};
ghost use Rattle.section_grammar.specs.Answers.{Gives, Check};
ghost use Rattle.tile_bytes.specs.Chains.{chain_at, chains_at, named_chains, chain_offsets, offsets_at};
ghost use Rattle.tile_bytes.specs.TileSections.{chains_in_place};

use crate::chains::Chains;
use crate::header::Header;
use crate::ids::{LevelRule, ids_of};
use graph_id::GraphId;
use section_grammar::{SectionFault, place, word};
use std::alloc::Global;
use tile_records::EdgeRec;

/// A chain at the front, put into `ids`.
#[tactic(auto, unfolding(crate::specs::Chains::chain_at))]
fn chain_of<'a>(
    end: u64,
    level: u32,
    bytes: &'a [u8],
    ids: &mut Vec<GraphId>,
) -> Result<&'a [u8], SectionFault>
    ensures { (before : List (List ℕ)) → Gives (λ r. (ids.new.items, r.now)) result (chain_at level end before bytes.now) }
{
    ids.clear();
    let at = place(end, bytes);
    if bytes.len() < 8 {
        return Err(SectionFault::Bad { check: 11, at });
    }
    let count = word(bytes);
    let (_, rest) = bytes.split_at(8);
    if count < 2 || (rest.len() as u64) / 8 < count {
        return Err(SectionFault::Bad { check: 11, at });
    }
    ids_of(LevelRule::Only(level), 11, end, count as usize, rest, ids)
}

/// So many chains, which fill the section.
#[tactic(auto, unfolding(crate::specs::Chains::chains_at))]
fn chains_in(
    alloc: Global,
    end: u64,
    level: u32,
    count: u64,
    bytes: &[u8],
) -> Result<Chains, SectionFault>
    ensures chains { Gives (λ c. c) result (chains_at level end count bytes.now) }
    ensures count { IfOk result (λ c. length c ≡ count) }
{
    let mut chains = Chains::new(alloc);
    let mut ids = Vec::new(alloc);
    let mut rest = bytes;
    for _ in 0..count {
        let after = chain_of(end, level, rest, &mut ids)?;
        chains.push(&ids)?;
        rest = after;
    }
    if rest.is_empty() {
        Ok(chains)
    } else {
        Err(SectionFault::Bad {
            check: 11,
            at: place(end, rest),
        })
    }
}

/// Whether an edge is a shortcut.
fn is_shortcut(edge: &EdgeRec) -> bool
    ensures { result ≡ edge.now.shortcut }
{
    edge.shortcut
}

/// Where a shortcut says that its chain begins.
fn chain_place(edge: &EdgeRec) -> u32
    ensures { result ≡ edge.now.chain }
{
    edge.chain
}

/// The index of the next chain and its word offset behind this edge, and `None` where the edge is a shortcut that says
/// another offset.
#[tactic(auto, unfolding(crate::specs::Chains::offsets_at))]
fn after_edge(edge: &EdgeRec, chains: &Chains, next: usize, offset: u128) -> Option<(usize, u128)>
    requires next { edge.now.shortcut ≡ true → next < length chains.now }
    requires room { offset + 2 ^ 64 < 2 ^ 128 }
    requires small { next + 1 < 2 ^ 64 }
    ensures offsets { (at : ℕ) (edges : List EdgeFields) → MatchOption result
        (offsets_at at (edge.now ∷ edges) (chain_offsets offset (drop next chains.now)) ≡ Err (Check 11 at))
        (λ n. offsets_at at (edge.now ∷ edges) (chain_offsets offset (drop next chains.now)) ≡ offsets_at (at + 32) edges (chain_offsets n.1 (drop n.0 chains.now))) }
    ensures index { IfSome result (λ n. n.0 ≡ next + from_bool edge.now.shortcut) }
    ensures bound { IfSome result (λ n. n.1 ≤ offset + 2 ^ 64) }
{
    if !is_shortcut(edge) {
        return Some((next, offset));
    }
    if u128::from(chain_place(edge)) != offset {
        return None;
    }
    let words = 1 + chains.at(next).len() as u128;
    Some((next + 1, offset + words))
}

/// Whether each shortcut's chain begins where it says; the first of the edges stands at this place.
fn check_offsets(at: u64, edges: &[EdgeRec], chains: &Chains) -> Result<(), SectionFault>
    requires near { at < 2 ^ 62 }
    requires each { length chains.now ≡ length (named_chains edges.now) }
    ensures { Gives (λ _. tt) result (offsets_at at edges.now (chain_offsets 0 chains.now)) }
{
    let mut next = 0;
    let mut offset: u128 = 0;
    for (i, edge) in edges.iter().enumerate() {
        let Some((index, words)) = after_edge(edge, chains, next, offset) else {
            return Err(SectionFault::Bad {
                check: 11,
                at: at + 32 * i as u64,
            });
        };
        next = index;
        offset = words;
    }
    Ok(())
}

/// The chains of these edges, of which so many are shortcuts: they fill the section, which ends at this place.
#[tactic(auto, unfolding(crate::specs::TileSections::chains_in_place))]
pub(crate) fn chains_of(
    alloc: Global,
    header: &Header,
    edges: &[EdgeRec],
    shortcuts: u64,
    end: u64,
    section: &[u8],
) -> Result<Chains, SectionFault>
    requires counted { shortcuts ≡ length (named_chains edges.now) }
    ensures { Gives (λ c. c) result (chains_in_place header.now edges.now end section.now) }
{
    let nodes = header.nodes;
    let chains = chains_in(alloc, end, header.id.level(), shortcuts, section)?;
    check_offsets(64 + 32 * u64::from(nodes), edges, &chains)?;
    Ok(chains)
}
