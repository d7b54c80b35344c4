//! GraphIds in a tile file.
ghost use Rattle.std.specs.Prelude.{◌≡◌, ◌≤◌, length, drop, List, ℕ, IfOk};
ghost use Rattle.section_grammar.specs.Reads.{read_many};
ghost use Rattle.section_grammar.specs.Answers.{Gives};
ghost use Rattle.tile_bytes.specs.Items.{allows, id_at};

use graph_id::GraphId;
use osm_model::Seq;
use section_grammar::{SectionFault, place, word};

/// A list of GraphIds.
pub type Ids = Seq<GraphId>;

/// The levels that a GraphId may have.
#[derive(Clone, Copy, Debug)]
pub enum LevelRule {
    /// This one.
    Only(u32),
    /// One of 0 to 2 that isn't this one.
    Except(u32),
    /// One of 0 to 2.
    Any,
}

/// Whether a level may be had.
fn allows(rule: LevelRule, level: u32) -> bool
    ensures { result ≡ allows rule level }
{
    match rule {
        LevelRule::Only(only) => level == only,
        LevelRule::Except(other) => level <= 2 && level != other,
        LevelRule::Any => level <= 2,
    }
}

/// A GraphId at the front.
#[tactic(auto, unfolding(crate::specs::Items::id_at))]
fn id_of(rule: LevelRule, check: u8, end: u64, bytes: &[u8]) -> Result<GraphId, SectionFault>
    ensures id { (before : List ℕ) → Gives (λ id. (id, drop 8 bytes.now)) result (id_at rule check end before bytes.now) }
    ensures whole { IfOk result (λ _. 8 ≤ length bytes.now) }
{
    let at = place(end, bytes);
    if bytes.len() < 8 {
        return Err(SectionFault::Bad { check, at });
    }
    let Ok(id) = GraphId::of_value(word(bytes)) else {
        return Err(SectionFault::Bad { check, at });
    };
    if !allows(rule, id.level()) {
        return Err(SectionFault::Bad { check, at });
    }
    Ok(id)
}

/// So many GraphIds, put behind those that are there.
pub(crate) fn ids_of<'a>(
    rule: LevelRule,
    check: u8,
    end: u64,
    count: usize,
    bytes: &'a [u8],
    ids: &mut Vec<GraphId>,
) -> Result<&'a [u8], SectionFault>
    ensures { Gives (λ r. (ids.new.items, r.now)) result (read_many (id_at rule check end) count ids.old.items bytes.now) }
{
    let mut rest = bytes;
    for _ in 0..count {
        let id = id_of(rule, check, end, rest)?;
        let (_, after) = rest.split_at(8);
        ids.push(id)?;
        rest = after;
    }
    Ok(rest)
}
