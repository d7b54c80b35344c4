//! The infos of a tile, whole.
ghost use Rattle.std.specs.Prelude.{◌≡◌, ◌+◌, ◌<◌, ◌^◌, length, Ok, IfOk};
ghost use Rattle.section_grammar.specs.Answers.{FailedCheck, Gives};
ghost use Rattle.edge_info.specs.declared.infos.InfoSet.{InfoSet};
ghost use Rattle.edge_info.specs.Entries.{AreInfos, names_of};
ghost use Rattle.edge_info.specs.Texts.{AreTexts};
ghost use Rattle.edge_info.specs.InfoSets.{gap, joined_bytes, SpellsInfos, info_set_at};

use crate::entries::read_entries;
use crate::infos::{InfoFault, InfoSet, Infos, Texts};
use crate::laws::infos_law;
use crate::padding::read_padding;
use crate::texts::read_texts;
use crate::writes::{push_infos, push_texts};
use section_grammar::{cut, push_zeros};
use std::alloc::{AllocError, Global};

/// The one spelling of entries and the texts that they name.
pub fn write_infos(alloc: Global, infos: &Infos, texts: &Texts) -> Result<Vec<u8>, AllocError>
    requires infos { AreInfos (length texts.now) infos.now }
    requires texts { AreTexts (names_of infos.now) texts.now }
    ensures { IfOk result (λ bytes. bytes.items ≡ joined_bytes infos.now texts.now) }
{
    spelled(alloc, infos, texts)
}

/// The bytes of entries and texts.
#[tactic(auto, unfolding(crate::specs::InfoSets::joined_bytes))]
fn spelled(alloc: Global, infos: &Infos, texts: &Texts) -> Result<Vec<u8>, AllocError>
    ensures { IfOk result (λ bytes. bytes.items ≡ joined_bytes infos.now texts.now) }
{
    let mut out = Vec::new(alloc);
    push_infos(&mut out, infos)?;
    push_texts(&mut out, texts.as_slice())?;
    let size = out.len();
    push_zeros(&mut out, (8 - size % 8) % 8)?;
    Ok(out)
}

/// The three parts, one after the other.
#[tactic(auto, unfolding(crate::specs::InfoSets::info_set_at))]
fn parts(
    alloc: Global,
    bytes: &[u8],
    info_bytes: u64,
    text_bytes: u64,
    text_count: u64,
) -> Result<InfoSet, InfoFault>
    requires { info_bytes + text_bytes < 2 ^ 64 }
    ensures { Gives (λ set. set) result (info_set_at info_bytes text_bytes text_count bytes.now) }
{
    let (front, rest) = cut(bytes, info_bytes as usize);
    let infos = read_entries(alloc, info_bytes, text_count, front)?;
    let (front, rest) = cut(rest, text_bytes as usize);
    let texts = read_texts(alloc, info_bytes + text_bytes, text_count, &infos, front)?;
    read_padding(bytes.len() as u64, rest)?;
    Ok(InfoSet { infos, texts })
}

/// The infos that the bytes spell: entries of so many bytes, so many texts of so many bytes, and zeros up to a multiple
/// of 8. Or the first check that fails, 13, 15 or 16, and the offset at which it does.
pub fn read_infos(
    alloc: Global,
    bytes: &[u8],
    info_bytes: u64,
    text_bytes: u64,
    text_count: u64,
) -> Result<InfoSet, InfoFault>
    requires { length bytes.now ≡ info_bytes + text_bytes + gap (info_bytes + text_bytes) }
    // What is read is spelled so.
    ensures found { IfOk result (λ set. SpellsInfos bytes.now info_bytes text_bytes text_count set) }
    // What is spelled so is read, unless memory runs out.
    ensures only { (set : InfoSet) → SpellsInfos bytes.now info_bytes text_bytes text_count set
        → Gives (λ s. s) result (Ok set) }
    // Which fault it is.
    ensures exact { Gives (λ s. s) result (info_set_at info_bytes text_bytes text_count bytes.now) }
{
    infos_law();
    parts(alloc, bytes, info_bytes, text_bytes, text_count)
}
