//! Reading texts.
ghost use Rattle.std.specs.Prelude.{◌≡◌, ◌++◌, ◌∷◌, [], ◌==◌, ◌<◌, ◌≤◌, ◌-◌, ◌^◌, ℕ, List, true, false, length, take, drop, nat_lt, IsSome, IsTrue, IfOk, IfSome, MatchOption, ◌↔◌};
ghost use Rattle.std.specs.List.{list_any};
ghost use Rattle.std.specs.Str.{is_utf8, bytes_eq};
ghost use Rattle.section_grammar.specs.declared.fault.SectionFault.{SectionFault};
ghost use Rattle.section_grammar.specs.Reads.{read_many};
ghost use Rattle.section_grammar.specs.Answers.{FailedCheck, Check, Gives, place_of};
ghost use Rattle.edge_info.specs.Entries.{names_of};
ghost use Rattle.edge_info.specs.TextReading.{has_text, text_in, after_text, texts_there, out_of_order, text_at, texts_at};
ghost use Rattle.edge_info.specs.TextLoops.{IsFirstLate, HasSeen};

use crate::infos::{Infos, Texts};
use crate::order::{are_named, first_late, first_places};
use osm_model::{Seq, TagText};
use section_grammar::{SectionFault, half, place};
use std::alloc::{AllocError, Global};
use std::collections::BTreeMap;

/// The number of the check on texts.
const TEXT_CHECK: u8 = 15;

/// What is wrong with the text at an offset.
fn bad(at: u64) -> SectionFault
    ensures { result ≡ SectionFault.Bad 15 at }
{
    SectionFault::Bad {
        check: TEXT_CHECK,
        at,
    }
}

/// The bytes of the text at the front, where it stands whole, and what follows it.
fn cut_text(rest: &[u8]) -> Option<(&[u8], &[u8])>
    ensures { MatchOption result (has_text rest.now ≡ false)
        (λ x. (has_text rest.now ≡ true) × (x.0.now ≡ text_in rest.now) × (x.1.now ≡ after_text rest.now)) }
{
    if rest.len() < 4 {
        return None;
    }
    let len = half(rest) as usize;
    let (_, rest) = rest.split_at(4);
    if rest.len() < len {
        return None;
    }
    Some(rest.split_at(len))
}

/// How many of so many texts stand whole, one behind the other.
fn count_there(count: u64, section: &[u8]) -> usize
    ensures { result ≡ texts_there count section.now }
{
    let mut rest = section;
    let mut there: usize = 0;
    for _ in 0..count {
        let Some((_, after)) = cut_text(rest) else {
            return there;
        };
        there += 1;
        rest = after;
    }
    there
}

/// The text of these bytes, where they are UTF-8.
fn in_utf8(bytes: &[u8]) -> Option<&str>
    ensures { MatchOption result (is_utf8 bytes.now ≡ false) (λ s. (s.now ≡ bytes.now) × (is_utf8 bytes.now ≡ true)) }
{
    match str::from_utf8(bytes) {
        Ok(text) => Some(text),
        Err(_) => None,
    }
}

/// Notes a text, and tells whether it was noted before.
fn note<'a>(seen: &mut BTreeMap<&'a str, ()>, text: &'a str) -> Result<bool, AllocError>
    ensures told { IfOk result (λ was. (before : List (List ℕ)) → HasSeen seen.old before → was ≡ list_any (λ t. bytes_eq t text.now) before) }
    ensures noted { IfOk result (λ _. (before : List (List ℕ)) → HasSeen seen.old before → HasSeen seen.new (before ++ text.now ∷ [])) }
{
    let was = seen.insert(text, ())?;
    Ok(was.is_some())
}

/// The text at the front, behind those that were noted; it is noted too.
fn text_of<'a>(
    alloc: Global,
    end: u64,
    late: bool,
    seen: &mut BTreeMap<&'a str, ()>,
    rest: &'a [u8],
) -> Result<(TagText, &'a [u8]), SectionFault>
    ensures text { (names : List ℕ) (there : ℕ) (before : List (List ℕ)) → out_of_order names there (length before) ≡ late → HasSeen seen.old before
        → Gives (λ x. (x.0, x.1.now)) result (text_at end names there before rest.now) }
    ensures noted { IfOk result (λ x. (before : List (List ℕ)) → HasSeen seen.old before → HasSeen seen.new (before ++ x.0 ∷ [])) }
    ensures in_order { IfOk result (λ _. late ≡ false) }
{
    let at = place(end, rest);
    let Some((bytes, after)) = cut_text(rest) else {
        return Err(bad(at));
    };
    if bytes.is_empty() {
        return Err(bad(at));
    }
    if late {
        return Err(bad(at));
    }
    let Some(text) = in_utf8(bytes) else {
        return Err(bad(at));
    };
    if note(seen, text)? {
        return Err(bad(at));
    }
    Ok((TagText::from_str(alloc, text)?, after))
}

/// Whether the text of this number is that one.
fn is_here(number: u64, found: usize) -> bool
    ensures { result ≡ (number == found) }
{
    number == found as u64
}

/// So many texts, of which this one is the first out of order.
fn texts_of(
    alloc: Global,
    end: u64,
    count: u64,
    late: usize,
    section: &[u8],
) -> Result<(Vec<TagText>, &[u8]), SectionFault>
    ensures { (names : List ℕ) (there : ℕ) → IsFirstLate (out_of_order names there) late
        → Gives (λ x. (x.0.items, x.1.now)) result (read_many (text_at end names there) count [] section.now) }
{
    let mut seen = BTreeMap::new(alloc);
    let mut texts = Vec::new(alloc);
    let mut rest = section;
    for number in 0..count {
        let (text, after) = text_of(alloc, end, is_here(number, late), &mut seen, rest)?;
        texts.push(text)?;
        rest = after;
    }
    Ok((texts, rest))
}

/// The texts that fill a section which ends at the offset `end`, so many as said, of these entries, or the first that
/// fails, by its offset.
#[tactic(auto, unfolding(crate::specs::TextReading::texts_at))]
pub fn read_texts(
    alloc: Global,
    end: u64,
    count: u64,
    infos: &Infos,
    section: &[u8],
) -> Result<Texts, SectionFault>
    ensures { Gives (λ x. x) result (texts_at end (names_of infos.now) count section.now) }
{
    let names = infos.names();
    let places = first_places(alloc, names, count_there(count, section))?;
    let late = first_late(&places, names);
    let (texts, rest) = texts_of(alloc, end, count, late, section)?;
    if !rest.is_empty() {
        return Err(bad(place(end, rest)));
    }
    if !are_named(&places, names) {
        return Err(bad(end));
    }
    Ok(Seq::from_vec(texts))
}
