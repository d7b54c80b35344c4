//! The words of a search, in order, up to a limit.

ghost use Rattle.std.specs.Prelude.{◌≡◌, ◌∷◌, ℕ, ◌≤◌, true, Bool, suc, length, map, IfOk, OnOk, option_map, take, All};
ghost use Rattle.std.specs.Option.{ForSome};
ghost use Rattle.pattern_search.specs.Members.{Members, by_sets};
ghost use Rattle.pattern_search.specs.Spelling.{AddedUpTo, begun_with, members_in, state_of, state_of_some, words_from, words_with};
ghost use Rattle.pattern_search.specs.Words.{ended_word, words_of};

use std::alloc::{AllocError, Global};

/// One more than the words that may be answered.
const STOP: usize = 257;

/// What a search asks of what it spells. A set of members has a test for each of them.
pub trait Readable {
    /// What is spelled, as contracts see it.
    ghost members: { Self → Members ℕ };

    /// Which numbers are letters.
    ghost is_letter: { Self → ℕ → Bool };

    /// The letters that may come after this one, in order.
    fn letters(&self, from: u32) -> &[u32]
        requires { is_letter self.now from ≡ true }
        ensures letters { result.now ≡ (members self.now).letters from }
        ensures are { All (λ q. is_letter self.now q ≡ true) result.now };

    /// Whether a word may end with this letter after `from`, at one of these members.
    fn may_end(&self, from: u32, set: &[bool], letter: u32) -> bool
        requires from { is_letter self.now from ≡ true }
        requires letter { is_letter self.now letter ≡ true }
        requires size { length set.now ≡ suc (members self.now).count }
        ensures { result ≡ (by_sets (members self.now)).last (state_of from set.now) letter };

    /// The members after this letter; `None` where there is none.
    fn next_set(
        &self,
        alloc: Global,
        from: u32,
        set: &[bool],
        letter: u32,
    ) -> Result<Option<Vec<bool>>, AllocError>
        requires from { is_letter self.now from ≡ true }
        requires letter { is_letter self.now letter ≡ true }
        requires size { length set.now ≡ suc (members self.now).count }
        ensures next { IfOk result (λ next. state_of_some letter (option_map (λ s. s.items) next) ≡ (by_sets (members self.now)).next (state_of from set.now) letter) }
        ensures size { IfOk result (λ next. ForSome next (λ s. length s.items ≡ suc (members self.now).count)) };
}

/// Adds the word with one letter more, where it may end with that and there is room for it.
fn push_word(
    alloc: Global,
    ends: bool,
    word: &[u32],
    letter: u32,
    found: &mut Vec<Vec<u32>>,
) -> Result<(), AllocError>
    requires { length found.now.items ≤ 257 }
    ensures { OnOk result (AddedUpTo (map (λ w. w.items) found.old.items) (map (λ w. w.items) found.new.items) (begun_with word.now (ended_word ends letter))) }
{
    if ends && found.len() < STOP {
        let mut whole = Vec::from_slice(alloc, word)?;
        whole.push(letter)?;
        found.push(whole)?;
    }
    Ok(())
}

/// Adds the words that begin with this one and go on with the letter, of at most so many letters more behind it.
#[cycle(spell)]
fn spell_letter<R: Readable>(
    alloc: Global,
    search: &R,
    from: u32,
    set: &[bool],
    letter: u32,
    more: u32,
    word: &mut Vec<u32>,
    found: &mut Vec<Vec<u32>>,
) -> Result<(), AllocError>
    requires from { R.is_letter search.now from ≡ true }
    requires letter { R.is_letter search.now letter ≡ true }
    requires size { length set.now ≡ suc (R.members search.now).count }
    requires few { length found.now.items ≤ 257 }
    ensures found { OnOk result (AddedUpTo (map (λ w. w.items) found.old.items) (map (λ w. w.items) found.new.items) (begun_with word.old.items (words_with (by_sets (R.members search.now)) more (state_of from set.now) letter))) }
    ensures word { OnOk result (word.new.items ≡ word.old.items) }
{
    push_word(
        alloc,
        search.may_end(from, set, letter),
        word,
        letter,
        found,
    )?;
    if found.len() >= STOP {
        return Ok(());
    }
    let next = match search.next_set(alloc, from, set, letter)? {
        Some(next) => next,
        None => return Ok(()),
    };
    spell_on(alloc, search, letter, &next, more, word, found)?;
    Ok(())
}

/// Adds the words that go on with this letter, at these members, with at most so many letters behind it.
#[cycle(spell)]
fn spell_on<R: Readable>(
    alloc: Global,
    search: &R,
    letter: u32,
    next: &[bool],
    more: u32,
    word: &mut Vec<u32>,
    found: &mut Vec<Vec<u32>>,
) -> Result<(), AllocError>
    requires letter { R.is_letter search.now letter ≡ true }
    requires size { length next.now ≡ suc (R.members search.now).count }
    requires few { length found.now.items ≤ 257 }
    ensures found { OnOk result (AddedUpTo (map (λ w. w.items) found.old.items) (map (λ w. w.items) found.new.items) (begun_with word.old.items (map (λ w. letter ∷ w) (words_of (by_sets (R.members search.now)) more (state_of letter next.now))))) }
    ensures word { OnOk result (word.new.items ≡ word.old.items) }
{
    word.push(letter)?;
    spell(alloc, search, letter, next, more, word, found)?;
    word.pop();
    Ok(())
}

/// Adds the words that begin with this one, whose last letter is `from` at one of these members, and go on with at most
/// so many letters, in order. It stops at 257 words: there may be more then.
#[cycle(spell)]
pub fn spell<R: Readable>(
    alloc: Global,
    search: &R,
    from: u32,
    set: &[bool],
    most: u32,
    word: &mut Vec<u32>,
    found: &mut Vec<Vec<u32>>,
) -> Result<(), AllocError>
    requires from { R.is_letter search.now from ≡ true }
    requires size { length set.now ≡ suc (R.members search.now).count }
    requires few { length found.now.items ≤ 257 }
    ensures found { OnOk result (AddedUpTo (map (λ w. w.items) found.old.items) (map (λ w. w.items) found.new.items) (begun_with word.old.items (words_of (by_sets (R.members search.now)) most (state_of from set.now)))) }
    ensures word { OnOk result (word.new.items ≡ word.old.items) }
{
    if most == 0 {
        return Ok(());
    }
    for letter in search.letters(from) {
        spell_letter(alloc, search, from, set, *letter, most - 1, word, found)?;
    }
    Ok(())
}

/// The words that begin with one of these letters, each at the members of `start`, and go on with at most so many
/// letters, in order. It stops at 257 words: there may be more then.
pub fn find_words<R: Readable>(
    alloc: Global,
    search: &R,
    start: &[bool],
    firsts: &[u32],
    most: u32,
) -> Result<Vec<Vec<u32>>, AllocError>
    requires letters { All (λ p. R.is_letter search.now p ≡ true) firsts.now }
    requires size { length start.now ≡ suc (R.members search.now).count }
    ensures { IfOk result (λ found. map (λ w. w.items) found.items ≡ take 257 (words_from (by_sets (R.members search.now)) most (members_in start.now) firsts.now)) }
{
    let mut found = Vec::new(alloc);
    let mut word = Vec::new(alloc);
    for first in firsts {
        spell_on(alloc, search, *first, start, most, &mut word, &mut found)?;
    }
    Ok(found)
}
