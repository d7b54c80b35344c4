//! Patterns of turn restrictions.

ghost use Rattle.std.specs.Prelude.{◌≡◌, ◌<◌, ◌≤◌, ◌+◌, ◌^◌, ◌++◌, ◌∷◌, [], length, OnOk, OnErr, IsTrue, ◌↔◌, slice_range, slice_index_or, All};
ghost use Rattle.complex_restr.specs.Codes.{CodesBelow};

use std::alloc::{AllocError, Global};
use std::marker::Model;

/// Where the codes of a pattern stand among those of all patterns, and its modes.
#[derive(Clone, Copy, Debug)]
pub(crate) struct PatternRow {
    from: u32,
    to: u32,
    modes: u16,
}

/// A list of patterns: directed pieces by their codes, which modes may not go along one after the other. Contracts see
/// it as the list of these pairs of codes and modes.
#[derive(Debug, Drop)]
pub struct TurnPatterns {
    rows: Vec<PatternRow>,
    codes: Vec<u32>,
}

impl Model for TurnPatterns {
    ghost use Rattle.std.specs.Prelude.{List, ℕ, map};

    ghost Value = { List (List ℕ × ℕ) };

    ghost use Rattle.complex_restr.specs.PatternRows.{pattern_of, AreInside};

    ghost view = { λ a. map (pattern_of a.codes.items) a.rows.items };

    ghost invariant = { λ a. AreInside a.codes.items a.rows.items };
}

impl TurnPatterns {
    /// An empty list. Does not allocate.
    pub fn new(alloc: Global) -> TurnPatterns
        ensures { result ≡ [] }
    {
        TurnPatterns {
            rows: Vec::new(alloc),
            codes: Vec::new(alloc),
        }
    }

    /// The number of patterns.
    pub fn len(&self) -> usize
        ensures { result ≡ length self.now }
    {
        self.rows.len()
    }

    /// Whether there is none.
    pub fn is_empty(&self) -> bool
        ensures { IsTrue result ↔ (self.now ≡ []) }
    {
        self.rows.is_empty()
    }

    #[tactic(auto, using(crate::proofs::PatternLemmas::pattern_behind, crate::proofs::PatternLemmas::inside_behind, crate::proofs::PatternLemmas::patterns_kept, crate::proofs::PatternLemmas::inside_kept))]
    /// Puts a pattern after the last one. Without memory, or room for it, the list stays as it was: there is room for
    /// 4,294,967,295 codes.
    pub fn push(&mut self, codes: &[u32], modes: u16) -> Result<(), AllocError>
        ensures ok { OnOk result (self.new ≡ self.old ++ (codes.now, modes) ∷ []) }
        ensures err { OnErr result (self.new ≡ self.old) }
    {
        let most = u32::MAX as usize;
        let from = self.codes.len();
        if from > most || codes.len() > most - from {
            return Err(AllocError);
        }
        self.codes.extend_from_slice(codes)?;
        self.rows.push(PatternRow {
            from: from as u32,
            to: self.codes.len() as u32,
            modes,
        })?;
        Ok(())
    }

    /// The pattern at place `i`.
    pub fn at(&self, i: usize) -> PatternView<'_>
        requires { i < length self.now }
        ensures { result ≡ slice_index_or self.now i result }
    {
        let row = self.rows[i];
        PatternView {
            codes: &self.codes[row.from as usize..row.to as usize],
            modes: row.modes,
        }
    }

    /// Whether each code of the patterns is below that number.
    pub fn is_below(&self, count: usize) -> bool
        ensures { IsTrue result ↔ CodesBelow count self.now }
    {
        for i in 0..self.len() {
            if !are_below(self.at(i).codes(), count) {
                return false;
            }
        }
        true
    }
}

/// Whether each of these codes is below that number.
fn are_below(codes: &[u32], count: usize) -> bool
    ensures { IsTrue result ↔ All (λ c. c < count) codes.now }
{
    codes.iter().all(|code| (*code as usize) < count)
}

/// A pattern, to be read. Contracts see it as the pair of its codes and its modes.
#[derive(Debug, Drop)]
pub struct PatternView<'a> {
    codes: &'a [u32],
    modes: u16,
}

impl<'a> Model for PatternView<'a> {
    ghost use Rattle.std.specs.Prelude.{List, ℕ};

    ghost Value = { List ℕ × ℕ };

    ghost view = { λ v. (v.codes.now, v.modes) };
}

impl<'a> PatternView<'a> {
    /// The codes of its directed pieces, in order.
    pub fn codes(&self) -> &'a [u32]
        ensures { result.now ≡ self.now.0 }
    {
        self.codes
    }

    /// The modes to which it is forbidden, as bits.
    pub fn modes(&self) -> u16
        ensures { result ≡ self.now.1 }
    {
        self.modes
    }
}
