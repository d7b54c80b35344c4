//! Names of many roads.

ghost use Rattle.std.specs.Prelude.{◌≡◌, ◌<◌, ◌≤◌, ◌++◌, ◌∷◌, [], length, OnOk, OnErr, IsTrue, ◌↔◌, slice_range, slice_index_or};
ghost use Rattle.osm_model.specs.Grew.{Grew};

use osm_model::{TagText, TextTable};
use std::alloc::{AllocError, Global};
use std::marker::Model;

/// The names of many roads, one after the other. Contracts see it as the list of these names. Each text is kept
/// once, and a name is the number of its text.
#[derive(Debug, Drop)]
pub(crate) struct NameRows {
    texts: TextTable,
    numbers: Vec<u32>,
}

impl Model for NameRows {
    ghost use Rattle.std.specs.Prelude.{List, ℕ, map};

    ghost Value = { List (List ℕ) };

    ghost use Rattle.road_pieces.specs.NameRows.{text_of, AreNumbers};

    ghost view = { λ a. map (text_of a.texts) a.numbers.items };

    ghost invariant = { λ a. AreNumbers a.texts a.numbers.items };
}

impl NameRows {
    /// No name yet. Takes no memory.
    pub fn new(alloc: Global) -> NameRows
        ensures { result ≡ [] }
    {
        NameRows {
            texts: TextTable::new(alloc),
            numbers: Vec::new(alloc),
        }
    }

    /// The number of names.
    pub fn len(&self) -> usize
        ensures { result ≡ length self.now }
    {
        self.numbers.len()
    }

    /// Puts a name after the last one. Without memory the list stays as it was.
    #[tactic(auto, using(crate::proofs::NameLemmas::name_behind, crate::proofs::NameLemmas::names_kept, crate::proofs::NameLemmas::numbers_more, crate::proofs::NameLemmas::numbers_stay))]
    pub fn push(&mut self, name: &TagText) -> Result<(), AllocError>
        ensures ok { OnOk result (self.new ≡ self.old ++ name.now ∷ []) }
        ensures err { OnErr result (self.new ≡ self.old) }
    {
        let number = self.texts.add(name)?;
        self.numbers.push(number)?;
        Ok(())
    }

    /// Puts names after the last one. Without memory some of them may be there.
    #[tactic(auto, using(osm_model::proofs::TextLemmas::grew_none, osm_model::proofs::TextLemmas::grew_by))]
    pub fn extend(&mut self, names: &[TagText]) -> Result<(), AllocError>
        ensures ok { OnOk result (self.new ≡ self.old ++ names.now) }
        ensures grew { Grew self.old self.new }
    {
        for name in names {
            self.push(name)?;
        }
        Ok(())
    }

    /// The names from one place up to another.
    #[tactic(auto, using(crate::proofs::NameLemmas::part_is))]
    pub fn part(&self, from: usize, to: usize) -> NamesView<'_>
        requires rises { from ≤ to }
        requires inside { to ≤ length self.now }
        ensures { result ≡ slice_range self.now from to }
    {
        NamesView {
            texts: &self.texts,
            numbers: &self.numbers[from..to],
        }
    }
}

/// Names of a road, to be read. Contracts see them as the list of these names.
#[derive(Debug, Drop)]
pub struct NamesView<'a> {
    texts: &'a TextTable,
    numbers: &'a [u32],
}

impl<'a> Model for NamesView<'a> {
    ghost use Rattle.std.specs.Prelude.{List, ℕ, map};

    ghost Value = { List (List ℕ) };

    ghost use Rattle.road_pieces.specs.NameRows.{text_of, AreNumbers};

    ghost view = { λ v. map (text_of v.texts.now) v.numbers.now };

    ghost invariant = { λ v. AreNumbers v.texts.now v.numbers.now };
}

impl<'a> NamesView<'a> {
    /// The number of names.
    pub fn len(&self) -> usize
        ensures { result ≡ length self.now }
    {
        self.numbers.len()
    }

    /// Whether there is none.
    pub fn is_empty(&self) -> bool
        ensures { IsTrue result ↔ (self.now ≡ []) }
    {
        self.numbers.is_empty()
    }

    /// The name at place `i`.
    #[tactic(auto, using(crate::proofs::NameLemmas::name_at))]
    pub fn at(&self, i: usize) -> &'a str
        requires { i < length self.now }
        ensures { result.now ≡ slice_index_or self.now i result.now }
    {
        self.texts.text(self.numbers[i])
    }
}
