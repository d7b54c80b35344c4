//! Laws of searches over words, which hold by the definitions alone.

ghost use Rattle.std.specs.Prelude.{ℕ, ◌<◌};
ghost use Rattle.pattern_search.specs.Members.{ReadState, SetsTell};
ghost use Rattle.pattern_search.specs.Most.{FirstsTell, MostTells, TableTells};
ghost use Rattle.pattern_search.specs.Deciding.{TestsAreRight};
ghost use Rattle.pattern_search.specs.Numbers.{NumbersTell};
ghost use Rattle.pattern_search.specs.Renamed.{SameWordsRenamed};
ghost use Rattle.pattern_search.specs.ViaSets.{StepsTell};
ghost use Rattle.pattern_search.specs.ViaWays.{RestsTell};
ghost use Rattle.pattern_search.specs.Words.{RisingIsShort, WordSearch, WordsTell};

/// A search spells exactly the words, in order and each once.
pub fn words_tell()
    ensures { (s : WordSearch (ReadState ℕ) ℕ) → WordsTell s (λ p q. p < q) }
{}

/// A search over sets of members spells the words that can be read member by member.
pub fn sets_tell()
    ensures { SetsTell ℕ }
{}

/// From a member of a via way on, the words that are read are those of the via ways behind it.
pub fn rests_tell()
    ensures { RestsTell }
{}

/// The number along a line is the length of the longest word along it, up to a cap.
pub fn most_tells()
    ensures { MostTells }
{}

/// The number of some letters is the length of the longest word that begins with one of them, up to a cap.
pub fn firsts_tell()
    ensures { FirstsTell }
{}

/// The numbers that are made place by place are those along the lines.
pub fn table_tells()
    ensures { TableTells }
{}

/// A list of words that rises is no longer than any list with its words.
pub fn rising_is_short()
    ensures { RisingIsShort }
{}

/// A search over numbers that stand for letters spells the same words.
pub fn renamed_words()
    ensures { SameWordsRenamed ℕ }
{}

/// The members at which a word may be after a letter, told by the tests of via ways.
pub fn steps_tell()
    ensures { StepsTell ℕ }
{}

/// The numbers made from the last via way back to the first are the lengths of the longest words, up to a cap.
pub fn numbers_tell()
    ensures { NumbersTell }
{}

/// Tests that decide what via ways ask make the members of these ways.
pub fn tests_are_right()
    ensures { TestsAreRight }
{}
