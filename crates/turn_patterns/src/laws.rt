//! Laws of the patterns of turn restrictions, which hold by the definitions alone.

ghost use Rattle.turn_patterns.specs.Counted.{MatchesTell, RowNumbersTell};
ghost use Rattle.turn_patterns.specs.Found.{FoundTells, OneFound};
ghost use Rattle.turn_patterns.specs.NodeFound.{NodeFound};
ghost use Rattle.turn_patterns.specs.PiecesRise.{FirstsTellPieces, PiecesRise};
ghost use Rattle.turn_patterns.specs.RowSearch.{SearchAnswers, SearchRises};
ghost use Rattle.turn_patterns.specs.WaysFound.{WaysFound};
ghost use Rattle.turn_patterns.specs.RowTests.{RowTestsDecide};
ghost use Rattle.turn_patterns.specs.RowWords.{SameWords};

use road_walks::{node_patterns_agree, pieces_listed, pieces_tell_patterns, readings_agree};

/// What is found for a turn restriction says whether it is usable.
pub fn found_tells()
    ensures { FoundTells }
{}

/// No two things are found for one turn restriction.
pub fn one_found()
    ensures { OneFound }
{}

/// The patterns of a turn restriction with via ways, an only one too, are the words that a search goes over.
pub fn words_agree()
    ensures { SameWords }
{
    pieces_tell_patterns();
    readings_agree();
}

/// A search over the members of a turn restriction answers exactly its patterns of at most 33 pieces.
pub fn search_answers()
    ensures { SearchAnswers }
{
    words_agree();
}

/// The patterns that a search answers are in order, each once.
pub fn search_rises()
    ensures { SearchRises }
{}

/// A turn restriction has a match exactly where it would have a pattern if it forbade its matches.
pub fn matches_tell()
    ensures { MatchesTell }
{}

/// The numbers of the pieces of from ways tell whether a turn restriction with via ways has a pattern, and whether one
/// is too long.
pub fn row_numbers_tell()
    ensures { RowNumbersTell }
{
    words_agree();
}

/// What is found for a turn restriction with via ways is told by its numbers and its search.
pub fn ways_answer()
    ensures { WaysFound }
{
    words_agree();
}

/// What is found for a turn restriction with a via node is told by the pieces that meet there.
pub fn node_answer()
    ensures { NodeFound }
{
    node_patterns_agree();
}

/// The tests of a search over directed pieces decide what a turn restriction with via ways asks.
pub fn row_tests_decide()
    ensures { RowTestsDecide }
{
    pieces_listed();
}

/// All directed pieces, and those that may come after one, are listed in order.
pub fn pieces_rise()
    ensures { PiecesRise }
{}

/// The pieces of some ways are listed in order.
pub fn first_pieces_rise()
    ensures { FirstsTellPieces }
{
    pieces_listed();
}
