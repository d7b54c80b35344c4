//! What was worked out by hand, which the checker computes from the definitions.

ghost use Rattle.std.specs.Prelude.{◌≡◌, [], ◌∷◌};
ghost use Rattle.extract_maker.specs.Grid.{draws};

/// For seed 1 the first two draws: 1,103,527,590 and 377,401,575 are the states, and each is divided by 65,536. The call
/// runs no code: its contract is what it is for.
pub fn worked_draws()
    ensures { draws 2 1 ≡ 16_838 ∷ 5_758 ∷ [] }
{}
