//! The kinds of restrictions.

ghost use Rattle.std.specs.Prelude.{◌≡◌, option_map, false};
ghost use Rattle.osm_restrictions.specs.Kinds.{turn_kind, is_right_count};

/// What a value says of turns, and which roles may have several members.
#[derive(Clone, Copy, Debug)]
pub(crate) struct TurnKind {
    pub only: bool,
    pub u_turn: bool,
    pub many_from: bool,
    pub many_to: bool,
}

/// A kind with one `from` and one `to`.
fn single(only: bool, u_turn: bool) -> TurnKind
    ensures { result ≡ record { only = only; u_turn = u_turn; many_from = false; many_to = false } }
{
    TurnKind {
        only,
        u_turn,
        many_from: false,
        many_to: false,
    }
}

/// The kind of a value.
pub(crate) fn kind_of(value: &str) -> Option<TurnKind>
    ensures { result ≡ option_map (λ row. record { only = row.only; u_turn = row.u_turn; many_from = row.many_from; many_to = row.many_to }) (turn_kind value.now) }
{
    match value {
        "no_right_turn" | "no_left_turn" | "no_straight_on" => Some(single(false, false)),
        "no_u_turn" => Some(single(false, true)),
        "no_entry" => Some(TurnKind {
            many_from: true,
            ..single(false, false)
        }),
        "no_exit" => Some(TurnKind {
            many_to: true,
            ..single(false, false)
        }),
        "only_right_turn" | "only_left_turn" | "only_straight_on" => Some(single(true, false)),
        "only_u_turn" => Some(single(true, true)),
        _ => None,
    }
}

/// Whether there are as many members as a kind asks.
pub(crate) fn is_right_count(many: bool, count: usize) -> bool
    ensures { result ≡ is_right_count many count }
{
    if many { count >= 1 } else { count == 1 }
}
