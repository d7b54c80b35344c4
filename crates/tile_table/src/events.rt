//! What the steps of a table are to the machine of `tile_machine`.

ghost use Rattle.std.specs.Prelude.{ℕ, ◌≤◌, List};
ghost use Rattle.tile_table.specs.Shows.{Table, Shows};
ghost use Rattle.tile_table.specs.Events.{StepsAreEvents, BeginsAsMachine};

/// The law of steps: in each state of a table that keeps the rule, each kind of step on words and slots is the machine's event
/// of its row. What the step reads instead is the event's refusal, or no event, and leaves what is shown. And a table that was
/// just made shows the machine's first state.
///
/// The states of the machine are those that the table shows: claims, locks and marks as the words have them, each worker as its
/// seat's view has it, and a value inside its slot as the slots have it that are out with its holder. The function does nothing:
/// its clauses speak of the steps that the calls take.
pub fn steps_are_events<T>()
    ensures steps { (s : Table T) → (sh : Shows s) → StepsAreEvents s sh.workers }
    ensures first { (world goal : List T) (workers : ℕ) → 1 ≤ workers → BeginsAsMachine world goal workers }
{}
