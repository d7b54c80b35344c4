//! What no clause says: the answers of calls on examples that were worked out by hand, and of the machine beside a plain
//! slow program.

ghost use Rattle.std.specs.Prelude.{◌<◌, ◌≤◌, ◌^◌};

use slow::Slow;
use std::alloc::Global;
use std::process::Abort;
use std::test::Fail;
use tile_machine::{Event, Machine, Refused, claims_stay};

mod slow;

/// Two workers finish one tile each, and one joins the other: each of these events is accepted.
#[test]
fn a_whole_run(rt: HostRuntime) -> Result<(), Fail> {
    let mut events = [Event::Split { worker: 0, at: 1 }].to_vec(rt.alloc())?;
    for worker in 0..2 {
        let tile = 1 - worker;
        events.extend_from_slice(&[
            Event::Claim { worker, tile },
            Event::Take { worker, tile },
            Event::BringOut { worker, tile },
            Event::Mark { worker, tile },
            Event::PutBack { worker, tile },
            Event::Free { worker, tile },
        ])?;
    }
    events.push(Event::Join {
        worker: 0,
        other: 1,
    })?;
    let mut machine = Machine::new(rt.alloc(), 2, 2)?;
    assert_eq!(rt; machine.run(&events), 14);
    claims_stay();
    Ok(())
}

/// Each refusal by the shortest list of events that meets it, on two tiles and four workers: the events before, and the
/// one that is refused.
#[test]
fn refusals(rt: HostRuntime) -> Result<(), Fail> {
    let claim = Event::Claim { worker: 0, tile: 0 };
    let take = Event::Take { worker: 0, tile: 0 };
    let out = Event::BringOut { worker: 0, tile: 0 };
    let mark = Event::Mark { worker: 0, tile: 0 };
    let back = Event::PutBack { worker: 0, tile: 0 };
    let split = Event::Split { worker: 0, at: 2 };
    let last = Event::Take { worker: 2, tile: 1 };
    let rows: [(&[Event], Event, Refused); 12] = [
        (&[], Event::Claim { worker: 1, tile: 0 }, Refused::NoWorker),
        (&[], Event::Claim { worker: 0, tile: 2 }, Refused::NoTile),
        (&[claim], claim, Refused::Claimed { by: 0 }),
        (
            &[take],
            Event::Take { worker: 0, tile: 1 },
            Refused::HandsFull { tile: 0 },
        ),
        (
            &[split, take],
            Event::Take { worker: 2, tile: 0 },
            Refused::Held { by: 0 },
        ),
        (&[], out, Refused::NotHolder),
        (&[take, out], out, Refused::IsOut),
        (&[take], back, Refused::IsHome),
        (&[take, out], mark, Refused::NotClaimant),
        (&[claim, take, out, mark], mark, Refused::Marked),
        (&[], Event::Split { worker: 0, at: 0 }, Refused::BadRange),
        (
            &[split, last],
            Event::Join {
                worker: 0,
                other: 2,
            },
            Refused::StillHolds { tile: 1 },
        ),
    ];
    for (before, event, cause) in &rows {
        let mut machine = Machine::new(rt.alloc(), 2, 4)?;
        assert_eq!(rt;
            machine.run(before),
            before.len() as u64,
            "before {cause:?}"
        );
        assert_eq!(rt; machine.step(*event), Err(*cause));
        assert_eq!(rt; machine.step(*event), Err(*cause), "again");
    }
    Ok(())
}

/// The next number of a linear congruential sequence.
fn next_number(seed: u64) -> u64 {
    seed.wrapping_mul(6364136223846793005)
        .wrapping_add(1442695040888963407)
}

/// An event of these workers and tiles, and seldom of one that isn't there.
fn event_of(number: u64, tiles: u64, workers: u64) -> Event
    requires tiles { tiles < 2 ^ 32 }
    requires workers { workers ≤ 64 }
{
    let worker = (number >> 16) % 65536 % (workers + 1);
    let other = (number >> 32) % 16384 % (workers + 1);
    let tile = (number >> 32) % 16384 % (tiles + 1);
    match number >> 61 {
        0 => Event::Claim { worker, tile },
        1 => Event::Take { worker, tile },
        2 => Event::BringOut { worker, tile },
        3 => Event::Mark { worker, tile },
        4 => Event::PutBack { worker, tile },
        5 => Event::Free { worker, tile },
        6 => Event::Split { worker, at: other },
        _ => Event::Join { worker, other },
    }
}

/// Which of the twenty outcomes an answer is: the event where it was accepted, else the refusal.
fn outcome(event: Event, answer: Result<(), Refused>) -> usize
    ensures { result < 20 }
{
    match answer {
        Ok(()) => match event {
            Event::Claim { .. } => 0,
            Event::Take { .. } => 1,
            Event::BringOut { .. } => 2,
            Event::Mark { .. } => 3,
            Event::PutBack { .. } => 4,
            Event::Free { .. } => 5,
            Event::Split { .. } => 6,
            Event::Join { .. } => 7,
        },
        Err(cause) => match cause {
            Refused::NoWorker => 8,
            Refused::NoTile => 9,
            Refused::Claimed { .. } => 10,
            Refused::HandsFull { .. } => 11,
            Refused::Held { .. } => 12,
            Refused::NotHolder => 13,
            Refused::IsOut => 14,
            Refused::IsHome => 15,
            Refused::NotClaimant => 16,
            Refused::Marked => 17,
            Refused::BadRange => 18,
            Refused::StillHolds { .. } => 19,
        },
    }
}

/// A list of events that begins at this seed: the machine's answers and its count are the slow program's.
fn one_list(
    rt: &impl Abort,
    alloc: Global,
    seed: u64,
    tiles: u64,
    workers: u64,
    met: &mut [bool; 20],
) -> Result<u64, Fail>
    requires tiles { tiles < 2 ^ 32 }
    requires some { 1 ≤ workers }
    requires few { workers ≤ 64 }
{
    let mut number = seed;
    let mut events = Vec::new(alloc);
    let mut machine = Machine::new(alloc, tiles, workers)?;
    let mut slow = Slow::new(alloc, tiles, workers)?;
    let mut accepted: u64 = 0;
    for _ in 0..100 {
        number = next_number(number);
        let event = event_of(number, tiles, workers);
        events.push(event)?;
        let answer = machine.step(event);
        assert_eq!(rt;
            answer.err(),
            slow.answer(event)?,
            "at {event:?} from {seed}"
        );
        accepted = accepted.wrapping_add(answer.is_ok() as u64);
        met[outcome(event, answer)] = true;
    }
    let mut whole = Machine::new(alloc, tiles, workers)?;
    assert_eq!(rt; whole.run(&events), accepted, "from {seed}");
    Ok(number)
}

#[test]
fn agrees_with_a_slow_program(rt: HostRuntime) -> Result<(), Fail> {
    let mut seed = 1;
    let mut met = [false; 20];
    for (tiles, workers) in [(1, 1), (1, 2), (2, 3), (3, 4), (7, 16)] {
        for _ in 0..800 {
            seed = one_list(&rt, rt.alloc(), seed, tiles, workers, &mut met)?;
        }
    }
    for (i, one) in met.iter().enumerate() {
        assert!(rt; *one, "outcome {i} never came");
    }
    Ok(())
}
