//! One step over the members of a line.

use pattern_search::next_members;
use std::test::Fail;

/// Whether these are the members of a set that was found.
fn has(found: Option<Vec<bool>>, members: &[bool]) -> bool {
    match found {
        Some(next) => next.as_slice() == members,
        None => false,
    }
}

/// From member 1 a letter of member 2 leads on; the word stays at member 1 only where it goes on in the same part.
#[test]
fn on_to_the_next_member(rt: HostRuntime) -> Result<(), Fail> {
    let set = [false, true, false];
    let can = [true, true, true];
    let of = [false, false, true];
    let stays = next_members(rt.alloc(), &set, &can, true, &of)?;
    assert!(rt; has(stays, &[false, true, true]));
    let leaves = next_members(rt.alloc(), &set, &can, false, &of)?;
    assert!(rt; has(leaves, &[false, false, true]));
    Ok(())
}

/// No member is left where none can be completed.
#[test]
fn no_member_is_left(rt: HostRuntime) -> Result<(), Fail> {
    let set = [false, true, false];
    let can = [true, false, false];
    let of = [true, true, true];
    let next = next_members(rt.alloc(), &set, &can, true, &of)?;
    assert!(rt; next.is_none());
    Ok(())
}
