//! The most letters behind places, and the marks of junctions.

use pattern_search::{Place, make_table, one_more, raise};
use std::collections::BTreeMap;
use std::test::Fail;

/// Two runs: within a run a place has one letter more than the place before it, or its own where that is greater. A
/// place where nothing follows has 0, and so has the next.
#[test]
fn table_of_two_runs(rt: HostRuntime) -> Result<(), Fail> {
    let places = [
        Place { run: 7, after: 0 },
        Place { run: 7, after: 2 },
        Place { run: 7, after: 0 },
        Place { run: 7, after: 9 },
        Place { run: 8, after: 0 },
        Place { run: 8, after: 1 },
        Place { run: 8, after: 1 },
    ];
    let table = make_table(rt.alloc(), &places)?;
    assert!(rt; table.as_slice() == [0, 2, 3, 9, 0, 1, 2].as_slice());
    Ok(())
}

/// 34 stands for all that are as great.
#[test]
fn cap_of_a_table(rt: HostRuntime) -> Result<(), Fail> {
    let places = [
        Place { run: 1, after: 33 },
        Place { run: 1, after: 0 },
        Place { run: 1, after: 0 },
    ];
    let table = make_table(rt.alloc(), &places)?;
    assert!(rt; table.as_slice() == [33, 34, 34].as_slice());
    assert!(rt; one_more(0) == 0 && one_more(1) == 2 && one_more(34) == 34);
    Ok(())
}

/// A mark never falls, and those of other junctions stay.
#[test]
fn marks_rise(rt: HostRuntime) -> Result<(), Fail> {
    let mut marks = BTreeMap::new(rt.alloc());
    raise(&mut marks, -5, 3)?;
    raise(&mut marks, 8, 4)?;
    raise(&mut marks, -5, 2)?;
    raise(&mut marks, 8, 6)?;
    raise(&mut marks, 9, 0)?;
    assert!(rt; marks.get(&-5) == Some(&3));
    assert!(rt; marks.get(&8) == Some(&6));
    assert!(rt; marks.get(&9) == None);
    Ok(())
}
