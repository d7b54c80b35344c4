//! How many letters may come behind each place of a line.

ghost use Rattle.std.specs.Prelude.{◌≡◌, [], IfOk};
ghost use Rattle.pattern_search.specs.Most.{all_along, most_behind, one_longer};

use std::alloc::{AllocError, Global};

/// A number that stands for all that are at least as great.
const CAP: u8 = 34;

/// A place of a line at which one may stop: the run that the line is of, and the most letters that may come after it
/// there. Places stand in order from the end of a line on.
#[derive(Clone, Copy, Debug)]
pub struct Place {
    pub run: u32,
    pub after: u8,
}

/// One letter more, where there is any, up to 34.
pub fn one_more(most: u8) -> u8
    ensures { result ≡ one_longer 34 most }
{
    if most == 0 {
        0
    } else if most < CAP {
        most + 1
    } else {
        CAP
    }
}

/// The most letters behind a place, where `run` and `most` are those of the place before it.
fn behind(run: u32, most: u8, place: Place) -> u8
    ensures { result ≡ most_behind 34 run most place }
{
    let on = if run == place.run { one_more(most) } else { 0 };
    if place.after < on { on } else { place.after }
}

/// The most letters that may come behind each of these places, along the rest of its line, up to 34.
pub fn make_table(alloc: Global, places: &[Place]) -> Result<Vec<u8>, AllocError>
    ensures { IfOk result (λ table. table.items ≡ all_along 34 [] places.now) }
{
    let mut table = Vec::with_capacity(alloc, places.len())?;
    let mut run = 0;
    let mut most = 0;
    for place in places {
        most = behind(run, most, *place);
        run = place.run;
        table.push(most)?;
    }
    Ok(table)
}
