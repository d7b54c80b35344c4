//! What the fields of an object give before anything is known of their meaning.
ghost use Rattle.osm_objects.specs.Parts.{one_number, as_many};
ghost use Rattle.osm_objects.specs.Answers.{Answers, Admits};

use crate::fault::ObjectFault;

/// The last of a field's numbers, which is the one that counts. The object at `at` has to have the field.
pub fn one_number(at: u64, field: u32, numbers: &[u64]) -> Result<u64, ObjectFault>
    ensures { Answers (λ n. n) result (one_number at field numbers.now) }
{
    if numbers.is_empty() {
        return Err(ObjectFault::MissingField { at, number: field });
    }
    Ok(numbers[numbers.len() - 1])
}

/// Checks that two lists have the same length. The object stands at `at`.
pub fn check_even(at: u64, xs: &[u64], ys: &[u64]) -> Result<(), ObjectFault>
    ensures { Admits result (as_many at xs.now ys.now) }
{
    if xs.len() == ys.len() {
        Ok(())
    } else {
        Err(ObjectFault::Uneven { at })
    }
}
