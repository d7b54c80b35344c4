//! Counts that stay at the end of their type.

ghost use Rattle.std.specs.Prelude.{◌≡◌};
ghost use Rattle.host_port.specs.Counts.{one_more};

/// One more, or the count as it is at the end of its type.
pub(crate) fn one_more(count: u64) -> u64
    ensures { result ≡ one_more count }
{
    if count < u64::MAX { count + 1 } else { count }
}
