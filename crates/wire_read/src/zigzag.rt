//! Signed numbers that are written as unsigned ones, so that small ones of both signs are short.
ghost use Rattle.std.specs.Prelude.{◌≡◌};
ghost use Rattle.wire_read.specs.ZigZag.{unzigzag_of};

/// The signed number that `n` stands for, by ZigZag (section "Signed Integers"): 0, 1, 2, 3 stand for 0, -1, 1, -2.
pub fn unzigzag(n: u64) -> i64
    ensures { result ≡ unzigzag_of n }
{
    let half = (n / 2) as i64;
    if n % 2 == 0 { half } else { -half - 1 }
}
