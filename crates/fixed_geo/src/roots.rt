//! Whole square roots.
ghost use Rattle.std.specs.Prelude.{◌≡◌, ◌+◌, ◌*◌, ◌/◌, ◌^◌, ◌<◌, ◌≤◌};
ghost use Rattle.fixed_geo.specs.Root.{IsWholeRoot, whole_root_of};

/// The greatest number whose square isn't above `n`.
///
/// Newton's steps from a guess by the number of bits: about three for a number below 2^64.
pub fn whole_root(n: u128) -> u64
    ensures root { IsWholeRoot result n }
    ensures value { result ≡ whole_root_of n }
{
    match u64::try_from(n) {
        Ok(small) => small_root(small),
        Err(_) => large_root(n),
    }
}

/// The whole root of a number below 2^64.
pub(crate) fn small_root(n: u64) -> u64
    ensures root { IsWholeRoot result n }
    ensures bound { result < 2 ^ 32 }
{
    if n == 0 {
        return 0;
    }
    // No root of a 64-bit number is above 2^32 - 1, so neither need a guess be.
    let mut guess = small_step(n, small_guess(n)).min(0xffff_ffff);
    while guess * guess > n {
        guess = small_step(n, guess);
    }
    guess
}

/// A number near the root of `n`, some three percent off at most: the straight line
/// 22/32 + 11/32 * m for the root of m from 1 to 4, where `n` is m times a power of four.
fn small_guess(n: u64) -> u64
    requires { 0 < n }
    ensures above_one { 1 < result }
    ensures bound { result < 2 ^ 33 }
{
    let half = n.ilog2() / 2;
    ((n >> half) * 11 + (22 << half)) / 32 + 1
}

/// Newton's step for the root of `n`: the mean of the guess and of what it leaves of `n`.
/// The step is at or above the root, and below a guess that was above it.
fn small_step(n: u64, guess: u64) -> u64
    requires positive { 0 < guess }
    requires fits { guess + n / guess < 2 ^ 64 }
    ensures above { n < (result + 1) * (result + 1) }
    ensures below { n < guess * guess → result < guess }
{
    (guess + n / guess) / 2
}

/// The whole root of a number from 2^64 on.
fn large_root(n: u128) -> u64
    requires { 2 ^ 64 ≤ n }
    ensures { IsWholeRoot result n }
{
    let high = small_root((n >> 64) as u64);
    // The root of the upper half, rounded up, is at or above the root; none is above 2^64 - 1.
    let mut guess = ((u128::from(high) + 1) << 32).min(0xffff_ffff_ffff_ffff);
    while guess * guess > n {
        guess = (guess + n / guess) / 2;
    }
    guess as u64
}
