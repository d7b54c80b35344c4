//! What each atomic step tells its seat. These types are for the proofs alone.

ghost use Rattle.std.specs.Prelude.{ℕ, true, false};
ghost use Rattle.tile_table.specs.Inner.Steps.{claim_seen, claimed, tried, marked, freed};
ghost use Rattle.tile_table.specs.Views.{lower, upper, joined_views, nobody};

use crate::view::View;
use atomic_table::{Join, Play, Split};
use std::marker::{Brand, PhantomData};

/// A look at a claim word.
pub struct SeeClaim;

impl<T> Play<Option<T>, View<T>> for SeeClaim {
    ghost then = { λ step before found after. claim_seen step.word before found after };
}

/// An exchange on a claim word, from no claim to the seat's.
pub struct TryClaim;

impl<T> Play<Option<T>, View<T>> for TryClaim {
    ghost then = { λ step before found after. claimed step.word before found after };
}

/// An exchange on a lock word, from "free, unmarked" to the seat's lock.
pub struct TryUnmarked;

impl<T> Play<Option<T>, View<T>> for TryUnmarked {
    ghost then = { λ step before found after. tried false step.word before found after };
}

/// An exchange on a lock word, from "free, marked" to the seat's lock.
pub struct TryMarked;

impl<T> Play<Option<T>, View<T>> for TryMarked {
    ghost then = { λ step before found after. tried true step.word before found after };
}

/// A store to a mark word, by the holder of the lock.
pub struct SetMark;

impl<T> Play<Option<T>, View<T>> for SetMark {
    ghost then = { λ step before found after. marked step.word before after };
}

/// A store to a lock word, by the holder of the lock.
pub struct FreeLock;

impl<T> Play<Option<T>, View<T>> for FreeLock {
    ghost then = { λ step before found after. freed before after };
}

/// The number at which a range is cut.
pub trait Number {
    ghost number: { ℕ };
}

impl Number for Brand {
    ghost number = { 0 };
}

/// A cut of a seat's range.
pub struct Cut<N> {
    number: PhantomData<N>,
}

impl<T, N: Number> Split<View<T>> for Cut<N> {
    ghost left = { lower N.number };

    ghost right = { upper N.number };
}

/// A seat whose range is the next one is added to another.
pub struct Append;

impl<T> Join<View<T>> for Append {
    ghost both = { joined_views };

    ghost spent = { nobody };
}
