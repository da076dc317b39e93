//! What a token knows, and the rule of the lock.

ghost use Rattle.std.specs.Prelude.{ℕ, List};

use crate::Lore;
use crossbeam_channel::protocol::{Join, Lesson, Outcome, Protocol, Split};
use std::collections::LinkedList;
use std::marker::PhantomData;

/// How far a lock has come. No value of it is made.
pub enum Stage {
    /// No value was put in.
    New,
    /// The first value waits to be taken.
    Waiting,
    /// It is in use.
    Open,
}

/// What one token knows. No value of it is made.
pub struct ToldToken<T> {
    /// The token's number.
    pub number: u64,
    /// The value for which the lock was opened.
    pub found: T,
    /// The value as the token has seen it.
    pub seen: T,
    /// The value as the token gave it back last, seen or not.
    pub last: T,
}

/// What a key knows. No value of it is made.
pub struct Known<T> {
    /// How far the lock has come.
    pub stage: Stage,
    /// The tokens that the key stands for.
    pub own: LinkedList<ToldToken<T>>,
    /// The value, where this key holds it.
    pub has: Option<T>,
    /// What was good of that: the value itself, or what it was before it broke.
    pub good: Option<T>,
    /// Whether this key makes tokens.
    pub chief: bool,
    /// The number of the next.
    pub next: u64,
    /// The values that were shown to this key: each as some token has seen it.
    pub shown: LinkedList<T>,
}

/// The rule of the lock.
pub struct Law<T, L> {
    of: PhantomData<(T, L)>,
}

impl<T, L: Lore<T>> Protocol<T, Known<T>> for Law<T, L> {
    ghost use Rattle.told_lock.specs.Rule.{Kept, opener};

    ghost holds = { Kept L.since L.later L.ends L.ever };

    ghost first = { opener };
}

/// The value is put in for the first time.
pub struct Begins<T> {
    of: PhantomData<T>,
}

impl<T> Outcome<T, Known<T>> for Begins<T> {
    ghost use Rattle.told_lock.specs.Rule.{Began};

    ghost then = { Began };
}

impl<T> Lesson<T, Known<T>> for Begins<T> {
    ghost use Rattle.std.specs.Prelude.{⊤};

    ghost fact = { λ v items. ⊤ };
}

/// The value is taken for the first time.
pub struct Enters<T> {
    of: PhantomData<T>,
}

impl<T> Outcome<T, Known<T>> for Enters<T> {
    ghost use Rattle.told_lock.specs.Rule.{Entered};

    ghost then = { Entered };
}

impl<T> Lesson<T, Known<T>> for Enters<T> {
    ghost use Rattle.std.specs.Prelude.{⊤};

    ghost fact = { λ v items. ⊤ };
}

/// The lock is taken.
pub struct Takes<T, L> {
    of: PhantomData<(T, L)>,
}

impl<T, L: Lore<T>> Outcome<T, Known<T>> for Takes<T, L> {
    ghost use Rattle.told_lock.specs.Rule.{Took};

    ghost then = { Took L.since L.later L.ends L.ever };
}

impl<T, L: Lore<T>> Lesson<T, Known<T>> for Takes<T, L> {
    ghost use Rattle.std.specs.Prelude.{⊤};

    ghost fact = { λ v items. ⊤ };
}

/// The lock is returned, and the value was seen.
pub struct Sees<T> {
    of: PhantomData<T>,
}

impl<T> Outcome<T, Known<T>> for Sees<T> {
    ghost use Rattle.told_lock.specs.Rule.{Saw};

    ghost then = { Saw };
}

impl<T> Lesson<T, Known<T>> for Sees<T> {
    ghost use Rattle.std.specs.Prelude.{⊤};

    ghost fact = { λ v items. ⊤ };
}

/// The lock is returned, and what was seen stays.
pub struct Stays<T> {
    of: PhantomData<T>,
}

impl<T> Outcome<T, Known<T>> for Stays<T> {
    ghost use Rattle.told_lock.specs.Rule.{Stayed};

    ghost then = { Stayed };
}

impl<T> Lesson<T, Known<T>> for Stays<T> {
    ghost use Rattle.std.specs.Prelude.{⊤};

    ghost fact = { λ v items. ⊤ };
}

/// A token is made, or joins another's key.
pub struct Parts<T> {
    of: PhantomData<T>,
}

impl<T> Split<Known<T>> for Parts<T> {
    ghost use Rattle.told_lock.specs.Rule.{next_of, token_of};

    ghost left = { next_of };

    ghost right = { token_of };
}

impl<T> Join<Known<T>> for Parts<T> {
    ghost use Rattle.told_lock.specs.Rule.{both_of, gone};

    ghost both = { both_of };

    ghost spent = { gone };
}

/// What the tokens know is compared with the value.
pub struct Compares<T, L> {
    of: PhantomData<(T, L)>,
}

impl<T, L: Lore<T>> Lesson<T, Known<T>> for Compares<T, L> {
    ghost use Rattle.told_lock.specs.Rule.{Sums};

    ghost fact = { λ v items. Sums L.since L.later L.ends L.ever v };
}

/// A witness is made, or is shown to a key.
pub struct Shows<T> {
    of: PhantomData<T>,
}

impl<T> Split<Known<T>> for Shows<T> {
    ghost use Rattle.told_lock.specs.Rule.{witness_of};

    ghost left = { λ v. v };

    ghost right = { witness_of };
}

impl<T> Join<Known<T>> for Shows<T> {
    ghost use Rattle.told_lock.specs.Rule.{shown_of, gone};

    ghost both = { shown_of };

    ghost spent = { gone };
}
