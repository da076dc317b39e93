// What a pass of the intake knows, and the intake's rule.
ghost use Rattle.std.specs.Prelude.{ℕ, List};

use crate::slip::Slip;
use crossbeam_channel::protocol::{Join, Lesson, Outcome, Protocol, Split};
use std::collections::LinkedList;
use std::marker::PhantomData;

/// What one reader has put. No value of it is made.
pub struct Put<M> {
    pub reader: u64,
    pub put: LinkedList<M>,
}

/// What a pass knows: what its readers have put, and, where it is the worker's, what was taken. No value of it is made.
pub struct Known<M> {
    pub own: LinkedList<Put<M>>,
    pub takes: bool,
    pub got: LinkedList<Slip<M>>,
}

/// The rule: what each reader has put is what was taken of it, and then what the intake holds of it.
pub struct Order<M> {
    of: PhantomData<M>,
}

impl<M> Protocol<Slip<M>, Known<M>> for Order<M> {
    ghost use Rattle.intake.specs.Rule.{IsKept, opener};

    ghost holds = { IsKept };

    ghost first = { opener };
}

/// A reader puts an arrival.
pub struct Puts<M> {
    of: PhantomData<M>,
}

impl<M> Outcome<Slip<M>, Known<M>> for Puts<M> {
    ghost use Rattle.intake.specs.Rule.{HasPut};

    ghost then = { HasPut };
}

impl<M> Lesson<Slip<M>, Known<M>> for Puts<M> {
    ghost use Rattle.std.specs.Prelude.{⊤};

    ghost fact = { λ v items. ⊤ };
}

/// The worker takes an arrival.
pub struct Takes<M> {
    of: PhantomData<M>,
}

impl<M> Outcome<Slip<M>, Known<M>> for Takes<M> {
    ghost use Rattle.intake.specs.Rule.{HasTaken};

    ghost then = { HasTaken };
}

impl<M> Lesson<Slip<M>, Known<M>> for Takes<M> {
    ghost use Rattle.std.specs.Prelude.{⊤};

    ghost fact = { λ v items. ⊤ };
}

/// A reader is made, and taken in at the end.
pub struct Readers<M> {
    of: PhantomData<M>,
}

impl<M> Split<Known<M>> for Readers<M> {
    ghost use Rattle.intake.specs.Rule.{rest_of, reader_of};

    ghost left = { rest_of };

    ghost right = { reader_of };
}

impl<M> Join<Known<M>> for Readers<M> {
    ghost use Rattle.intake.specs.Rule.{both_of, gone};

    ghost both = { both_of };

    ghost spent = { gone };
}

/// What was taken is compared with what was put.
pub struct Compares<M> {
    of: PhantomData<M>,
}

impl<M> Lesson<Slip<M>, Known<M>> for Compares<M> {
    ghost use Rattle.intake.specs.Rule.{Compared};

    ghost fact = { Compared };
}
