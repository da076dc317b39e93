//! The ends of the intake.

ghost use Rattle.std.specs.Prelude.{◌≡◌, ◌<◌, ◌++◌, ◌∷◌, [], IfOk, MatchResult, MatchOption};
ghost use Rattle.crossbeam_channel.specs.Claims.{view};
ghost use Rattle.crossbeam_channel.specs.Ends.{sends_on, receives_on};
ghost use Rattle.base.specs.declared.limits.TheConstants.{INTAKE_CAPACITY};
ghost use Rattle.intake.specs.Counts.{IsCountOf};
ghost use Rattle.intake.specs.Passes.{IsReaderPass, IsWorkerPass};

use crate::rule::{Compares, Known, Order, Puts, Readers, Takes};
use crate::slip::Slip;
use crate::taken::Taken;
use base::limits::INTAKE_CAPACITY;
use crossbeam_channel::{Pass, RuledReceiver, RuledSender, bounded_with};
use std::alloc::{AllocError, Global};
use std::sync::Wait;

/// Where the readers and the worker of an intake come from.
pub struct Intake;

/// A reader of an intake: it puts arrivals.
#[derive(Drop)]
pub struct IntakeReader<M: Drop> {
    number: u8,
    to: RuledSender<Slip<M>, Known<M>, Order<M>>,
    key: Pass<Slip<M>, Known<M>>,
    ghost in_range: { number < 2 },
    // The pass is that of this intake's reader of this number.
    ghost mine: { IsReaderPass (sends_on to) number key },
}

/// The worker of an intake: it takes arrivals. It has a sending end, since only such an end takes passes in.
#[derive(Drop)]
pub struct IntakeWorker<M: Drop> {
    to: RuledSender<Slip<M>, Known<M>, Order<M>>,
    from: RuledReceiver<Slip<M>, Known<M>, Order<M>>,
    key: Pass<Slip<M>, Known<M>>,
    counts: Taken,
    // Both ends are of one channel.
    ghost one: { receives_on from ≡ sends_on to },
    ghost mine: { IsWorkerPass (sends_on to) key },
    // The counts are of what the pass has seen taken.
    ghost counted: { IsCountOf (view key).got counts },
}

impl Intake {
    ghost use Rattle.intake.specs.Ends.{IsReaderOf, number_of, put_by, taken_by, capacity_of};

    /// Opens an intake with room for `INTAKE_CAPACITY` arrivals: its readers 0 and 1, and its worker.
    ///
    /// # Errors
    /// `AllocError`: an allocation failed.
    pub fn open<M: Drop>(
        alloc: Global,
    ) -> Result<(IntakeReader<M>, IntakeReader<M>, IntakeWorker<M>), AllocError>
        ensures one { IfOk result (λ r. IsReaderOf r.2 r.0 × IsReaderOf r.2 r.1) }
        ensures numbers { IfOk result (λ r. (number_of r.0 ≡ 0) × (number_of r.1 ≡ 1)) }
        ensures room { IfOk result (λ r. capacity_of r.2 ≡ INTAKE_CAPACITY) }
        ensures nothing { IfOk result (λ r. (put_by r.0 ≡ []) × (put_by r.1 ≡ []) × (taken_by r.2 ≡ [])) }
    {
        let (to, from, mut key) = bounded_with::<Slip<M>, Known<M>, Order<M>, Global>(
            alloc,
            INTAKE_CAPACITY,
        )?;
        let to_zero = to.try_clone()?;
        let to_one = to.try_clone()?;
        let zero = to.another::<Readers<M>>(&mut key);
        let one = to.another::<Readers<M>>(&mut key);
        Ok((
            IntakeReader {
                number: 0,
                to: to_zero,
                key: zero,
            },
            IntakeReader {
                number: 1,
                to: to_one,
                key: one,
            },
            IntakeWorker {
                to,
                from,
                key,
                counts: Taken { zero: 0, one: 0 },
            },
        ))
    }
}

impl<M: Drop> IntakeReader<M> {
    ghost use Rattle.intake.specs.Ends.{IsSameReader, put_by};

    /// Puts an arrival after all that were put; it doesn't wait for room.
    ///
    /// # Errors
    /// The arrival comes back: the intake is full, or its worker is gone.
    pub fn put<R: Wait>(&mut self, rt: &R, arrival: M) -> Result<(), M>
        ensures same { IsSameReader self.old self.new }
        ensures put { MatchResult result (λ _. put_by self.new ≡ put_by self.old ++ arrival ∷ [])
            (λ back. (back ≡ arrival) × (put_by self.new ≡ put_by self.old)) }
    {
        let slip = Slip {
            reader: self.number,
            arrival,
        };
        // Without waiting: a reader that finds no room stops reading, so its socket holds the broker back.
        match self.to.try_send_as::<Puts<M>, R>(rt, &mut self.key, slip) {
            Ok(()) => Ok(()),
            Err(error) => {
                let Slip { reader: _, arrival } = error.into_inner();
                Err(arrival)
            }
        }
    }
}

impl<M: Drop> IntakeWorker<M> {
    ghost use Rattle.intake.specs.Ends.{IsReaderOf, IsSameWorker, AreFirst, number_of, put_by, taken_by, taken_of};

    /// Takes the next arrival; it doesn't wait for one. None says nothing of why.
    pub fn take<R: Wait>(&mut self, rt: &R) -> Option<Slip<M>>
        ensures same { IsSameWorker self.old self.new }
        ensures taken { MatchOption result (taken_by self.new ≡ taken_by self.old)
            (λ slip. taken_by self.new ≡ taken_by self.old ++ slip ∷ []) }
    {
        // So that a count never stays while an arrival is taken; nobody puts 2^64 of them.
        if self.counts.zero == u64::MAX || self.counts.one == u64::MAX {
            return None;
        }
        match self.from.try_recv_as::<Takes<M>, R>(rt, &mut self.key) {
            Ok(slip) => {
                self.counts = self.counts.with(slip.reader);
                Some(slip)
            }
            Err(_) => None,
        }
    }

    /// How many arrivals of each reader were taken, once both have ended: the first that it put, each once and in order.
    /// What else was put is dropped.
    pub fn close(self, zero: IntakeReader<M>, one: IntakeReader<M>) -> Taken
        requires readers { IsReaderOf self zero × IsReaderOf self one }
        requires numbers { (number_of zero ≡ 0) × (number_of one ≡ 1) }
        ensures zero { AreFirst result.zero (taken_of 0 self) (put_by zero) }
        ensures one { AreFirst result.one (taken_of 1 self) (put_by one) }
    {
        // Both, in their order: with an array each clause would need a default by which to name one of them.
        let IntakeReader {
            number: _,
            to: _,
            key: first,
        } = zero;
        let IntakeReader {
            number: _,
            to: _,
            key: second,
        } = one;
        let IntakeWorker {
            to,
            from: _,
            mut key,
            counts,
        } = self;
        to.absorb::<Readers<M>>(&mut key, first);
        to.absorb::<Readers<M>>(&mut key, second);
        // For contracts alone: what was taken is compared with what was put.
        to.learn_as::<Compares<M>>(&mut key);
        counts
    }
}
