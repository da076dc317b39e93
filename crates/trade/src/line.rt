//! A line: what a stock or an account does for one order.

ghost use Rattle.std.specs.Prelude.{◌≡◌, ◌≤◌, IfOk};
ghost use Rattle.base.specs.declared.limits.TheConstants.{MAX_NUMBER};
ghost use Rattle.trade.specs.Lines.{share_of};

use crate::LinePhase;
use base::{Entity, Number};
use std::alloc::{AllocError, Global};
use std::marker::Model;

/// A line: for which order, for how much, and how far it is.
#[derive(Debug, Drop)]
pub struct Line {
    order: Entity,
    number: Number,
    phase: LinePhase,
}

impl Model for Line {
    ghost use Rattle.trade.specs.Lines;

    ghost Value = { Lines.Line };

    ghost view = { λ l. record { order = l.order; n = l.number; phase = l.phase } };
}

impl Line {
    /// A line of an order for `number`, in this phase.
    pub fn new(order: Entity, number: Number, phase: LinePhase) -> Line
        ensures { result ≡ record { order = order; n = number; phase = phase } }
    {
        Line {
            order,
            number,
            phase,
        }
    }

    /// The order.
    pub fn order(&self) -> &Entity
        ensures { result.now ≡ self.now.order }
    {
        &self.order
    }

    /// How much it asked for: a quantity or an amount, from 1 to 2^40.
    pub fn number(&self) -> Number
        ensures { result ≡ self.now.n }
    {
        self.number
    }

    /// How far the line is.
    pub fn phase(&self) -> LinePhase
        ensures { result ≡ self.now.phase }
    {
        self.phase
    }

    /// An equal line, in memory of its own.
    ///
    /// # Errors
    /// If an allocation fails.
    pub fn copy(&self, alloc: Global) -> Result<Line, AllocError>
        ensures { IfOk result (λ l. l ≡ self.now) }
    {
        Ok(Line {
            order: self.order.copy(alloc)?,
            number: self.number,
            phase: self.phase,
        })
    }

    /// What the line adds to the total of a phase.
    pub(crate) fn share_of(&self, phase: LinePhase) -> u64
        ensures share { result ≡ share_of phase self.now }
        ensures small { result ≤ MAX_NUMBER }
    {
        if self.phase.is(phase) {
            self.number.get()
        } else {
            0
        }
    }

    /// The line in this phase.
    ///
    /// # Errors
    /// If an allocation fails.
    pub(crate) fn in_phase(&self, alloc: Global, phase: LinePhase) -> Result<Line, AllocError>
        ensures { IfOk result (λ l. l ≡ record self.now { phase = phase }) }
    {
        Ok(Line::new(self.order.copy(alloc)?, self.number, phase))
    }
}
