//! An account: its limit, and what orders use of it.

ghost use Rattle.std.specs.Prelude.{◌≡◌, [], Ok, Err, IfOk, MatchOption, MatchResult};
ghost use Rattle.trade.specs.Accounts.{on_account_command, account_reactions};
ghost use Rattle.trade.specs.Sound.{IsAccountSound};
ghost use Rattle.trade.specs.declared.commands.AccountCommand.TheVariants.{SetLimit};

use activities::{Parts, Refusal};
use base::limits::MAX_NUMBER;
use base::{Entity, Number};
use std::alloc::{AllocError, Global};
use std::marker::Model;
use trade::{Holder, LinePhase, Lines};

/// An account: contracts see its limit, how much of it is billed and held, and the list of its lines.
///
/// The limit covers what is billed and held, and these are the totals over its lines.
#[derive(Debug, Drop)]
pub struct Account {
    limit: u64,
    billed: u64,
    held: u64,
    lines: Lines,
}

impl Model for Account {
    ghost use Rattle.trade.specs.Accounts.{AccountState};

    ghost Value = { AccountState };

    ghost use Rattle.billing.specs.Parts.AccountView.{account_in, IsWhole};

    ghost view = { account_in };

    ghost invariant = { IsWhole };
}

impl Account {
    /// An account without a limit that anything fits in.
    pub fn new(alloc: Global) -> Account
        ensures { result ≡ account_reactions.opening }
    {
        Account {
            limit: 0,
            billed: 0,
            held: 0,
            lines: Lines::new(alloc),
        }
    }

    /// The account of these numbers and lines; `None` where the limit is too great or covers too little, or the numbers
    /// aren't those of the lines.
    pub fn from_parts(limit: u64, billed: u64, held: u64, lines: Lines) -> Option<Account>
        ensures { MatchOption result (¬ IsAccountSound (record {
          limit = limit;
          billed = billed;
          held = held;
          lines = lines;
        }))
            (λ a. (a ≡ record { limit = limit; billed = billed; held = held; lines = lines }) × IsAccountSound a) }
    {
        // In this order: each difference is of numbers that were compared before it.
        if billed > limit
            || limit > MAX_NUMBER
            || held > limit - billed
            // The totals last: they go through all lines.
            || lines.total(LinePhase::Held) != Some(held)
            || lines.total(LinePhase::Done) != Some(billed)
        {
            return None;
        }
        Some(Account {
            limit,
            billed,
            held,
            lines,
        })
    }

    /// How much may be billed and held together. The account is sound, as every account is.
    pub fn limit(&self) -> u64
        ensures limit { result ≡ self.now.limit }
        ensures sound { IsAccountSound self.now }
    {
        self.limit
    }

    /// How much was billed.
    pub fn billed(&self) -> u64
        ensures { result ≡ self.now.billed }
    {
        self.billed
    }

    /// How much is held for orders.
    pub fn held(&self) -> u64
        ensures { result ≡ self.now.held }
    {
        self.held
    }

    /// An equal account, which shares its lines with this one. It allocates nothing.
    ///
    /// # Errors
    /// Where the lines have too many owners to count: 2^63 - 1.
    pub fn copy(&self) -> Result<Account, AllocError>
        ensures { IfOk result (λ a. a ≡ self.now) }
    {
        Ok(Account {
            limit: self.limit,
            billed: self.billed,
            held: self.held,
            lines: self.lines.copy()?,
        })
    }

    /// The limit is set: to 2^40 at most, and not below what is billed and held.
    pub(crate) fn set_limit(&mut self, limit: u64) -> Result<(), Refusal>
        ensures { MatchResult result (λ _. on_account_command self.old (SetLimit limit) ≡ Ok (self.new, []))
            (λ refusal. (on_account_command self.old (SetLimit limit) ≡ Err refusal) × (self.new ≡ self.old)) }
    {
        if limit > MAX_NUMBER {
            return Err(Refusal::OutOfRange);
        }
        // The two fit into the old limit, 2^40 at most: their sum doesn't overflow.
        if limit < self.billed + self.held {
            return Err(Refusal::BelowUse);
        }
        self.limit = limit;
        Ok(())
    }
}

/// An input changes no line but its sender's.
impl Parts for Account {
    ghost use Rattle.trade.specs.Following.{LinesFollow};

    ghost follows = { λ sender old new. LinesFollow sender old.lines new.lines };
}

// What the limit leaves can be held, and what is finished is billed.
impl Holder for Account {
    ghost use Rattle.std.specs.Prelude.{refl};
    ghost use Rattle.trade.specs.Accounts.{account_holding};

    ghost holding = { account_holding };

    ghost given = { λ x ls. refl };

    fn lines(&self) -> &Lines {
        &self.lines
    }

    fn fits(&self, number: Number) -> bool {
        // The limit covers what is billed and held, so the difference is there.
        number.get() <= self.limit - self.billed - self.held
    }

    fn hold(&mut self, order: Entity, number: Number) -> Result<(), AllocError> {
        // The line first: it allocates, and where that fails the numbers are as they were.
        self.lines.insert(order, number, LinePhase::Held)?;
        self.held += number.get();
        Ok(())
    }

    fn refuse(&mut self, order: Entity, number: Number) -> Result<(), AllocError> {
        // A refused order has a line too: a request that is redelivered finds it, and isn't answered again.
        self.lines.insert(order, number, LinePhase::Refused)?;
        Ok(())
    }

    fn finish(&mut self, order: &Entity, number: Number) -> Result<(), AllocError> {
        // The line first: it allocates, and where that fails the numbers are as they were.
        self.lines.set_phase(order, LinePhase::Done)?;
        let number = number.get();
        self.held -= number;
        self.billed += number;
        Ok(())
    }

    fn free(&mut self, order: &Entity, number: Number) -> Result<(), AllocError> {
        self.lines.set_phase(order, LinePhase::Released)?;
        self.held -= number.get();
        Ok(())
    }
}
