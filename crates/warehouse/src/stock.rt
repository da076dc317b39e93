//! A stock: how much of it there is, and for which orders.

ghost use Rattle.std.specs.Prelude.{◌≡◌, [], Ok, Err, IfOk, MatchOption, MatchResult};
ghost use Rattle.trade.specs.Sound.{IsStockSound};
ghost use Rattle.trade.specs.Stocks.{on_stock_command, stock_reactions};
ghost use Rattle.trade.specs.declared.commands.StockCommand.TheVariants.{Receive};

use activities::{Parts, Refusal};
use base::limits::MAX_NUMBER;
use base::{Entity, Number};
use std::alloc::{AllocError, Global};
use std::marker::Model;
use trade::{Holder, LinePhase, Lines};

/// A stock: contracts see how much is on hand, held, shipped and received, and the list of its lines.
///
/// What it received is on hand or was shipped, what is held is on hand, and held and shipped are the totals over its
/// lines.
#[derive(Debug, Drop)]
pub struct Stock {
    on_hand: u64,
    held: u64,
    shipped: u64,
    received: u64,
    lines: Lines,
}

impl Model for Stock {
    ghost use Rattle.trade.specs.Stocks.{StockState};

    ghost Value = { StockState };

    ghost use Rattle.warehouse.specs.Parts.StockView.{stock_in, IsWhole};

    ghost view = { stock_in };

    ghost invariant = { IsWhole };
}

impl Stock {
    /// A stock that nothing came into.
    pub fn new(alloc: Global) -> Stock
        ensures { result ≡ stock_reactions.opening }
    {
        Stock {
            on_hand: 0,
            held: 0,
            shipped: 0,
            received: 0,
            lines: Lines::new(alloc),
        }
    }

    /// The stock of these numbers and lines; `None` where something would be lost or used twice, or the numbers aren't
    /// those of the lines.
    pub fn from_parts(
        on_hand: u64,
        held: u64,
        shipped: u64,
        received: u64,
        lines: Lines,
    ) -> Option<Stock>
        ensures { MatchOption result
            (¬ IsStockSound (record {
              on_hand = on_hand;
              held = held;
              shipped = shipped;
              received = received;
              lines = lines;
            }))
            (λ s. (s ≡ record { on_hand = on_hand; held = held; shipped = shipped; received = received; lines = lines })
            × IsStockSound s) }
    {
        // In this order: each difference is of numbers that were compared before it.
        if received > MAX_NUMBER
            || on_hand > received
            || shipped != received - on_hand
            || held > on_hand
            // The totals last: they go through all lines.
            || lines.total(LinePhase::Held) != Some(held)
            || lines.total(LinePhase::Done) != Some(shipped)
        {
            return None;
        }
        Some(Stock {
            on_hand,
            held,
            shipped,
            received,
            lines,
        })
    }

    /// How much is there, held or not. The stock is sound, as every stock is.
    pub fn on_hand(&self) -> u64
        ensures on_hand { result ≡ self.now.on_hand }
        ensures sound { IsStockSound self.now }
    {
        self.on_hand
    }

    /// How much of it is held for orders.
    pub fn held(&self) -> u64
        ensures { result ≡ self.now.held }
    {
        self.held
    }

    /// How much was shipped.
    pub fn shipped(&self) -> u64
        ensures { result ≡ self.now.shipped }
    {
        self.shipped
    }

    /// How much came in, in all.
    pub fn received(&self) -> u64
        ensures { result ≡ self.now.received }
    {
        self.received
    }

    /// An equal stock, which shares its lines with this one. It allocates nothing.
    ///
    /// # Errors
    /// Where the lines have too many owners to count: 2^63 - 1.
    pub fn copy(&self) -> Result<Stock, AllocError>
        ensures { IfOk result (λ s. s ≡ self.now) }
    {
        Ok(Stock {
            on_hand: self.on_hand,
            held: self.held,
            shipped: self.shipped,
            received: self.received,
            lines: self.lines.copy()?,
        })
    }

    /// So much comes in: 1 at least, and no more than 2^40 in all.
    pub(crate) fn receive(&mut self, quantity: u64) -> Result<(), Refusal>
        ensures { MatchResult result (λ _. on_stock_command self.old (Receive quantity) ≡ Ok (self.new, []))
            (λ refusal. (on_stock_command self.old (Receive quantity) ≡ Err refusal) × (self.new ≡ self.old)) }
    {
        // By the difference: the sum of the two could overflow.
        if quantity == 0 || quantity > MAX_NUMBER - self.received {
            return Err(Refusal::OutOfRange);
        }
        self.on_hand += quantity;
        self.received += quantity;
        Ok(())
    }
}

/// An input changes no line but its sender's.
impl Parts for Stock {
    ghost use Rattle.trade.specs.Following.{LinesFollow};

    ghost follows = { λ sender old new. LinesFollow sender old.lines new.lines };
}

// What is on hand and isn't held can be held, and what is finished is shipped.
impl Holder for Stock {
    ghost use Rattle.std.specs.Prelude.{refl};
    ghost use Rattle.trade.specs.Stocks.{stock_holding};

    ghost holding = { stock_holding };

    ghost given = { λ x ls. refl };

    fn lines(&self) -> &Lines {
        &self.lines
    }

    fn fits(&self, number: Number) -> bool {
        // A stock holds no more than is on hand, so the difference is there.
        number.get() <= self.on_hand - self.held
    }

    fn hold(&mut self, order: Entity, number: Number) -> Result<(), AllocError> {
        // The line first: it allocates, and where that fails the numbers are as they were.
        self.lines.insert(order, number, LinePhase::Held)?;
        self.held += number.get();
        Ok(())
    }

    fn refuse(&mut self, order: Entity, number: Number) -> Result<(), AllocError> {
        // A refused order has a line too: a request that is redelivered finds it, and isn't answered again.
        self.lines.insert(order, number, LinePhase::Refused)?;
        Ok(())
    }

    fn finish(&mut self, order: &Entity, number: Number) -> Result<(), AllocError> {
        // The line first: it allocates, and where that fails the numbers are as they were.
        self.lines.set_phase(order, LinePhase::Done)?;
        let number = number.get();
        self.on_hand -= number;
        self.held -= number;
        self.shipped += number;
        Ok(())
    }

    fn free(&mut self, order: &Entity, number: Number) -> Result<(), AllocError> {
        self.lines.set_phase(order, LinePhase::Released)?;
        self.held -= number.get();
        Ok(())
    }
}
