//! What stocks and accounts do alike: they hold what orders ask for.

ghost use Rattle.std.specs.Prelude.{◌≡◌, true, false, List, Some, None, OnOk, OnErr};
ghost use Rattle.base.specs.declared.entity.Kind.TheVariants.{Order};
ghost use Rattle.trade.specs.Holding.{Holding, held_for, refused_to, finished_for, freed_for, held_by, on_request};
ghost use Rattle.trade.specs.Holding.{on_line_message, IsTaken};
ghost use Rattle.trade.specs.Lines.{Line, line_of};

use crate::Lines;
use activities::Outs;
use base::{Entity, Kind, Number};
use envelope::Message;
use std::alloc::{AllocError, Global};

/// A stock or an account: what an order asks for is held, where it fits, until it is finished or freed.
pub trait Holder {
    /// The holder's lines, what fits, and what changes besides the lines.
    ghost holding: { Holding Self };

    /// The lines that a state is given are its lines.
    ghost given: { (x : Self) (ls : List Line) → holding.lines (holding.with_lines x ls) ≡ ls };

    /// The holder's lines.
    fn lines(&self) -> &Lines
        ensures { result.now ≡ holding.lines self.now };

    /// Whether so much more can be held.
    fn fits(&self, number: Number) -> bool
        ensures { result ≡ holding.fits self.now number };

    /// Holds so much for an order that has no line.
    ///
    /// # Errors
    /// If an allocation fails; nothing has changed then.
    fn hold(&mut self, order: Entity, number: Number) -> Result<(), AllocError>
        requires order { order.kind ≡ Order }
        requires new { line_of order (holding.lines self.old) ≡ None }
        requires fits { holding.fits self.old number ≡ true }
        ensures ok { OnOk result (self.new ≡ held_for holding self.old order number) }
        ensures err { OnErr result (self.new ≡ self.old) };

    /// Refuses so much to an order that has no line.
    ///
    /// # Errors
    /// If an allocation fails; nothing has changed then.
    fn refuse(&mut self, order: Entity, number: Number) -> Result<(), AllocError>
        requires order { order.kind ≡ Order }
        requires new { line_of order (holding.lines self.old) ≡ None }
        ensures ok { OnOk result (self.new ≡ refused_to holding self.old order number) }
        ensures err { OnErr result (self.new ≡ self.old) };

    /// Finishes what is held for an order: it is shipped, or billed.
    ///
    /// # Errors
    /// If an allocation fails; nothing has changed then.
    fn finish(&mut self, order: &Entity, number: Number) -> Result<(), AllocError>
        requires { held_by (line_of order.now (holding.lines self.old)) ≡ Some number }
        ensures ok { OnOk result (self.new ≡ finished_for holding self.old order.now number) }
        ensures err { OnErr result (self.new ≡ self.old) };

    /// Frees what is held for an order.
    ///
    /// # Errors
    /// If an allocation fails; nothing has changed then.
    fn free(&mut self, order: &Entity, number: Number) -> Result<(), AllocError>
        requires { held_by (line_of order.now (holding.lines self.old)) ≡ Some number }
        ensures ok { OnOk result (self.new ≡ freed_for holding self.old order.now number) }
        ensures err { OnErr result (self.new ≡ self.old) };
}

/// Takes a message in: a request counts from an order without a line, a confirm and a cancel go to the sender's line,
/// and anything else changes nothing.
///
/// # Errors
/// If an allocation fails for a line that changes; nothing has changed then. What changes no line wants no memory.
pub fn take_line_message<H: Holder>(
    alloc: Global,
    holder: &mut H,
    sender: &Entity,
    message: Message,
    outs: &mut Outs,
) -> Result<(), AllocError>
    ensures { IsTaken H.holding (on_line_message H.holding holder.old sender.now message) holder.old outs.old holder.new
        outs.new result }
{
    match message {
        Message::Request(number) => {
            // A line is a request's trace: one that is redelivered was answered, and one that was released isn't held
            // anew.
            if sender.kind() != Kind::Order || holder.lines().find(sender).is_some() {
                return Ok(());
            }
            ask(alloc, holder, sender, number, outs)?;
        }
        Message::Confirm => {
            // Nothing is held where the message is a duplicate, or the order was refused: then it changes nothing.
            if let Some(number) = holder.lines().held_for(sender) {
                holder.finish(sender, number)?;
            }
        }
        Message::Cancel => {
            if let Some(number) = holder.lines().held_for(sender) {
                holder.free(sender, number)?;
            }
        }
        // These are answers to orders, and a holder has asked nobody.
        Message::Tentative | Message::Refused => {}
    }
    Ok(())
}

/// An order without a line asks for so much: it is answered, and gets its line.
fn ask<H: Holder>(
    alloc: Global,
    holder: &mut H,
    order: &Entity,
    number: Number,
    outs: &mut Outs,
) -> Result<(), AllocError>
    requires order { order.now.kind ≡ Order }
    requires new { line_of order.now (H.holding.lines holder.old) ≡ None }
    ensures { IsTaken H.holding (on_request H.holding holder.old order.now number) holder.old outs.old holder.new
        outs.new result }
{
    // Asked once, since the answer and the line have to agree.
    let fits = holder.fits(number);
    let answer = if fits {
        Message::Tentative
    } else {
        Message::Refused
    };
    // The answer goes first, since it is easily taken back: a line can't be taken out where the answer finds no memory.
    let before = outs.as_slice().len();
    let copy = order.copy(alloc)?;
    outs.tell(alloc, order, answer)?;
    match add_line(holder, copy, number, fits) {
        Ok(()) => Ok(()),
        Err(refused) => {
            outs.truncate(before);
            Err(refused)
        }
    }
}

/// An order without a line gets one: so much is held where it fits, else refused.
fn add_line<H: Holder>(
    holder: &mut H,
    order: Entity,
    number: Number,
    fits: bool,
) -> Result<(), AllocError>
    requires order { order.kind ≡ Order }
    requires new { line_of order (H.holding.lines holder.old) ≡ None }
    requires fits { fits ≡ H.holding.fits holder.old number }
    ensures ok { OnOk result (holder.new ≡ (on_request H.holding holder.old order number).0) }
    ensures err { OnErr result (holder.new ≡ holder.old) }
{
    if fits {
        holder.hold(order, number)
    } else {
        // A line too: a redelivered request finds it, and isn't answered twice.
        holder.refuse(order, number)
    }
}
