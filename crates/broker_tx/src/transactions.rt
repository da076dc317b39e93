//! The open transactions of a session, the oldest first.

ghost use Rattle.std.specs.Prelude.{◌≡◌, ◌<◌, ◌∷◌, ◌%◌, ◌^◌, [], length, filter, not, slice_set, OnOk, OnErr, Some};
ghost use Rattle.std.specs.Option.{option_copied};
ghost use Rattle.std.specs.List.{find, position, slice_get};
ghost use Rattle.broker_tx.specs.First.{first_changed};
ghost use Rattle.broker_tx.specs.Sizes.{open_octets, transaction_octets};
ghost use Rattle.broker_tx.specs.Transactions.{Transaction, Exactly, UnlessMemory, actions_of, add_of, begin_of};
ghost use Rattle.broker_tx.specs.Transactions.{end_of};
ghost use Rattle.broker_tx.specs.Transactions.{is_open, is_transaction, with_action};

use crate::TransactionFault;
use base::limits::{MAX_ACTIONS, MAX_TRANSACTIONS};
use broker_book::Action;
use std::alloc::{AllocError, Global};
use std::marker::Model;
use stomp_session::Text;

/// A transaction that is open.
#[derive(Debug, Drop)]
struct Open {
    name: Text,
    actions: Vec<Action>,
    /// What the actions are counted as together.
    octets: u64,
}

impl Model for Open {
    ghost use Rattle.std.specs.Prelude.{◌≡◌, ◌%◌, ◌^◌};
    ghost use Rattle.std.specs.List.{sum_by};
    ghost use Rattle.broker_book.specs.Sizes.{action_octets};
    ghost use Rattle.broker_tx.specs.Transactions.{Transaction};

    ghost Value = { Transaction };

    ghost view = { λ t. record { name = t.name; actions = t.actions.items } };

    ghost invariant = { λ t. t.octets ≡ sum_by action_octets t.actions.items % 2 ^ 64 };
}

impl Open {
    fn has_name(&self, name: &Text) -> bool
        ensures { result ≡ is_transaction name.now self.now }
    {
        self.name.same(name)
    }

    fn actions(&self) -> &[Action]
        ensures { result.now ≡ self.now.actions }
    {
        self.actions.as_slice()
    }

    /// What its actions are counted as together, modulo 2^64.
    fn octets(&self) -> u64
        ensures { result ≡ transaction_octets self.now % 2 ^ 64 }
    {
        self.octets
    }

    /// Keeps one action more.
    fn keep(&mut self, action: Action) -> Result<(), AllocError>
        ensures ok { OnOk result (self.new ≡ with_action action self.old) }
        ensures err { OnErr result (self.new ≡ self.old) }
    {
        // Before the action moves into the list.
        let octets = action.octets();
        self.actions.push(action)?;
        // Counted once it's kept: where that fails the sum stays.
        self.octets = self.octets.wrapping_add(octets);
        Ok(())
    }
}

/// The open transactions of a session: contracts see them with their actions, the oldest first.
#[derive(Debug, Drop)]
pub struct Transactions {
    items: Vec<Open>,
}

impl Model for Transactions {
    ghost use Rattle.std.specs.Prelude.{List};
    ghost use Rattle.broker_tx.specs.Transactions.{Transaction};

    ghost Value = { List Transaction };

    ghost view = { λ ts. ts.items.items };
}

impl Transactions {
    /// No transaction. It allocates nothing.
    pub fn new(alloc: Global) -> Transactions
        ensures { result ≡ [] }
    {
        Transactions {
            items: Vec::new(alloc),
        }
    }

    /// How many are open, at most 16.
    pub fn len(&self) -> usize
        ensures { result ≡ length self.now }
    {
        self.items.len()
    }

    /// What the actions that they keep are counted as together, modulo 2^64.
    pub fn octets(&self) -> u64
        ensures { result ≡ open_octets self.now % 2 ^ 64 }
    {
        // A sum of 16 numbers at most: each transaction keeps its own, so no action is looked at.
        octets_in(&self.items)
    }

    /// Whether one of this name is open.
    pub fn has(&self, name: &Text) -> bool
        ensures { result ≡ is_open self.now name.now }
    {
        self.items.iter().any(|open| open.has_name(name))
    }

    /// What the transaction of this name keeps, in order; none where none of this name is open.
    pub fn actions(&self, name: &Text) -> Option<&[Action]>
        ensures { option_copied result ≡ actions_of self.now name.now }
    {
        match self.get(name) {
            Some(open) => Some(open.actions()),
            None => None,
        }
    }

    /// Begins a transaction (STOMP 1.2, section "BEGIN"): its name is copied.
    ///
    /// # Errors
    /// The first that applies; then nothing has changed:
    /// - `TransactionExists` where one of this name is open;
    /// - `TooMany` where 16 are open;
    /// - `Memory` if an allocation fails.
    pub fn begin(&mut self, alloc: Global, name: &Text) -> Result<(), TransactionFault>
        ensures { UnlessMemory (begin_of self.old name.now) self.old self.new result }
    {
        // A name that is taken is reported also where no further transaction would be let in.
        if self.has(name) {
            return Err(TransactionFault::TransactionExists);
        }
        if self.items.len() >= MAX_TRANSACTIONS {
            return Err(TransactionFault::TooMany);
        }
        // The name is copied, since the transaction outlives the BEGIN that brought it.
        let open = Open {
            name: name.copy(alloc)?,
            actions: Vec::new(alloc),
            octets: 0,
        };
        self.items.push(open)?;
        Ok(())
    }

    /// Keeps an action until the end of the transaction of this name.
    ///
    /// # Errors
    /// The first that applies; then nothing has changed:
    /// - `NoTransaction` where none of this name is open;
    /// - `TooMany` where it keeps 256 actions;
    /// - `Memory` if an allocation fails.
    pub fn add(&mut self, name: &Text, action: Action) -> Result<(), TransactionFault>
        ensures { UnlessMemory (add_of self.old name.now action) self.old self.new result }
    {
        let Some(actions) = self.actions(name) else {
            return Err(TransactionFault::NoTransaction);
        };
        if actions.len() >= MAX_ACTIONS {
            return Err(TransactionFault::TooMany);
        }
        match self.keep(name, action) {
            Ok(()) => Ok(()),
            Err(_) => Err(TransactionFault::Memory),
        }
    }

    /// Ends a transaction whose actions were carried out (STOMP 1.2, section "COMMIT"). It allocates nothing.
    ///
    /// # Errors
    /// `NoTransaction` where none of this name is open; then nothing has changed.
    pub fn commit(&mut self, name: &Text) -> Result<(), TransactionFault>
        ensures { Exactly (end_of self.old name.now) self.old self.new result }
    {
        self.end(name)
    }

    /// Ends a transaction, whose actions are dropped (STOMP 1.2, section "ABORT"). It allocates nothing.
    ///
    /// # Errors
    /// `NoTransaction` where none of this name is open; then nothing has changed.
    pub fn abort(&mut self, name: &Text) -> Result<(), TransactionFault>
        ensures { Exactly (end_of self.old name.now) self.old self.new result }
    {
        self.end(name)
    }

    /// Ends them all, and drops their actions. It allocates nothing.
    pub fn clear(&mut self)
        ensures { self.new ≡ [] }
    {
        self.items.clear();
    }

    fn get(&self, name: &Text) -> Option<&Open>
        ensures { option_copied result ≡ find (is_transaction name.now) self.now }
    {
        // A search through 16 at most.
        self.items.iter().find(|open| open.has_name(name))
    }

    fn place(&self, name: &Text) -> Option<usize>
        ensures { result ≡ position (is_transaction name.now) self.now }
    {
        self.items.iter().position(|open| open.has_name(name))
    }

    fn keep(&mut self, name: &Text, action: Action) -> Result<(), AllocError>
        ensures ok { OnOk result (self.new ≡ first_changed (is_transaction name.now) (with_action action) self.old) }
        ensures err { OnErr result (self.new ≡ self.old) }
    {
        match self.place(name) {
            Some(at) => keep_at(&mut self.items, at, action),
            // Never so, since `add` has found the name. By the clause, which doesn't know that, nothing changes.
            None => Ok(()),
        }
    }

    fn end(&mut self, name: &Text) -> Result<(), TransactionFault>
        ensures { Exactly (end_of self.old name.now) self.old self.new result }
    {
        // Asked before, since `retain` doesn't report whether anything went.
        if !self.has(name) {
            return Err(TransactionFault::NoTransaction);
        }
        end_in(&mut self.items, name);
        Ok(())
    }
}

fn octets_in(items: &[Open]) -> u64
    ensures { result ≡ open_octets items.now % 2 ^ 64 }
{
    let mut octets: u64 = 0;
    for open in items {
        octets = octets.wrapping_add(open.octets());
    }
    octets
}

fn keep_at(items: &mut Vec<Open>, at: usize, action: Action) -> Result<(), AllocError>
    requires { at < length items.old.items }
    ensures ok { OnOk result ((t : Transaction) × (slice_get items.old.items at ≡ Some t)
        × (items.new.items ≡ slice_set items.old.items at (with_action action t))) }
    ensures err { OnErr result (items.new.items ≡ items.old.items) }
{
    items[at].keep(action)
}

fn end_in(items: &mut Vec<Open>, name: &Text)
    ensures { items.new.items ≡ filter (λ t. not (is_transaction name.now t)) items.old.items }
{
    // No other transaction has the name.
    items.retain(|open| !open.has_name(name));
}
