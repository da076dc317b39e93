//! What an order asks of stocks.

ghost use Rattle.std.specs.Prelude.{◌≡◌, ◌<◌, ◌^◌, ◌∷◌, [], length, IfOk};
ghost use Rattle.trade.specs.Items.{item, has_stock, are_apart, are_lines, are_numbers};

use base::limits::MAX_LINES;
use base::{Key, Number};
use std::alloc::{AllocError, Global};
use std::marker::Model;

/// A stock, and how much of it is asked for.
#[derive(Debug, Drop)]
pub struct Item {
    /// The key of the stock.
    pub stock: Key,
    /// How much of it.
    pub quantity: u64,
}

impl Item {
    /// An equal item, in memory of its own.
    ///
    /// # Errors
    /// If an allocation fails.
    pub fn copy(&self, alloc: Global) -> Result<Item, AllocError>
        ensures { IfOk result (λ i. i ≡ self.now) }
    {
        Ok(Item {
            stock: self.stock.copy(alloc)?,
            quantity: self.quantity,
        })
    }
}

// Any list: none, nine, one stock twice. The handler refuses a bad list, so a bad one has to be a value.
/// Items in the order in which they are asked for: contracts see their list.
#[derive(Debug, Drop)]
pub struct Items {
    items: Vec<Item>,
}

impl Model for Items {
    ghost use Rattle.std.specs.Prelude.{List};
    ghost use Rattle.trade.specs.declared.items.Item.{Item};

    ghost Value = { List Item };

    ghost view = { λ i. i.items.items };
}

impl Items {
    /// A list of these items.
    pub fn from_vec(items: Vec<Item>) -> Items
        ensures { result ≡ items.items }
    {
        Items { items }
    }

    /// A list of one item: so much of a stock.
    ///
    /// # Errors
    /// If an allocation fails.
    pub fn of_one(alloc: Global, stock: Key, quantity: u64) -> Result<Items, AllocError>
        ensures { IfOk result (λ i. i ≡ item stock quantity ∷ []) }
    {
        let mut items = Vec::new(alloc);
        items.push(Item { stock, quantity })?;
        Ok(Items { items })
    }

    /// All items, in order.
    pub fn as_slice(&self) -> &[Item]
        ensures value { result.now ≡ self.now }
        ensures room { length result.now < 2 ^ 63 }
    {
        self.items.as_slice()
    }

    /// Equal items, in memory of their own.
    ///
    /// # Errors
    /// If an allocation fails.
    pub fn copy(&self, alloc: Global) -> Result<Items, AllocError>
        ensures { IfOk result (λ i. i ≡ self.now) }
    {
        let items = copy_all(alloc, &self.items)?;
        Ok(Items { items })
    }

    /// Whether an order can have them for its lines: one to eight, each of another stock.
    pub fn are_lines(&self) -> bool
        ensures { result ≡ are_lines self.now }
    {
        // The number first: at most eight items are compared with each other.
        !self.items.is_empty() && self.items.len() <= MAX_LINES && are_apart(&self.items)
    }

    /// Whether each quantity is one that can be asked for: from 1 to 2^40.
    pub fn are_numbers(&self) -> bool
        ensures { result ≡ are_numbers self.now }
    {
        are_numbers(&self.items)
    }
}

/// Equal items, in the same order.
fn copy_all(alloc: Global, items: &[Item]) -> Result<Vec<Item>, AllocError>
    ensures { IfOk result (λ l. l.items ≡ items.now) }
{
    let mut copies = Vec::with_capacity(alloc, items.len())?;
    for item in items {
        copies.push(item.copy(alloc)?)?;
    }
    Ok(copies)
}

/// Whether one of these items is of this stock.
fn has_stock(stock: &Key, items: &[Item]) -> bool
    ensures { result ≡ has_stock stock.now items.now }
{
    items
        .iter()
        .any(|item| item.stock.as_str() == stock.as_str())
}

/// Whether each item is of another stock.
fn are_apart(items: &[Item]) -> bool
    ensures { result ≡ are_apart items.now }
{
    // Each is compared with those after it, and not put into a set: a set wants memory, and of those that count there
    // are eight.
    let mut rest = items;
    while let Some((first, others)) = rest.split_first() {
        if has_stock(&first.stock, others) {
            return false;
        }
        rest = others;
    }
    true
}

/// Whether each quantity is one that can be asked for.
fn are_numbers(items: &[Item]) -> bool
    ensures { result ≡ are_numbers items.now }
{
    items
        .iter()
        .all(|item| Number::new(item.quantity).is_some())
}
