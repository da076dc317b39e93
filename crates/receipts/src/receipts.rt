//! Receipts by number.

ghost use Rattle.std.specs.Prelude.{◌≡◌, None, OnOk, OnErr, IfNone};
ghost use Rattle.std.specs.Ordering.{nat_cmp};
ghost use Rattle.std.specs.BTreeMap.{insert_entry};
ghost use Rattle.receipts.specs.Books.{Opens, IsBook, new_book, open_under, closed};

use crate::ReceiptFault;
use std::alloc::{AllocError, Global};
use std::collections::BTreeMap;
use std::marker::Model;

/// The receipts of one connection: contracts see the last number given, and the open tags with their numbers, the
/// lowest first.
///
/// Opening and closing cost the logarithm of how many are open.
#[derive(Drop)]
pub struct Receipts<T: Drop> {
    last: u64,
    // A queue would keep the places of all numbers that are closed after one that stays open.
    tags: BTreeMap<u64, T>,
}

impl<T: Drop> Model for Receipts<T> {
    ghost use Rattle.receipts.specs.Books.{ReceiptBook, IsBook};

    ghost Value = { ReceiptBook T };

    ghost view = { λ r. record { last = r.last; tags = r.tags.entries } };

    ghost invariant = { λ r. IsBook (record { last = r.last; tags = r.tags.entries }) };
}

impl<T: Drop> Receipts<T> {
    /// No receipt yet. It takes no memory.
    pub fn new(alloc: Global) -> Receipts<T>
        ensures { result ≡ new_book }
    {
        Receipts {
            last: 0,
            tags: BTreeMap::new(alloc),
        }
    }

    /// The last number given, and 0 where none was.
    pub fn last(&self) -> u64
        ensures { result ≡ self.now.last }
    {
        self.last
    }

    /// Does nothing: its contract tells a caller what holds of all receipts.
    pub fn holds(&self)
        ensures { IsBook self.now }
    {
        let _ = &self.tags;
    }

    /// Opens a receipt for a tag, under the next number.
    ///
    /// # Errors
    /// `NumbersUsed` exactly where the last number is 2^64 - 1; else `Memory` where a growth was refused. After either
    /// nothing has changed.
    pub fn open(&mut self, tag: T) -> Result<u64, ReceiptFault>
        ensures { Opens tag self.old self.new result }
    {
        // Tested before anything allocates, so that no failed allocation hides a fault that stays.
        if self.last == u64::MAX {
            return Err(ReceiptFault::NumbersUsed);
        }
        let number = self.last + 1;
        match put(&mut self.tags, number, tag) {
            Ok(()) => {
                // Only now: a failed allocation uses no number.
                self.last = number;
                Ok(number)
            }
            Err(_) => Err(ReceiptFault::Memory),
        }
    }

    /// Closes the receipt of a number, and gives its tag; `None` exactly where none is open under it. It takes no
    /// memory.
    pub fn close(&mut self, number: u64) -> Option<T>
        ensures tag { result ≡ open_under number self.old }
        ensures closed { self.new ≡ closed number self.old }
        ensures ended { open_under number self.new ≡ None }
        ensures none { IfNone result (self.new ≡ self.old) }
    {
        // Removing allocates nothing, so a RECEIPT can always be processed; a second one of the number finds nothing.
        self.tags.remove(&number)
    }
}

/// Puts a tag under a number, or changes nothing.
fn put<T: Drop>(tags: &mut BTreeMap<u64, T>, number: u64, tag: T) -> Result<(), AllocError>
    ensures ok { OnOk result (tags.new.entries ≡ insert_entry nat_cmp tags.old.entries number tag) }
    ensures err { OnErr result (tags.new.entries ≡ tags.old.entries) }
{
    match tags.insert(number, tag) {
        // No tag was replaced: the number is given here for the first time.
        Ok(_) => Ok(()),
        Err(_) => Err(AllocError),
    }
}
