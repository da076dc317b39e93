//! The words of a line.

ghost use Rattle.std.specs.Prelude.{◌≡◌, ◌==◌, ◌<◌, ◌⊎◌, Ok, Err, IfOk, IfErr};
ghost use Rattle.std.specs.List.{before_first, after_first};
ghost use Rattle.std.specs.Str.Parse.{ParsesUnsigned};
ghost use Rattle.base.specs.Entity.{IsReading};
ghost use Rattle.base.specs.Number.{IsNumber};
ghost use Rattle.test_script.specs.Words.{ParsesWithin};

use crate::fault::LineFault;
use base::limits::SEATS;
use base::{Entity, EntityFault, Number, Pair};
use std::alloc::Global;

/// A natural number of at most 2^64 - 1, in decimal; a plus may stand first.
///
/// # Errors
/// `Unknown`: the word is none.
pub fn natural(word: &str) -> Result<u64, LineFault>
    ensures { ParsesUnsigned 64 10 word.now result }
{
    match word.parse::<u64>() {
        Ok(number) => Ok(number),
        Err(_) => Err(LineFault::Unknown),
    }
}

/// How many: a natural number of at most 2^64 - 1, in decimal; a plus may stand first.
///
/// # Errors
/// `Unknown`: the word is none.
pub fn size(word: &str) -> Result<usize, LineFault>
    ensures { ParsesUnsigned 64 10 word.now result }
{
    match word.parse::<usize>() {
        Ok(size) => Ok(size),
        Err(_) => Err(LineFault::Unknown),
    }
}

/// The first word of a line, up to its first space, and what follows that space; a line without a space is one word.
pub fn first_word(line: &str) -> (&str, &str)
    ensures word { result.0.now ≡ before_first (λ o. o == 32) line.now }
    ensures rest { result.1.now ≡ after_first (λ o. o == 32) line.now }
{
    // A line without a space is a word with nothing after it, so that a call without arguments is no case of its own.
    match line.split_once(' ') {
        Some((word, rest)) => (word, rest),
        None => (line, ""),
    }
}

/// The number of a letter, or a quantity: from 1 to 2^40, in decimal; a plus may stand first.
///
/// # Errors
/// `Unknown`: the word is none.
pub fn number(word: &str) -> Result<Number, LineFault>
    ensures { ParsesWithin IsNumber word.now result }
{
    match Number::new(natural(word)?) {
        Some(number) => Ok(number),
        None => Err(LineFault::Unknown),
    }
}

/// A seat of a service, in decimal; a plus may stand first.
///
/// # Errors
/// `Unknown`: the word is none, or no service has that many.
pub fn seat(word: &str) -> Result<u8, LineFault>
    ensures { ParsesWithin (λ seat. seat < SEATS) word.now result }
{
    // Parsed as a `u8`: a greater number is refused, where a cast would make another seat of it.
    match word.parse::<u8>() {
        Ok(seat) if seat < SEATS => Ok(seat),
        _ => Err(LineFault::Unknown),
    }
}

/// The pair of two entities' texts, as `order/o1` and `stock/bolt`.
///
/// # Errors
/// The fault of the sender's text, or else of the receiver's.
pub fn pair(alloc: Global, from: &str, to: &str) -> Result<Pair, EntityFault>
    ensures read { IfOk result (λ pair. IsReading from.now (Ok pair.from) × IsReading to.now (Ok pair.to)) }
    ensures refused { IfErr result (λ fault. IsReading from.now (Err fault) ⊎ IsReading to.now (Err fault)) }
{
    let from = Entity::read(alloc, from)?;
    let to = Entity::read(alloc, to)?;
    Ok(Pair { from, to })
}
