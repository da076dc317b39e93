//! The last number sent of each pair.

ghost use Rattle.std.specs.Prelude.{◌≡◌, ◌≤◌, OnOk, OnErr, IsSome, Some, None, cond, length, take};
ghost use Rattle.std.specs.BTreeMap.{get, is_at};
ghost use Rattle.base.specs.Order.{pair_cmp};
ghost use Rattle.base.specs.declared.pair.Pair.{Pair};
ghost use Rattle.relay.specs.Marks.{mark_in};
ghost use Rattle.relay.specs.Parts.Pages.{AreSent};

use base::{Number, Pair};
use envelope::Letter;
use std::alloc::{AllocError, Global};
use std::collections::BTreeMap;

/// The mark of a pair, and 0 where it has none.
pub fn find(marks: &BTreeMap<Pair, u64>, pair: &Pair) -> u64
    ensures { result ≡ mark_in marks.now pair.now }
{
    match marks.get(pair) {
        Some(number) => *number,
        None => 0,
    }
}

/// How many of these letters are before the first one that is above its pair's mark.
pub fn count_sent(marks: &BTreeMap<Pair, u64>, letters: &[Letter]) -> usize
    ensures within { result ≤ length letters.now }
    ensures sent { AreSent (mark_in marks.now) (take result letters.now) }
{
    let mut count = 0;
    for letter in letters {
        if find(marks, &letter.pair) < letter.number.get() {
            return count;
        }
        count += 1;
    }
    count
}

/// Makes a place for the mark of a pair. No mark changes.
pub fn prepare(
    alloc: Global,
    marks: &mut BTreeMap<Pair, u64>,
    pair: &Pair,
) -> Result<(), AllocError>
    ensures place { OnOk result (IsSome (get pair_cmp marks.new pair.now)) }
    ensures same { (q : Pair) → mark_in marks.new q ≡ mark_in marks.old q }
{
    match marks.get(pair) {
        Some(_) => Ok(()),
        None => put(marks, pair.copy(alloc)?),
    }
}

/// Puts the mark 0 for a pair that has none.
#[tactic(auto, using(crate::proofs::Marking::zero_same))]
fn put(marks: &mut BTreeMap<Pair, u64>, pair: Pair) -> Result<(), AllocError>
    requires { get pair_cmp marks.old pair ≡ None }
    ensures place { OnOk result (IsSome (get pair_cmp marks.new pair)) }
    ensures same { (q : Pair) → mark_in marks.new q ≡ mark_in marks.old q }
{
    match insert(marks, pair) {
        Ok(()) => Ok(()),
        Err(fault) => Err(fault),
    }
}

/// Puts the mark 0 for a pair, or changes nothing.
fn insert(marks: &mut BTreeMap<Pair, u64>, pair: Pair) -> Result<(), AllocError>
    ensures ok { OnOk result ((q : Pair)
        → get pair_cmp marks.new q ≡ cond (is_at (pair_cmp pair) q) (Some 0) (get pair_cmp marks.old q)) }
    ensures place { OnOk result (IsSome (get pair_cmp marks.new pair)) }
    ensures err { OnErr result (marks.new.entries ≡ marks.old.entries) }
{
    match marks.insert(pair, 0) {
        Ok(_) => Ok(()),
        Err(_) => Err(AllocError),
    }
}

/// Sets the mark of a pair that has a place. It allocates nothing.
pub fn set(marks: &mut BTreeMap<Pair, u64>, pair: &Pair, number: Number)
    requires { IsSome (get pair_cmp marks.old pair.now) }
    ensures { (q : Pair) → get pair_cmp marks.new q ≡ cond (is_at (pair_cmp pair.now) q) (Some number)
        (get pair_cmp marks.old q) }
{
    if let Some(mark) = marks.get_mut(pair) {
        *mark = number.get();
    }
}
