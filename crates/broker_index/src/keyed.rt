//! Values in a slab that are found by a number of theirs. A key is only a hint: it saves the search through the slab.

ghost use Rattle.std.specs.Prelude.{◌≡◌, ◌≢◌, ℕ, true, ◌==◌, nat_lt, not, [], ◌∷◌, ◌++◌, filter, Some, IfSome, IfNone};
ghost use Rattle.std.specs.Prelude.{OnOk, OnErr};
ghost use Rattle.std.specs.List.{find, list_all};
ghost use Rattle.std.specs.Option.{option_copied};
ghost use Rattle.slab.specs.Slab.{get};
ghost use Rattle.broker_index.specs.Slots.{in_order, is_rising};

use slab::Slab;
use std::alloc::AllocError;

/// A value with a number that no other value of its slab has.
pub trait Keyed {
    /// The number.
    ghost number_of: { Self → ℕ };

    /// The number.
    fn key_number(&self) -> u64
        ensures { result ≡ number_of self.now };
}

/// The key of the value that has this number, looked for everywhere.
fn search_key<T: Keyed>(slab: &Slab<T>, number: u64) -> Option<usize>
    ensures found { IfSome result (λ key. (v : T) × (get slab.now key ≡ Some v) × (T.number_of v ≡ number)) }
    ensures absent { IfNone result ((key : ℕ) (v : T) → get slab.now key ≡ Some v → T.number_of v ≢ number) }
{
    // Through the whole slab, but only where a key is wrong.
    for (key, value) in slab.iter() {
        if value.key_number() == number {
            return Some(key);
        }
    }
    None
}

/// The key of the value that has this number, at the hint if it is there.
pub(crate) fn find_key<T: Keyed>(slab: &Slab<T>, number: u64, hint: usize) -> Option<usize>
    ensures found { IfSome result (λ key. (v : T) × (get slab.now key ≡ Some v) × (T.number_of v ≡ number)) }
    ensures absent { IfNone result ((key : ℕ) (v : T) → get slab.now key ≡ Some v → T.number_of v ≢ number) }
{
    match slab.get(hint) {
        Some(value) if value.key_number() == number => Some(hint),
        // A key is given to another value once it is free, so the number decides.
        _ => search_key(slab, number),
    }
}

/// The value that has this number, looked for everywhere.
fn search_value<'a, T: Keyed>(slab: &'a Slab<T>, number: u64) -> Option<&'a T>
    requires { is_rising T.number_of (in_order T.number_of slab.now.slots) ≡ true }
    ensures { option_copied result ≡ find (λ v. T.number_of v == number) (in_order T.number_of slab.now.slots) }
{
    match search_key(slab, number) {
        Some(key) => slab.get(key),
        None => None,
    }
}

/// The value that has this number, if one has: the one at the hint, mostly, which is looked up once.
pub(crate) fn find_value<'a, T: Keyed>(slab: &'a Slab<T>, number: u64, hint: usize) -> Option<&'a T>
    requires { is_rising T.number_of (in_order T.number_of slab.now.slots) ≡ true }
    ensures { option_copied result ≡ find (λ v. T.number_of v == number) (in_order T.number_of slab.now.slots) }
{
    match slab.get(hint) {
        Some(value) if value.key_number() == number => Some(value),
        _ => search_value(slab, number),
    }
}

/// Puts a value in whose number is above all others, and gives its key.
pub(crate) fn put_value<T: Keyed + Drop>(slab: &mut Slab<T>, value: T) -> Result<usize, AllocError>
    requires rising { is_rising T.number_of (in_order T.number_of slab.old.slots) ≡ true }
    requires below { list_all (λ v. nat_lt (T.number_of v) (T.number_of value)) (in_order T.number_of slab.old.slots)
        ≡ true }
    ensures ok { OnOk result (in_order T.number_of slab.new.slots ≡ in_order T.number_of slab.old.slots ++ value ∷ []) }
    ensures err { OnErr result (in_order T.number_of slab.new.slots ≡ in_order T.number_of slab.old.slots) }
    ensures rising { is_rising T.number_of (in_order T.number_of slab.new.slots) ≡ true }
{
    let key = slab.insert(value)?;
    Ok(key)
}

/// Takes the value that has this number out, if one has.
pub(crate) fn take_value<T: Keyed + Drop>(slab: &mut Slab<T>, number: u64, hint: usize)
    requires { is_rising T.number_of (in_order T.number_of slab.old.slots) ≡ true }
    ensures taken { in_order T.number_of slab.new.slots
        ≡ filter (λ v. not (T.number_of v == number)) (in_order T.number_of slab.old.slots) }
    ensures rising { is_rising T.number_of (in_order T.number_of slab.new.slots) ≡ true }
{
    match find_key(slab, number, hint) {
        Some(key) => {
            let _ = slab.try_remove(key);
        }
        None => {}
    }
}
