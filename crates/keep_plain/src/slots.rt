//! Maps of slots. What is at a key is what its slot has; an empty slot is as none, so that one can be put where memory
//! may be refused, and be filled where it may not.

ghost use Rattle.std.specs.Prelude.{◌≡◌, IsSome, OnOk};
ghost use Rattle.std.specs.Option.{option_copied};
ghost use Rattle.keep_plain.specs.Slots.{at, HasSlot, KeepsSlots, SameAt, SetsAt};

use std::alloc::AllocError;
use std::collections::BTreeMap;

/// What is at a key.
pub fn get_slot<'a, K: Ord, V>(map: &'a BTreeMap<K, Option<V>>, key: &K) -> Option<&'a V>
    ensures { option_copied result ≡ at K.cmp map.now key.now }
{
    map.get(key)?.as_ref()
}

/// Puts an empty slot where a key has none.
pub fn make_slot<K: Ord + Drop, V: Drop>(
    map: &mut BTreeMap<K, Option<V>>,
    key: K,
) -> Result<(), AllocError>
    ensures same { SameAt K.cmp map.old map.new }
    ensures keeps { KeepsSlots K.cmp map.old map.new }
    ensures made { OnOk result (HasSlot K.cmp map.new key) }
{
    // What is there stays, until the change itself is made.
    map.entry(key)?.or_insert(None);
    Ok(())
}

/// Fills the slot of a key, or empties it.
pub fn set_slot<K: Ord + Drop, V: Drop>(map: &mut BTreeMap<K, Option<V>>, key: &K, value: Option<V>)
    requires { HasSlot K.cmp map.old key.now }
    ensures sets { SetsAt K.cmp key.now value map.old map.new }
    ensures keeps { KeepsSlots K.cmp map.old map.new }
{
    if let Some(slot) = map.get_mut(key) {
        *slot = value;
    }
}

/// Empties the slot of a key, where it has one.
pub fn empty_slot<K: Ord + Drop, V: Drop>(map: &mut BTreeMap<K, Option<V>>, key: &K)
    ensures sets { SetsAt K.cmp key.now None map.old map.new }
    ensures keeps { KeepsSlots K.cmp map.old map.new }
{
    if map.contains_key(key) {
        set_slot(map, key, None);
    }
}

/// Takes the slot of a key away, where it is empty.
pub fn sweep_slot<K: Ord + Drop, V: Drop>(map: &mut BTreeMap<K, Option<V>>, key: &K)
    ensures same { SameAt K.cmp map.old map.new }
{
    // Tested now: a later change of the same transaction may have filled the slot again.
    if let Some(None) = map.get(key) {
        map.remove(key);
    }
}
