//! How changes are made: all or none. First each change gets the slots that it sets, which is all that takes memory and
//! changes no table; then the changes are made in order, in these slots; and then the slots that are left empty are
//! taken away.

ghost use Rattle.std.specs.Prelude.{◌≡◌, ◌+◌, ◌≤◌, ◌<◌, OnOk, OnErr, vec_len, length};
ghost use Rattle.std.specs.Vec.{vec_capacity};
ghost use Rattle.std.specs.List.{AllByRecursion};
ghost use Rattle.keep.specs.Tables.{changed_by, changed};
ghost use Rattle.keep.specs.declared.change.Change.TheVariants.{State, Sent, Settled, Handled, Held, NotHeld};
ghost use Rattle.keep_plain.specs.Maps.{tables_in};
ghost use Rattle.keep_plain.specs.Ready.{IsReady, KeepsAll, SameTables};

use crate::copies::copy_place;
use crate::maps::Maps;
use crate::marks::{Mark, set_mark};
use crate::outbox::{empty_upto, sweep_upto};
use crate::slots::{make_slot, set_slot, sweep_slot};
use base::{Entity, Number, Pair};
use envelope::Letter;
use keep::{Change, LetterPlace};
use std::alloc::{AllocError, Global};

/// Puts the slots that a change sets.
fn make_slots<S: Drop, C>(
    alloc: Global,
    maps: &mut Maps<S, C>,
    change: &Change<S, C>,
) -> Result<(), AllocError>
    ensures same { SameTables maps.old maps.new }
    ensures journal { maps.new.journal ≡ maps.old.journal }
    ensures keeps { KeepsAll maps.old maps.new }
    ensures ready { OnOk result (IsReady maps.new change.now) }
{
    match change {
        // Rows of the journal have room already, and what only empties a slot needs none.
        Change::Journal(_, _) | Change::NotHeld(_, _) => Ok(()),
        Change::State(entity, _) => make_slot(&mut maps.rows, entity.copy(alloc)?),
        Change::Sent(letter) => {
            make_slot(&mut maps.marks, letter.pair.copy(alloc)?)?;
            make_slot(&mut maps.outbox, copy_place(alloc, letter)?)
        }
        Change::Settled(pair, _) => make_slot(&mut maps.marks, pair.copy(alloc)?),
        Change::Handled(pair, _) => maps.arrivals.make_handled(alloc, pair),
        Change::Held(letter) => maps.arrivals.make_held(alloc, letter),
    }
}

/// Puts a letter into the outbox, in slots that are there.
fn send<S: Drop, C: Drop>(maps: &mut Maps<S, C>, letter: Letter)
    requires { IsReady maps.old (Sent letter) }
    ensures made { tables_in maps.new ≡ changed_by (Sent letter) (tables_in maps.old) }
    ensures keeps { KeepsAll maps.old maps.new }
    ensures journal { maps.new.journal ≡ maps.old.journal }
{
    // The letter's own pair becomes the key: a copy would allocate.
    let place = LetterPlace {
        pair: letter.pair,
        number: letter.number,
    };
    set_mark(&mut maps.marks, &place.pair, Mark::Sent, place.number);
    set_slot(&mut maps.outbox, &place, Some(letter.message));
}

/// Settles the letters of a pair up to a number. Their slots are left empty.
fn settle<S: Drop, C: Drop>(maps: &mut Maps<S, C>, pair: Pair, number: Number) -> Pair
    requires { IsReady maps.old (Settled pair number) }
    ensures pair { result ≡ pair }
    ensures made { tables_in maps.new ≡ changed_by (Settled pair number) (tables_in maps.old) }
    ensures keeps { KeepsAll maps.old maps.new }
    ensures journal { maps.new.journal ≡ maps.old.journal }
{
    // The pair is moved into the key, and returned for the sweep: a copy would allocate.
    let mut place = LetterPlace { pair, number };
    set_mark(&mut maps.marks, &place.pair, Mark::Settled, number);
    empty_upto(&mut maps.outbox, &mut place);
    place.pair
}

/// Sets the handled mark of a pair, in slots that are there. The slot of the pair as a drainable one may be left empty.
fn handle<S: Drop, C: Drop>(maps: &mut Maps<S, C>, pair: Pair, number: Number) -> Pair
    requires { IsReady maps.old (Handled pair number) }
    ensures pair { result ≡ pair }
    ensures made { tables_in maps.new ≡ changed_by (Handled pair number) (tables_in maps.old) }
    ensures keeps { KeepsAll maps.old maps.new }
    ensures journal { maps.new.journal ≡ maps.old.journal }
{
    let place = LetterPlace { pair, number };
    maps.arrivals.handle(&place);
    place.pair
}

/// Holds a letter, in slots that are there, and gives its place. The slot of its pair as a drainable one may be left
/// empty.
fn hold<S: Drop, C: Drop>(maps: &mut Maps<S, C>, letter: Letter) -> LetterPlace
    requires { IsReady maps.old (Held letter) }
    ensures made { tables_in maps.new ≡ changed_by (Held letter) (tables_in maps.old) }
    ensures keeps { KeepsAll maps.old maps.new }
    ensures journal { maps.new.journal ≡ maps.old.journal }
{
    let place = LetterPlace {
        pair: letter.pair,
        number: letter.number,
    };
    maps.arrivals.hold(&place, letter.message);
    place
}

/// Holds a letter no more. Its slots are left empty.
fn release<S: Drop, C: Drop>(maps: &mut Maps<S, C>, pair: Pair, number: Number) -> Pair
    ensures pair { result ≡ pair }
    ensures made { tables_in maps.new ≡ changed_by (NotHeld pair number) (tables_in maps.old) }
    ensures keeps { KeepsAll maps.old maps.new }
    ensures journal { maps.new.journal ≡ maps.old.journal }
{
    let place = LetterPlace { pair, number };
    maps.arrivals.release(&place);
    place.pair
}

/// Sets an entity's row, in a slot that is there. Where the row is taken away, the entity is returned: its slot is left
/// empty.
fn set_row<S: Drop, C: Drop>(
    maps: &mut Maps<S, C>,
    entity: Entity,
    row: Option<S>,
) -> Option<Entity>
    requires { IsReady maps.old (State entity row) }
    ensures made { tables_in maps.new ≡ changed_by (State entity row) (tables_in maps.old) }
    ensures keeps { KeepsAll maps.old maps.new }
    ensures journal { maps.new.journal ≡ maps.old.journal }
{
    // Asked first: the row is moved into its slot.
    let is_gone = row.is_none();
    set_slot(&mut maps.rows, &entity, row);
    is_gone.then_some(entity)
}

/// Makes a change, in slots that are there. What may have left empty slots is returned, for a sweep.
fn make_change<S: Drop, C: Drop>(
    maps: &mut Maps<S, C>,
    change: Change<S, C>,
) -> Option<Change<S, C>>
    requires ready { IsReady maps.old change }
    requires room { vec_len maps.old.journal < vec_capacity maps.old.journal }
    ensures made { tables_in maps.new ≡ changed_by change (tables_in maps.old) }
    ensures keeps { KeepsAll maps.old maps.new }
    ensures room { vec_capacity maps.new.journal ≡ vec_capacity maps.old.journal }
    ensures len { vec_len maps.new.journal ≤ vec_len maps.old.journal + 1 }
{
    match change {
        Change::Journal(_, row) => {
            maps.journal.push_reserved(row);
            None
        }
        Change::State(entity, row) => {
            let entity = set_row(maps, entity, row)?;
            Some(Change::State(entity, None))
        }
        Change::Sent(letter) => {
            send(maps, letter);
            None
        }
        Change::Settled(pair, number) => {
            let pair = settle(maps, pair, number);
            Some(Change::Settled(pair, number))
        }
        Change::Handled(pair, number) => {
            let pair = handle(maps, pair, number);
            Some(Change::Handled(pair, number))
        }
        Change::Held(letter) => {
            let place = hold(maps, letter);
            // To be swept it needs its place alone.
            Some(Change::NotHeld(place.pair, place.number))
        }
        Change::NotHeld(pair, number) => {
            let pair = release(maps, pair, number);
            Some(Change::NotHeld(pair, number))
        }
    }
}

/// Takes the empty slots that a change has set away.
fn sweep_change<S: Drop, C: Drop>(maps: &mut Maps<S, C>, change: Change<S, C>)
    ensures { SameTables maps.old maps.new }
{
    match change {
        Change::Journal(_, _) => {}
        Change::State(entity, _) => sweep_slot(&mut maps.rows, &entity),
        Change::Sent(letter) => {
            let place = LetterPlace {
                pair: letter.pair,
                number: letter.number,
            };
            sweep_slot(&mut maps.marks, &place.pair);
            sweep_slot(&mut maps.outbox, &place);
        }
        Change::Settled(pair, number) => {
            sweep_slot(&mut maps.marks, &pair);
            sweep_upto(&mut maps.outbox, LetterPlace { pair, number });
        }
        Change::Handled(pair, _) => maps.arrivals.sweep_handled(&pair),
        Change::Held(letter) => maps.arrivals.sweep_held(&LetterPlace {
            pair: letter.pair,
            number: letter.number,
        }),
        Change::NotHeld(pair, number) => maps.arrivals.sweep_held(&LetterPlace { pair, number }),
    }
}

/// Puts the slots that changes set.
fn make_all_slots<S: Drop, C>(
    alloc: Global,
    maps: &mut Maps<S, C>,
    changes: &[Change<S, C>],
) -> Result<(), AllocError>
    ensures same { SameTables maps.old maps.new }
    ensures journal { maps.new.journal ≡ maps.old.journal }
    ensures ready { OnOk result (AllByRecursion (IsReady maps.new) changes.now) }
{
    for change in changes {
        make_slots(alloc, maps, change)?;
    }
    Ok(())
}

/// Adds a change, if there is one and memory isn't refused.
fn note<S: Drop, C: Drop>(emptied: &mut Vec<Change<S, C>>, change: Option<Change<S, C>>) {
    if let Some(change) = change {
        // There is room: `apply` made it. A slot that isn't swept would hold memory, and be as no row.
        let _ = emptied.push(change);
    }
}

/// Makes changes in order, in slots that are there. Adds those that may have left empty slots, for a sweep.
fn make_all<S: Drop, C: Drop>(
    maps: &mut Maps<S, C>,
    changes: Vec<Change<S, C>>,
    emptied: &mut Vec<Change<S, C>>,
)
    requires ready { AllByRecursion (IsReady maps.old) changes.items }
    requires room { vec_len maps.old.journal + length changes.items ≤ vec_capacity maps.old.journal }
    ensures { tables_in maps.new ≡ changed changes.items (tables_in maps.old) }
{
    for change in changes {
        let left = make_change(maps, change);
        note(emptied, left);
    }
}

/// Takes the empty slots that changes have set away.
fn sweep_all<S: Drop, C: Drop>(maps: &mut Maps<S, C>, changes: Vec<Change<S, C>>)
    ensures { SameTables maps.old maps.new }
{
    for change in changes {
        sweep_change(maps, change);
    }
}

/// How many of these changes may leave empty slots.
fn count_emptying<S, C>(changes: &[Change<S, C>]) -> usize {
    // As `make_change` returns them: for one that isn't counted here the list may have no room.
    changes
        .iter()
        .filter(|change| {
            !matches!(
                change,
                Change::Journal(_, _) | Change::State(_, Some(_)) | Change::Sent(_)
            )
        })
        .count()
}

/// Makes all of these changes in order, or none if an allocation fails.
pub fn apply<S: Drop, C: Drop>(
    alloc: Global,
    maps: &mut Maps<S, C>,
    changes: Vec<Change<S, C>>,
) -> Result<(), AllocError>
    ensures ok { OnOk result (tables_in maps.new ≡ changed changes.items (tables_in maps.old)) }
    ensures err { OnErr result (tables_in maps.new ≡ tables_in maps.old) }
{
    // All that allocates comes before a table is changed: no change has to be undone.
    let mut emptied = Vec::with_capacity(alloc, count_emptying(&changes))?;
    // More than the journal's rows among them, so that they needn't be counted.
    maps.journal.reserve(changes.len())?;
    if let Err(fault) = make_all_slots(alloc, maps, &changes) {
        // The slots that were made are empty: without them the tables are as they were.
        sweep_all(maps, changes);
        return Err(fault);
    }
    make_all(maps, changes, &mut emptied);
    sweep_all(maps, emptied);
    Ok(())
}
