//! Where the rows may stand that new rows of the journal put into the outbox: among those of the new rows' entities
//! alone.

ghost use Rattle.std.specs.Prelude.{◌≡◌, ◌≢◌, false, true, IfSome, MatchOption, Some, None};
ghost use Rattle.base.specs.Entity.{Entity};
ghost use Rattle.base.specs.Order.{entity_cmp};
ghost use Rattle.std.specs.declared.cmp.Ordering.TheVariants.{Less};
ghost use Rattle.relay.specs.Parts.News.{IsFrom, IsFirstFrom, IsClear};

use activities::JournalRow;
use base::{Entity, Number, Pair};
use keep::LetterPlace;
use std::alloc::Global;
use std::cmp::Ordering;
use std::collections::BTreeMap;

/// The text of the first entity, as no key has a NUL and `account` is the first kind: no other comes before it.
const FIRST: &str = "account/\u{1}";

/// Whether an entity doesn't come before the sender of a place.
fn is_from(entity: &Entity, behind: &Option<LetterPlace>) -> bool
    ensures { result ≡ false → ¬ (IsFrom behind.now entity.now) }
{
    match behind {
        Some(place) => entity.cmp(&place.pair.from) != Ordering::Less,
        None => true,
    }
}

/// Whether an entity comes before another, or there is no other.
fn is_before(entity: &Entity, other: Option<&Entity>) -> bool
    ensures not_less { result ≡ false → MatchOption other.entry ⊥ (λ o. entity_cmp entity.now o.now ≢ Less) }
    ensures less { result ≡ true → IfSome other.entry (λ o. entity_cmp entity.now o.now ≡ Less) }
{
    match other {
        Some(other) => entity.cmp(other) == Ordering::Less,
        None => true,
    }
}

/// The first entity of these rows that doesn't come before the sender of a place.
pub fn first_from<'a, C>(
    news: &'a [JournalRow<C>],
    behind: &Option<LetterPlace>,
) -> Option<&'a Entity>
    ensures { MatchOption result (IsFirstFrom news.now behind.now None) (λ e. IsFirstFrom news.now behind.now
        (Some e.now)) }
{
    let mut first: Option<&'a Entity> = None;
    for row in news {
        if is_from(&row.entity, behind) && is_before(&row.entity, first) {
            first = Some(&row.entity);
        }
    }
    first
}

/// The place of the last letter sent of the pairs before those of an entity, where it is known and memory isn't
/// refused.
fn place_before(alloc: Global, marks: &BTreeMap<Pair, u64>, entity: &Entity) -> Option<LetterPlace>
    ensures { IfSome result (λ p. entity_cmp p.pair.from entity.now ≡ Less) }
{
    let bound = Pair {
        from: entity.copy(alloc).ok()?,
        to: Entity::read(alloc, FIRST).ok()?,
    };
    // No pair of the entity is before `bound`, which has the first receiver. It's tested below, not proved.
    let (last, mark) = marks.range(..&bound).next_back()?;
    if last.from.cmp(entity) != Ordering::Less {
        return None;
    }
    Some(LetterPlace {
        pair: last.copy(alloc).ok()?,
        number: Number::new(*mark)?,
    })
}

/// A place that is the same, where memory isn't refused.
fn copy_place(alloc: Global, place: &LetterPlace) -> Option<LetterPlace>
    ensures { IfSome result (λ p. p ≡ place.now) }
{
    Some(LetterPlace {
        pair: place.pair.copy(alloc).ok()?,
        number: place.number,
    })
}

/// How far all was sent where no letter comes from these rows' entities: the place itself, or one before the rows of
/// the first of them.
pub fn clear_place<C>(
    alloc: Global,
    marks: &BTreeMap<Pair, u64>,
    news: &[JournalRow<C>],
    behind: &Option<LetterPlace>,
    reach: &LetterPlace,
) -> Option<LetterPlace>
    ensures { IfSome result (λ p. IsClear news.now behind.now p) }
{
    match first_from(news, behind) {
        Some(entity) => match reach.pair.from.cmp(entity) {
            // The place is before all that these entities may have sent.
            Ordering::Less => copy_place(alloc, reach),
            _ => place_before(alloc, marks, entity),
        },
        None => copy_place(alloc, reach),
    }
}
