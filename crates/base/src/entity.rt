//! Entities: a kind and a key.

ghost use Rattle.std.specs.Prelude.{◌≡◌, ◌≢◌, IfOk, MatchOption, slice_index};
ghost use Rattle.base.specs.Entity.{word_of, prefix_of, text_of, queue_of, IsEntity, IsReading};
ghost use Rattle.base.specs.Parts.Lead.{lead_of};
ghost use Rattle.base.specs.declared.entity.Kind.{Kind};

use crate::key::is_key;
use crate::{EntityFault, Key};
use std::alloc::{AllocError, Global};
use std::cmp::Ordering;
use std::fmt;
use std::marker::Model;

/// What an entity is, and so which service has it.
#[derive(Clone, Copy, Debug, PartialEq, Eq)]
pub enum Kind {
    /// An order, of the service purchasing.
    Order,
    /// A stock, of the service warehouse.
    Stock,
    /// An account, of the service billing.
    Account,
}

impl Kind {
    /// Its word in texts: `order`, `stock` or `account`.
    pub fn word(self) -> &'static str
        ensures { result.now ≡ word_of self }
    {
        match self {
            Kind::Order => "order",
            Kind::Stock => "stock",
            Kind::Account => "account",
        }
    }

    /// What the text of each entity of this kind begins with: the word and a slash.
    pub fn prefix(self) -> &'static str
        ensures { result.now ≡ prefix_of self }
    {
        match self {
            Kind::Order => "order/",
            Kind::Stock => "stock/",
            Kind::Account => "account/",
        }
    }

    /// The destination of the messages to entities of this kind.
    pub fn queue(self) -> &'static str
        ensures { result.now ≡ queue_of self }
    {
        match self {
            Kind::Order => "/queue/purchasing",
            Kind::Stock => "/queue/warehouse",
            Kind::Account => "/queue/billing",
        }
    }

    /// The kind of this word.
    fn of_word(word: &str) -> Option<Kind>
        ensures { MatchOption result ((k : Kind) → word_of k ≢ word.now) (λ k. word_of k ≡ word.now) }
    {
        if word == "order" {
            Some(Kind::Order)
        } else if word == "stock" {
            Some(Kind::Stock)
        } else if word == "account" {
            Some(Kind::Account)
        } else {
            None
        }
    }
}

/// The octet at a place, or 0 behind the end.
fn octet_at(octets: &[u8], place: usize) -> u8
    ensures { result ≡ slice_index octets.now place }
{
    // No key has a NUL, so 0 sorts a key before every longer one that begins with it.
    octets.get(place).copied().unwrap_or(0)
}

/// How an entity's text begins, as one word: the first octet of its kind's word, then the first seven of its key.
// A look-up in an ordered map makes some 28 comparisons, and with this word most follow no pointer. At 20,000 orders a
// commit takes some 19,700 instructions with it, and 40,300 without.
#[tactic(auto, unfolding(crate::specs::Parts::Lead::lead_of))]
fn lead_of(kind: Kind, key: &str) -> u64
    ensures { result ≡ lead_of (record { kind = kind; key = key.now }) }
{
    // The first octet of a kind's word is enough: the three words begin with different ones, and sort by them.
    // Big-endian, so that numbers sort as texts do.
    let key = key.as_bytes();
    u64::from_be_bytes([
        octet_at(kind.word().as_bytes(), 0),
        octet_at(key, 0),
        octet_at(key, 1),
        octet_at(key, 2),
        octet_at(key, 3),
        octet_at(key, 4),
        octet_at(key, 5),
        octet_at(key, 6),
    ])
}

/// An entity: contracts see its kind and the octets of its key.
///
/// The key has 1 to 64 octets of UTF-8 and no NUL. Entities are ordered by the octets of their texts.
#[derive(Drop)]
pub struct Entity {
    kind: Kind,
    // Orders as the text's beginning does, so that most comparisons read no text.
    lead: u64,
    text: String,
}

impl Model for Entity {
    ghost use Rattle.base.specs.Entity.{Entity};

    ghost Value = { Entity };

    ghost use Rattle.base.specs.EntityView.{entity_of, IsWhole};

    ghost view = { entity_of };

    ghost invariant = { IsWhole };
}

impl Entity {
    /// The entity that a text names, as `order/o1`.
    ///
    /// # Errors
    /// `BadKind` where the text begins with no kind's word and a slash; else `BadKey` where what follows is no key;
    /// else `Memory` where a growth was refused.
    pub fn read(alloc: Global, text: &str) -> Result<Entity, EntityFault>
        ensures { IsReading text.now result }
    {
        // At the first slash: a key may have slashes of its own.
        let Some((word, key)) = text.split_once('/') else {
            return Err(EntityFault::BadKind);
        };
        let Some(kind) = Kind::of_word(word) else {
            return Err(EntityFault::BadKind);
        };
        if !is_key(key) {
            return Err(EntityFault::BadKey);
        }
        let lead = lead_of(kind, key);
        // Last: a text that names nothing is reported as that, however little memory there is.
        let text = String::from_str(alloc, text)?;
        Ok(Entity { kind, lead, text })
    }

    /// The entity of a kind and a key.
    ///
    /// # Errors
    /// Where a growth was refused.
    pub fn new(alloc: Global, kind: Kind, key: &Key) -> Result<Entity, AllocError>
        ensures { IfOk result (λ e. e ≡ record { kind = kind; key = key.now }) }
    {
        let key = key.as_str();
        // No test: a `Key` was tested when it was made, so only memory can fail.
        let mut text = String::from_str(alloc, kind.prefix())?;
        text.push_str(key)?;
        Ok(Entity {
            kind,
            lead: lead_of(kind, key),
            text,
        })
    }

    /// Its kind.
    pub fn kind(&self) -> Kind
        ensures kind { result ≡ self.now.kind }
        ensures entity { IsEntity self.now }
    {
        self.kind
    }

    /// Its text: the kind's word, a slash and the key. `read` gives the entity back.
    pub fn text(&self) -> &str
        ensures text { result.now ≡ text_of self.now }
        ensures entity { IsEntity self.now }
    {
        self.text.as_str()
    }

    /// Its key.
    pub fn key(&self) -> &str
        ensures key { result.now ≡ self.now.key }
        ensures entity { IsEntity self.now }
    {
        // Cut out, and not kept beside the text: the text is what is sent, stored and compared.
        let start = self.kind.prefix().len();
        &self.text[start..]
    }

    /// An equal entity, in memory of its own.
    pub fn copy(&self, alloc: Global) -> Result<Entity, AllocError>
        ensures { IfOk result (λ e. e ≡ self.now) }
    {
        Ok(Entity {
            kind: self.kind,
            lead: self.lead,
            text: String::from_str(alloc, &self.text)?,
        })
    }
}

/// Its text, quoted and escaped as a `str` is: `"order/o1"`.
impl fmt::Debug for Entity {
    fn fmt<W: fmt::Write>(&self, f: &mut fmt::Formatter<W>) -> fmt::Result {
        let text = self.text();
        write!(f, "{text:?}")
    }
}

impl PartialEq for Entity {
    ghost use Rattle.base.specs.Order.{same_entity, same_entity-equivalence};
    ghost use Rattle.std.specs.Cmp.{partial_equiv_from_equiv};

    ghost eq = { same_entity };

    ghost laws = { partial_equiv_from_equiv same_entity-equivalence };

    #[tactic(auto, unfolding(crate::specs::Order::same_entity))]
    fn eq(&self, other: &Entity) -> bool {
        // Without the kinds, which the texts begin with. Different leads need no look at a text.
        self.lead == other.lead && self.text == other.text
    }
}

impl Eq for Entity {
    ghost use Rattle.base.specs.Order.{same_entity-equivalence};

    ghost laws = { same_entity-equivalence };
}

impl PartialOrd for Entity {
    ghost use Rattle.std.specs.Ordering.{as_partial_cmp};
    ghost use Rattle.base.specs.Order.{entity_cmp, entity_cmp-partial};

    ghost partial_cmp = { as_partial_cmp entity_cmp };

    ghost laws = { entity_cmp-partial };

    fn partial_cmp(&self, other: &Entity) -> Option<Ordering> {
        Some(self.cmp(other))
    }
}

impl Ord for Entity {
    ghost use Rattle.std.specs.Prelude.{refl};
    ghost use Rattle.base.specs.Order.{entity_cmp, entity_cmp-total, same_entity-ties};

    ghost cmp = { entity_cmp };

    ghost total = { entity_cmp-total };

    ghost matches_partial_cmp = { λ a b. refl };

    ghost matches_eq = { same_entity-ties };

    fn cmp(&self, other: &Entity) -> Ordering {
        // Where the leads differ they differ as the texts do, so only equal ones need the texts.
        match self.lead.cmp(&other.lead) {
            Ordering::Equal => self.text.cmp(&other.text),
            unequal => unequal,
        }
    }
}
