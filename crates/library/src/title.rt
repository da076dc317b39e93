//! A title: how many copies the library has of it, for whom some are set aside, and what a librarian asks of it.

ghost use Rattle.std.specs.Prelude.{◌≡◌, ◌-◌, IfOk};
ghost use Rattle.library.specs.Titles.{has_aside, aside_for, without, put_back};

use activities::Parts;
use base::{Entity, Number};
use std::alloc::{AllocError, Global};
use std::marker::Model;

/// For how many askers copies of a title are set aside at once.
pub const ASKERS: usize = 8;

/// The librarian's refusal to remove more copies than stand on the shelf.
pub const NOT_ON_SHELF: u8 = 75;

/// The librarian's refusal to add copies beyond 2^40.
pub const TOO_MANY: u8 = 76;

/// Somebody for whom copies are set aside.
#[derive(Debug, Drop)]
pub struct Asker {
    /// Who asked.
    pub who: Entity,
    /// How many copies.
    pub copies: Number,
}

/// A title: contracts see how many copies are here, how many of them are set aside, and the list of its askers.
#[derive(Debug, Drop)]
pub struct Title {
    /// How many copies are here, on the shelf or set aside.
    pub(crate) here: u64,
    /// How many of them are set aside.
    pub(crate) aside: u64,
    /// For whom, each once, in the order in which they asked: at most [`ASKERS`].
    pub(crate) askers: Vec<Asker>,
}

impl Model for Title {
    ghost use Rattle.library.specs.Titles.{TitleState};

    ghost Value = { TitleState };

    ghost view = { λ t. record { here = t.here; aside = t.aside; askers = t.askers.items } };
}

/// A title is small: it's written as a whole.
impl Parts for Title {
    ghost use Rattle.std.specs.Prelude.{⊤};

    ghost follows = { λ _ _ _. ⊤ };
}

impl Title {
    /// How many copies stand on the shelf: those that are here and not set aside.
    pub fn on_shelf(&self) -> u64
        ensures { result ≡ self.now.here - self.now.aside }
    {
        // Saturating: that no more is set aside than is here is a law of reactions, and not known of any title.
        self.here.saturating_sub(self.aside)
    }

    /// Puts back on the shelf what is set aside for this asker, if anything is.
    pub(crate) fn put_back(&mut self, who: &Entity)
        ensures { self.new ≡ put_back self.old who.now }
    {
        self.aside = self.aside.saturating_sub(aside_for(&self.askers, who));
        take_out(&mut self.askers, who);
    }
}

/// What a librarian asks of a title.
#[derive(Debug, Drop)]
pub enum TitleCommand {
    /// So many copies come, new ones or from readers, if no more than 2^40 are here then.
    Add(Number),
    /// So many copies go, if they stand on the shelf.
    Remove(Number),
}

/// Whether copies are set aside for this entity.
pub(crate) fn has_aside(askers: &[Asker], who: &Entity) -> bool
    ensures { result ≡ has_aside askers.now who.now }
{
    match askers.split_first() {
        None => false,
        Some((first, rest)) => first.who == *who || has_aside(rest, who),
    }
}

/// How many copies are set aside for this entity, 0 where none are.
pub(crate) fn aside_for(askers: &[Asker], who: &Entity) -> u64
    ensures { result ≡ aside_for askers.now who.now }
{
    match askers.split_first() {
        None => 0,
        Some((first, _)) if first.who == *who => first.copies.get(),
        Some((_, rest)) => aside_for(rest, who),
    }
}

/// Takes an entity out of the askers; the others stay in their order.
fn take_out(askers: &mut Vec<Asker>, who: &Entity)
    ensures { askers.new.items ≡ without askers.old.items who.now }
{
    askers.retain(|asker| asker.who != *who);
}

/// Equal askers, in the same order.
pub(crate) fn copy_askers(alloc: Global, askers: &[Asker]) -> Result<Vec<Asker>, AllocError>
    ensures { IfOk result (λ l. l.items ≡ askers.now) }
{
    let mut copies = Vec::with_capacity(alloc, askers.len())?;
    for asker in askers {
        let who = asker.who.copy(alloc)?;
        copies.push(Asker {
            who,
            copies: asker.copies,
        })?;
    }
    Ok(copies)
}
