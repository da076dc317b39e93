//! The handler of titles.

ghost use Rattle.std.specs.Prelude.{◌≡◌, ◌+◌, nat_le, true, false, MatchOption};
ghost use Rattle.activities.specs.declared.handler.HandlerFault.TheVariants.{Business};
ghost use Rattle.activities.specs.declared.handler.Refusal.TheVariants.{Own};
ghost use Rattle.activities.specs.OwnRefusals.{IsOwnNumber, own};
ghost use Rattle.activities.specs.Applied.{IsAtomic};
ghost use Rattle.envelope.specs.declared.message.Message.TheVariants.{Request};
ghost use Rattle.library.specs.Titles.{on_title_message};

use crate::title::{aside_for, copy_askers, has_aside};
use crate::{ASKERS, Asker, NOT_ON_SHELF, TOO_MANY, Title, TitleCommand};
use activities::{Handler, HandlerFault, Input, Outs, OwnRefusal, Refusal};
use base::limits::MAX_NUMBER;
use base::{Entity, Kind, Number};
use envelope::Message;
use std::alloc::{AllocError, Global};

/// What a library does with what its titles take in.
///
/// A librarian adds copies, and removes those that stand on the shelf. A request for no more copies than stand there
/// has them set aside, for eight askers at once, and for each once. The asker then takes them by its confirm, or gives
/// them back by its cancel. Every title has a row. Only a request wants memory.
pub struct Titles;

impl Handler for Titles {
    ghost use Rattle.std.proofs.lemmas.Bool.{false≢true};
    ghost use Rattle.base.specs.declared.entity.Kind.TheVariants.{Stock};
    ghost use Rattle.library.specs.Titles.{title_reactions};

    type State = Title;

    type Command = TitleCommand;

    ghost service = { record { kind = Stock; reactions = title_reactions; is_none = λ _. false } };

    fn kind() -> Kind {
        Kind::Stock
    }

    fn opening(alloc: Global) -> Result<Title, AllocError> {
        Ok(Title {
            here: 0,
            aside: 0,
            // An empty list allocates nothing, so this opening never fails.
            askers: Vec::new(alloc),
        })
    }

    // No state counts as none, so there is nothing to prove of a title without a row (`none_is_opening`).
    fn is_none(_state: &Title) -> bool {
        false
    }

    fn copy_state(alloc: Global, state: &Title) -> Result<Title, AllocError> {
        Ok(Title {
            here: state.here,
            aside: state.aside,
            askers: copy_askers(alloc, &state.askers)?,
        })
    }

    fn copy_command(_alloc: Global, command: &TitleCommand) -> Result<TitleCommand, AllocError> {
        match command {
            TitleCommand::Add(copies) => Ok(TitleCommand::Add(*copies)),
            TitleCommand::Remove(copies) => Ok(TitleCommand::Remove(*copies)),
        }
    }

    fn apply(
        alloc: Global,
        state: &mut Title,
        input: &Input<TitleCommand>,
        outs: &mut Outs,
    ) -> Result<(), HandlerFault> {
        match input {
            Input::FromSeat(_, TitleCommand::Add(copies)) => {
                let Some(here) = total(state.here, *copies, MAX_NUMBER) else {
                    return Err(refused(TOO_MANY));
                };
                state.here = here;
            }
            Input::FromSeat(_, TitleCommand::Remove(copies)) => {
                if total(state.aside, *copies, state.here).is_none() {
                    return Err(refused(NOT_ON_SHELF));
                }
                state.here = state.here.saturating_sub(copies.get());
            }
            Input::FromEntity(who, _, Message::Request(copies)) => {
                take_request(alloc, state, who, *copies, outs)?;
            }
            Input::FromEntity(who, _, Message::Confirm) => {
                let copies = aside_for(&state.askers, who);
                state.here = state.here.saturating_sub(copies);
                state.put_back(who);
            }
            Input::FromEntity(who, _, Message::Cancel) => state.put_back(who),
            Input::FromEntity(_, _, _) => {}
        }
        Ok(())
    }

    fn refusal_word(refusal: OwnRefusal) -> &'static str {
        match refusal.number() {
            NOT_ON_SHELF => "NotOnShelf",
            _ => "TooMany",
        }
    }

    ghost none_is_opening = { λ s is. absurd (false≢true is) };

    ghost follows = { λ old input done is. tt };
}

/// A refusal of the library's own.
fn refused(number: u8) -> HandlerFault
    requires { IsOwnNumber number }
    ensures { result ≡ Business (Own (own number)) }
{
    HandlerFault::Business(Refusal::Own(OwnRefusal::new(number)))
}

/// The sum of both, where it's no more than `most`.
fn total(number: u64, more: Number, most: u64) -> Option<u64>
    ensures { MatchOption result (nat_le (number + more) most ≡ false)
        (λ s. (s ≡ number + more) × (nat_le (number + more) most ≡ true)) }
{
    match number.checked_add(more.get()) {
        Some(sum) if sum <= most => Some(sum),
        _ => None,
    }
}

/// Takes a request in: sets copies aside, or refuses. Where memory is refused, nothing has changed.
fn take_request(
    alloc: Global,
    title: &mut Title,
    who: &Entity,
    copies: Number,
    outs: &mut Outs,
) -> Result<(), AllocError>
    ensures { IsAtomic (on_title_message title.old who.now (Request copies)) title.old outs.old title.new outs.new
        result }
{
    let Some(aside) = total(title.aside, copies, title.here) else {
        return outs.tell(alloc, who, Message::Refused);
    };
    if title.askers.len() >= ASKERS || has_aside(&title.askers, who) {
        return outs.tell(alloc, who, Message::Refused);
    }
    let copy = who.copy(alloc)?;
    title.askers.push(Asker { who: copy, copies })?;
    if let Err(fault) = outs.tell(alloc, who, Message::Tentative) {
        title.askers.pop();
        return Err(fault);
    }
    title.aside = aside;
    Ok(())
}
