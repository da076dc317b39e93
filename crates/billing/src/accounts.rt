//! The handler of the service billing.

ghost use Rattle.std.specs.Prelude.{◌≡◌, Ok, Err, IfOk};
ghost use Rattle.activities.specs.Applied.{IsApplied};
ghost use Rattle.activities.specs.Reaction.{react};
ghost use Rattle.trade.specs.Holding.{ChangesLines};
ghost use Rattle.trade.specs.Accounts.{account_holding, account_reactions};

use crate::Account;
use activities::{Handler, HandlerFault, Input, Outs};
use base::Kind;
use std::alloc::{AllocError, Global};
use trade::{AccountCommand, take_line_message};

/// What billing does with what its accounts process.
///
/// An account holds what an order asks for where its limit leaves as much, and keeps a line for the order: held, and
/// then billed or released; or refused. Only what changes a line allocates.
pub struct Accounts;

impl Handler for Accounts {
    ghost use Rattle.std.specs.Prelude.{false};
    ghost use Rattle.std.proofs.lemmas.Bool.{false≢true};
    ghost use Rattle.base.specs.declared.entity.Kind.TheVariants.{Account as AccountKind};
    ghost use Rattle.trade.specs.Accounts.{account_reactions};
    ghost use Rattle.trade.proofs.Following.{accounts_follow};

    type State = Account;

    type Command = AccountCommand;

    ghost service = { record { kind = AccountKind; reactions = account_reactions; is_none = λ _. false } };

    fn kind() -> Kind {
        Kind::Account
    }

    fn opening(alloc: Global) -> Result<Account, AllocError>
        ensures { result ≡ Ok account_reactions.opening }
    {
        Ok(Account::new(alloc))
    }

    fn is_none(_state: &Account) -> bool {
        false
    }

    fn copy_state(_alloc: Global, state: &Account) -> Result<Account, AllocError> {
        state.copy()
    }

    fn copy_command(_alloc: Global, command: &AccountCommand) -> Result<AccountCommand, AllocError>
        ensures { result ≡ Ok command.now }
    {
        match command {
            AccountCommand::SetLimit(limit) => Ok(AccountCommand::SetLimit(*limit)),
        }
    }

    fn apply(
        alloc: Global,
        state: &mut Account,
        input: &Input<AccountCommand>,
        outs: &mut Outs,
    ) -> Result<(), HandlerFault>
        ensures applied { IsApplied account_reactions state.old input.now outs.old state.new outs.new result }
        ensures memory { result ≡ Err HandlerFault.Memory → ChangesLines account_holding state.old
            (react account_reactions state.old input.now) }
    {
        match input {
            Input::FromSeat(_, AccountCommand::SetLimit(limit)) => state
                .set_limit(*limit)
                .map_err(HandlerFault::Business),
            Input::FromEntity(sender, _, message) => Ok(take_line_message(
                alloc, state, sender, *message, outs,
            )?),
        }
    }

    ghost none_is_opening = { λ s is. absurd (false≢true is) };

    ghost follows = { accounts_follow };
}
