//! The handler of the service warehouse.

ghost use Rattle.std.specs.Prelude.{◌≡◌, Ok, Err, IfOk};
ghost use Rattle.activities.specs.Applied.{IsApplied};
ghost use Rattle.activities.specs.Reaction.{react};
ghost use Rattle.trade.specs.Holding.{ChangesLines};
ghost use Rattle.trade.specs.Stocks.{stock_holding, stock_reactions};

use crate::Stock;
use activities::{Handler, HandlerFault, Input, Outs};
use base::Kind;
use std::alloc::{AllocError, Global};
use trade::{StockCommand, take_line_message};

/// What warehouse does with what its stocks take in.
///
/// A stock holds what an order asks for where enough is there and free, and keeps a line for the order: held, and then
/// shipped or released; or refused. Only what changes a line allocates.
pub struct Stocks;

impl Handler for Stocks {
    ghost use Rattle.std.specs.Prelude.{false};
    ghost use Rattle.std.proofs.lemmas.Bool.{false≢true};
    ghost use Rattle.base.specs.declared.entity.Kind.TheVariants.{Stock as StockKind};
    ghost use Rattle.trade.specs.Stocks.{stock_reactions};
    ghost use Rattle.trade.proofs.Following.{stocks_follow};

    type State = Stock;

    type Command = StockCommand;

    ghost service = { record { kind = StockKind; reactions = stock_reactions; is_none = λ _. false } };

    fn kind() -> Kind {
        Kind::Stock
    }

    fn opening(alloc: Global) -> Result<Stock, AllocError>
        ensures { result ≡ Ok stock_reactions.opening }
    {
        Ok(Stock::new(alloc))
    }

    fn is_none(_state: &Stock) -> bool {
        false
    }

    fn copy_state(_alloc: Global, state: &Stock) -> Result<Stock, AllocError> {
        state.copy()
    }

    fn copy_command(_alloc: Global, command: &StockCommand) -> Result<StockCommand, AllocError>
        ensures { result ≡ Ok command.now }
    {
        match command {
            StockCommand::Receive(quantity) => Ok(StockCommand::Receive(*quantity)),
        }
    }

    fn apply(
        alloc: Global,
        state: &mut Stock,
        input: &Input<StockCommand>,
        outs: &mut Outs,
    ) -> Result<(), HandlerFault>
        ensures applied { IsApplied stock_reactions state.old input.now outs.old state.new outs.new result }
        ensures memory { result ≡ Err HandlerFault.Memory → ChangesLines stock_holding state.old
            (react stock_reactions state.old input.now) }
    {
        match input {
            Input::FromSeat(_, StockCommand::Receive(quantity)) => state
                .receive(*quantity)
                .map_err(HandlerFault::Business),
            Input::FromEntity(sender, _, message) => Ok(take_line_message(
                alloc, state, sender, *message, outs,
            )?),
        }
    }

    ghost none_is_opening = { λ s is. absurd (false≢true is) };

    ghost follows = { stocks_follow };
}
