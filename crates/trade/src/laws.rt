//! What stays sound, whatever comes in: each law is the contract of a function with nothing to do.

ghost use Rattle.std.specs.Prelude.{List};
ghost use Rattle.activities.specs.declared.input.Input.{Input};
ghost use Rattle.activities.specs.Invariant.{IsInvariant};
ghost use Rattle.activities.specs.Reaction.{state};
ghost use Rattle.trade.specs.declared.commands.OrderCommand.{OrderCommand};
ghost use Rattle.trade.specs.declared.commands.StockCommand.{StockCommand};
ghost use Rattle.trade.specs.declared.commands.AccountCommand.{AccountCommand};
ghost use Rattle.trade.specs.Orders.{order_reactions};
ghost use Rattle.trade.specs.Stocks.{stock_reactions};
ghost use Rattle.trade.specs.Accounts.{account_reactions};
ghost use Rattle.trade.specs.Sound.{IsOrderSound, IsStockSound, IsAccountSound};

/// The partners of an order are stocks, each once, and then one account, from its placing on.
pub fn orders_stay_sound()
    ensures kept { IsInvariant order_reactions IsOrderSound }
    ensures always { (inputs : List (Input OrderCommand)) → IsOrderSound (state order_reactions inputs) }
{}

/// Nothing that came into a stock is lost or used twice: it is there or was shipped, what is held is there, and held
/// and shipped are the totals over the lines. Lines are of orders alone, one an order, in order of their keys.
pub fn stocks_stay_sound()
    ensures kept { IsInvariant stock_reactions IsStockSound }
    ensures always { (inputs : List (Input StockCommand)) → IsStockSound (state stock_reactions inputs) }
{}

/// Nothing of an account's limit is used twice: it covers what is billed and held, and these are the totals over the
/// lines. Lines are of orders alone, one an order, in order of their keys.
pub fn accounts_stay_sound()
    ensures kept { IsInvariant account_reactions IsAccountSound }
    ensures always { (inputs : List (Input AccountCommand)) → IsAccountSound (state account_reactions inputs) }
{}
