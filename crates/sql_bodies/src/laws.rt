//! What is written is read as the same, and what is read is what is written: each law is the contract of a function
//! with nothing to do.

ghost use Rattle.std.specs.Prelude.{◌≡◌, ℕ, List, [], ◌∷◌, ◌++◌, Option, Some, None};
ghost use Rattle.std.specs.List.{AllByRecursion};
ghost use Rattle.std.specs.List.Sorted.{IsPermutation};
ghost use Rattle.trade.specs.Lines.{Line};
ghost use Rattle.trade.specs.Orders.{Partner};
ghost use Rattle.trade.specs.Sound.{AreLinesSound};
ghost use Rattle.trade.specs.Words.{status_word};
ghost use Rattle.trade.specs.declared.commands.OrderCommand.TheVariants.{Place};
ghost use Rattle.trade.specs.declared.items.Item.{Item};
ghost use Rattle.trade.specs.declared.status.Status.{Status};
ghost use Rattle.sql_bodies.specs.Bodies.{order_body, stock_body, account_body};
ghost use Rattle.sql_bodies.specs.Bodies.{IsOrderCommand, IsStockCommand, IsAccountCommand};
ghost use Rattle.sql_bodies.specs.Columns.{columns_of, read_input, IsInput};
ghost use Rattle.sql_bodies.specs.FirstVersion.{first_order_body, IsFirstOrderCommand, read_first_order_command};
ghost use Rattle.sql_bodies.specs.LineRows.{line_from, stock_line_row, account_line_row, lines_with, IsRow};
ghost use Rattle.sql_bodies.specs.OrderRows.{stocks_in, numbered, stock_row, account_row, order_from, IsStock, IsAccount};
ghost use Rattle.sql_bodies.specs.Reading.{read_order_command, read_stock_command, read_account_command, IsExact};
ghost use Rattle.sql_bodies.specs.Steps.{steps};
ghost use Rattle.sql_bodies.specs.Words.{status_in, stock_phase_in, account_phase_in};

/// The body of a command is that command's alone.
pub fn commands_are_read_as_written()
    ensures orders { IsExact IsOrderCommand order_body read_order_command }
    ensures stocks { IsExact IsStockCommand stock_body read_stock_command }
    ensures accounts { IsExact IsAccountCommand account_body read_account_command }
{}

/// The body of an order's command of version 1 is that command's alone, and no placing of today's form is one.
pub fn first_orders_are_read_as_written()
    ensures orders { IsExact IsFirstOrderCommand first_order_body read_first_order_command }
    ensures lines { (lines : List Item) (account : List ℕ) (amount : ℕ) → IsOrderCommand (Place lines account amount)
        → read_first_order_command (order_body (Place lines account amount)) ≡ None }
{}

/// The columns of an input are that input's alone.
pub fn inputs_are_read_as_written()
    ensures orders { IsExact (IsInput IsOrderCommand) (columns_of order_body) (read_input read_order_command) }
    ensures stocks { IsExact (IsInput IsStockCommand) (columns_of stock_body) (read_input read_stock_command) }
    ensures accounts { IsExact (IsInput IsAccountCommand) (columns_of account_body) (read_input read_account_command) }
{}

/// Orders, and lines of stocks and accounts, are read as they are written.
pub fn states_are_read_as_written()
    ensures orders { (s : Status) (stocks : List Partner) (account : Partner) → AllByRecursion IsStock stocks
        → IsAccount account
        → order_from (status_in (status_word s)) (stocks_in (λ q. q.0) stock_row (numbered 1 stocks)) (account_row account)
        ≡ Some (record { status = s; partners = stocks ++ account ∷ [] }) }
    ensures stock_lines { (ls : List Line) → AreLinesSound ls → AllByRecursion IsRow ls
        → steps (λ l. lines_with (stock_line_row l)) ls [] ≡ Some ls }
    ensures account_lines { (ls : List Line) → AreLinesSound ls → AllByRecursion IsRow ls
        → steps (λ l. lines_with (account_line_row l)) ls [] ≡ Some ls }
{}

/// Rows tell the same in any order: those of an order's stocks, by their numbers and what is read of them, and those of
/// lines, by the keys of their orders, their numbers and the words of their phases.
pub fn rows_are_read_in_any_order()
    ensures stocks { (xs ys : List (ℕ × Option Partner)) → IsPermutation xs ys
        → stocks_in (λ r. r.0) (λ r. r.1) ys ≡ stocks_in (λ r. r.0) (λ r. r.1) xs }
    ensures stock_lines { (xs ys : List (List ℕ × ℕ × List ℕ)) → IsPermutation xs ys
        → steps (λ r. lines_with (line_from (stock_phase_in r.2) r.0 r.1)) ys []
        ≡ steps (λ r. lines_with (line_from (stock_phase_in r.2) r.0 r.1)) xs [] }
    ensures account_lines { (xs ys : List (List ℕ × ℕ × List ℕ)) → IsPermutation xs ys
        → steps (λ r. lines_with (line_from (account_phase_in r.2) r.0 r.1)) ys []
        ≡ steps (λ r. lines_with (line_from (account_phase_in r.2) r.0 r.1)) xs [] }
{}
