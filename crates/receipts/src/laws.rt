//! What holds of receipts over any calls: each law is the contract of a function with nothing to do.

ghost use Rattle.std.specs.Prelude.{ℕ, List, [], ◌∷◌, ◌++◌, Some};
ghost use Rattle.receipts.specs.Books.{ReceiptBook, IsBook, new_book};
ghost use Rattle.receipts.specs.Calls.{Call, Closed, Leads, AreOpened, opened_tags, given};

/// A number gives a tag at most once, whatever is called before, between and after.
pub fn a_number_is_closed_once<T: Drop>()
    ensures { (before between : List (Call T)) (number : ℕ) (tag other : T) (old new : ReceiptBook T) → IsBook old
        → Leads old (before ++ Closed number (Some tag) ∷ between ++ Closed number (Some other) ∷ []) new → ⊥ }
{}

/// What is given under a number is the tag that was opened under it: the first that was opened under 1, the second
/// under 2, and so on.
pub fn what_is_given_was_opened<T: Drop>()
    ensures { (calls : List (Call T)) (new : ReceiptBook T) → Leads new_book calls new
        → AreOpened (opened_tags calls) (given calls) }
{}
