//! The lines of stocks and of accounts.

ghost use Rattle.std.specs.Prelude.{◌≡◌, option_copied};
ghost use Rattle.keep_sqlite.specs.Holders.{sender_line};

use base::Entity;
use trade::{Line, Lines};

/// The line of a sender, where there is one and it has one.
pub fn sender_line<'a>(lines: &'a Lines, sender: Option<&Entity>) -> Option<&'a Line>
    ensures { option_copied result ≡ sender_line (option_copied sender.entry) lines.now }
{
    match sender {
        Some(order) => lines.find(order),
        // A command changes numbers and no line.
        None => None,
    }
}
