//! How far stocks and accounts are with an order, and the words for it in tables and printed lines.

ghost use Rattle.std.specs.Prelude.{◌≡◌};
ghost use Rattle.activities.specs.Words.{IsWordReading};
ghost use Rattle.trade.specs.Lines.{same_phase};
ghost use Rattle.trade.specs.Words.{stock_line_word, account_line_word};

// Shipped and billed are one phase, so that one proof serves both services.
/// How far a stock or an account is with one order.
#[derive(Clone, Copy, Debug, PartialEq, Eq)]
pub enum LinePhase {
    /// What was asked for is held.
    Held,
    /// It was refused.
    Refused,
    /// It is shipped, or billed.
    Done,
    /// It was returned.
    Released,
}

impl LinePhase {
    /// Whether two phases are one.
    pub(crate) fn is(self, other: LinePhase) -> bool
        ensures { result ≡ same_phase other self }
    {
        matches!(
            (self, other),
            (LinePhase::Held, LinePhase::Held)
                | (LinePhase::Refused, LinePhase::Refused)
                | (LinePhase::Done, LinePhase::Done)
                | (LinePhase::Released, LinePhase::Released)
        )
    }

    /// The phase's word at a stock: `held`, `refused`, `shipped` or `released`.
    pub fn stock_word(self) -> &'static str
        ensures { result.now ≡ stock_line_word self }
    {
        match self {
            LinePhase::Held => "held",
            LinePhase::Refused => "refused",
            // One phase for both services, so that one proof serves both; only its words differ.
            LinePhase::Done => "shipped",
            LinePhase::Released => "released",
        }
    }

    /// The phase of this word at a stock, if it is one's.
    pub fn of_stock_word(word: &str) -> Option<LinePhase>
        ensures { IsWordReading stock_line_word word.now result }
    {
        match word {
            "held" => Some(LinePhase::Held),
            "refused" => Some(LinePhase::Refused),
            "shipped" => Some(LinePhase::Done),
            "released" => Some(LinePhase::Released),
            _ => None,
        }
    }

    /// The phase's word at an account: `held`, `refused`, `billed` or `released`.
    pub fn account_word(self) -> &'static str
        ensures { result.now ≡ account_line_word self }
    {
        match self {
            LinePhase::Held => "held",
            LinePhase::Refused => "refused",
            LinePhase::Done => "billed",
            LinePhase::Released => "released",
        }
    }

    /// The phase of this word at an account, if it is one's.
    pub fn of_account_word(word: &str) -> Option<LinePhase>
        ensures { IsWordReading account_line_word word.now result }
    {
        match word {
            "held" => Some(LinePhase::Held),
            "refused" => Some(LinePhase::Refused),
            "billed" => Some(LinePhase::Done),
            "released" => Some(LinePhase::Released),
            _ => None,
        }
    }
}
