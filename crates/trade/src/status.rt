//! How far orders are, and the words for it in tables and printed lines.

ghost use Rattle.std.specs.Prelude.{◌≡◌};
ghost use Rattle.activities.specs.Words.{IsWordReading};
ghost use Rattle.trade.specs.Words.{status_word};

/// How far an order is.
#[derive(Clone, Copy, Debug, PartialEq, Eq)]
pub enum Status {
    /// It waits for its partners.
    Open,
    /// All partners hold what it asked for, and were told to take it.
    Confirmed,
    /// It was cancelled, or a partner refused.
    Cancelled,
}

impl Status {
    /// The status's word: `open`, `confirmed` or `cancelled`.
    pub fn word(self) -> &'static str
        ensures { result.now ≡ status_word self }
    {
        match self {
            Status::Open => "open",
            Status::Confirmed => "confirmed",
            Status::Cancelled => "cancelled",
        }
    }

    /// The status of this word, if it is one's.
    pub fn of_word(word: &str) -> Option<Status>
        ensures { IsWordReading status_word word.now result }
    {
        match word {
            "open" => Some(Status::Open),
            "confirmed" => Some(Status::Confirmed),
            "cancelled" => Some(Status::Cancelled),
            _ => None,
        }
    }
}
