//! What becomes of events, and the lines that tell it.

ghost use Rattle.std.specs.Prelude.{◌≡◌};
ghost use Rattle.schedule_text.specs.Outcomes.{outcome_lines, told_lines};

use activities::Refusal;
use base::Pair;

/// What became of an event.
#[derive(Debug, Drop)]
pub enum Outcome {
    /// A command was taken in, at this position of the journal.
    Committed(u64),
    /// The connection was opened.
    Opened,
    /// It is open already.
    Already,
    /// It isn't open.
    Closed,
    /// It was cut.
    Cut,
    /// So many rows were sent.
    Sent(u64),
    /// All unsettled rows are due again.
    Due,
    /// So many octets were moved.
    Carried(u64),
    /// The broker answered CONNECT.
    Connected,
    /// The RECEIPT of this number came.
    Receipt(u64),
    /// A letter was handled, at this position of the journal.
    Handled(u64),
    /// A letter came that was handled before.
    Repeated,
    /// A letter is held, since one before it is missing.
    Held,
    /// A settle came: its pair is settled up to this number now.
    Settled(u64),
    /// An ERROR came, with this text.
    Error(String),
    /// There was nothing to do.
    Idle,
    /// The held message of this pair and number was handled.
    Drained(Pair, u64),
    /// A message was sent again, as this number.
    Again(u64),
    /// No message was accepted at that place.
    Absent,
    /// A call of the store will fail.
    Armed,
    /// The store was opened anew.
    Reopened,
    /// A service or the broker was stopped and started again.
    Stopped,
    /// The rounds were run.
    Pumped,
    /// It was refused, with the number of the fault.
    Refused(u8),
    /// It was refused as business.
    NotDone(Refusal),
    /// What was shown: whole lines.
    Shown(Vec<u8>),
    /// Whether the partners of each order agree.
    Agreement(bool),
}

/// The pieces of the lines that tell an outcome: all but the last have one line.
#[derive(Clone, Copy, Debug)]
pub enum Pieces<'a> {
    /// Words and a number.
    Number(&'a str, u64),
    /// Words, and a text, which may be empty.
    Text(&'a str, &'a str),
    /// Words, a pair and a number.
    OfPair(&'a str, &'a Pair, u64),
    /// Whole lines.
    Lines(&'a [u8]),
}

impl Outcome {
    /// The pieces of the lines that tell it.
    #[tactic(auto, using(std::proofs::Common::append_assoc))]
    pub fn told(&self) -> Pieces<'_>
        ensures { told_lines result ≡ outcome_lines self.now }
    {
        // Borrowed pieces and no text, so that writing an outcome allocates nothing.
        match self {
            Outcome::Committed(pos) => Pieces::Number("committed ", *pos),
            Outcome::Opened => Pieces::Text("opened", ""),
            Outcome::Already => Pieces::Text("already", ""),
            Outcome::Closed => Pieces::Text("closed", ""),
            Outcome::Cut => Pieces::Text("cut", ""),
            Outcome::Sent(count) => Pieces::Number("sent ", *count),
            Outcome::Due => Pieces::Text("due", ""),
            Outcome::Carried(count) => Pieces::Number("carried ", *count),
            Outcome::Connected => Pieces::Text("connected", ""),
            Outcome::Receipt(number) => Pieces::Number("receipt ", *number),
            Outcome::Handled(pos) => Pieces::Number("handled ", *pos),
            Outcome::Repeated => Pieces::Text("repeated", ""),
            Outcome::Held => Pieces::Text("held", ""),
            Outcome::Settled(mark) => Pieces::Number("settled ", *mark),
            Outcome::Error(text) => Pieces::Text("error ", text),
            Outcome::Idle => Pieces::Text("idle", ""),
            Outcome::Drained(pair, number) => Pieces::OfPair("drained ", pair, *number),
            Outcome::Again(number) => Pieces::Number("again ", *number),
            Outcome::Absent => Pieces::Text("none", ""),
            Outcome::Armed => Pieces::Text("armed", ""),
            Outcome::Reopened => Pieces::Text("reopened", ""),
            Outcome::Stopped => Pieces::Text("stopped", ""),
            Outcome::Pumped => Pieces::Text("pumped", ""),
            Outcome::Refused(number) => Pieces::Number("refused ", u64::from(*number)),
            // 61 is the endpoint's number for every refusal as business, and the refusal's own follows.
            Outcome::NotDone(refusal) => {
                Pieces::Number("refused 61 ", u64::from(refusal.number()))
            }
            Outcome::Shown(lines) => Pieces::Lines(lines.as_slice()),
            Outcome::Agreement(true) => Pieces::Text("agreement true", ""),
            Outcome::Agreement(false) => Pieces::Text("agreement false", ""),
        }
    }
}
