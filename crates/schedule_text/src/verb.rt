//! The first words of lines.

ghost use Rattle.std.specs.Prelude.{◌≡◌};
ghost use Rattle.schedule_text.specs.Verbs.{verb_of};

/// The first word of a line, which names its event.
#[derive(Clone, Copy)]
pub(crate) enum Verb {
    /// `place SEAT KEY STOCK N .. ACCOUNT AMOUNT`
    Place,
    /// `cancel SEAT KEY`
    Cancel,
    /// `receive SEAT KEY N`
    Receive,
    /// `limit SEAT KEY N`
    Limit,
    /// `open SERVICE CONN`
    Open,
    /// `cut SERVICE CONN`
    Cut,
    /// `fill SERVICE CONN LIMIT`
    Fill,
    /// `resend SERVICE CONN`
    Resend,
    /// `carry SERVICE CONN up MOST`, or `down`
    Carry,
    /// `take SERVICE CONN`
    Take,
    /// `drain SERVICE CONN`
    Drain,
    /// `repeat K`
    Repeat,
    /// `fail SERVICE N old`, or `new`
    Fail,
    /// `reopen SERVICE`
    Reopen,
    /// `stop SERVICE`, or `stop broker`
    Stop,
    /// `pump N`
    Pump,
    /// `show ENTITY`
    Show,
    /// `pair FROM TO`
    Pair,
    /// `frames SERVICE`
    Frames,
    /// `journal SERVICE`
    Journal,
    /// `agreement`
    Agreement,
}

impl Verb {
    /// The verb that a word is.
    pub(crate) fn of_word(word: &str) -> Option<Verb>
        ensures { result ≡ verb_of word.now }
    {
        // Constants alone: what else an arm did would be proved again for each word above it.
        match word {
            "place" => Some(Verb::Place),
            "cancel" => Some(Verb::Cancel),
            "receive" => Some(Verb::Receive),
            "limit" => Some(Verb::Limit),
            "open" => Some(Verb::Open),
            "cut" => Some(Verb::Cut),
            "fill" => Some(Verb::Fill),
            "resend" => Some(Verb::Resend),
            "carry" => Some(Verb::Carry),
            "take" => Some(Verb::Take),
            "drain" => Some(Verb::Drain),
            "repeat" => Some(Verb::Repeat),
            "fail" => Some(Verb::Fail),
            "reopen" => Some(Verb::Reopen),
            "stop" => Some(Verb::Stop),
            "pump" => Some(Verb::Pump),
            "show" => Some(Verb::Show),
            "pair" => Some(Verb::Pair),
            "frames" => Some(Verb::Frames),
            "journal" => Some(Verb::Journal),
            "agreement" => Some(Verb::Agreement),
            _ => None,
        }
    }
}
