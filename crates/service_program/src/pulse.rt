//! Whether a connection is alive, as far as what comes on it tells.

ghost use Rattle.std.specs.Prelude.{◌≡◌, ◌≤◌, ◌<◌, MatchOption};
ghost use Rattle.service_program.specs.Silences.{given_up_from, reason};

/// How long the broker may take to answer CONNECT, in milliseconds.
const GREETING: u64 = 10_000;

/// How long nothing has to have come on a connection until it's reopened where all letters are settled, in milliseconds.
/// There are no heart-beats: so a connection that a firewall forgot is found.
const QUIET: u64 = 60_000;

/// How old a connection gets at most, in milliseconds. A new one sends again whatever isn't settled: so a letter whose
/// settle was lost goes out once an hour at least, however busy the service is.
const LONGEST: u64 = 3_600_000;

/// Why a connection is given up.
#[derive(Clone, Copy, Debug, PartialEq, Eq)]
pub enum Silence {
    /// CONNECT isn't answered.
    Unanswered,
    /// Nothing came for long.
    Quiet,
    /// It's old.
    Old,
}

/// When a connection was opened, and when something came on it last, in milliseconds since the beginning.
#[derive(Clone, Copy, Debug)]
pub struct Pulse {
    opened: u64,
    heard: u64,
}

impl Pulse {
    /// It's opened now.
    pub fn new(now: u64) -> Pulse
        ensures { (result.opened ≡ now) × (result.heard ≡ now) }
    {
        Pulse {
            opened: now,
            heard: now,
        }
    }

    /// Something came.
    pub fn hear(&mut self, now: u64)
        ensures { (self.new.opened ≡ self.old.opened) × (self.new.heard ≡ now) }
    {
        self.heard = now;
    }

    /// When it's given up where nothing comes until then.
    pub fn last(&self, is_connected: bool) -> u64
        ensures { result ≡ given_up_from self.now is_connected }
    {
        if is_connected {
            let quiet = self.heard.saturating_add(QUIET);
            quiet.min(self.opened.saturating_add(LONGEST))
        } else {
            // Counted from the opening: octets that are no CONNECTED win a mute broker no time.
            self.opened.saturating_add(GREETING)
        }
    }

    /// Why it's given up now, if it is.
    pub fn silence(&self, is_connected: bool, now: u64) -> Option<Silence>
        ensures { MatchOption result (now < given_up_from self.now is_connected)
            (λ silence. (given_up_from self.now is_connected ≤ now) × (silence ≡ reason self.now is_connected now)) }
    {
        if now < self.last(is_connected) {
            None
        } else if !is_connected {
            Some(Silence::Unanswered)
        } else if now >= self.opened.saturating_add(LONGEST) {
            // Before silence, which is overlooked while letters are unsettled: age never is.
            Some(Silence::Old)
        } else {
            Some(Silence::Quiet)
        }
    }
}
