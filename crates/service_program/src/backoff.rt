//! When connections are looked at and opened next.

ghost use Rattle.std.specs.Prelude.{◌≡◌, ◌-◌, nat_le};
ghost use Rattle.service_program.specs.Silences.{behind};
ghost use Rattle.service_program.specs.Backoffs.{doubled, pause_at};

/// The shortest pause before a connection is opened again, in milliseconds.
const FIRST: u64 = 100;

/// The longest, to which it grows; and how long a connection has to last until the pause is the shortest again: a broker
/// that accepts and cuts at once is asked less and less often.
const LONGEST: u64 = 5_000;

/// When connections are looked at and opened next. All times are in milliseconds since the program began.
#[derive(Clone, Copy, Debug)]
pub struct Backoff {
    due: u64,
    /// How long the next attempt is put off.
    pause: u64,
    /// When a connection was opened last.
    opened: u64,
}

impl Backoff {
    /// Connections are due at once.
    pub fn new() -> Backoff
        ensures { (result.due ≡ 0) × (result.pause ≡ 100) × (result.opened ≡ 0) }
    {
        Backoff {
            due: 0,
            pause: FIRST,
            opened: 0,
        }
    }

    /// Whether connections are due.
    pub fn is_due(&self, now: u64) -> bool
        ensures { result ≡ nat_le self.now.due now }
    {
        self.due <= now
    }

    /// How long it is until connections are due.
    pub fn left(&self, now: u64) -> u64
        ensures { result ≡ self.now.due - now }
    {
        self.due.saturating_sub(now)
    }

    /// All connections are open: they are due at this time.
    pub fn set_due(&mut self, due: u64)
        ensures { (self.new.due ≡ due) × (self.new.pause ≡ self.old.pause) × (self.new.opened ≡ self.old.opened) }
    {
        self.due = due;
    }

    /// A connection was opened.
    pub fn note_opened(&mut self, now: u64)
        ensures { (self.new.due ≡ self.old.due) × (self.new.pause ≡ self.old.pause) × (self.new.opened ≡ now) }
    {
        self.opened = now;
    }

    /// A connection can't be opened: they are due again after the pause, which doubles for the next time.
    pub fn put_off(&mut self, now: u64)
        ensures due { self.new.due ≡ behind now self.old.pause }
        ensures pause { self.new.pause ≡ doubled self.old.pause }
        ensures opened { self.new.opened ≡ self.old.opened }
    {
        self.due = now.saturating_add(self.pause);
        self.pause = self.pause.saturating_add(self.pause).min(LONGEST);
    }

    /// The pause after a connection was cut: the shortest if none was opened for long.
    fn pause_at(&self, now: u64) -> u64
        ensures { result ≡ pause_at self.now now }
    {
        if now.saturating_sub(self.opened) >= LONGEST {
            FIRST
        } else {
            self.pause
        }
    }

    /// A connection was cut: they are due again after the pause, which is the shortest if none was opened for long.
    pub fn lose(&mut self, now: u64)
        ensures due { self.new.due ≡ behind now (pause_at self.old now) }
        ensures pause { self.new.pause ≡ doubled (pause_at self.old now) }
        ensures opened { self.new.opened ≡ self.old.opened }
    {
        self.pause = self.pause_at(now);
        self.put_off(now);
    }
}
