//! How many arrivals were taken.

ghost use Rattle.std.specs.Prelude.{◌-◌, ◌^◌, ◌<◌};
ghost use Rattle.intake.specs.Counts.{HasOneMore};

/// How many arrivals of reader 0 and of reader 1 were taken.
#[derive(Clone, Copy, Debug, PartialEq, Eq)]
pub struct Taken {
    pub zero: u64,
    pub one: u64,
}

impl Taken {
    /// The counts with one more arrival of a reader.
    pub(crate) fn with(self, reader: u8) -> Taken
        requires room { (self.zero < 2 ^ 64 - 1) × (self.one < 2 ^ 64 - 1) }
        ensures { HasOneMore reader self result }
    {
        let Taken { zero, one } = self;
        match reader {
            0 => Taken {
                zero: zero + 1,
                one,
            },
            1 => Taken { zero, one: one + 1 },
            _ => self,
        }
    }
}
