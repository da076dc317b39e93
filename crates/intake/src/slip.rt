//! What is in the intake.

ghost use Rattle.std.specs.Prelude.{◌<◌};

/// An arrival, with the number of the reader that put it: 0 or 1.
#[derive(Drop)]
pub struct Slip<M> {
    pub reader: u8,
    pub arrival: M,
    pub ghost in_range: { reader < 2 },
}
