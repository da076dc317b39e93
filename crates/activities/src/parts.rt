//! What an input changes of a state.

/// A state of which a store may write a part: an input changes what its sender has there, and what any input may.
///
/// Of a small state, which is written as a whole, nothing need be said: `follows` holds of any two.
pub trait Parts {
    ghost use Rattle.std.specs.Prelude.{Option};
    ghost use Rattle.base.specs.Entity.{Entity};

    /// Which states may follow one where this sender's input is processed; a seat is none.
    ghost follows: { Option Entity → Self → Self → Type 0 };
}

/// A state that may be none is written as a whole.
impl<T> Parts for Option<T> {
    ghost use Rattle.std.specs.Prelude.{⊤};

    ghost follows = { λ _ _ _. ⊤ };
}

/// A number is written as a whole.
impl Parts for u64 {
    ghost use Rattle.std.specs.Prelude.{⊤};

    ghost follows = { λ _ _ _. ⊤ };
}

/// A truth value is written as a whole.
impl Parts for bool {
    ghost use Rattle.std.specs.Prelude.{⊤};

    ghost follows = { λ _ _ _. ⊤ };
}
