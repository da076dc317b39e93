//! What can be told of a value that others change meanwhile.

/// What can be told of a value that others change meanwhile. Its members speak of values, and none of them runs.
pub trait Lore<T> {
    ghost use Rattle.std.specs.Prelude.{ℕ};

    /// What the token of this number knew of the first value still holds of the second.
    ghost since: { ℕ → T → T → Type 0 };

    /// The second value is a later one, whoever made it.
    ghost later: { T → T → Type 0 };

    /// The second value is the first one, or what became of it where it broke.
    ghost ends: { T → T → Type 0 };

    /// What any witness knew of the first value still holds of the second, whoever made it.
    ghost ever: { T → T → Type 0 };

    ghost since_same: { (n : ℕ) (a : T) → since n a a };

    ghost since_join: { (n : ℕ) (a b c : T) → since n a b → since n b c → since n a c };

    ghost later_same: { (a : T) → later a a };

    ghost later_join: { (a b c : T) → later a b → later b c → later a c };

    ghost ends_same: { (a : T) → ends a a };

    /// A token knows no less than a witness.
    ghost ever_of: { (n : ℕ) (a b : T) → since n a b → ever a b };

    ghost ever_join: { (a b c : T) → ever a b → ever b c → ever a c };
}
