//! What holds of all numbers and octets: each law is the contract of a function with nothing to do.

ghost use Rattle.std.specs.Prelude.{◌≡◌, ◌<◌, ◌^◌, ℕ, List, [], Some, decimal, flat_map};
ghost use Rattle.text.specs.Escapes.{Spells, spelled};
ghost use Rattle.text.specs.Numerals.{number_of};

/// A number below 2^64 has one text: its decimal digits. No other text is read as it, and none is read as a greater
/// number.
pub fn a_number_has_one_numeral()
    ensures read { (number : ℕ) → number < 2 ^ 64 → number_of (decimal number) ≡ Some number }
    ensures only { (text : List ℕ) (number : ℕ) → number_of text ≡ Some number → (number < 2 ^ 64)
        × (decimal number ≡ text) }
{}

/// The text that is printed for octets stands for them: what one program prints, another can be given.
pub fn printed_octets_are_read_back(octets: &[u8])
    ensures { Spells (flat_map spelled octets.now) octets.now [] }
{
    let _ = octets;
}
