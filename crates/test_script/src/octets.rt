//! Octets on a line, with the escapes of `text`.

ghost use Rattle.std.specs.Prelude.{List, ℕ, [], string_bytes, IfOk, IsErrOf};
ghost use Rattle.text.specs.Escapes.{Spells};

use crate::fault::LineFault;
use std::alloc::Global;
use text::unescape;

/// The octets that a text stands for.
///
/// # Errors
/// `Unknown`: it stands for none. `Memory`.
pub fn read_octets(alloc: Global, text: &str) -> Result<Vec<u8>, LineFault>
    ensures ok { IfOk result (λ octets. Spells text.now octets.items []) }
    ensures unknown { IsErrOf result LineFault.Unknown → (octets : List ℕ) → Spells text.now octets [] → ⊥ }
{
    unescape(alloc, text)?.ok_or(LineFault::Unknown)
}

/// The text for whose octets a text stands.
///
/// # Errors
/// `Unknown`: it stands for no octets, or they aren't UTF-8. `Memory`.
pub fn read_text(alloc: Global, text: &str) -> Result<String, LineFault>
    ensures { IfOk result (λ read. Spells text.now (string_bytes read) []) }
{
    // Tested after the escapes are read: each may be a part of a character.
    match String::from_utf8(read_octets(alloc, text)?) {
        Ok(text) => Ok(text),
        Err(_) => Err(LineFault::Unknown),
    }
}
