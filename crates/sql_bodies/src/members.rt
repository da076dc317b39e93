//! JSON, and the members of an object.

ghost use Rattle.std.specs.Prelude.{◌≡◌, IfOk};
ghost use Rattle.std.specs.Option.{option_map};
ghost use Rattle.serde_json.specs.Read.{read};
ghost use Rattle.serde_json.specs.View.{view};
ghost use Rattle.sql_bodies.specs.Reading.{text_at, number_at, as_key, key_at, numbered_in};

use base::{EntityFault, Key};
use serde_json::Value;
use std::alloc::{AllocError, Global};

/// The value that a text is, if it is JSON.
pub(crate) fn parsed(alloc: Global, text: &str) -> Result<Option<Value>, AllocError>
    ensures { IfOk result (λ found. option_map view found ≡ read text.now) }
{
    match Value::from_str(alloc, text) {
        Ok(value) => Ok(Some(value)),
        // Out of memory says nothing of the text.
        Err(fault) if fault.is_memory() => Err(AllocError),
        Err(_) => Ok(None),
    }
}

/// The text under a name of an object.
pub(crate) fn text_at<'a>(value: &'a Value, name: &str) -> Option<&'a str>
    ensures { option_map (λ s. s.now) result ≡ text_at name.now (view value.now) }
{
    value.get(name)?.as_str()
}

/// The number under a name of an object, if it has 64 bits and no sign.
pub(crate) fn number_at(value: &Value, name: &str) -> Option<u64>
    ensures { result ≡ number_at name.now (view value.now) }
{
    value.get(name)?.as_u64()
}

/// The key that a text is, if it is one.
pub(crate) fn as_key(alloc: Global, text: &str) -> Result<Option<Key>, AllocError>
    ensures { IfOk result (λ found. found ≡ as_key text.now) }
{
    match Key::read(alloc, text) {
        Ok(key) => Ok(Some(key)),
        Err(EntityFault::BadKind) => Ok(None),
        Err(EntityFault::BadKey) => Ok(None),
        Err(EntityFault::Memory) => Err(AllocError),
    }
}

/// The key under a name of an object.
pub(crate) fn key_at(alloc: Global, value: &Value, name: &str) -> Result<Option<Key>, AllocError>
    ensures { IfOk result (λ found. found ≡ key_at name.now (view value.now)) }
{
    match text_at(value, name) {
        Some(text) => as_key(alloc, text),
        None => Ok(None),
    }
}

/// The number of an object whose operation is this word.
pub(crate) fn numbered_in(value: &Value, word: &str) -> Option<u64>
    ensures { result ≡ numbered_in word.now (view value.now) }
{
    if text_at(value, "op")? == word {
        number_at(value, "n")
    } else {
        None
    }
}
