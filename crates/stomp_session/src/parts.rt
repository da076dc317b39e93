//! What a request keeps of its frame: texts, octets and headers, each taken over without memory and returned so.

ghost use Rattle.std.specs.Prelude.{◌≡◌, IfOk};
ghost use Rattle.std.specs.Str.{bytes_eq};
ghost use Rattle.std.specs.String.{string_bytes};

use std::alloc::{AllocError, Global};
use std::marker::Model;
use stomp_frame::Header;

/// A text: contracts see its octets.
#[derive(Debug, Drop)]
pub struct Text {
    text: String,
}

impl Model for Text {
    ghost use Rattle.std.specs.Prelude.{List, ℕ};
    ghost use Rattle.std.specs.String.{string_bytes};

    ghost Value = { List ℕ };

    ghost view = { λ t. string_bytes t.text };
}

impl Text {
    /// The text of this string, which it takes over.
    pub fn new(text: String) -> Text
        ensures { result ≡ string_bytes text }
    {
        Text { text }
    }

    /// The text itself.
    pub fn as_str(&self) -> &str
        ensures { result.now ≡ self.now }
    {
        self.text.as_str()
    }

    /// Whether both are one text.
    pub fn same(&self, other: &Text) -> bool
        ensures { result ≡ bytes_eq self.now other.now }
    {
        self.as_str() == other.as_str()
    }

    /// An equal text, in memory of its own.
    ///
    /// # Errors
    /// If an allocation fails.
    pub fn copy(&self, alloc: Global) -> Result<Text, AllocError>
        ensures { IfOk result (λ text. text ≡ self.now) }
    {
        Ok(Text {
            text: String::from_str(alloc, self.as_str())?,
        })
    }

    /// The string of the text. It allocates nothing.
    pub fn into_string(self) -> String
        ensures { string_bytes result ≡ self }
    {
        let Text { text } = self;
        text
    }
}

/// The octets of a body: contracts see them in order.
#[derive(Debug, Drop)]
pub struct Octets {
    octets: Vec<u8>,
}

impl Model for Octets {
    ghost use Rattle.std.specs.Prelude.{List, ℕ};

    ghost Value = { List ℕ };

    ghost view = { λ o. o.octets.items };
}

impl Octets {
    /// A body of these octets, which it takes over.
    pub fn new(octets: Vec<u8>) -> Octets
        ensures { result ≡ octets.items }
    {
        Octets { octets }
    }

    /// The octets themselves.
    pub fn as_slice(&self) -> &[u8]
        ensures { result.now ≡ self.now }
    {
        self.octets.as_slice()
    }

    /// The vector of them. It allocates nothing.
    pub fn into_vec(self) -> Vec<u8>
        ensures { result.items ≡ self }
    {
        let Octets { octets } = self;
        octets
    }
}

/// Headers in order.
#[derive(Debug, Drop)]
pub struct Headers {
    headers: Vec<Header>,
}

impl Model for Headers {
    ghost use Rattle.std.specs.Prelude.{List};
    ghost use Rattle.stomp_frame.specs.Frames.{Header};

    ghost Value = { List Header };

    ghost view = { λ hs. hs.headers.items };
}

impl Headers {
    /// A list of these headers, which it takes over.
    pub fn new(headers: Vec<Header>) -> Headers
        ensures { result ≡ headers.items }
    {
        Headers { headers }
    }

    /// The headers themselves.
    pub fn as_slice(&self) -> &[Header]
        ensures { result.now ≡ self.now }
    {
        self.headers.as_slice()
    }

    /// The vector of them. It allocates nothing.
    pub fn into_vec(self) -> Vec<Header>
        ensures { result.items ≡ self }
    {
        let Headers { headers } = self;
        headers
    }
}
