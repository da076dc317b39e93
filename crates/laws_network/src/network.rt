//! What two sides have sent each other: nothing is forged, and all of it may arrive at any time, again and again, or
//! never.

ghost use Rattle.std.specs.Prelude.{◌≡◌, ◌++◌, ◌∷◌, [], map, length, IfOk, OnOk, OnErr};
ghost use Rattle.envelope.specs.declared.message.Envelope.TheVariants.{Letter as letter_of};

use envelope::{Envelope, Letter};
use std::alloc::{AllocError, Global};
use std::marker::Model;

/// All that one side ever sent, in order: contracts see the list.
#[derive(Debug, Drop)]
pub struct Post {
    // Never shortened: what was sent once may arrive at any later time.
    envelopes: Vec<Envelope>,
}

impl Model for Post {
    ghost use Rattle.std.specs.Prelude.{List};
    ghost use Rattle.envelope.specs.declared.message.Envelope.{Envelope};

    ghost Value = { List Envelope };

    ghost view = { λ p. p.envelopes.items };
}

impl Post {
    /// Nothing yet.
    pub fn new(alloc: Global) -> Post
        ensures { result ≡ [] }
    {
        Post {
            envelopes: Vec::new(alloc),
        }
    }

    /// All of it, in order.
    pub fn as_slice(&self) -> &[Envelope]
        ensures { result.now ≡ self.now }
    {
        self.envelopes.as_slice()
    }

    /// One more envelope is sent.
    ///
    /// # Errors
    /// Where a growth was refused; nothing is sent then.
    pub fn send(&mut self, envelope: Envelope) -> Result<(), AllocError>
        ensures ok { OnOk result (self.new ≡ self.old ++ envelope ∷ []) }
        ensures err { OnErr result (self.new ≡ self.old) }
    {
        self.envelopes.push(envelope)?;
        Ok(())
    }

    /// These letters are sent, in order: how many they are.
    ///
    /// # Errors
    /// Where a growth was refused; none of them is sent then.
    pub fn send_letters(&mut self, alloc: Global, letters: Vec<Letter>) -> Result<usize, AllocError>
        ensures count { IfOk result (λ n. n ≡ length letters.items) }
        ensures ok { OnOk result (self.new ≡ self.old ++ map letter_of letters.items) }
        ensures err { OnErr result (self.new ≡ self.old) }
    {
        let count = letters.len();
        // All are wrapped before one is added, so that a failed allocation sends none.
        let mut envelopes: Vec<Envelope> = letters
            .into_iter()
            .map(Envelope::Letter)
            .collect(alloc)?;
        self.envelopes.append(&mut envelopes)?;
        Ok(count)
    }
}

/// All that two sides ever sent each other.
#[derive(Debug, Drop)]
pub struct Network {
    /// What the left side sent.
    pub from_left: Post,
    /// What the right side sent.
    pub from_right: Post,
}

impl Network {
    /// Nothing was sent yet.
    pub fn new(alloc: Global) -> Network
        ensures { result ≡ record { from_left = []; from_right = [] } }
    {
        Network {
            from_left: Post::new(alloc),
            from_right: Post::new(alloc),
        }
    }
}
