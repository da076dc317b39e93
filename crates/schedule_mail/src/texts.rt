//! The octets of a SEND that is sent again, and what its session is told where it is refused.

ghost use Rattle.std.specs.Prelude.{◌≡◌, IfOk};
ghost use Rattle.schedule_mail.specs.Texts.{AreTexts, again_text, told};

use broker_book::Sent;
use std::alloc::{AllocError, Global};
use stomp_client::connect_frame;
use stomp_frame::{Command, encode, encode_parts};
use stomp_session::{write_connected, write_error};

/// What is fed for a SEND that is sent again, and what its session is told where its destination is full, or no number
/// is left.
#[derive(Drop)]
pub(crate) struct Texts {
    pub(crate) asked: Vec<u8>,
    pub(crate) full: Vec<u8>,
    pub(crate) used: Vec<u8>,
}

/// CONNECT, and the SEND of these parts.
fn asked(alloc: Global, sent: &Sent) -> Result<Vec<u8>, AllocError>
    ensures { IfOk result (λ out. out.items ≡ again_text sent.now) }
{
    let mut out = Vec::new(alloc);
    let connect = connect_frame(alloc)?;
    // A frame that was made can be spelled, so encoding fails for memory alone.
    if encode(&connect, &mut out).is_err() {
        return Err(AllocError);
    }
    let first = [("destination", sent.destination.as_str())];
    if encode_parts(
        Command::Send,
        &first,
        sent.headers.as_slice(),
        sent.body.as_slice(),
        &mut out,
    )
    .is_err()
    {
        return Err(AllocError);
    }
    Ok(out)
}

/// CONNECTED, and the refusal of this number and name.
fn told(alloc: Global, number: u8, name: &str) -> Result<Vec<u8>, AllocError>
    ensures { IfOk result (λ out. out.items ≡ told number name.now) }
{
    let mut out = Vec::new(alloc);
    match write_connected(&mut out) {
        Ok(()) => {}
        Err(_) => return Err(AllocError),
    }
    // Without `receipt-id`: what is kept of a SEND has no `receipt`, so its repeat asks for none.
    match write_error(alloc, number, name, None, &mut out) {
        Ok(()) => Ok(out),
        Err(_) => Err(AllocError),
    }
}

impl Texts {
    /// Those of a SEND.
    pub(crate) fn new(alloc: Global, sent: &Sent) -> Result<Texts, AllocError>
        ensures { IfOk result (λ texts. AreTexts sent.now texts.asked.items texts.full.items texts.used.items) }
    {
        // `full` and `used` are whole outputs of a session: they are compared with its octets, and nothing is decoded.
        Ok(Texts {
            asked: asked(alloc, sent)?,
            full: told(alloc, 32, "QueueFull")?,
            used: told(alloc, 36, "TooMany")?,
        })
    }
}
