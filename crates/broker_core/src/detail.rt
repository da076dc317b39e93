//! What was wrong with a frame, beside the name of its refusal.

ghost use Rattle.std.specs.Prelude.{◌≡◌};
ghost use Rattle.std.specs.Option.{option_copied};
ghost use Rattle.broker_core.specs.Details.{missing_among, missing_in, missing_name};

use crate::asked::Asked;
use base::limits::MAX_BODY;
use stomp_frame::{Command, Frame, FrameFault};
use stomp_session::{Refused, SessionFault};
use thiserror::Error;

/// What was wrong with a frame that ended a session: an ERROR tells the name of its refusal alone, and a log may tell this
/// too.
#[derive(Clone, Copy, Debug, PartialEq, Eq, Error)]
pub enum Detail {
    /// The octets are no frame, and why.
    #[error("{0}")]
    Octets(FrameFault),
    /// A header is missing, and which: the first of those that its command requires.
    #[error("no {0}")]
    Missing(&'static str),
}

/// The name, where a frame has no header of it.
fn missing(frame: &Frame<MAX_BODY>, name: &'static str) -> Option<&'static str>
    ensures { option_copied result ≡ missing_name frame.now name.now }
{
    match frame.get(name) {
        Some(_) => None,
        None => Some(name),
    }
}

/// The first of two names of which a frame has no header.
fn missing_of(
    frame: &Frame<MAX_BODY>,
    first: &'static str,
    second: &'static str,
) -> Option<&'static str>
    ensures { option_copied result ≡ missing_among frame.now first.now second.now }
{
    match missing(frame, first) {
        Some(name) => Some(name),
        None => missing(frame, second),
    }
}

/// The first header that is missing of those that the command requires.
fn first_missing(frame: &Frame<MAX_BODY>) -> Option<&'static str>
    ensures { option_copied result ≡ missing_in frame.now }
{
    match frame.command() {
        Command::Connect | Command::Stomp => missing_of(frame, "accept-version", "host"),
        Command::Send => missing(frame, "destination"),
        Command::Subscribe => missing_of(frame, "id", "destination"),
        Command::Unsubscribe | Command::Ack | Command::Nack => missing(frame, "id"),
        Command::Begin | Command::Commit | Command::Abort => missing(frame, "transaction"),
        _ => None,
    }
}

/// What is wrong with a frame besides, as it was decided.
pub fn detail_of(decided: &Result<Asked, Refused>) -> Option<Detail> {
    let Err(refused) = decided else { return None };
    match refused.fault {
        SessionFault::MissingHeader => first_missing(&refused.frame).map(Detail::Missing),
        _ => None,
    }
}
