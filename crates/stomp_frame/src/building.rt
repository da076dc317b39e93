//! What a frame's builder refuses.

ghost use Rattle.std.specs.Prelude.{◌≡◌, [], None};
ghost use Rattle.stomp_frame.specs.Frames.{IsFrame, frame, header};
ghost use Rattle.stomp_frame.specs.Building.{refused_behind, headers_refused, body_refused};

use crate::octets::{is_bad, is_long};
use crate::{Command, FrameFault, Header};
use base::limits::MAX_HEADERS;

/// Why a header is refused after so many others.
pub fn refused_behind(command: Command, count: usize, name: &str, value: &str) -> Option<FrameFault>
    ensures { result ≡ refused_behind command count (header name.now value.now) }
{
    // `content-length` is for the encoder alone, which writes it of the body that is there: one that a frame carried
    // could contradict its body.
    // In this order a header's own fault comes first, however many headers are before it.
    if is_bad(command, name, value) || name == "content-length" {
        Some(FrameFault::BadLine)
    } else if is_long(command, name, value) {
        Some(FrameFault::LineTooLong)
    } else if count < MAX_HEADERS {
        None
    } else {
        Some(FrameFault::TooManyHeaders)
    }
}

/// Why headers are refused that are appended one by one.
pub fn headers_refused<const BODY: usize>(
    command: Command,
    headers: &[Header],
) -> Option<FrameFault>
    ensures which { result ≡ headers_refused (frame command [] []) headers.now }
    ensures fit { result ≡ None → IsFrame BODY (frame command headers.now []) }
{
    let mut count = 0;
    for header in headers {
        if let Some(fault) = refused_behind(command, count, header.name(), header.value()) {
            return Some(fault);
        }
        count += 1;
    }
    None
}

/// Why a body is refused, where one has at most `limit` octets.
pub fn body_refused(limit: usize, command: Command, body: &[u8]) -> Option<FrameFault>
    ensures { result ≡ body_refused limit (frame command [] []) body.now }
{
    if !body.is_empty() && !command.may_have_body() {
        Some(FrameFault::BodyNotAllowed)
    } else if body.len() > limit {
        Some(FrameFault::BodyTooLong)
    } else {
        None
    }
}
