//! The frames that a service is to send.

ghost use Rattle.std.specs.Prelude.{◌≡◌, ◌++◌, string_bytes, OnOk, IfOk};
ghost use Rattle.schedule_shows.specs.Printed.{frame_line, frame_lines};

use envelope::{Letter, letter_to_send};
use std::alloc::{AllocError, Global};
use stomp_frame::encode;
use text::push_octets;

/// Appends the line of a letter that is to be sent.
#[tactic(auto, using(std::proofs::Common::append_assoc))]
fn push_frame(alloc: Global, line: &mut String, letter: &Letter) -> Result<(), AllocError>
    ensures { OnOk result (string_bytes line.new ≡ string_bytes line.old ++ frame_line letter.now) }
{
    // Memory alone can fail here and in encoding. No `receipt`: its number is known only as the frame is sent.
    let Ok(frame) = letter_to_send(alloc, letter) else {
        return Err(AllocError);
    };
    let mut octets = Vec::new(alloc);
    if encode(&frame, &mut octets).is_err() {
        return Err(AllocError);
    }
    // The escapes of octets and not those of words: a frame has LFs and ends with a NUL.
    push_octets(line, octets.as_slice())?;
    line.push('\n')
}

/// The lines of `frames`: the SENDs of letters, one a line.
///
/// # Errors
/// Where a growth was refused.
#[tactic(auto, using(crate::proofs::Pieces::letters_more, std::proofs::Common::append_assoc))]
pub fn show_frames(alloc: Global, letters: &[Letter]) -> Result<Vec<u8>, AllocError>
    ensures { IfOk result (λ lines. lines.items ≡ frame_lines letters.now) }
{
    let mut lines = String::new(alloc);
    for letter in letters {
        push_frame(alloc, &mut lines, letter)?;
    }
    Ok(lines.into_bytes())
}
