//! Schedules, read from a reader.

ghost use Rattle.std.specs.Prelude.{◌≡◌, ◌⊎◌, MatchResult, IfSome};
ghost use Rattle.schedule_io.specs.Ends.{IsReadFrom};

use crate::fault::RunFault;
use schedule_text::{Event, read_schedule};
use std::alloc::Global;
use std::io::{ErrorKind, Read};

/// All that a reader gives.
///
/// # Errors
/// `Memory` where it couldn't be held; `Device` where `input` failed.
pub fn read_all<R: Read>(alloc: Global, input: &mut R) -> Result<Vec<u8>, RunFault>
    ensures { MatchResult result (λ text. IfSome (R.remaining input.old) (λ xs. text.items ≡ xs))
        (λ fault. (fault ≡ RunFault.Memory) ⊎ (fault ≡ RunFault.Device)) }
{
    let mut text = Vec::new(alloc);
    // What was read before a fault is dropped: half of a schedule isn't run.
    match input.read_to_end(&mut text) {
        Ok(_) => Ok(text),
        // The text's own allocation fails as an error of the reader, so this is asked before the device is blamed.
        Err(error) if error.kind() == ErrorKind::OutOfMemory => Err(RunFault::Memory),
        Err(_) => Err(RunFault::Device),
    }
}

/// Reads a schedule from `input`: its events.
///
/// # Errors
/// `BadEvent` with the number of the first faulty line; `Memory` where the text or its events couldn't be held; `Device`
/// where `input` failed.
pub fn read_events<R: Read>(alloc: Global, input: &mut R) -> Result<Vec<Event>, RunFault>
    ensures { IsReadFrom (R.remaining input.old) result }
{
    let text = read_all(alloc, input)?;
    Ok(read_schedule(alloc, text.as_slice())?)
}
