//! Faults of whole schedules, told.

ghost use Rattle.std.specs.Prelude.{◌≡◌, OnOk, OnErr, IfOk};
ghost use Rattle.std.specs.Io.KnownBytes.{Appends};
ghost use Rattle.schedule_io.specs.Ends.{fault_line};
ghost use Rattle.streams.specs.Written.{AppendsPart};

use crate::fault::RunFault;
use crate::writing::write_numbered;
use std::io;
use std::io::Write;
use streams::{write_octets, write_three};

/// Writes why a schedule ended before its end. The line of a fault is the last, and is alone on its line for scripts that
/// compare it; which service it was of, and why, is said above it.
fn write_run_fault<E: Write>(err: &mut E, fault: RunFault) -> io::Result<()>
    ensures ok { OnOk result (Appends (E.contents err.old) (E.contents err.new) (fault_line fault)) }
    ensures err { OnErr result (AppendsPart (E.contents err.old) (E.contents err.new) (fault_line fault)) }
{
    // Constant texts and digits on the stack: the fault may be that memory ran out.
    match fault {
        RunFault::BadEvent(number) => write_numbered(err, b"line ", number, b": bad event\n"),
        RunFault::Memory => write_octets(err, b"fault 81 Memory\n"),
        RunFault::Device => write_octets(err, b"fault 2 Device\n"),
        RunFault::Unopened(stores) => write_three(
            err,
            stores.service().as_bytes(),
            stores.reason().as_bytes(),
            stores.line().as_bytes(),
        ),
    }
}

/// Tells on `err` why a schedule ended before its end. The status is 1 then.
///
/// # Errors
/// Where `err` failed: it took a beginning of that.
pub fn tell_fault<E: Write>(err: &mut E, fault: RunFault) -> io::Result<u8>
    ensures told { IfOk result (λ status. (status ≡ 1)
        × Appends (E.contents err.old) (E.contents err.new) (fault_line fault)) }
    ensures untold { OnErr result (AppendsPart (E.contents err.old) (E.contents err.new) (fault_line fault)) }
{
    write_run_fault(err, fault)?;
    // Before the status is returned: the program ends next, and a script reads the last line.
    err.flush()?;
    Ok(1)
}
