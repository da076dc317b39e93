//! Programs of services: the words of their command line, and what they print where they can't run.

ghost use Rattle.std.specs.Prelude.{◌≡◌, IfOk};
ghost use Rattle.service_program.specs.Faults.{status_of};

use crate::business::Business;
use crate::console::{Streams, standard_streams};
use crate::fault::RunFault;
use crate::help::{IN_MEMORY, help_of};
use crate::logging::{WithLog, with_log};
use crate::running::run_service_on;
use crate::sockets::Broker;
use crate::words::{ProgramText, Settings, read_settings};
use activities::Handler;
use clap::error::ErrorKind as WordFault;
use command_line::{tell_bad_words, tell_words};
use keep_plain::PlainKeep;
use log::Log;
use std::alloc::Global;
use std::io::{BufRead, ErrorKind, Write};
use std::process::ExitCode;
use std::sync::Wait;
use std::thread::Threads;
use std::time::Clock;
use std::{env, io};
use stomp_frame::FrameFault;

/// What is printed of words that can't stand in a CONNECT.
const BAD_GREETING: &str =
    "error: --host, --login and --passcode take one line of 1,000 octets at most";

/// What a program prints of itself.
#[derive(Clone, Copy, Debug)]
pub struct Texts<'a> {
    /// Its name, as `hotel-service`.
    pub name: &'a str,
    /// What `--version` prints after the name.
    pub version: &'a str,
    /// What it is, in a sentence.
    pub about: &'a str,
    /// How it's called, as `hotel-service --port <PORT> [OPTIONS]`.
    pub usage: &'a str,
    /// Its commands and what each does, for `--help`: `("reserve KEY", "a guest takes a free room")`. Empty words continue
    /// the meaning of those above.
    pub commands: &'a [(&'a str, &'a str)],
    /// What it refuses as business, likewise: `("refused 61 75", "NotFree: the room isn't free")`.
    pub refusals: &'a [(&'a str, &'a str)],
}

/// What a program's command line has beside the broker, and what its help says of tables.
#[derive(Clone, Copy, Debug)]
pub struct Choices<'a> {
    /// What may follow `--service`. A program that is one service has none, and no such option.
    pub services: &'a [&'a str],
    /// Whether `--file` and `--migrate` are taken.
    pub has_files: bool,
    /// The end of `--help`: what becomes of the tables, and the exit status.
    pub ending: &'a str,
}

/// What the command line of a program has that is one service with its tables in memory: nothing beside the broker.
const MEMORY: Choices<'static> = Choices {
    services: &[],
    has_files: false,
    ending: IN_MEMORY,
};

/// Runs a service over tables in memory, which end with it.
///
/// # Errors
/// Those of [`run_service_on`].
pub fn run_in_memory<H, B, I, W, R>(
    rt: &R,
    host: &HostRuntime,
    settings: Settings<'_>,
    streams: Streams<I, W>,
) -> Result<(), RunFault>
where
    H: Handler + Send + Sync,
    H::State: Send,
    H::Command: Send,
    B: Business<H>,
    I: BufRead + Drop,
    W: Write + Drop,
    R: Threads + Wait + Clock + Log + Sync,
{
    let keep = PlainKeep::new(host.alloc());
    run_service_on::<H, B, PlainKeep<H>, I, W, R>(rt, host, keep, settings.broker, streams)
}

/// Prints why the program ends with status 1. The last line is the fault's number and name alone, so that scripts can compare
/// it; its words stand above it.
fn tell_fault<E: Write>(err: &mut E, fault: RunFault) -> io::Result<u8>
    ensures { IfOk result (λ status. status ≡ 1) }
{
    writeln!(err, "{}\n{fault}", fault.words())?;
    Ok(1)
}

/// Whether the words for the broker can stand in a CONNECT.
fn try_greeting(alloc: Global, broker: &Broker<'_>) -> Result<(), FrameFault> {
    match broker.greet(alloc) {
        Ok(_) => Ok(()),
        Err(fault) => Err(fault),
    }
}

/// These settings, if the words for the broker can stand in a CONNECT; else the status.
fn try_settings<'a, E: Write>(
    alloc: Global,
    settings: Settings<'a>,
    err: &mut E,
) -> io::Result<Result<Settings<'a>, u8>> {
    match try_greeting(alloc, &settings.broker) {
        Ok(()) => Ok(Ok(settings)),
        // Out of memory is no fault of the words: status 1, and not 2.
        Err(FrameFault::Memory) => Ok(Err(tell_fault(err, RunFault::Memory)?)),
        // Words that no CONNECT can hold are refused before the start: a connection would fail again and again.
        Err(_) => {
            writeln!(err, "{BAD_GREETING}")?;
            Ok(Err(2))
        }
    }
}

/// What the words of a program's command line ask for, the program's name first; or the status of a program that doesn't run:
/// then it has printed help or the version on `out`, or what is wrong with the words on `err`.
///
/// # Errors
/// Where a stream failed, or an allocation did.
pub fn read_words<'a, W: Write, E: Write>(
    alloc: Global,
    program: ProgramText<'a>,
    words: &'a [String],
    out: &mut W,
    err: &mut E,
) -> io::Result<Result<Settings<'a>, u8>> {
    match read_settings(alloc, program, words) {
        Ok(settings) => try_settings(alloc, settings, err),
        // Taken out first: `clap` reports it like a fault of the words, which ends with status 2.
        Err(error) if error.kind() == WordFault::OutOfMemory => {
            Err(io::Error::from(ErrorKind::OutOfMemory))
        }
        Err(error) => Ok(Err(tell_words(out, err, &error)?)),
    }
}

/// The status of a service that has ended so. Why it's 1 is printed on `err`.
///
/// # Errors
/// Where `err` failed.
pub fn status_of<E: Write>(err: &mut E, ended: Result<(), RunFault>) -> io::Result<u8>
    ensures { IfOk result (λ status. status ≡ status_of ended) }
{
    match ended {
        Ok(()) => Ok(0),
        Err(fault) => tell_fault(err, fault),
    }
}

/// The exit code of a program that ended with a status, or couldn't begin: then it prints why, where there are words for that.
///
/// # Errors
/// Where standard error failed.
pub fn exit_code(host: &HostRuntime, usage: &str, ended: io::Result<u8>) -> io::Result<ExitCode> {
    let status = match ended {
        Ok(status) => status,
        Err(error) => tell_error(&mut host.stderr(), error, usage)?,
    };
    Ok(ExitCode::from(status))
}

/// Prints why the program couldn't begin, where there are words for that. The answer is the status.
fn tell_error<E: Write>(err: &mut E, error: io::Error, usage: &str) -> io::Result<u8> {
    match error.kind() {
        ErrorKind::OutOfMemory => tell_fault(err, RunFault::Memory),
        // Words that aren't UTF-8, which nothing else here is.
        ErrorKind::InvalidData => tell_bad_words(err, usage),
        // Standard output can't take help or the version. Where it was standard error, this isn't seen either.
        _ => tell_fault(err, RunFault::Device),
    }
}

/// Runs the program of one service over tables in memory, by these words of its command line, the program's name first, until
/// its input ends. The runtime is passed twice: only in `main` it has threads, and sockets need the system's own. What happens
/// to connections is logged on the system's standard error.
///
/// The answer is the exit status: 0 at the end of the input; 1 where the store, a stream or the system failed; 2 where the words
/// are at fault.
///
/// # Errors
/// Where a stream can't take what is to be printed before the service begins or after it has ended, or an allocation failed
/// before it begins.
pub fn run_service_program<H, B, I, W, E, R>(
    rt: &R,
    host: &HostRuntime,
    texts: Texts<'_>,
    words: &[String],
    streams: Streams<I, W>,
    err: &mut E,
) -> io::Result<u8>
where
    H: Handler + Send + Sync,
    H::State: Send,
    H::Command: Send,
    B: Business<H>,
    I: BufRead + Drop,
    W: Write + Drop,
    E: Write,
    R: Threads + Wait + Clock + Sync,
{
    let alloc = host.alloc();
    // `clap` borrows the help, so it is made whether it is printed or not.
    let help = help_of(alloc, texts, IN_MEMORY)?;
    let program = ProgramText {
        texts,
        choices: MEMORY,
        help: help.as_str(),
    };
    let mut streams = streams;
    match read_words(alloc, program, words, &mut streams.out, err)? {
        Ok(settings) => {
            let log = with_log(rt, host, settings.log);
            let ended = run_in_memory::<H, B, I, W, WithLog<'_, R>>(&log, host, settings, streams);
            status_of(err, ended)
        }
        Err(status) => Ok(status),
    }
}

/// Runs it by the words and on the standard streams of this process. The answer is the status.
fn start<H, B, R>(rt: &R, host: &HostRuntime, texts: Texts<'_>) -> io::Result<u8>
where
    H: Handler + Send + Sync,
    H::State: Send,
    H::Command: Send,
    B: Business<H>,
    R: Threads + Wait + Clock + Sync,
{
    let words: Vec<String> = env::args(host)?.collect(host.alloc())?;
    let streams = standard_streams(host)?;
    let mut err = host.stderr();
    run_service_program::<H, B, _, _, _, R>(rt, host, texts, words.as_slice(), streams, &mut err)
}

/// Runs the program of one service over tables in memory: the whole `main` of a process. It's [`run_service_program`] by the
/// words of its command line, on its standard streams.
///
/// # Errors
/// Where standard error can't take what is to be printed.
pub fn run_main<H, B, R>(rt: &R, host: &HostRuntime, texts: Texts<'_>) -> io::Result<ExitCode>
where
    H: Handler + Send + Sync,
    H::State: Send,
    H::Command: Send,
    B: Business<H>,
    R: Threads + Wait + Clock + Sync,
{
    exit_code(host, texts.usage, start::<H, B, R>(rt, host, texts))
}
