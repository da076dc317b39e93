//! A message broker of STOMP 1.2 on a port: of 127.0.0.1, or of the address of `--listen`.
//!
//! It prints `listening PORT` once clients can connect, and serves them until it is killed, or with
//! `--until-input-ends` until its standard input ends.
#![tactic(auto)]

mod input;
mod plan;
mod told;
mod words;

use base::limits::MAX_QUEUED;
use broker_core::Broker;
use broker_server::{ServeFault, Stop, serve_watched};
use clap::error::ErrorKind as WordFault;
use command_line::{tell_bad_words, tell_words};
use input::wait_for_end;
use log::{Logged, info};
use mio::net::TcpListener;
use plan::{Plan, plan_of};
use std::io::{ErrorKind, Write};
use std::net::{Net, SocketAddr};
use std::process::ExitCode;
use std::sync::Wait;
use std::time::Clock;
use std::{env, io, thread};
use timed_log::TimedConsole;
use told::{BrokerLog, TARGET};
use words::{Settings, USAGE, read_settings};

/// Prints on standard error why the program ends with status 1: the number and the name of the fault alone, so that scripts
/// can compare the line.
fn tell_fault(rt: &impl Eprint, fault: ServeFault) -> io::Result<u8> {
    eprintln!(rt; "{fault}")?;
    Ok(1)
}

/// Prints on standard error that standard output can't be written, and why; the fault's line comes last. The answer is the
/// status.
fn tell_unwritten(rt: &impl Eprint, error: io::Error) -> io::Result<u8> {
    eprintln!(rt; "standard output can't be written: {error}")?;
    tell_fault(rt, ServeFault::Device)
}

/// Listens on an address: where port 0 was asked for, on one that the system picks, which is told beside.
fn listen_on<R: Net>(rt: &R, address: SocketAddr) -> io::Result<(TcpListener, u16)> {
    // Bound before the port is printed: whoever reads the line can connect at once.
    let listener = TcpListener::bind(rt, address)?;
    let port = listener.local_addr()?.port();
    Ok((listener, port))
}

/// Tells the port.
fn tell_port<R: Print>(rt: &R, port: u16) -> io::Result<()> {
    let mut out = io::writer(rt);
    writeln!(out, "listening {port}")?;
    // A script waits for this line, and nothing else is printed that would push it out of a buffer.
    out.flush()
}

/// Listens on an address and tells the port; or the status, where either is refused, which is told then.
fn listen<R: Net + Print + Eprint>(
    rt: &R,
    address: SocketAddr,
) -> io::Result<Result<TcpListener, u8>> {
    let (listener, port) = match listen_on(rt, address) {
        Ok(bound) => bound,
        Err(error) => {
            eprintln!(rt; "{address} can't be had: {error}")?;
            return Ok(Err(tell_fault(rt, ServeFault::Device)?));
        }
    };
    if let Err(error) = tell_port(rt, port) {
        return Ok(Err(tell_unwritten(rt, error)?));
    }
    Ok(Ok(listener))
}

/// Serves a listener until it's asked to stop, and tells what happens. The answer is the status.
fn serve_all<R: Net + Wait + Clock>(
    rt: &R,
    host: &HostRuntime,
    mut listener: TcpListener,
    plan: Plan,
    stop: &Stop,
) -> io::Result<u8> {
    let log = Logged::new(*host, plan.level, TimedConsole(*host));
    if let Ok(address) = listener.local_addr() {
        info!(log; target: TARGET, "listening on {address}");
    }
    let mut broker: Broker<MAX_QUEUED> = Broker::new(host.alloc());
    let told = BrokerLog::new(&log);
    let served = serve_watched(
        rt,
        host.alloc(),
        &mut broker,
        &mut listener,
        stop,
        plan.options,
        &told,
    );
    match served {
        Ok(()) => {
            info!(log; target: TARGET, "its input has ended");
            Ok(0)
        }
        Err(fault) => tell_fault(host, fault),
    }
}

/// What is to be served, and how; or the status, where the words of the command line ask for something else or it can't be
/// had, which is told then.
fn begin(rt: &HostRuntime) -> io::Result<Result<(TcpListener, Plan), u8>> {
    let words: Vec<String> = env::args(rt)?.collect(rt.alloc())?;
    match read_settings(rt.alloc(), words.as_slice()) {
        Ok(settings) => open(rt, settings),
        // Not by `clap`'s text and status 2: the words may be right.
        Err(error) if error.kind() == WordFault::OutOfMemory => {
            Err(io::Error::from(ErrorKind::OutOfMemory))
        }
        Err(error) => Ok(Err(tell_words(&mut rt.stdout(), &mut rt.stderr(), &error)?)),
    }
}

/// Opens what these settings ask for.
fn open(rt: &HostRuntime, settings: Settings<'_>) -> io::Result<Result<(TcpListener, Plan), u8>> {
    match plan_of(settings) {
        Ok(plan) => match listen(rt, plan.address)? {
            Ok(listener) => Ok(Ok((listener, plan))),
            Err(status) => Ok(Err(status)),
        },
        Err(fault) => {
            eprintln!(rt; "{fault}")?;
            Ok(Err(2))
        }
    }
}

/// Tells why nothing could begin. The answer is the status.
fn tell_error(rt: &HostRuntime, error: io::Error) -> io::Result<u8> {
    match error.kind() {
        ErrorKind::OutOfMemory => tell_fault(rt, ServeFault::Memory),
        // Words that aren't UTF-8, which nothing else here is.
        ErrorKind::InvalidData => tell_bad_words(&mut rt.stderr(), USAGE),
        // Of help or the version. Where it was standard error that failed, this isn't seen either.
        _ => tell_unwritten(rt, error),
    }
}

fn main(rt: HostRuntime) -> io::Result<ExitCode> {
    let (listener, plan) = match begin(&rt) {
        Ok(Ok(begun)) => begun,
        Ok(Err(status)) => return Ok(ExitCode::from(status)),
        Err(error) => return Ok(ExitCode::from(tell_error(&rt, error)?)),
    };
    let stop = Stop::new();
    if !plan.until_input_ends {
        let status = serve_all(&rt, &rt, listener, plan, &stop)?;
        return Ok(ExitCode::from(status));
    }
    // Where serving ends by itself the program does so too, whatever its input does.
    // If no second thread can be made, `join` waits for the input first, and nobody is served before that ends.
    let (status, ()) = thread::join(
        &rt,
        || {
            let status = serve_all(&rt, &rt, listener, plan, &stop);
            stop.ask();
            status
        },
        || {
            wait_for_end(&rt, rt.alloc(), &mut rt.reader(), &stop);
            stop.ask();
        },
    );
    Ok(ExitCode::from(status?))
}
