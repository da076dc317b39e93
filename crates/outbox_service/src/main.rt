//! Purchasing, warehouse or billing as a process: a service of a transactional outbox that talks to a broker of STOMP 1.2 on
//! two sockets, and answers lines.
//!
//! ```text
//! outbox-service --service purchasing|warehouse|billing --port PORT [--file PATH] [--migrate] [OPTIONS]
//! ```
//!
//! Its commands are `place KEY STOCK N .. ACCOUNT AMOUNT` and `cancel KEY` (purchasing), `receive KEY N` (warehouse) and `limit
//! KEY N` (billing). A command of another service is `refused 60`. All else is what `service_program` does for each service:
//! the lines `show`, `connect`, `status` and `await`, sockets, retries and the log; its page also says what is proved. `--help` lists
//! all.
//!
//! - What was answered `committed` is in the tables: in the file of `--file`, or in memory until the program ends. With
//!   `--migrate` a file of version 1 is taken over before all else, and `migrated SERVICE 1 2` printed.
//! - A failure of the store ends the program with status 1: started again, it reopens its file.
//!
//! Exit status: 0 at the end of the input; 1 where the file can't be opened, the store failed, or a stream or the system
//! did; 2 where the words of the command line are at fault.
#![tactic(auto)]

mod commands;
mod filed;
mod migration;

use activities::Handler;
use billing::Accounts;
use commands::{TEXTS, Trade};
use filed::run_filed;
use keep_plain::PlainKeep;
use keep_sqlite::Filed;
use log::{Log, warn};
use migration::take_over;
use purchasing::Orders;
use service_program::{
    Broker, Business, Choices, ProgramText, RunFault, Settings, WithLog, exit_code, help_of,
    read_words, run_service, status_of, with_log,
};
use sqlite::Unknown;
use std::process::ExitCode;
use std::sync::Wait;
use std::thread::Threads;
use std::time::Clock;
use std::{env, io};
use warehouse::Stocks;

/// What may follow `--service`.
const SERVICES: &[&str] = &["purchasing", "warehouse", "billing"];

/// What becomes of the tables, and the exit status.
const ENDING: &str = "\
At the end of the input it ends: what came before is handled. It may be killed at any time: with
`--file` it goes on where it was. Without it the tables end with the program, and then the broker's
queues and the tables of the other two have to end too. A file belongs to one service, and one
program has it at a time. One of version 1, where an order had one stock, is taken over by
`--migrate`: `migrated SERVICE 1 2` is printed before all else. It's as it was or wholly of
version 2, whenever the program is killed.

Exit status:
  0  the input ended
  1  `fault N NAME` is the last line on standard error: 1 Failed, 2 Memory, 3 WrongFile: the file
     can't be opened, or is of another service or version; 2 Device: a stream failed, or the system
     refused what is needed; 63 StoreFailed: the store failed; 81 Memory: out of memory at the start
  2  the words of the command line are at fault";

/// What its command line has beside the broker.
const CHOICES: Choices<'static> = Choices {
    services: SERVICES,
    has_files: true,
    ending: ENDING,
};

/// Runs a service over tables in memory, or over those of a file where there is one.
fn run_at<H, R>(
    rt: &R,
    host: &HostRuntime,
    path: Option<&str>,
    broker: Broker<'_>,
) -> Result<(), RunFault>
where
    H: Handler
        + Filed<State = <H as Handler>::State, Command = <H as Handler>::Command>
        + Send
        + Sync,
    <H as Handler>::State: Send,
    <H as Handler>::Command: Send,
    Trade: Business<H>,
    R: Threads + Wait + Clock + Log + Sync,
{
    match path {
        // `Unknown` stands for what the file holds, of which nothing is known before it is opened.
        Some(path) => run_filed::<H, Trade, Unknown, R>(rt, host, path, Unknown, broker),
        None => {
            let keep = PlainKeep::new(host.alloc());
            run_service::<H, Trade, PlainKeep<H>, R>(rt, host, keep, broker)
        }
    }
}

/// Runs the service that is asked for. Its file is taken over before it's opened where that is asked for.
fn run<R>(rt: &R, host: &HostRuntime, settings: Settings<'_>) -> Result<(), RunFault>
where
    R: Threads + Wait + Clock + Log + Sync,
{
    let Settings {
        service,
        broker,
        file,
        migrate,
        log: _,
    } = settings;
    match file {
        // Before the service opens it: an opening refuses a file of version 1.
        Some(path) if migrate => take_over(host, service, path)?,
        // A warning and no fault: tables in memory have no version that could be wrong.
        None if migrate => warn!(rt; "--migrate does nothing without --file"),
        _ => (),
    }
    match service {
        "warehouse" => run_at::<Stocks, R>(rt, host, file, broker),
        "billing" => run_at::<Accounts, R>(rt, host, file, broker),
        // Purchasing: `clap` takes no other word after `--service`.
        _ => run_at::<Orders, R>(rt, host, file, broker),
    }
}

/// Runs what the words of the command line ask for. The answer is the status.
fn start<R>(rt: &R, host: &HostRuntime) -> io::Result<u8>
where
    R: Threads + Wait + Clock + Sync,
{
    let alloc = host.alloc();
    let help = help_of(alloc, TEXTS, ENDING)?;
    let words: Vec<String> = env::args(host)?.collect(alloc)?;
    let program = ProgramText {
        texts: TEXTS,
        choices: CHOICES,
        help: help.as_str(),
    };
    let (mut out, mut err) = (host.stdout(), host.stderr());
    match read_words(alloc, program, words.as_slice(), &mut out, &mut err)? {
        Ok(settings) => {
            let log = with_log(rt, host, settings.log);
            status_of(&mut err, run::<WithLog<'_, R>>(&log, host, settings))
        }
        Err(status) => Ok(status),
    }
}

fn main(rt: HostRuntime) -> io::Result<ExitCode> {
    exit_code(&rt, TEXTS.usage, start(&rt, &rt))
}
