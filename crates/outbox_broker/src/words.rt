//! The words of the command line.

ghost use Rattle.std.specs.Prelude.{◌≡◌, true, map, option_and_then, IfErr, IfOk};
ghost use Rattle.clap.specs.Words.{FailsBy, app_of, fault_of, found_of, kind_of, matches_of, rows_of, takes};
ghost use Rattle.command_line.specs.Matches.{number_of};
ghost use Rattle.outbox_broker.specs.Asked.{AreSettings, unless_zero};
ghost use Rattle.outbox_broker.specs.Usage.{command_line, plain_command_line};

use clap::error::ErrorKind;
use clap::{Arg, ArgAction, ArgMatches, Command, Error, value_parser};
use std::alloc::{AllocError, Global};
use std::convert::AsStr;

/// How the program is called.
pub const USAGE: &str = "outbox-broker --port <PORT> [--listen <ADDRESS>] [OPTIONS]";

/// Where it listens, where nothing else is said.
// There is no login and no TLS.
const ADDRESS: &str = "127.0.0.1";

/// What is told, where nothing else is said.
// What an operator has to act on. Not `warn`: hostile clients could fill a pipe that nobody reads, and while standard
// error takes nothing nobody is served.
const LEVEL: &str = "error";

/// What `--version` tells behind the program's name.
const VERSION: &str = "0.1.0";

/// What the broker is and isn't, for `--help`.
const PROFILE: &str = "\
It prints `listening PORT` when clients can connect, and serves until it's killed, or with
`--until-input-ends` until its standard input ends: its connections are closed then, and the status
is 0. Messages are kept in memory: they don't outlive it. It listens on 127.0.0.1 alone, or on the
address of `--listen`, as 0.0.0.0 or :: for all that the machine has. There is no login and no TLS:
whoever can reach the address may send, take and read all messages.

What this machine is short of is logged on standard error, a line each after its time in UTC; with
--log warn also which client is sent away and why, as `[WARN  outbox-broker] connection 7 ended: ..`,
with --log info also who connects and leaves, with --log debug also sockets that close and what
waits for memory. While standard error takes nothing nobody is served. With --figures a line
`figures connections=N opened=N frames=N accepted=N read=N written=N held=N handed=N ready=N out=N`
comes again and again: how many connections there are, since the start how many were opened, frames
handled, messages accepted, and octets read and written; how many octets are held now; since the
start how many deliveries were made that are to be answered, and how many messages are ready now,
and how many out and unanswered.

With --memory it is counted what messages in queues, open transactions and what is left to be
written hold together. From so many octets on, until an eighth of them is free, a client that has
sent a message, or whose transaction has kept an answer, isn't read: its sends wait until there is
room, and none is refused or lost. Clients with unanswered deliveries are read on, since answers
make room, and so are those that only take. What one read of each client brings may come on top, and
what one that leaves had sent before. --log warn tells when that begins and ends.

What it offers of STOMP 1.2:
  CONNECT and STOMP    version 1.2 must be accepted; no login is asked for, no heart-beats are offered
  SEND                 to /queue/NAME: 1 to 64 letters, digits, `.`, `_`, `-` or `/`; there are no topics
  SUBSCRIBE            ack: auto, client or client-individual; a message goes to one subscription
  ACK, NACK            a NACK, and the end of a session, makes a message ready again
  BEGIN, COMMIT, ABORT of SEND, ACK and NACK; what isn't committed is aborted with its session
  receipt              on any frame but CONNECT
An ERROR tells a number and a name in `message`, and ends the session.

Limits:
  a frame       32 headers, lines of 1,024 octets, a body of 1,048,576 octets
  a queue       65,536 messages; a SEND to a full one is refused with 32 QueueFull
  a session     64 subscriptions, 16 transactions of 256 actions, values of 128 octets for `receipt`,
                `id` and `transaction`
  an ack mode   16 unanswered messages of a subscription in `client` and `client-individual`
  a connection  25,740,400 octets that its client doesn't read; then it is dropped

Exit status:
  1  `fault N NAME` is the last line on standard error: 2 Device: the port can't be had or told, and
     the line above says why, or the system refuses to wait for sockets or to tell the time;
     34 Memory: out of memory at the start
  2  the words of the command line are at fault";

/// What the words ask for.
#[derive(Clone, Copy, Debug)]
pub struct Settings<'a> {
    /// The port to listen on; with 0 the system picks one.
    pub port: u16,
    /// The text of the address to listen on.
    pub address: &'a str,
    /// Whether it ends when its standard input does.
    // The one way to end with status 0, as the kit has no signal handlers. Otherwise nothing is read: what starts a
    // server in the background mostly gives it an input that has ended.
    pub until_input_ends: bool,
    /// The word for what is told.
    pub log: &'a str,
    /// After how many seconds figures are told, again and again.
    pub figures: Option<u64>,
    /// For how many seconds a connection may be silent.
    // None unless asked for: a receiver in mode `auto` never sends, and no heart-beats are offered.
    pub idle: Option<u64>,
    /// How many octets may be held.
    pub memory: Option<u64>,
}

/// The command line, as `clap` has it.
fn make_command<'a>(alloc: Global) -> Result<Command<'a>, AllocError>
    ensures { IfOk result (λ command. app_of command ≡ command_line) }
{
    let port = Arg::new(alloc, "port")
        .long("port")
        .required(true)
        .action(ArgAction::Set)
        .value_name("PORT")
        .help("The port to listen on; with 0 the system picks one")
        .value_parser(value_parser!(u16));
    let listen = Arg::new(alloc, "listen")
        .long("listen")
        .action(ArgAction::Set)
        .value_name("ADDRESS")
        .default_value(ADDRESS)
        .help("The address to listen on, of IPv4 or IPv6");
    let until_input_ends = Arg::new(alloc, "until-input-ends")
        .long("until-input-ends")
        .action(ArgAction::SetTrue)
        .help("Ends with status 0 when standard input ends");
    let command = Command::new(alloc, "outbox-broker")
        .version(VERSION)
        .about("A message broker of STOMP 1.2, over TCP.")
        .override_usage(USAGE)
        .after_help(PROFILE)
        .arg(port)?
        .arg(listen)?
        .arg(until_input_ends)?;
    add_options(alloc, command)
}

/// The command line with what is told, how long a connection may be silent, and how much may be held.
fn add_options<'a>(alloc: Global, command: Command<'a>) -> Result<Command<'a>, AllocError>
    ensures { app_of command.entry ≡ plain_command_line → IfOk result (λ all. app_of all ≡ command_line) }
{
    let log = Arg::new(alloc, "log")
        .long("log")
        .action(ArgAction::Set)
        .value_name("LEVEL")
        .default_value(LEVEL)
        .help("What to tell on standard error: off, error, warn, info or debug");
    let figures = Arg::new(alloc, "figures")
        .long("figures")
        .action(ArgAction::Set)
        .value_name("SECONDS")
        .help("Tells figures on standard error every so many seconds")
        .value_parser(value_parser!(u16));
    let idle = Arg::new(alloc, "idle")
        .long("idle")
        .action(ArgAction::Set)
        .value_name("SECONDS")
        .help("Closes a connection of which nothing came for so long; LFs count too")
        .value_parser(value_parser!(u16));
    let memory = Arg::new(alloc, "memory")
        .long("memory")
        .action(ArgAction::Set)
        .value_name("OCTETS")
        .help("Doesn't read clients that send while so many octets are held")
        .value_parser(value_parser!(u64));
    let command = command.arg(log)?.arg(figures)?.arg(idle)?.arg(memory)?;
    Ok(command)
}

/// A number, where it isn't 0.
fn unless_zero(number: u64) -> Option<u64>
    ensures { result ≡ unless_zero number }
{
    // 0 turns an option off. As a limit it would close every silent connection, or read no sender, from the start.
    if number == 0 { None } else { Some(number) }
}

/// The number of a name, where it's given.
fn number_of(matches: &ArgMatches<'_>, name: &str) -> Option<u16>
    ensures { result ≡ number_of 16 name.now (rows_of (found_of matches.now)) }
{
    matches.get_one::<u16>(name)
}

/// So many seconds, where they are given and aren't none.
fn seconds_of(matches: &ArgMatches<'_>, name: &str) -> Option<u64>
    ensures { result ≡ option_and_then unless_zero (number_of 16 name.now (rows_of (found_of matches.now))) }
{
    match number_of(matches, name) {
        Some(seconds) => unless_zero(u64::from(seconds)),
        None => None,
    }
}

/// So many octets, where they are given and aren't none.
fn octets_of(matches: &ArgMatches<'_>, name: &str) -> Option<u64>
    ensures { result ≡ option_and_then unless_zero (number_of 64 name.now (rows_of (found_of matches.now))) }
{
    match matches.get_one::<u64>(name) {
        Some(octets) => unless_zero(octets),
        None => None,
    }
}

/// What the words ask for, whose matches these are.
fn settings_of<'a>(matches: &ArgMatches<'a>) -> Settings<'a>
    ensures { AreSettings (rows_of (found_of matches.now)) result }
{
    // `clap` refuses words without a port and puts defaults in, so no value after an `unwrap_or` is ever taken.
    let port = number_of(matches, "port").unwrap_or(0);
    // By default 127.0.0.1, since there is neither a login nor TLS.
    let address = matches.get_str("listen").unwrap_or(ADDRESS);
    let until_input_ends = matches.get_flag("until-input-ends");
    // By default not `warn`: hostile clients could fill a pipe that nobody reads, and then nobody is served.
    let log = matches.get_str("log").unwrap_or(LEVEL);
    let figures = seconds_of(matches, "figures");
    let idle = seconds_of(matches, "idle");
    let memory = octets_of(matches, "memory");
    Settings {
        port,
        address,
        until_input_ends,
        log,
        figures,
        idle,
        memory,
    }
}

/// Reads the words of the command line, the program's name first: what they ask for.
///
/// # Errors
/// Where they ask for no run: help, the version, or a fault of theirs.
pub fn read_settings<'a, S: AsStr>(alloc: Global, words: &'a [S]) -> Result<Settings<'a>, Error>
    ensures takes { IfErr result (λ e. takes command_line (map S.text words.now) ≡ true
        → kind_of e ≡ ErrorKind.OutOfMemory) }
    ensures fails { FailsBy (fault_of command_line (map S.text words.now)) result }
    ensures asked { IfOk result (AreSettings (matches_of command_line (map S.text words.now))) }
{
    let command: Command<'a> = make_command(alloc)?;
    match command.try_get_matches_from(words) {
        Ok(matches) => Ok(settings_of(&matches)),
        Err(error) => Err(error),
    }
}
