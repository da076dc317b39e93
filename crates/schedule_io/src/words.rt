//! The words of the command lines.

ghost use Rattle.std.specs.Prelude.{◌≡◌, map, IfOk, OnErr, MatchResult};
ghost use Rattle.std.specs.Io.KnownBytes.{Appends};
ghost use Rattle.clap.specs.Words.{app_of, found_of, rows_of};
ghost use Rattle.command_line.specs.Usage.{bad_words_text};
ghost use Rattle.schedule_io.specs.Asked.{command_line, IsAskedFor, IsReadAs};
ghost use Rattle.schedule_io.specs.Usage.{IsAsked};
ghost use Rattle.streams.specs.Written.{AppendsPart};

use crate::choice::StoreChoice;
use crate::fault::RunFault;
use crate::telling::tell_fault;
use clap::builder::ValueParser;
use clap::error::ErrorKind;
use clap::{Arg, ArgAction, ArgMatches, Command, Error};
use command_line::tell_words;
use std::alloc::{AllocError, Global};
use std::convert::AsStr;
use std::io;
use std::io::Write;

/// How the program is called.
const USAGE: &str = "outbox-schedule [--keep plain|sqlite] [--dir PATH] [--migrate] < SCHEDULE";

/// What may stand behind `--keep`.
const KEEPS: &[&str] = &["plain", "sqlite"];

/// What `--version` tells behind the program's name.
const VERSION: &str = "0.1.0";

/// What a schedule may hold and what it tells, for `--help`.
const LINES: &str = "\
Lines of a schedule:
  place SEAT KEY STOCK N .. ACCOUNT AMOUNT
                                         an order asks for N of each of one to eight stocks, and for
                                         AMOUNT of an account
  cancel SEAT KEY                        cancels an order
  receive SEAT KEY N                     N of a stock came in
  limit SEAT KEY N                       the limit of an account is N from now on
  open SERVICE CONN                      opens a connection to the broker
  cut SERVICE CONN                       cuts it: what is on its way is lost
  fill SERVICE CONN LIMIT                sends letters that are due, at most LIMIT
  resend SERVICE CONN                    all letters that aren't settled are due again
  carry SERVICE CONN up MOST             moves octets to the broker, at most MOST
  carry SERVICE CONN down MOST           moves octets from the broker, at most MOST
  take SERVICE CONN                      handles one frame that came
  drain SERVICE CONN                     handles the first held letter whose turn has come
  repeat K                               what a broker accepted as the K-th is sent again
  fail SERVICE N old                     the N-th call of its store fails and changes nothing
  fail SERVICE N new                     the N-th call of its store fails and has changed all
  reopen SERVICE                         opens its store anew
  stop SERVICE                           stops it and starts it again
  stop broker                            a new broker begins: all messages are lost
  pump N                                 runs N rounds, 1 to 100, in which each service sends, takes
                                         and drains
  show KIND/KEY                          shows an entity's row, as order/o1
  pair KIND/KEY KIND/KEY                 shows how many letters were sent, settled and handled
  frames SERVICE                         shows the frames that it is to send
  journal SERVICE                        shows what it took in
  agreement                              shows whether the partners of all orders agree

SERVICE is purchasing, warehouse or billing, CONN is 0 or 1, SEAT is 0 to 15. A key has 1 to 64
octets, with \\s for a space, \\n for LF, \\r for CR and \\\\ for a backslash. Empty lines and lines that
begin with # are passed over. The services begin with empty tables, which end with the run; with
`--keep sqlite --dir PATH` they begin with those that an earlier run left there. Files of version 1,
where an order had one stock, are taken over by `--migrate`: `migrated SERVICE 1 2` is printed for
each, before all else. A file is as it was or wholly of version 2, whenever the program is stopped.

What a line is answered, where nothing is shown:
  committed POS, handled POS             taken in, at this position of the journal
  opened, already, closed, cut           of a connection; closed: it isn't open
  sent N, due, carried N                 of letters and octets that are sent
  connected, receipt N, repeated, held   of frames that came
  settled N, error TEXT                  of frames that came; after an error the connection is cut
  drained FROM TO N, idle                a held letter was handled; there was nothing to do
  again M, none                          sent again as message M; so many weren't accepted
  armed, reopened, stopped, pumped       it was done
  refused 61 70                          AlreadyPlaced: the order was placed before
  refused 61 71                          NotOpen: the order isn't open
  refused 61 72                          OutOfRange: a number is out of range
  refused 61 73                          BelowUse: the limit is below what is billed and held
  refused 61 74                          BadLines: no line, more than eight, or one stock twice
  refused 63                             StoreFailed: both connections of the service are cut
  refused 65                             Unusable: the store failed, and wasn't opened anew
  refused 32, 36, 45, 66                 a queue is full, or no number is left
  refused 34, 44, 51, 64                 out of memory
  refused N                              of a frame that came and can't be taken: N is its fault

Exit status:
  0  each line was run, whether it was refused or not
  1  `line N: bad event`: line N is the first that is none of the above, and nothing was run;
     `fault N NAME`, below a line that names a service and says why: its file can't be opened, and
     nothing was run: 1 Failed, 2 Memory, 3 WrongFile, which is none of this service, or of another
     version; with `--migrate` it can't be taken over either, and is as it was;
     `fault 81 Memory`: the schedule couldn't be held, and nothing was run;
     `fault 2 Device`: a stream failed
  2  the words of the command line are at fault";

/// The command line, as `clap` has it, where `--keep` takes one of these words.
fn make_command<'a>(alloc: Global, keeps: &'a [&'a str]) -> Result<Command<'a>, AllocError>
    ensures { IfOk result (λ command. app_of command ≡ command_line keeps.entry) }
{
    let keep = Arg::new(alloc, "keep")
        .long("keep")
        .action(ArgAction::Set)
        .value_name("STORE")
        .default_value("plain")
        .help("Where the tables are kept: in ordered maps, or in SQL")
        .value_parser(keeps);
    let dir = Arg::new(alloc, "dir")
        .long("dir")
        .action(ArgAction::Set)
        .value_name("PATH")
        .help("With `--keep sqlite`: in this folder, in three files that SQLite reads")
        // Empty, it would name the root of the file system. With `plain` it is ignored: so one word turns files off.
        .value_parser(ValueParser::NonEmptyString);
    let migrate = Arg::new(alloc, "migrate")
        .long("migrate")
        .action(ArgAction::SetTrue)
        .help("With `--dir`: takes over files of version 1 before they are opened");
    // `VERSION` is a word of the source, since crates have no versions.
    let command = Command::new(alloc, "outbox-schedule")
        .version(VERSION)
        .about(
            "Runs a schedule of events over three services and a broker, and prints the outcome of each line.",
        )
        .override_usage(USAGE)
        .after_help(LINES)
        .arg(keep)?
        .arg(dir)?
        .arg(migrate)?;
    Ok(command)
}

/// Which stores the words ask for, whose matches these are.
fn chosen_by<'a>(matches: &ArgMatches<'a>) -> StoreChoice<'a>
    ensures { IsAskedFor (rows_of (found_of matches.now)) result }
{
    match matches.get_str("keep") {
        Some(name) if name == "sqlite" => match matches.get_str("dir") {
            Some(folder) => StoreChoice::Files {
                folder,
                migrate: matches.get_flag("migrate"),
            },
            None => StoreChoice::Sqlite,
        },
        // The default, as `clap` refuses all other words. It ignores `--dir`, so that one word turns files on and off.
        _ => StoreChoice::Plain,
    }
}

/// Reads the words of the command line, the program's name first: which stores they ask for, where `--keep` takes one
/// of these words.
fn read_words<'a, T: AsStr>(
    alloc: Global,
    words: &'a [T],
    keeps: &'a [&'a str],
) -> Result<StoreChoice<'a>, Error>
    ensures { IsReadAs keeps.entry (map T.text words.now) result }
{
    let command: Command<'a> = make_command(alloc, keeps)?;
    match command.try_get_matches_from(words) {
        Ok(matches) => Ok(chosen_by(&matches)),
        Err(error) => Err(error),
    }
}

/// Tells on `err` that a word of the command line isn't UTF-8. The status is 2 then.
///
/// # Errors
/// Where `err` failed: it took a beginning of that.
pub fn tell_bad_words<E: Write>(err: &mut E) -> io::Result<u8>
    ensures told { IfOk result (λ status. (status ≡ 2)
        × Appends (E.contents err.old) (E.contents err.new) (bad_words_text USAGE.now)) }
    ensures untold { OnErr result (AppendsPart (E.contents err.old) (E.contents err.new) (bad_words_text USAGE.now)) }
{
    command_line::tell_bad_words(err, USAGE)
}

/// The status that an answer comes to: 1 where a writer failed.
fn status_of(answer: io::Result<u8>) -> u8
    ensures { MatchResult answer (λ status. result ≡ status) (λ _. result ≡ 1) }
{
    // The text is lost, the failure isn't: 1 is also the status if a stream failed in a run.
    answer.unwrap_or(1)
}

/// Reads the words of the command line of `outbox-schedule`, the program's name first: which stores they ask for.
///
/// # Errors
/// The status, where they ask for no run: help and the version were told on `out`, 0; a fault of usage on `err`, as
/// `clap` words it, 2; or want of memory, 1. It's 1 too where the stream failed on which it was told.
pub fn ask<'a, T: AsStr, W: Write, E: Write>(
    alloc: Global,
    words: &'a [T],
    out: &mut W,
    err: &mut E,
) -> Result<StoreChoice<'a>, u8>
    ensures { IsAsked (map T.text words.now) (record { out = W.contents out.old; err = E.contents err.old })
        (record { out = W.contents out.new; err = E.contents err.new }) result }
{
    let error = match read_words(alloc, words, KEEPS) {
        Ok(choice) => return Ok(choice),
        Err(error) => error,
    };
    // No fault of the words: status 2 would blame whoever called the program.
    if error.kind() == ErrorKind::OutOfMemory {
        return Err(status_of(tell_fault(err, RunFault::Memory)));
    }
    Err(status_of(tell_words(out, err, &error)))
}
