//! The words of the command line.

use crate::program::{Choices, Texts};
use crate::sockets::Broker;
use clap::builder::ValueParser;
use clap::{Arg, ArgAction, ArgMatches, Command, Error, value_parser};
use log::LevelFilter;
use std::alloc::{AllocError, Global};
use std::convert::AsStr;
use std::str::FromStr;

/// Where the broker is, where nothing else is said.
const ADDRESS: &str = "127.0.0.1";

/// Which of its hosts is meant, where nothing else is said.
const HOST: &str = "outbox";

/// What may follow `--log`.
const LEVELS: &[&str] = &["off", "error", "warn", "info", "debug"];

/// What is logged, where nothing else is said.
const LEVEL: &str = "info";

/// What the words ask for.
#[derive(Clone, Copy, Debug)]
pub struct Settings<'a> {
    /// The word after `--service`; empty for a program that is one service.
    pub service: &'a str,
    /// Where the broker is, and what it's told.
    pub broker: Broker<'a>,
    /// The file that has the tables; else they are in memory.
    pub file: Option<&'a str>,
    /// Whether a file of version 1 is taken over.
    pub migrate: bool,
    /// What is logged.
    pub log: LevelFilter,
}

/// All that a program's command line is made of.
#[derive(Clone, Copy, Debug)]
pub struct ProgramText<'a> {
    pub texts: Texts<'a>,
    pub choices: Choices<'a>,
    /// What `--help` prints below the options.
    pub help: &'a str,
}

// Each option is made where it's added: one that waited for others would be dropped, part by part, at each exit of
// theirs.

/// With `--service`, which takes one of these words.
fn with_service<'a>(
    alloc: Global,
    command: Command<'a>,
    services: &'a [&'a str],
) -> Result<Command<'a>, AllocError> {
    command.arg(
        Arg::new(alloc, "service")
            .long("service")
            .required(true)
            .action(ArgAction::Set)
            .value_name("SERVICE")
            .help("Which of the three services it is")
            .value_parser(services),
    )
}

/// With `--port`. No broker listens on port 0.
fn with_port<'a>(alloc: Global, command: Command<'a>) -> Result<Command<'a>, AllocError> {
    command.arg(
        Arg::new(alloc, "port")
            .long("port")
            .required(true)
            .action(ArgAction::Set)
            .value_name("PORT")
            .help("The broker's port, 1 to 65535")
            .value_parser(value_parser!(u16).range(1..)),
    )
}

/// With `--file`. An empty path is what a variable that isn't set becomes, and names no file.
fn with_file<'a>(alloc: Global, command: Command<'a>) -> Result<Command<'a>, AllocError> {
    command.arg(
        Arg::new(alloc, "file")
            .long("file")
            .action(ArgAction::Set)
            .value_name("PATH")
            .help("The file of the tables, which SQLite reads; without it they are in memory")
            .value_parser(ValueParser::NonEmptyString),
    )
}

/// With an option that takes a text.
fn with_text<'a>(
    alloc: Global,
    command: Command<'a>,
    name: &'a str,
    value: &'a str,
    help: &'a str,
) -> Result<Command<'a>, AllocError> {
    command.arg(
        Arg::new(alloc, name)
            .long(name)
            .action(ArgAction::Set)
            .value_name(value)
            .help(help),
    )
}

/// With an option that takes a name, and has this one where nothing is said.
fn with_name<'a>(
    alloc: Global,
    command: Command<'a>,
    name: &'a str,
    default: &'a str,
    help: &'a str,
) -> Result<Command<'a>, AllocError> {
    command.arg(
        Arg::new(alloc, name)
            .long(name)
            .action(ArgAction::Set)
            .value_name("NAME")
            .default_value(default)
            .help(help),
    )
}

/// With `--migrate`.
fn with_migrate<'a>(alloc: Global, command: Command<'a>) -> Result<Command<'a>, AllocError> {
    command.arg(
        Arg::new(alloc, "migrate")
            .long("migrate")
            .action(ArgAction::SetTrue)
            .help("With `--file`: takes a file of version 1 over before it's opened"),
    )
}

/// With `--prefetch`.
fn with_prefetch<'a>(alloc: Global, command: Command<'a>) -> Result<Command<'a>, AllocError> {
    command.arg(
        Arg::new(alloc, "prefetch")
            .long("prefetch")
            .action(ArgAction::Set)
            .value_name("N")
            .help(
                "How many messages the broker is to hand out ahead of acknowledgements, 1 to 65535",
            )
            .value_parser(value_parser!(u16)),
    )
}

/// With `--log`, which takes a level.
fn with_log<'a>(alloc: Global, command: Command<'a>) -> Result<Command<'a>, AllocError> {
    command.arg(
        Arg::new(alloc, "log")
            .long("log")
            .action(ArgAction::Set)
            .value_name("LEVEL")
            .default_value(LEVEL)
            .help("What is logged on standard error")
            .value_parser(LEVELS),
    )
}

/// With `--service`, where the program is more than one service.
fn add_service<'a>(
    alloc: Global,
    command: Command<'a>,
    choices: Choices<'a>,
) -> Result<Command<'a>, AllocError> {
    if choices.services.is_empty() {
        return Ok(command);
    }
    with_service(alloc, command, choices.services)
}

/// With what there is for files, where tables can be in one.
fn add_files<'a>(
    alloc: Global,
    command: Command<'a>,
    choices: Choices<'a>,
) -> Result<Command<'a>, AllocError> {
    if !choices.has_files {
        return Ok(command);
    }
    let command = with_file(alloc, command)?;
    with_migrate(alloc, command)
}

/// The command line of a program, as `clap` has it.
fn make_command<'a>(alloc: Global, program: ProgramText<'a>) -> Result<Command<'a>, AllocError> {
    let command = Command::new(alloc, program.texts.name)
        .version(program.texts.version)
        .about(program.texts.about)
        .override_usage(program.texts.usage)
        .after_help(program.help);
    let command = add_service(alloc, command, program.choices)?;
    let command = with_port(alloc, command)?;
    let command = add_files(alloc, command, program.choices)?;
    add_options(alloc, command)
}

/// The command line with what a broker may ask for besides.
fn add_options<'a>(alloc: Global, command: Command<'a>) -> Result<Command<'a>, AllocError> {
    let address = "Where the broker is: a name or an address";
    let command = with_name(alloc, command, "address", ADDRESS, address)?;
    let host = "Which of the broker's hosts is meant, as RabbitMQ's virtual host";
    let command = with_name(alloc, command, "host", HOST, host)?;
    let login = "The user, where the broker asks for one";
    let command = with_text(alloc, command, "login", "NAME", login)?;
    let passcode = "The user's passcode, which goes over the wire as it is";
    let command = with_text(alloc, command, "passcode", "NAME", passcode)?;
    let command = with_prefetch(alloc, command)?;
    with_log(alloc, command)
}

/// The level of a word.
fn level_of(word: &str) -> LevelFilter {
    // `clap` has refused each word that is no level.
    LevelFilter::from_str(word).unwrap_or(LevelFilter::Info)
}

/// What the words ask for, whose matches these are. `clap` knows no option that wasn't added.
fn settings_of<'a>(matches: &ArgMatches<'a>, choices: Choices<'_>) -> Settings<'a> {
    let mut settings = Settings {
        service: "",
        broker: broker_of(matches),
        file: None,
        migrate: false,
        log: level_of(matches.get_str("log").unwrap_or(LEVEL)),
    };
    if !choices.services.is_empty() {
        settings.service = matches.get_str("service").unwrap_or("");
    }
    if choices.has_files {
        settings.file = matches.get_str("file");
        settings.migrate = matches.get_flag("migrate");
    }
    settings
}

/// The broker that the words name. A prefetch of 0 is the same as none.
fn broker_of<'a>(matches: &ArgMatches<'a>) -> Broker<'a> {
    let prefetch = matches.get_one::<u16>("prefetch").unwrap_or(0);
    Broker {
        address: matches.get_str("address").unwrap_or(ADDRESS),
        // The option is required, so 0 never gets here.
        port: matches.get_one::<u16>("port").unwrap_or(0),
        host: matches.get_str("host").unwrap_or(HOST),
        login: matches.get_str("login"),
        passcode: matches.get_str("passcode"),
        prefetch: if prefetch == 0 {
            None
        } else {
            Some(u64::from(prefetch))
        },
    }
}

/// Reads the words of a program's command line, the program's name first.
///
/// # Errors
/// Where they ask for no run: help, the version, or a fault of theirs.
pub fn read_settings<'a, S: AsStr>(
    alloc: Global,
    program: ProgramText<'a>,
    words: &'a [S],
) -> Result<Settings<'a>, Error> {
    let command: Command<'a> = make_command(alloc, program)?;
    match command.try_get_matches_from(words) {
        Ok(matches) => Ok(settings_of(&matches, program.choices)),
        Err(error) => Err(error),
    }
}
