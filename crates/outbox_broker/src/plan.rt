//! What is to be done, once the words are understood.

ghost use Rattle.std.specs.Prelude.{◌≡◌, option_map, MatchOption};
ghost use Rattle.std.specs.Duration.{as_nanos};
ghost use Rattle.std.specs.Net.Grammar.{IsIpText};
ghost use Rattle.std.specs.Net.ToAddrs.{IsHostAndPort};
ghost use Rattle.outbox_broker.specs.Plans.{PlanAnswer, level_of, nanos_of};

use crate::words::Settings;
use broker_server::ServeOptions;
use log::LevelFilter;
use std::net::{IpAddr, SocketAddr};
use std::str::FromStr;
use std::time::Duration;
use thiserror::Error;

/// Which word means nothing.
#[derive(Clone, Copy, Debug, Error)]
pub enum PlanFault<'a> {
    /// This text behind `--listen` is no address.
    #[error("error: --listen takes an address of IPv4 or IPv6, as 0.0.0.0 or ::1, not '{0}'")]
    Address(&'a str),
    /// This word behind `--log` is no level.
    #[error("error: --log takes off, error, warn, info or debug, not '{0}'")]
    Level(&'a str),
}

/// What is to be done.
#[derive(Clone, Copy, Debug)]
pub struct Plan {
    /// Where it listens.
    pub address: SocketAddr,
    /// What is told of what happens.
    pub level: LevelFilter,
    /// How it serves.
    pub options: ServeOptions,
    /// Whether it ends when its standard input does.
    pub until_input_ends: bool,
}

/// The level of a word.
fn level_of(word: &str) -> Option<LevelFilter>
    ensures { result ≡ level_of word.now }
{
    match word {
        "off" => Some(LevelFilter::Off),
        "error" => Some(LevelFilter::Error),
        "warn" => Some(LevelFilter::Warn),
        "info" => Some(LevelFilter::Info),
        "debug" => Some(LevelFilter::Debug),
        // `trace` too: no line has that level.
        _ => None,
    }
}

/// The address of a text, with a port.
// An address and no name: so it opens what was written, whatever a resolver says.
fn address_of(text: &str, port: u16) -> Option<SocketAddr>
    ensures { MatchOption result ((ip : IpAddr) → ¬ (IsIpText text.now ip)) (IsHostAndPort text.now port) }
{
    // An address and no name: what is opened is what was written, whatever a resolver says.
    match IpAddr::from_str(text) {
        Ok(ip) => Some(SocketAddr::new(ip, port)),
        Err(_) => None,
    }
}

/// So many seconds, where there are some.
fn duration_of(seconds: Option<u64>) -> Option<Duration>
    ensures { option_map as_nanos result ≡ option_map nanos_of seconds }
{
    match seconds {
        Some(seconds) => Some(Duration::from_secs(seconds)),
        None => None,
    }
}

/// What the words ask for.
///
/// # Errors
/// The first word that means nothing.
pub fn plan_of<'a>(settings: Settings<'a>) -> Result<Plan, PlanFault<'a>>
    ensures { PlanAnswer settings.entry result }
{
    let Some(address) = address_of(settings.address, settings.port) else {
        return Err(PlanFault::Address(settings.address));
    };
    let Some(level) = level_of(settings.log) else {
        return Err(PlanFault::Level(settings.log));
    };
    Ok(Plan {
        address,
        level,
        options: ServeOptions {
            idle: duration_of(settings.idle),
            figures: duration_of(settings.figures),
            memory: settings.memory,
        },
        until_input_ends: settings.until_input_ends,
    })
}
