//! A hotel as a process: it takes the place of the warehouse, so an order asks for a room where it asks for a stock.
//!
//! ```text
//! hotel-service --port PORT [OPTIONS]
//! ```
//!
//! Its commands are `reserve KEY` and `release KEY`, for a guest at the desk. Its tables are in memory. All else is what
//! `service_program` does for each service.
#![tactic(auto)]

use base::{Entity, Kind};
use hotel::{Room, RoomCommand, Rooms};
use service_program::{Business, LineFault, Texts, read_key, run_main, show_entity};
use std::alloc::{AllocError, Global};
use std::io;
use std::process::ExitCode;

/// What the program prints of itself.
const TEXTS: Texts<'static> = Texts {
    name: "hotel-service",
    version: "0.1.0",
    about: "Rooms of a hotel, connected to a broker of STOMP 1.2.",
    usage: "hotel-service --port <PORT> [OPTIONS]",
    commands: &[
        (
            "reserve KEY",
            "a guest takes a room at the desk, if it's free",
        ),
        ("release KEY", "the guest who has taken it leaves"),
    ],
    refusals: &[
        ("refused 61 75", "NotFree: the room isn't free"),
        ("refused 61 76", "NotTaken: no guest has taken the room"),
    ],
};

/// The hotel as a program.
struct Hotel;

impl Business<Rooms> for Hotel {
    fn read_command(alloc: Global, line: &str) -> Result<(Entity, RoomCommand), LineFault> {
        match line.split_once(' ') {
            // A room is an entity of the kind `Stock`: that is how an order's letters find it.
            Some(("reserve", key)) => Ok((
                read_key(alloc, Kind::Stock, key)?,
                RoomCommand::Reserve,
            )),
            Some(("release", key)) => Ok((
                read_key(alloc, Kind::Stock, key)?,
                RoomCommand::Release,
            )),
            // Never `NotMine`: a hotel doesn't know the commands of other services.
            _ => Err(LineFault::Unreadable),
        }
    }

    fn show_state(alloc: Global, room: &Room) -> Result<String, AllocError> {
        match room {
            Room::Free => String::from_str(alloc, "free"),
            Room::Taken => String::from_str(alloc, "taken"),
            Room::Promised(order) => {
                // With its escapes: a space in the order's key would look like the end of a word.
                let order = show_entity(alloc, order)?;
                format!(in alloc; "promised {order}")
            }
        }
    }
}

fn main(rt: HostRuntime) -> io::Result<ExitCode> {
    run_main::<Rooms, Hotel, _>(&rt, &rt, TEXTS)
}
