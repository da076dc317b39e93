//! A service of a transactional outbox as a program: a type of one's own says what its lines mean and how its states are shown,
//! and `main` is a line.
//!
//! A [`Business`] says what a [`Handler`](activities::Handler) doesn't: which command a line is, and how a state is shown. With
//! it and the [`Texts`] of `--help`, [`run_main`] is the program of a service over tables in memory; [`run_service_program`] is
//! the same by given words and on given streams. A program of several services, or over another store, reads its words by
//! [`read_words`] and runs one by [`run_service`].
//!
//! ```rust
//! pub fn a_key_is_read(alloc: Global) -> Result<bool, LineFault> {
//!     let room = read_key(alloc, Kind::Stock, "number\\sseven")?;
//!     Ok(room.text() == "stock/number seven")
//! }
//! ```
//!
//! The answer is true. The program opens two connections to a broker of STOMP 1.2, prints `connected N`, and answers each
//! line of its standard input by a line on standard output: the commands of its business by `committed POS` or `refused N`,
//! and `show KIND/KEY`, `connect`, `status` and `await N`, which each program has. `--help` lists all.
//!
//! - What was answered `committed` is in the store. Letters are sent until their receivers have settled them, and each is
//!   processed once, in order of its pair. Four threads do that (`service_workers`); this crate adds sockets, lines and
//!   retries.
//! - A connection that ends is reopened, with a backoff that doubles from 100 milliseconds to 5 seconds. It's also reopened
//!   where CONNECT isn't answered for 10 seconds, where nothing came for one to two minutes and all letters are settled,
//!   and once an hour.
//! - If the first letter that isn't settled stays the same for half a minute, and no other was settled, both connections are
//!   reopened and so all letters are resent. That half minute doubles, up to an hour, as long as this letter stays.
//! - What happens to connections, and the words of each refusal, are logged on standard error, a line each after its time and level.
//! - At the end of the input, what was taken from the connections is processed, the broker is sent DISCONNECT, its receipt
//!   is awaited for a second at most, and the program ends with status 0. It may be killed at any time. A failure of the
//!   store ends it with status 1: started again, it opens its store again.
//! - Proved is that it's safe, and that each of its threads uses the service by a token of that service alone: so over
//!   tables that were good when they were opened, in a store that returns what was written, each answer is what a
//!   single thread would get from a journal that begins with all that this thread has seen, and in which each letter is
//!   processed once and in order (`shared_endpoint`). All that it writes in its life is true by the journal in the end, and
//!   of all that it processes MESSAGEs are the cause that came on its connections (`live`): where lives end so, the law over
//!   any broker holds of them (`laws_lives`). Of a life that is killed no contract speaks: that partners agree then too is
//!   tried (`runs/killed-services`).
#![tactic(auto)]

mod answers;
mod askings;
mod asks;
mod backoff;
mod board;
mod business;
mod console;
mod counts;
mod fault;
mod gate;
mod help;
mod input;
mod life;
mod logging;
mod overdue;
mod program;
mod pulse;
mod rest;
mod rests;
mod rows;
mod running;
mod serving;
mod sockets;
mod waiting;
mod words;

pub use business::{Business, LineFault, read_entity, read_key};
pub use console::{StandardStreams, Streams, standard_streams};
pub use fault::RunFault;
pub use help::help_of;
pub use logging::{WithLog, with_log};
pub use program::{
    Choices, Texts, exit_code, read_words, run_in_memory, run_main, run_service_program, status_of,
};
pub use rows::show_entity;
pub use running::{run_service, run_service_on};
pub use sockets::Broker;
pub use words::{ProgramText, Settings};
