//! What a run of a service is given, and what it returns.

use crate::line::Line;
use crate::naming::Naming;
use crate::{Conn, Ended};
use activities::Handler;
use keep::Keep;
use shared_endpoint::{Hand, Scout};
use stomp_wire::Link;

/// The tokens by which two threads of a run use the service.
#[derive(Drop)]
pub struct Tokens<H, K>
where
    H: Handler,
    K: Keep<State = H::State, Command = H::Command> + Drop,
{
    /// By which what arrives is handled.
    pub hand: Hand<H, K>,
    /// By which it's looked what is to be sent.
    pub scout: Scout<H, K>,
}

/// What a run of a service is given: its tokens, and its two connections, where they are there.
pub struct Start<L, H, K>
where
    L: Link + Drop,
    H: Handler,
    K: Keep<State = H::State, Command = H::Command> + Drop,
{
    /// The tokens.
    pub tokens: Tokens<H, K>,
    // Two fields and no array: a generic caller would owe that an array of connections fits in memory.
    /// The first connection.
    pub zero: Option<Conn<L>>,
    /// The second one.
    pub one: Option<Conn<L>>,
}

/// What a run of a service returns: the same tokens, and what is left of its connections.
pub struct End<L, H, K>
where
    L: Link + Drop,
    H: Handler,
    K: Keep<State = H::State, Command = H::Command> + Drop,
{
    /// The tokens.
    pub tokens: Tokens<H, K>,
    /// What is left of the first connection.
    pub zero: Ended<L>,
    /// What is left of the second connection.
    pub one: Ended<L>,
}

/// What the threads of a run hold: the tokens of two of them, and the places of its two connections.
pub struct Held<N, L, H, K>
where
    N: Naming<K, L>,
    L: Link + Drop,
    H: Handler,
    K: Keep<State = H::State, Command = H::Command> + Drop,
{
    /// The tokens.
    pub tokens: Tokens<H, K>,
    /// The first connection.
    pub zero: Line<N, L, H, K>,
    /// The second one.
    pub one: Line<N, L, H, K>,
}
