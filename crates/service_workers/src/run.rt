//! One run of a service: what its threads share.

use crate::line::RunLine;
use crate::lines::Signals;
use crate::naming::{Naming, RunNaming};
use crate::{Gate, Stop};
use activities::Handler;
use keep::Keep;
use shared_endpoint::Shared;
use std::alloc::{AllocError, Global};
use std::sync::{Mutex, Wait};
use stomp_wire::Link;

// That the parts of a run may cross threads is shown by hand (`Crossing`): for types with snapshots the prover would
// search to its limit.
/// One run of a service: what its threads share. Each thread has a copy.
pub(crate) struct Run<'a, N, M, L, H, K, G, R>
where
    N: Naming<K, L>,
    M: RunNaming<L>,
    L: Link + Drop,
    H: Handler,
    K: Keep<State = H::State, Command = H::Command> + Drop,
    G: Gate<R>,
    R: Wait,
{
    pub rt: &'a R,
    pub alloc: Global,
    pub shared: &'a Shared<H, K>,
    // Each connection has its own lock, and no thread holds both.
    pub zero: &'a Mutex<RunLine<N, M, L, H, K>>,
    pub one: &'a Mutex<RunLine<N, M, L, H, K>>,
    pub signals: &'a Signals,
    pub gate: &'a G,
    pub stop: &'a Stop,
}

/// Written by hand: a derived one would ask that the types are `Copy` to which it has references.
impl<'a, N, M, L, H, K, G, R> Clone for Run<'a, N, M, L, H, K, G, R>
where
    N: Naming<K, L>,
    M: RunNaming<L>,
    L: Link + Drop,
    H: Handler,
    K: Keep<State = H::State, Command = H::Command> + Drop,
    G: Gate<R>,
    R: Wait,
{
    fn clone(&self) -> Result<Run<'a, N, M, L, H, K, G, R>, AllocError> {
        Ok(*self)
    }
}

impl<'a, N, M, L, H, K, G, R> Copy for Run<'a, N, M, L, H, K, G, R>
where
    N: Naming<K, L>,
    M: RunNaming<L>,
    L: Link + Drop,
    H: Handler,
    K: Keep<State = H::State, Command = H::Command> + Drop,
    G: Gate<R>,
    R: Wait,
{}
