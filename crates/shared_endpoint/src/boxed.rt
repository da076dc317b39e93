//! The endpoint as the lock carries it.

ghost use Rattle.std.specs.Prelude.{◌≡◌, IfOk, IfErr};

use activities::Handler;
use endpoint::Endpoint;
use keep::Keep;
use std::alloc::Global;
use std::marker::Model;

/// An endpoint on the heap, so that the lock carries a pointer to it. Contracts see the endpoint.
#[derive(Drop)]
pub struct Boxed<H, K>
where
    H: Handler,
    K: Keep<State = H::State, Command = H::Command> + Drop,
{
    // 235 instructions a call, where copying the service took 1,140.
    pub(crate) endpoint: Box<Endpoint<H, K>>,
}

impl<H, K> Model for Boxed<H, K>
where
    H: Handler,
    K: Keep<State = H::State, Command = H::Command> + Drop,
{
    ghost Value = { K };

    ghost view = { λ b. b.endpoint.value };
}

impl<H, K> Boxed<H, K>
where
    H: Handler,
    K: Keep<State = H::State, Command = H::Command> + Drop,
{
    /// Puts an endpoint on the heap. If an allocation fails, it is returned.
    pub(crate) fn new(
        alloc: Global,
        endpoint: Endpoint<H, K>,
    ) -> Result<Boxed<H, K>, Endpoint<H, K>>
        ensures ok { IfOk result (λ b. b ≡ endpoint) }
        ensures err { IfErr result (λ e. e ≡ endpoint) }
    {
        match Box::new(alloc, endpoint) {
            Ok(endpoint) => Ok(Boxed { endpoint }),
            // The endpoint isn't lost with the box that it found no memory for.
            Err(failed) => Err(failed.value),
        }
    }

    /// The endpoint.
    pub(crate) fn into_inner(self) -> Endpoint<H, K>
        ensures { result ≡ self }
    {
        let Boxed { endpoint } = self;
        Box::into_inner(endpoint)
    }
}
