//! What is told of an endpoint that others use meanwhile.

use crate::boxed::Boxed;
use activities::Handler;
use keep::Keep;
use std::marker::PhantomData;
use told_lock::Lore;

/// What is told of an endpoint that others use meanwhile: `Since`, `IsLater`, `EndsAs` and `EverSince`.
pub struct EndpointLore<H, K> {
    of: PhantomData<(H, K)>,
}

impl<H, K> Lore<Boxed<H, K>> for EndpointLore<H, K>
where
    H: Handler,
    K: Keep<State = H::State, Command = H::Command> + Drop,
{
    ghost use Rattle.shared_endpoint.specs.History.{Since, IsLater, EndsAs, EverSince};
    ghost use Rattle.shared_endpoint.specs.Lore.{later_same, later_join, since_same, since_join, ends_same};
    ghost use Rattle.shared_endpoint.specs.Lore.{ever_of, ever_join};

    // Four relations between what the endpoint was and is. Below: each holds of a value and itself, and two steps join.
    ghost since = { Since K.seen H.service };

    ghost later = { IsLater K.seen };

    ghost ends = { EndsAs K.seen H.service };

    ghost ever = { EverSince K.seen H.service };

    ghost since_same = { since_same K.seen H.service };

    ghost since_join = { since_join K.seen H.service };

    ghost later_same = { later_same K.seen };

    ghost later_join = { later_join K.seen };

    ghost ends_same = { ends_same K.seen H.service };

    ghost ever_of = { ever_of K.seen H.service };

    ghost ever_join = { ever_join K.seen H.service };
}
