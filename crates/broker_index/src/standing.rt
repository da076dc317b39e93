//! Where a message is.

ghost use Rattle.std.specs.Prelude.{◌≡◌, IfOk};

use broker_book::Shared;
use std::alloc::AllocError;
use stomp_session::Text;

/// To whom a message is out.
#[derive(Debug, Drop)]
pub struct Holder {
    /// The number of the session.
    pub session: u64,
    /// The name of the subscription within the session.
    pub id: Shared<Text>,
    /// The number of the delivery.
    pub ack: u64,
}

/// Where a message is.
#[derive(Debug, Drop)]
pub enum Standing {
    /// The message can go out.
    Ready,
    /// The message is out, and unanswered.
    Out(Holder),
    /// The message is acknowledged, and only waits to be taken out.
    Gone,
}

impl Standing {
    /// An equal standing; its text is shared, so that it allocates nothing.
    ///
    /// # Errors
    /// Where the text has too many owners to count.
    pub fn share(&self) -> Result<Standing, AllocError>
        ensures { IfOk result (λ standing. standing ≡ self.now) }
    {
        match self {
            Standing::Ready => Ok(Standing::Ready),
            Standing::Out(holder) => Ok(Standing::Out(Holder {
                session: holder.session,
                id: holder.id.share()?,
                ack: holder.ack,
            })),
            Standing::Gone => Ok(Standing::Gone),
        }
    }
}
