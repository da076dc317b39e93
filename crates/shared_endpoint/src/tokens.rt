//! The tokens by which threads use the endpoint, and the witnesses that only know of it.

use crate::boxed::Boxed;
use activities::Handler;
use keep::Keep;
use marks::MarkSeat;
use told_lock::Key;

/// A seat: one of the sixteen tokens through which commands come.
#[derive(Drop)]
pub struct Seat<H, K>
where
    H: Handler,
    K: Keep<State = H::State, Command = H::Command> + Drop,
{
    pub(crate) number: u8,
    pub(crate) key: Key<Boxed<H, K>>,
    pub(crate) mark: MarkSeat,
}

/// The Hand: the token through which letters and settles come.
#[derive(Drop)]
pub struct Hand<H, K>
where
    H: Handler,
    K: Keep<State = H::State, Command = H::Command> + Drop,
{
    pub(crate) key: Key<Boxed<H, K>>,
    pub(crate) mark: MarkSeat,
}

/// The Scout: the token that reads what is to be sent.
#[derive(Drop)]
pub struct Scout<H, K>
where
    H: Handler,
    K: Keep<State = H::State, Command = H::Command> + Drop,
{
    pub(crate) key: Key<Boxed<H, K>>,
    pub(crate) mark: MarkSeat,
}

/// A record of what the endpoint has been: all that the token had seen of it by which it was made, and all that was shown
/// to that. It has no bytes, stands for no token, and may lie anywhere, as under another lock.
#[derive(Drop)]
pub struct Witness<H, K>
where
    H: Handler,
    K: Keep<State = H::State, Command = H::Command> + Drop,
{
    pub(crate) key: Key<Boxed<H, K>>,
}
