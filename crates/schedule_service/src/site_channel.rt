//! An open connection of a service.

ghost use Rattle.schedule_service.specs.Channels.{MailAfterCut};

use relay::Relay;
use schedule_mail::{Connection, Mail};

/// An open connection of a service, and what was sent on it.
#[derive(Drop)]
pub struct SiteChannel {
    /// The connection.
    pub connection: Connection,
    /// What was sent on it.
    pub relay: Relay,
}

/// Cuts a connection, where it is open: all octets on the way are lost, and the broker deals what was out to it to
/// others. That memory was refused to the deals isn't told: the next call of the broker goes on with them.
pub(crate) fn hang_up(channel: Option<SiteChannel>, mail: &mut Mail)
    ensures { MailAfterCut channel mail.old mail.new }
{
    if let Some(channel) = channel {
        let _ = channel.connection.cut(mail);
    }
}
