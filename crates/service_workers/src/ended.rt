//! What comes of a connection.

ghost use Rattle.std.specs.Prelude.{◌≡◌, true, false, None};
ghost use Rattle.service_workers.specs.Conns.{or_was};

use crate::Conn;
use std::snapshot::Snapshot;
use stomp_wire::Link;

/// What a run leaves of a connection. Contracts also see the connection as it was when it was cut.
pub struct Ended<L: Link + Drop> {
    /// The connection, where it's still there.
    pub conn: Option<Conn<L>>,
    pub(crate) was: Snapshot<Option<Conn<L>>>,
}

/// Written by hand, so that an owner doesn't prove again how each of its parts is dropped.
impl<L: Link + Drop> Drop for Ended<L> {
    fn drop(self) {
        let Ended {
            conn: _conn,
            was: _,
        } = self;
    }
}

impl<L: Link + Drop> Ended<L> {
    /// The connection, where it's still there.
    pub fn into_conn(self) -> Option<Conn<L>>
        ensures { result ≡ self.conn }
    {
        let Ended { conn, was: _ } = self;
        conn
    }
}

/// The place of a connection, and what was noted of it. Where the connection is of no more use, it's cut as it is.
pub(crate) fn cut_where<L: Drop>(
    is_useless: bool,
    conn: Option<Conn<L>>,
    was: Snapshot<Option<Conn<L>>>,
) -> (Option<Conn<L>>, Snapshot<Option<Conn<L>>>)
    ensures same { or_was result.0 result.1.value ≡ or_was conn was.value }
    ensures kept { is_useless ≡ false → result.0 ≡ conn }
    ensures cut { is_useless ≡ true → result.0 ≡ None }
    ensures none { conn ≡ None → result.0 ≡ None }
{
    // Not where there is none: what was noted when it was cut would be lost.
    if is_useless && conn.is_some() {
        let noted = Snapshot::of(&conn);
        return (None, noted);
    }
    (conn, was)
}

/// Cuts a connection as it is, whatever is so of it.
pub(crate) fn note_and_drop<L: Drop>(
    conn: &mut Option<Conn<L>>,
    was: &mut Snapshot<Option<Conn<L>>>,
)
    ensures was { was.new.value ≡ conn.old }
    ensures none { conn.new ≡ None }
{
    *was = Snapshot::of(conn);
    *conn = None;
}
