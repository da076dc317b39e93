//! A connection under its lock, with a witness of what was written on it.

ghost use Rattle.std.specs.Prelude.{◌≡◌, true, false, is_some, None, Some, IfOk, IfErr, IfSome};
ghost use Rattle.stomp_frame.specs.declared.command.Command.TheVariants.{Connect, Message};
ghost use Rattle.activities.specs.Numbered.{IsPrefixOf};
ghost use Rattle.shared_endpoint.specs.Keys.{IsHandOf, IsScoutOf, IsWitnessAt, IsWitnessOf, name_of, told_hand, told_scout};
ghost use Rattle.shared_endpoint.specs.Keys.{shown_hand, shown_witness};
ghost use Rattle.service_workers.specs.Conns.{began_with, or_was, IsGiven, RunStanding, Standing};
ghost use Rattle.service_workers.specs.Owing.{OwesIf};
ghost use Rattle.service_workers.specs.Reads.{CameFrom, CameOver, IfFound, IsReadIf};
ghost use Rattle.service_workers.specs.Taking.{CarriedIn};
ghost use Rattle.service_workers.specs.Truth.{Knows, AnsweredTo, AreSentIn};
ghost use Rattle.service_workers.specs.Written.{HasSpokenIf};

use crate::conn::Found;
use crate::ended::{cut_where, note_and_drop};
use crate::naming::{Naming, RunNaming};
use crate::replying::{Read, finish, goes_on};
use crate::worker::Answer;
use crate::{Conn, Cut, Ended};
use activities::Handler;
use base::Kind;
use base::limits::MAX_BODY;
use envelope::Letter;
use keep::Keep;
use reception::ReceptionFault;
use shared_endpoint::{Hand, Scout, Shared, Witness};
use std::alloc::Global;
use std::marker::{Model, PhantomData};
use std::mem::replace;
use std::snapshot::Snapshot;
use stomp_client::ClientFault;
use stomp_frame::Frame;
use stomp_wire::Link;

/// Why a connection is cut on which other answers were written than it owes: the broker redelivers what wasn't answered.
fn miscounted() -> Cut {
    Cut::Reception(ReceptionFault::Client(ClientFault::Unexpected))
}

/// The place of a connection, and a witness of what its frames were allowed by. Contracts see whether the connection is
/// there, and the link that it began with, until it's noted (`Past::note`): no other call changes that link. A place can't be
/// dropped: whoever is done with one closes it, where its connection was noted. So no connection of a place is forgotten.
pub struct Line<N, L, H, K>
where
    N: Naming<K, L>,
    L: Link + Drop,
    H: Handler,
    K: Keep<State = H::State, Command = H::Command> + Drop,
{
    conn: Option<Conn<L>>,
    // The connection as it was when it was cut, for contracts alone.
    was: Snapshot<Option<Conn<L>>>,
    witness: Witness<H, K>,
    // What came was thrown away: MESSAGEs may be among it that nobody answers.
    is_leaving: bool,
    of: PhantomData<N>,
}

impl<N, L, H, K> Model for Line<N, L, H, K>
where
    N: Naming<K, L>,
    L: Link + Drop,
    H: Handler,
    K: Keep<State = H::State, Command = H::Command> + Drop,
{
    ghost Value = { Standing L };

    ghost view = { λ l. record { is_there = is_some l.conn; link = began_with (or_was l.conn l.was.value) } };

    ghost invariant = { λ l. IsWitnessAt N.lock l.witness
        × IsGiven N.given (or_was l.conn l.was.value)
        × (N.sound → HasSpokenIf L.put_gives L.take_gives K.seen H.service (shown_witness l.witness)
        (or_was l.conn l.was.value))
        × (N.sound → IsReadIf L.put_gives L.take_gives l.conn)
        × (N.sound → l.is_leaving ≡ false → OwesIf L.put_gives L.take_gives 0 l.conn) };
}

impl<N, L, H, K> Line<N, L, H, K>
where
    N: Naming<K, L>,
    L: Link + Drop,
    H: Handler,
    K: Keep<State = H::State, Command = H::Command> + Drop,
{
    /// A connection, if there is one, with a witness of what was written on it.
    pub(crate) fn new(conn: Option<Conn<L>>, witness: Witness<H, K>) -> Line<N, L, H, K>
        requires at { IsWitnessAt N.lock witness }
        requires given { IsGiven N.given conn }
        requires spoken { N.sound → HasSpokenIf L.put_gives L.take_gives K.seen H.service (shown_witness witness) conn }
        requires read { N.sound → IsReadIf L.put_gives L.take_gives conn }
        requires owes { N.sound → OwesIf L.put_gives L.take_gives 0 conn }
        ensures there { result.is_there ≡ is_some conn }
        ensures link { result.link ≡ began_with conn }
    {
        let was = Snapshot::of(&conn);
        Line {
            conn,
            was,
            witness,
            is_leaving: false,
            of: PhantomData,
        }
    }

    /// A place with no connection.
    pub fn none(shared: &Shared<H, K>, hand: &mut Hand<H, K>) -> Line<N, L, H, K>
        requires at { name_of shared.now ≡ N.lock }
        requires hand { IsHandOf shared.now hand.old }
        ensures hand { IsHandOf shared.now hand.new }
        ensures knows { told_hand hand.new ≡ told_hand hand.old }
        ensures there { result.is_there ≡ false }
        ensures link { result.link ≡ None }
    {
        let witness = hand.witness(shared);
        Line::new(None, witness)
    }

    /// Puts a new connection over a link here, on which this CONNECT waits to be written. Where a prefetch is given, the
    /// broker is asked to deliver so many messages at most that aren't answered. The last connection has to be noted.
    ///
    /// # Errors
    /// If an allocation fails, the link is returned, and nothing has changed.
    pub fn open_by(
        &mut self,
        alloc: Global,
        link: L,
        connect: &Frame<MAX_BODY>,
        prefetch: Option<u64>,
    ) -> Result<(), L>
        requires noted { self.old.link ≡ None }
        requires command { connect.now.command ≡ Connect }
        requires given { N.given link }
        ensures ok { IfOk result (λ _. self.new ≡ record { is_there = true; link = Some link }) }
        ensures err { IfErr result (λ back. (back ≡ link) × (self.new ≡ self.old)) }
    {
        match Conn::open_by(alloc, link, connect, prefetch) {
            Ok(conn) => {
                self.conn = Some(conn);
                self.is_leaving = false;
                Ok(())
            }
            Err(link) => Err(link),
        }
    }

    /// Whether the connection is there.
    pub fn is_there(&self) -> bool
        ensures { result ≡ self.now.is_there }
    {
        self.conn.is_some()
    }

    /// Whether octets came since this was asked last. None where the connection isn't there.
    pub fn has_come(&mut self) -> bool
        ensures link { self.new.link ≡ self.old.link }
    {
        let Some(conn) = &mut self.conn else {
            return false;
        };
        conn.has_come()
    }

    /// Takes leave of the broker, as `Conn::leave`. None where the connection isn't there, or can't.
    pub fn leave(&mut self) -> Option<u64>
        ensures link { self.new.link ≡ self.old.link }
    {
        let Some(conn) = &mut self.conn else {
            return None;
        };
        conn.leave().ok()
    }

    /// Writes what waits, reads what came, and throws it away. Whether there is nothing more to wait for: then it's cut. No
    /// run reads or writes on the connection after that: it begins with cutting it.
    pub fn has_left(&mut self, alloc: Global, receipt: u64) -> bool
        ensures link { self.new.link ≡ self.old.link }
    {
        // Before anything is read: MESSAGEs that are thrown away stay unanswered.
        self.is_leaving = true;
        let Some(conn) = &mut self.conn else {
            return true;
        };
        if conn.has_left(alloc, receipt) {
            note_and_drop(&mut self.conn, &mut self.was);
            return true;
        }
        false
    }

    /// The connection is no more.
    pub(crate) fn cut(&mut self)
        ensures there { self.new.is_there ≡ false }
        ensures link { self.new.link ≡ self.old.link }
    {
        // Not twice: the second time there is no connection, and `was` would lose what the first one noted.
        if self.conn.is_some() {
            self.was = Snapshot::of(&self.conn);
            self.conn = None;
        }
    }

    /// Whether letters can be sent on it.
    pub fn is_connected(&self) -> bool {
        match &self.conn {
            Some(conn) => conn.is_connected(),
            None => false,
        }
    }

    /// The connection as it is, or as it was when it was cut, for contracts alone, with a witness. The connection is dropped,
    /// and its place is as if there had been none.
    pub(crate) fn take_last(
        &mut self,
        shared: &Shared<H, K>,
        hand: &Hand<H, K>,
    ) -> (Snapshot<Option<Conn<L>>>, Witness<H, K>)
        requires at { name_of shared.now ≡ N.lock }
        requires hand { IsHandOf shared.now hand.now }
        ensures empty { self.new ≡ record { is_there = false; link = None } }
        ensures at { IsWitnessOf shared.now result.1 }
        ensures link { began_with result.0.value ≡ self.old.link }
        ensures spoken { N.sound → HasSpokenIf L.put_gives L.take_gives K.seen H.service (shown_witness result.1)
            result.0.value }
    {
        // A second witness: the place keeps one of its own for the next connection.
        let witness = self.witness.again(shared);
        let is_there = self.conn.is_some();
        if is_there {
            let last = Snapshot::of(&self.conn);
            self.conn = None;
            let none = Snapshot::of(&self.conn);
            self.was = none;
            (last, witness)
        } else {
            let none = Snapshot::of(&self.conn);
            (replace(&mut self.was, none), witness)
        }
    }

    /// Is done with a place whose last connection was noted.
    pub fn close(self)
        requires { self.link ≡ None }
    {
        let Line {
            conn: _conn,
            was: _,
            witness: _witness,
            is_leaving: _,
            of: _,
        } = self;
    }

    /// What is left of the connection. One that was leaving is cut. The Hand learns the witness.
    pub(crate) fn end(self, shared: &Shared<H, K>, hand: &mut Hand<H, K>) -> Ended<L>
        requires at { name_of shared.now ≡ N.lock }
        requires hand { IsHandOf shared.now hand.old }
        ensures hand { IsHandOf shared.now hand.new }
        ensures knows { told_hand hand.new ≡ told_hand hand.old }
        ensures conn { self.is_there ≡ false → is_some result.conn ≡ false }
        ensures link { began_with (or_was result.conn result.was.value) ≡ self.link }
        ensures given { IsGiven N.given (or_was result.conn result.was.value) }
        ensures shown { IsPrefixOf (shown_hand hand.old) (shown_hand hand.new) }
        ensures spoken { N.sound → HasSpokenIf L.put_gives L.take_gives K.seen H.service (shown_hand hand.new)
            (or_was result.conn result.was.value) }
        ensures read { N.sound → IsReadIf L.put_gives L.take_gives result.conn }
        ensures owes { N.sound → OwesIf L.put_gives L.take_gives 0 result.conn }
    {
        let Line {
            conn,
            was,
            witness,
            is_leaving,
            of: _,
        } = self;
        let (conn, was) = cut_where(is_leaving, conn, was);
        // What was written has to be true of what the Hand sees later: so the Hand learns what allowed it.
        hand.learn(shared, witness);
        Ended { conn, was }
    }
}

/// The place of a connection during a run, with the number of the connection, 0 or 1: by that what came on it is answered on it.
/// Contracts see the number, and whether the connection is there.
pub(crate) struct RunLine<N, M, L, H, K>
where
    N: Naming<K, L>,
    M: RunNaming<L>,
    L: Link + Drop,
    H: Handler,
    K: Keep<State = H::State, Command = H::Command> + Drop,
{
    conn: Option<Conn<L>>,
    // The connection as it was when it was cut, for contracts alone.
    was: Snapshot<Option<Conn<L>>>,
    witness: Witness<H, K>,
    number: u8,
    // How many of the MESSAGEs that were taken off it aren't answered: a connection that still owes one when the run ends is
    // cut, and the broker redelivers it. So no MESSAGE is lost that a thread has dropped.
    owed: u64,
    of: PhantomData<(N, M)>,
}

impl<N, M, L, H, K> Model for RunLine<N, M, L, H, K>
where
    N: Naming<K, L>,
    M: RunNaming<L>,
    L: Link + Drop,
    H: Handler,
    K: Keep<State = H::State, Command = H::Command> + Drop,
{
    ghost Value = { RunStanding };

    ghost view = { λ l. record { number = l.number; is_there = is_some l.conn } };

    ghost invariant = { λ l. IsWitnessAt N.lock l.witness
        × IsGiven N.given (or_was l.conn l.was.value)
        × (N.sound → HasSpokenIf L.put_gives L.take_gives K.seen H.service (shown_witness l.witness)
        (or_was l.conn l.was.value))
        × (N.sound → IsReadIf L.put_gives L.take_gives l.conn)
        × (N.sound → OwesIf L.put_gives L.take_gives l.owed l.conn)
        × (M.begun l.number ≡ began_with (or_was l.conn l.was.value)) };
}

impl<N, M, L, H, K> RunLine<N, M, L, H, K>
where
    N: Naming<K, L>,
    M: RunNaming<L>,
    L: Link + Drop,
    H: Handler,
    K: Keep<State = H::State, Command = H::Command> + Drop,
{
    /// The place of a connection, which has this number in the run. One that was leaving is cut.
    pub(crate) fn of_line(number: u8, line: Line<N, L, H, K>) -> RunLine<N, M, L, H, K>
        requires begun { M.begun number ≡ line.link }
        ensures number { result.number ≡ number }
    {
        let Line {
            conn,
            was,
            witness,
            is_leaving,
            of: _,
        } = line;
        let (conn, was) = cut_where(is_leaving, conn, was);
        RunLine {
            conn,
            was,
            witness,
            number,
            owed: 0,
            of: PhantomData,
        }
    }

    /// The place, once the run is over. A connection on which a MESSAGE wasn't answered is cut.
    pub(crate) fn into_line(self) -> Line<N, L, H, K>
        ensures there { self.is_there ≡ false → result.is_there ≡ false }
        ensures link { result.link ≡ M.begun self.number }
    {
        let RunLine {
            conn,
            was,
            witness,
            number: _,
            owed,
            of: _,
        } = self;
        let (conn, was) = cut_where(owed != 0, conn, was);
        Line {
            conn,
            was,
            witness,
            is_leaving: false,
            of: PhantomData,
        }
    }

    /// The number of the connection.
    pub(crate) fn number(&self) -> u8
        ensures { result ≡ self.now.number }
    {
        self.number
    }

    /// Whether letters can be sent on it.
    pub(crate) fn is_connected(&self) -> bool {
        match &self.conn {
            Some(conn) => conn.is_connected(),
            None => false,
        }
    }

    /// Writes what waits, if the connection is there.
    pub(crate) fn write(&mut self) -> Result<(), Cut>
        ensures number { self.new.number ≡ self.old.number }
    {
        let Some(conn) = &mut self.conn else {
            return Ok(());
        };
        conn.write()
    }

    /// Reads what came: whether something did. An error without a cause where the connection isn't there. At any other it's
    /// cut at once: octets may be lost, and what is read after them isn't what was sent.
    pub(crate) fn read(&mut self, alloc: Global) -> Result<bool, Option<Cut>>
        ensures number { self.new.number ≡ self.old.number }
    {
        let Some(conn) = &mut self.conn else {
            return Err(None);
        };
        match conn.read(alloc) {
            Ok(count) => Ok(count > 0),
            Err(cut) => {
                note_and_drop(&mut self.conn, &mut self.was);
                Err(Some(cut))
            }
        }
    }

    /// The next frame that came, if the connection is there. A MESSAGE is owed an answer from then on. A connection that is of
    /// no more use is cut at once: frames may be lost that nobody answers.
    pub(crate) fn next(&mut self, alloc: Global) -> Found
        ensures message { IfFound (λ f. f.command ≡ Message) result }
        ensures came { N.sound → IfFound (CameOver L.put_gives L.take_gives N.given (M.begun self.old.number)) result }
        ensures number { self.new.number ≡ self.old.number }
    {
        let Some(conn) = &mut self.conn else {
            return Found::Nothing;
        };
        // Never so: each of them takes memory.
        if self.owed == u64::MAX {
            return Found::Nothing;
        }
        let found = conn.next(alloc, H::kind());
        self.owed += found.owed();
        if found.is_over() {
            note_and_drop(&mut self.conn, &mut self.was);
        }
        found
    }

    /// Keeps a MESSAGE that `next` gave, if the connection is there: it isn't owed an answer until it's given again. The number
    /// is that of the MESSAGE's connection.
    ///
    /// # Errors
    /// The connection is cut where the MESSAGE came on another, or another frame waits, or none is owed: that is never so.
    pub(crate) fn keep(&mut self, number: u8, frame: Frame<MAX_BODY>) -> Result<(), Cut>
        requires message { frame.command ≡ Message }
        requires came { N.sound → CameFrom L.put_gives L.take_gives (M.begun number) frame }
        ensures number { self.new.number ≡ self.old.number }
    {
        let Some(conn) = &mut self.conn else {
            return Ok(());
        };
        if number != self.number || conn.has_next() || self.owed == 0 {
            note_and_drop(&mut self.conn, &mut self.was);
            return Err(miscounted());
        }
        conn.keep(frame);
        self.owed -= 1;
        Ok(())
    }

    /// So many of its letters to receivers of a kind aren't settled.
    pub(crate) fn counted(&mut self, kind: Kind, on_way: usize)
        ensures number { self.new.number ≡ self.old.number }
    {
        let Some(conn) = &mut self.conn else {
            return;
        };
        conn.counted(kind, on_way);
    }

    /// Sends of these letters to receivers of a kind what wasn't sent on the connection, and answers how many of all were, now
    /// or before. None where the connection isn't there.
    pub(crate) fn send(
        &mut self,
        shared: &Shared<H, K>,
        scout: &mut Scout<H, K>,
        kind: Kind,
        letters: &[Letter],
    ) -> Result<Option<usize>, Cut>
        requires at { name_of shared.now ≡ N.lock }
        requires scout { IsScoutOf shared.now scout.old }
        requires told { Knows K.seen H.service N.sound (AreSentIn H.service.reactions letters.now) (told_scout scout.old) }
        ensures scout { IsScoutOf shared.now scout.new }
        ensures knows { told_scout scout.new ≡ told_scout scout.old }
        ensures number { self.new.number ≡ self.old.number }
    {
        let Some(conn) = &mut self.conn else {
            return Ok(None);
        };
        // The witness first: the letters below are of the journal that the Scout has seen.
        let witness = scout.witness(shared);
        self.witness.learn(shared, witness);
        match conn.send(kind, letters) {
            Ok(sent) => Ok(Some(sent)),
            Err(cut) => Err(cut),
        }
    }

    /// Writes the answer to a MESSAGE that came on the connection, and returns why it wasn't taken, where that is the answer:
    /// then it owes one answer less. One that came on another connection isn't answered here, as where its own isn't there any
    /// more. If the connection is of no more use, as after a failure of the store, it's cut at once: nothing more is written on
    /// it. So it is where it owes no answer, which is never so.
    pub(crate) fn reply(
        &mut self,
        alloc: Global,
        shared: &Shared<H, K>,
        hand: &mut Hand<H, K>,
        read: Read<'_>,
        answer: Answer,
    ) -> Result<Option<ReceptionFault>, Cut>
        requires at { name_of shared.now ≡ N.lock }
        requires hand { IsHandOf shared.now hand.old }
        requires came { N.sound → CameFrom L.put_gives L.take_gives (M.begun read.number) read.message }
        requires message { read.message.command ≡ Message }
        requires carries { IfSome read.envelope (λ e. CarriedIn read.message e.now) }
        requires told { Knows K.seen H.service N.sound (AnsweredTo H.service read.message answer) (told_hand hand.old) }
        ensures hand { IsHandOf shared.now hand.new }
        ensures knows { told_hand hand.new ≡ told_hand hand.old }
        ensures cut { IfErr result (λ _. self.new.is_there ≡ false) }
        ensures number { self.new.number ≡ self.old.number }
    {
        // On another connection the MESSAGE's `ack` would name another delivery, or none.
        if read.number != self.number {
            return Ok(None);
        }
        let Some(conn) = &mut self.conn else {
            return Ok(None);
        };
        if self.owed == 0 {
            self.cut();
            return Err(miscounted());
        }
        // The witness first: the answer below speaks of what the Hand has seen.
        let witness = hand.witness(shared);
        self.witness.learn(shared, witness);
        match finish(alloc, conn, H::kind(), read, answer) {
            Ok(_) => {
                self.owed -= 1;
                Ok(None)
            }
            Err(fault) if goes_on(fault) => {
                self.owed -= 1;
                Ok(Some(fault))
            }
            // The letter may be handled already: the redelivered one is answered like any duplicate. The connection is dropped
            // here, and not by `cut`: a NACK may have been appended, which isn't counted.
            Err(fault) => {
                note_and_drop(&mut self.conn, &mut self.was);
                Err(Cut::Reception(fault))
            }
        }
    }

    /// Writes what waits where that is much, if the connection is there.
    pub(crate) fn write_much(&mut self) -> Result<(), Cut>
        ensures number { self.new.number ≡ self.old.number }
    {
        let Some(conn) = &mut self.conn else {
            return Ok(());
        };
        conn.write_much()
    }

    /// The connection is no more. Whether it was there.
    pub(crate) fn cut(&mut self) -> bool
        ensures was { result ≡ self.old.is_there }
        ensures cut { self.new ≡ record { number = self.old.number; is_there = false } }
    {
        if self.conn.is_none() {
            return false;
        }
        self.was = Snapshot::of(&self.conn);
        self.conn = None;
        true
    }
}
