//! A client's session.

ghost use Rattle.std.specs.Prelude.{◌≡◌, ℕ, List, ◌≤◌, ◌<◌, ◌-◌, ◌^◌, ◌+◌, ◌++◌, ◌∷◌, [], false, Ok, Err, None, length};
ghost use Rattle.std.specs.Prelude.{take};
ghost use Rattle.std.specs.Prelude.{OnOk, OnErr, IsOk, IsOkUnless, IfOk, IfErr};
ghost use Rattle.std.specs.String.{string_bytes};
ghost use Rattle.base.specs.declared.limits.TheConstants.{MAX_BODY};
ghost use Rattle.stomp_frame.specs.declared.command.Command.TheVariants.{Connect, Begin, Commit, Abort, Ack, Nack};
ghost use Rattle.stomp_frame.specs.declared.command.Command.TheVariants.{Connected, Message, Receipt, Error};
ghost use Rattle.stomp_frame.specs.Frames.{Content, IsFrame, value_of};
ghost use Rattle.stomp_frame.specs.Streams.{AreFrames, canonical_texts};
ghost use Rattle.stomp_client.specs.declared.fault.ClientFault.TheVariants.{Memory, Unexpected};
ghost use Rattle.stomp_client.specs.Frames.{IsShort, IsPlain, connect_frame, subscribe_frame, disconnect_frame};
ghost use Rattle.stomp_client.specs.Frames.{subscribe_frame_with};
ghost use Rattle.stomp_client.specs.Frames.{transaction_frame};
ghost use Rattle.stomp_client.specs.Frames.{in_transaction, answer_frame, with_receipt, text_or_empty};
ghost use Rattle.stomp_client.specs.Delivered.{IsDelivered, is_whole};
ghost use Rattle.stomp_client.specs.Clients.{new_client, written, counting, appended, without_first, closing};
ghost use Rattle.stomp_client.specs.Written.{Wrote, Adds, AreWhole, frames_if};
ghost use Rattle.stomp_client.specs.Calls.{unready, unconnectable, or_used, Refuses, WritesFrame, Connects, ConnectsBy};
ghost use Rattle.stomp_client.specs.Calls.{SendsWithReceipt, Begins, Disconnects, DisconnectsWithReceipt};
ghost use Rattle.stomp_client.specs.Accepting.{Accepts, is_closed, receipt_number};

use crate::frames::{
    answer_frame, connect_frame, disconnect_frame_with, in_transaction, subscribe_frame,
    subscribe_frame_with, transaction_frame, with_number,
};
use crate::{ClientEvent, ClientFault};
use base::limits::MAX_BODY;
use receipts::Receipts;
use std::alloc::{AllocError, Global};
use std::marker::Model;
use stomp_frame::{Command, Frame, Header};
use stomp_session::Outgoing;
use text::read_number;

/// How far a session is.
#[derive(Clone, Copy, Debug, PartialEq, Eq)]
pub enum Stage {
    /// Nothing was written.
    Fresh,
    /// CONNECT was written, and CONNECTED didn't come yet.
    Connecting,
    /// CONNECTED came.
    Connected,
    /// An ERROR came or a frame that no server may send, or DISCONNECT was written.
    Closed,
}

/// A client's session: contracts see its stage, the octets still to be sent, its receipts by number with a tag each,
/// the last number of a transaction, and how many more octets can be appended without memory.
#[derive(Drop)]
pub struct ClientSession<T: Drop> {
    alloc: Global,
    stage: Stage,
    out: Outgoing,
    receipts: Receipts<T>,
    // The last number alone: which transactions are open is for the caller to know.
    transactions: u64,
}

impl<T: Drop> Model for ClientSession<T> {
    ghost use Rattle.stomp_client.specs.Clients.{ClientWithRoom};

    ghost Value = { ClientWithRoom T };

    ghost view = { λ s. record {
      client = record { stage = s.stage; out = s.out.octets; receipts = s.receipts; transactions = s.transactions };
      room = s.out.room;
    } };
}

impl<T: Drop> ClientSession<T> {
    /// A session in which nothing was written. It allocates nothing.
    pub fn new(alloc: Global) -> ClientSession<T>
        ensures { result.client ≡ new_client }
    {
        ClientSession {
            alloc,
            stage: Stage::Fresh,
            out: Outgoing::new(alloc),
            receipts: Receipts::new(alloc),
            transactions: 0,
        }
    }

    /// How far it is.
    pub fn stage(&self) -> Stage
        ensures { result ≡ self.now.client.stage }
    {
        self.stage
    }

    /// The octets still to be sent.
    pub fn out(&self) -> &[u8]
        ensures { result.now ≡ self.now.client.out }
    {
        self.out.as_slice()
    }

    /// Takes the first octets away, which were sent. It allocates nothing.
    pub fn taken(&mut self, count: usize)
        requires { count ≤ length self.old.client.out }
        ensures taken { self.new.client ≡ without_first count self.old.client }
        ensures wrote { (frames : List Content) (gone : List ℕ) → Wrote frames gone self.old.client.out
            → Wrote frames (gone ++ take count self.old.client.out) self.new.client.out }
        ensures room { self.old.room ≤ self.new.room }
    {
        self.out.taken(count);
    }

    /// The last receipt number given, and 0 where none was.
    pub fn receipts(&self) -> u64
        ensures { result ≡ self.now.client.receipts.last }
    {
        self.receipts.last()
    }

    /// The last number of a transaction, and 0 where none was begun.
    pub fn transactions(&self) -> u64
        ensures { result ≡ self.now.client.transactions }
    {
        self.transactions
    }

    /// Counts the next transaction, whose BEGIN is written by `append`. It allocates nothing.
    pub fn count_transaction(&mut self)
        requires { self.old.client.transactions < 2 ^ 64 - 1 }
        ensures counted { self.new.client ≡ counting self.old.client }
        ensures room { self.new.room ≡ self.old.room }
    {
        // Below the last number: the caller has tested that.
        self.transactions += 1;
    }

    /// Makes room for so many more octets: `append` allocates nothing then.
    ///
    /// # Errors
    /// `Memory` if an allocation fails.
    pub fn room(&mut self, octets: usize) -> Result<(), ClientFault>
        ensures room { OnOk result (octets ≤ self.new.room) }
        ensures kept { self.old.room ≤ self.new.room }
        ensures same { self.new.client ≡ self.old.client }
        ensures fault { IsOkUnless result Memory }
        ensures within { octets ≤ self.old.room → IsOk result }
    {
        self.out.reserve(octets)?;
        Ok(())
    }

    /// Appends frames whose canonical texts were made before, all or none. Within the room that was asked for it
    /// allocates nothing.
    ///
    /// # Errors
    /// `Memory` if an allocation fails, and then nothing was appended.
    pub fn append(&mut self, octets: &[u8]) -> Result<(), ClientFault>
        requires { AreWhole octets.now }
        ensures ok { OnOk result (self.new.client ≡ appended octets.now self.old.client) }
        ensures err { OnErr result (self.new.client ≡ self.old.client) }
        ensures fault { IsOkUnless result Memory }
        ensures within { length octets.now ≤ self.old.room → IsOk result }
        ensures room { self.old.room ≤ self.new.room + length octets.now }
        ensures wrote { (more : List Content) → AreFrames MAX_BODY more → octets.now ≡ canonical_texts more
            → Adds (frames_if result more) self.old.client.out self.new.client.out }
    {
        self.out.append(octets)?;
        Ok(())
    }

    /// Writes a frame, or changes nothing.
    fn write(&mut self, frame: &Frame<MAX_BODY>) -> Result<(), AllocError>
        ensures ok { OnOk result (self.new.client ≡ written frame.now self.old.client) }
        ensures err { OnErr result (self.new.client ≡ self.old.client) }
        ensures frame { IsFrame MAX_BODY frame.now }
        ensures wrote { Adds (frames_if result (frame.now ∷ [])) self.old.client.out self.new.client.out }
    {
        frame.holds();
        self.out.write(frame)
    }

    /// Tells why no frame but CONNECT may be written now.
    fn ready(&self) -> Result<(), ClientFault>
        ensures ok { OnOk result (unready self.now.client.stage ≡ None) }
        ensures err { IfErr result (λ fault. Refuses (unready self.now.client.stage) self.now.client self.now.client
            fault) }
    {
        match self.stage {
            Stage::Connected => Ok(()),
            Stage::Closed => Err(ClientFault::Closed),
            _ => Err(ClientFault::NotConnected),
        }
    }

    /// The number after the last one, or why no frame may be written with it now.
    fn next(&self, last: u64) -> Result<u64, ClientFault>
        ensures ok { IfOk result (λ n. (or_used last (unready self.now.client.stage) ≡ None) × (n ≡ last + 1)
            × (n < 2 ^ 64)) }
        ensures err { IfErr result (λ fault. Refuses (or_used last (unready self.now.client.stage)) self.now.client
            self.now.client fault) }
    {
        match self.stage {
            Stage::Connected => {
                if last == u64::MAX {
                    return Err(ClientFault::NumbersUsed);
                }
                Ok(last + 1)
            }
            Stage::Closed => Err(ClientFault::Closed),
            _ => Err(ClientFault::NotConnected),
        }
    }

    /// Tells why no CONNECT may be written now.
    fn may_connect(&self) -> Result<(), ClientFault>
        ensures ok { OnOk result (unconnectable self.now.client.stage ≡ None) }
        ensures err { IfErr result (λ fault. Refuses (unconnectable self.now.client.stage) self.now.client
            self.now.client fault) }
    {
        match self.stage {
            Stage::Fresh => Ok(()),
            Stage::Closed => Err(ClientFault::Closed),
            _ => Err(ClientFault::AlreadyConnected),
        }
    }

    /// Writes CONNECT to the host `outbox`, with no login.
    ///
    /// # Errors
    /// `Closed` after the end of the session, else `AlreadyConnected` where CONNECT was written, else `Memory`. Nothing
    /// has changed then.
    pub fn connect(&mut self) -> Result<(), ClientFault>
        ensures does { Connects self.old.client self.new.client result }
        ensures wrote { Adds (frames_if result (connect_frame ∷ [])) self.old.client.out self.new.client.out }
    {
        // Tested before the frame is made, so that out of memory never hides the stage; `connect_by` tests it again.
        self.may_connect()?;
        let frame = connect_frame(self.alloc)?;
        self.connect_by(&frame)
    }

    /// Writes this CONNECT, as for another host, or with a login.
    ///
    /// # Errors
    /// As those of `connect`.
    pub fn connect_by(&mut self, frame: &Frame<MAX_BODY>) -> Result<(), ClientFault>
        requires { frame.now.command ≡ Connect }
        ensures does { ConnectsBy frame.now self.old.client self.new.client result }
        ensures wrote { Adds (frames_if result (frame.now ∷ [])) self.old.client.out self.new.client.out }
    {
        self.may_connect()?;
        self.write(frame)?;
        // Only once it's written: without memory for it CONNECT can be tried again.
        self.stage = Stage::Connecting;
        Ok(())
    }

    /// Writes SUBSCRIBE to a destination.
    ///
    /// # Errors
    /// `NotConnected` before CONNECTED and `Closed` after the end of the session, else `Memory`. Nothing has changed
    /// then. The same holds of every call below that writes.
    pub fn subscribe(&mut self, destination: &str) -> Result<(), ClientFault>
        requires { IsShort destination.now }
        ensures does { WritesFrame (subscribe_frame destination.now) self.old.client self.new.client result }
        ensures wrote { Adds (frames_if result (subscribe_frame destination.now ∷ [])) self.old.client.out
            self.new.client.out }
    {
        // The stage first, here and below: out of memory never hides that the session has ended.
        self.ready()?;
        let frame = subscribe_frame(self.alloc, destination)?;
        self.write(&frame)?;
        Ok(())
    }

    /// Writes SUBSCRIBE to a destination, and asks the broker to deliver so many messages at most that aren't answered.
    pub fn subscribe_with(&mut self, destination: &str, prefetch: u64) -> Result<(), ClientFault>
        requires { IsShort destination.now }
        ensures does { WritesFrame (subscribe_frame_with destination.now prefetch) self.old.client self.new.client result }
        ensures wrote { Adds (frames_if result (subscribe_frame_with destination.now prefetch ∷ [])) self.old.client.out
            self.new.client.out }
    {
        self.ready()?;
        let frame = subscribe_frame_with(self.alloc, destination, prefetch)?;
        self.write(&frame)?;
        Ok(())
    }

    /// Writes a SEND, in a transaction where one is given.
    pub fn send(
        &mut self,
        message: Frame<MAX_BODY>,
        transaction: Option<u64>,
    ) -> Result<(), ClientFault>
        requires { IsPlain message }
        ensures does { WritesFrame (in_transaction transaction message) self.old.client self.new.client result }
        ensures wrote { Adds (frames_if result (in_transaction transaction message ∷ [])) self.old.client.out
            self.new.client.out }
    {
        self.ready()?;
        let frame = in_transaction(message, transaction)?;
        self.write(&frame)?;
        Ok(())
    }

    /// Writes a SEND with the next receipt number, 1, 2, .., which is answered: a RECEIPT of that number gives the tag
    /// back.
    ///
    /// # Errors
    /// Besides those of `subscribe`, and before `Memory`: `NumbersUsed` where the last number is 2^64 - 1.
    pub fn send_with_receipt(
        &mut self,
        message: Frame<MAX_BODY>,
        tag: T,
    ) -> Result<u64, ClientFault>
        requires { IsPlain message }
        ensures does { SendsWithReceipt message tag self.old.client self.new.client result }
        ensures wrote { Adds (frames_if result (with_receipt (self.old.client.receipts.last + 1) message ∷ []))
            self.old.client.out self.new.client.out }
    {
        let number = self.next(self.receipts.last())?;
        // The SEND is written before its number is opened: octets can be taken back, and a number is given once.
        let frame = with_number(message, "receipt", number)?;
        let before = self.out.as_slice().len();
        self.write(&frame)?;
        match self.receipts.open(tag) {
            Ok(number) => Ok(number),
            Err(_) => {
                // Taken back: the RECEIPT of a number that isn't open would close the session.
                self.out.truncate(before);
                Err(ClientFault::Memory)
            }
        }
    }

    /// Writes BEGIN of the next transaction, and answers its number: 1, 2, ..
    ///
    /// # Errors
    /// Besides those of `subscribe`, and before `Memory`: `NumbersUsed` where the last number is 2^64 - 1.
    pub fn begin(&mut self) -> Result<u64, ClientFault>
        ensures does { Begins self.old.client self.new.client result }
        ensures wrote { Adds (frames_if result (transaction_frame Begin (self.old.client.transactions + 1) ∷ []))
            self.old.client.out self.new.client.out }
    {
        let number = self.next(self.transactions)?;
        let frame = transaction_frame(self.alloc, Command::Begin, number)?;
        self.write(&frame)?;
        // Counted only once its BEGIN is written.
        self.transactions = number;
        Ok(number)
    }

    /// Writes COMMIT of a transaction.
    pub fn commit(&mut self, transaction: u64) -> Result<(), ClientFault>
        ensures does { WritesFrame (transaction_frame Commit transaction) self.old.client self.new.client result }
        ensures wrote { Adds (frames_if result (transaction_frame Commit transaction ∷ [])) self.old.client.out
            self.new.client.out }
    {
        self.ready()?;
        let frame = transaction_frame(self.alloc, Command::Commit, transaction)?;
        self.write(&frame)?;
        Ok(())
    }

    /// Writes ABORT of a transaction.
    pub fn abort(&mut self, transaction: u64) -> Result<(), ClientFault>
        ensures does { WritesFrame (transaction_frame Abort transaction) self.old.client self.new.client result }
        ensures wrote { Adds (frames_if result (transaction_frame Abort transaction ∷ [])) self.old.client.out
            self.new.client.out }
    {
        self.ready()?;
        let frame = transaction_frame(self.alloc, Command::Abort, transaction)?;
        self.write(&frame)?;
        Ok(())
    }

    /// Writes ACK of a MESSAGE that was accepted, in a transaction where one is given: it was handled.
    pub fn ack(
        &mut self,
        message: &Frame<MAX_BODY>,
        transaction: Option<u64>,
    ) -> Result<(), ClientFault>
        requires { IsDelivered message.now }
        ensures does { WritesFrame (answer_frame Ack message.now transaction) self.old.client self.new.client result }
        ensures wrote { Adds (frames_if result (answer_frame Ack message.now transaction ∷ [])) self.old.client.out
            self.new.client.out }
    {
        self.ready()?;
        let frame = answer_frame(self.alloc, Command::Ack, message, transaction)?;
        self.write(&frame)?;
        Ok(())
    }

    /// Writes NACK of a MESSAGE that was accepted, in a transaction where one is given: it wasn't handled.
    pub fn nack(
        &mut self,
        message: &Frame<MAX_BODY>,
        transaction: Option<u64>,
    ) -> Result<(), ClientFault>
        requires { IsDelivered message.now }
        ensures does { WritesFrame (answer_frame Nack message.now transaction) self.old.client self.new.client result }
        ensures wrote { Adds (frames_if result (answer_frame Nack message.now transaction ∷ [])) self.old.client.out
            self.new.client.out }
    {
        self.ready()?;
        let frame = answer_frame(self.alloc, Command::Nack, message, transaction)?;
        self.write(&frame)?;
        Ok(())
    }

    /// Writes DISCONNECT, and closes the session.
    pub fn disconnect(&mut self) -> Result<(), ClientFault>
        ensures does { Disconnects self.old.client self.new.client result }
        ensures wrote { Adds (frames_if result (disconnect_frame ∷ [])) self.old.client.out self.new.client.out }
    {
        self.ready()?;
        let frame = Frame::new(self.alloc, Command::Disconnect);
        self.write(&frame)?;
        // Closed only once DISCONNECT is written: if that fails, the session is as it was.
        self.stage = Stage::Closed;
        Ok(())
    }

    /// Writes DISCONNECT with the next receipt number, which is answered, and closes the session: the server's RECEIPT,
    /// after which it closes the connection, isn't for `accept`.
    ///
    /// # Errors
    /// Besides those of `subscribe`, and before `Memory`: `NumbersUsed` where the last number is 2^64 - 1.
    pub fn disconnect_with_receipt(&mut self) -> Result<u64, ClientFault>
        ensures does { DisconnectsWithReceipt self.old.client self.new.client result }
        ensures wrote { Adds (frames_if result (with_receipt (self.old.client.receipts.last + 1) disconnect_frame ∷ []))
            self.old.client.out self.new.client.out }
    {
        let last = self.receipts.last();
        let number = self.next(last)?;
        let frame = disconnect_frame_with(self.alloc, number)?;
        self.write(&frame)?;
        // Its number isn't opened, as no RECEIPT is accepted any more.
        self.stage = Stage::Closed;
        Ok(number)
    }

    /// What a server's frame says. After an ERROR the session is closed. It allocates nothing.
    ///
    /// # Errors
    /// - `Closed` where the session is closed.
    /// - `Unexpected` where no server may send the frame now, and then the session is closed: a client's command;
    ///   CONNECTED but for the one that answers CONNECT; before CONNECTED any other but ERROR; a RECEIPT whose number
    ///   isn't open; a MESSAGE without `destination`, `message-id`, `subscription` or `ack`.
    pub fn accept(&mut self, frame: Frame<MAX_BODY>) -> Result<ClientEvent<T>, ClientFault>
        ensures accepts { Accepts frame self.old.client self.new.client result }
        ensures room { self.new.room ≡ self.old.room }
    {
        // After the end no frame counts, not even one that would have been right before.
        if self.stage == Stage::Closed {
            return Err(ClientFault::Closed);
        }
        match frame.command() {
            Command::Connected => self.accept_connected(frame),
            Command::Message => self.accept_message(frame),
            Command::Receipt => self.accept_receipt(frame),
            // In any stage that isn't closed: a server also refuses CONNECT by an ERROR.
            Command::Error => Ok(self.accept_error(frame)),
            _ => Err(self.refuse()),
        }
    }

    /// Closes the session over a frame that no server may send now.
    fn refuse(&mut self) -> ClientFault
        ensures closed { self.new.client ≡ closing self.old.client }
        ensures room { self.new.room ≡ self.old.room }
        ensures fault { result ≡ Unexpected }
    {
        self.stage = Stage::Closed;
        ClientFault::Unexpected
    }

    fn accept_connected(&mut self, frame: Frame<MAX_BODY>) -> Result<ClientEvent<T>, ClientFault>
        requires command { frame.command ≡ Connected }
        requires stage { is_closed self.old.client.stage ≡ false }
        ensures accepts { Accepts frame self.old.client self.new.client result }
        ensures room { self.new.room ≡ self.old.room }
    {
        // A second CONNECTED too: this session asked for one.
        if self.stage != Stage::Connecting {
            return Err(self.refuse());
        }
        self.stage = Stage::Connected;
        Ok(ClientEvent::Connected)
    }

    fn accept_message(&mut self, frame: Frame<MAX_BODY>) -> Result<ClientEvent<T>, ClientFault>
        requires command { frame.command ≡ Message }
        requires stage { is_closed self.old.client.stage ≡ false }
        ensures accepts { Accepts frame self.old.client self.new.client result }
        ensures room { self.new.room ≡ self.old.room }
    {
        if self.stage != Stage::Connected || !is_whole(&frame) {
            return Err(self.refuse());
        }
        Ok(ClientEvent::Message(frame))
    }

    fn accept_receipt(&mut self, frame: Frame<MAX_BODY>) -> Result<ClientEvent<T>, ClientFault>
        requires command { frame.command ≡ Receipt }
        requires stage { is_closed self.old.client.stage ≡ false }
        ensures accepts { Accepts frame self.old.client self.new.client result }
        ensures room { self.new.room ≡ self.old.room }
    {
        // Before CONNECTED nothing was written that could ask for a receipt.
        if self.stage != Stage::Connected {
            return Err(self.refuse());
        }
        let Some(number) = receipt_number(&frame) else {
            return Err(self.refuse());
        };
        match self.receipts.close(number) {
            Some(tag) => Ok(ClientEvent::Receipt(number, tag)),
            // Never asked for, or answered before: what the server means isn't known any more.
            None => Err(self.refuse()),
        }
    }

    fn accept_error(&mut self, frame: Frame<MAX_BODY>) -> ClientEvent<T>
        requires command { frame.command ≡ Error }
        requires stage { is_closed self.old.client.stage ≡ false }
        ensures accepts { Accepts frame self.old.client self.new.client (Ok result) }
        ensures room { self.new.room ≡ self.old.room }
    {
        // The text is taken out of the frame and not copied: to accept a frame allocates nothing.
        let (_, headers, _) = frame.into_parts();
        let text = first_value(self.alloc, headers, "message");
        self.stage = Stage::Closed;
        ClientEvent::Error(text)
    }
}

/// Whether a MESSAGE has all headers that it needs.
fn is_whole(frame: &Frame<MAX_BODY>) -> bool
    ensures { result ≡ is_whole frame.now }
{
    // `ack` too, as the client subscribes in mode `client-individual`.
    frame.get("destination").is_some()
        && frame.get("message-id").is_some()
        && frame.get("subscription").is_some()
        && frame.get("ack").is_some()
}

/// The number of a RECEIPT. A number has one text, so this is that of the frame's `receipt` that it answers.
fn receipt_number(frame: &Frame<MAX_BODY>) -> Option<u64>
    ensures { result ≡ receipt_number frame.now }
{
    match frame.get("receipt-id") {
        Some(text) => read_number(text),
        None => None,
    }
}

/// The first value of a name, taken out of the headers; empty where there is none.
fn first_value(alloc: Global, mut headers: Vec<Header>, name: &str) -> String
    ensures { string_bytes result ≡ text_or_empty (value_of name.now headers.items) }
{
    for (index, header) in headers.iter().enumerate() {
        if header.name() == name {
            // The other headers aren't used, so their order needn't be kept.
            return headers.swap_remove(index).into_value();
        }
    }
    String::new(alloc)
}
