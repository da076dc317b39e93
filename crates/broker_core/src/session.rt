//! A session of a broker.

ghost use Rattle.std.specs.Prelude.{◌≡◌, ◌<◌, true, false, None, is_some, IfOk, IfErr, OnOk, OnErr};
ghost use Rattle.std.specs.Option.{option_copied};
ghost use Rattle.stomp_session.specs.Replies.{Delivered, message_frame};
ghost use Rattle.broker_core.specs.Calls.{named, new_session};
ghost use Rattle.broker_core.specs.Parts.Asked.{is_ready, request_in};
ghost use Rattle.broker_core.specs.Feeding.{answer_of};
ghost use Rattle.broker_core.specs.declared.fault.FrameRefusal.TheVariants.{BadFrame};
ghost use Rattle.broker_core.specs.Parts.Taking.{PartTurn, SessionPieceAnswer, keeping, left_of};
ghost use Rattle.broker_core.specs.Serving.{Part, part, served, refused, closing, closing_if, closed_of, writing};

use crate::asked::{Asked, Form, SharedSend};
use crate::detail::{Detail, detail_of};
use crate::fault::HandlerFault;
use crate::incoming::{Incoming, decide, is_memory};
use crate::perform::perform;
use crate::written::Written;
use crate::{FrameRefusal, SessionId};
use base::limits::MAX_BODY;
use broker_queues::Queues;
use broker_tx::Transactions;
use std::alloc::{AllocError, Global};
use stomp_frame::{Frame, FrameFault};
use stomp_session::{Delivery, Refused, Request, Send, ServerSession, receipt_told};

/// A session: `out` are the octets not yet taken, and `fresh` tells whether some were written since the session was
/// last named.
#[derive(Drop)]
pub struct Session {
    pub number: u64,
    pub server: ServerSession,
    pub closed: bool,
    pub fresh: bool,
    pub incoming: Incoming,
    pub transactions: Transactions,
    pub out: Written,
}

impl Session {
    /// A session that isn't connected. It allocates nothing.
    pub fn new(alloc: Global, number: u64) -> Session
        ensures { result ≡ new_session number }
    {
        Session {
            number,
            server: ServerSession::new(),
            closed: false,
            fresh: false,
            incoming: Incoming::new(alloc),
            transactions: Transactions::new(alloc),
            out: Written::new(alloc),
        }
    }

    /// Takes a piece; a closed session throws it away. The answer is more than the frames that can still be taken.
    pub fn feed(&mut self, piece: &[u8]) -> Result<usize, AllocError>
        ensures took { SessionPieceAnswer piece.now self.old self.new result }
        ensures bound { IfOk result (λ bound. left_of self.new.incoming < bound) }
    {
        if self.closed {
            return Ok(self.incoming.bound());
        }
        self.incoming.feed(piece)?;
        Ok(self.incoming.bound())
    }

    /// Takes the next frame out of what it was fed and does what is decided; `false` where there is none, and where a
    /// fault of the octets has ended it. If an allocation fails for what is done, the frame waits. Where what was wrong
    /// with a frame has more to it than its refusal tells, it's put into `detail`.
    pub fn turn<const FULL: usize>(
        &mut self,
        alloc: Global,
        queues: &mut Queues<FULL>,
        detail: &mut Option<Detail>,
    ) -> Result<bool, AllocError>
        ensures { PartTurn FULL (part queues.old self.old) (part queues.new self.new) result }
    {
        if self.closed {
            return Ok(false);
        }
        // Looked at before it is taken: mostly nothing waits, and what might is large to move.
        if self.incoming.waiting.is_some() {
            return self.resume(alloc, queues, detail);
        }
        match self.incoming.decode() {
            Ok(Some(frame)) => {
                self.handle(alloc, queues, frame, detail)?;
                Ok(true)
            }
            Ok(None) => Ok(false),
            Err(fault) => {
                if is_memory(fault) {
                    return Err(AllocError);
                }
                // Nothing that comes after can be read: where the next frame would begin isn't known.
                self.tell(alloc, queues, fault, detail)?;
                Ok(false)
            }
        }
    }

    /// Does what waited: in a function of its own, as what else is rare, so that a frame doesn't clear its room on the
    /// stack.
    #[inline(never)]
    fn resume<const FULL: usize>(
        &mut self,
        alloc: Global,
        queues: &mut Queues<FULL>,
        detail: &mut Option<Detail>,
    ) -> Result<bool, AllocError>
        requires is_open { self.old.closed ≡ false }
        requires waits { is_some self.old.incoming.waiting ≡ true }
        ensures { PartTurn FULL (part queues.old self.old) (part queues.new self.new) result }
    {
        let decided = self.incoming.take_waiting();
        self.handle_decided(alloc, queues, decided, detail)?;
        Ok(true)
    }

    /// Ends the session for a fault of its octets, or changes nothing.
    #[inline(never)]
    fn tell<const FULL: usize>(
        &mut self,
        alloc: Global,
        queues: &mut Queues<FULL>,
        fault: FrameFault,
        detail: &mut Option<Detail>,
    ) -> Result<(), AllocError>
        ensures ok { OnOk result (part queues.new self.new ≡ refused BadFrame None (part queues.old self.old)) }
        ensures err { OnErr result ((queues.new ≡ queues.old) × (self.new ≡ self.old)) }
    {
        self.refuse(alloc, queues, FrameRefusal::BadFrame, None)?;
        *detail = Some(Detail::Octets(fault));
        Ok(())
    }

    /// Has it named: what was written is no longer fresh.
    pub fn name(&mut self) -> SessionId
        ensures number { result ≡ self.old.number }
        ensures named { self.new ≡ named self.old }
    {
        self.fresh = false;
        SessionId::new(self.number)
    }

    /// Writes the MESSAGE of a delivery, or changes nothing.
    pub fn write_message(&mut self, delivery: &Delivery) -> Result<(), AllocError>
        ensures ok { OnOk result (self.new ≡ writing (message_frame delivery.now) self.old) }
        ensures err { OnErr result (self.new ≡ self.old) }
    {
        self.out.write_message(delivery)?;
        self.fresh = true;
        Ok(())
    }

    /// Closes it: its transactions are aborted, and what was fed is thrown away.
    fn close(&mut self, alloc: Global)
        ensures { self.new ≡ closed_of self.old }
    {
        self.closed = true;
        // What is written for the client stays: it's to read the RECEIPT or the ERROR.
        self.incoming = Incoming::new(alloc);
        self.transactions.clear();
    }

    /// Ends its subscriptions and closes it, where that was its last request.
    fn close_after<const FULL: usize>(
        &mut self,
        alloc: Global,
        queues: &mut Queues<FULL>,
        last: bool,
    )
        ensures { part queues.new self.new ≡ closing_if last (part queues.old self.old) }
    {
        if last {
            queues.end(self.number);
            self.close(alloc);
        }
    }

    /// Writes an ERROR and ends the session, or changes nothing.
    fn refuse<const FULL: usize>(
        &mut self,
        alloc: Global,
        queues: &mut Queues<FULL>,
        refusal: FrameRefusal,
        receipt: Option<&str>,
    ) -> Result<(), AllocError>
        ensures ok { OnOk result (part queues.new self.new ≡ refused refusal (option_copied receipt.entry)
            (part queues.old self.old)) }
        ensures err { OnErr result ((queues.new ≡ queues.old) × (self.new ≡ self.old)) }
    {
        // First, since it alone allocates: nothing after it can fail.
        self.out.write_error(alloc, refusal, receipt)?;
        self.fresh = true;
        queues.end(self.number);
        self.close(alloc);
        Ok(())
    }

    /// Does what a frame is decided to be; if an allocation fails, that waits.
    fn handle<const FULL: usize>(
        &mut self,
        alloc: Global,
        queues: &mut Queues<FULL>,
        frame: Frame<MAX_BODY>,
        detail: &mut Option<Detail>,
    ) -> Result<(), AllocError>
        ensures ok { OnOk result (part queues.new self.new ≡ served FULL (answer_of self.old.server frame)
            (part queues.old self.old)) }
        ensures err { OnErr result ((queues.new ≡ queues.old)
            × (self.new ≡ keeping (answer_of self.old.server frame) self.old)) }
    {
        // Every second frame of most clients is an ACK: nothing is made of it that would have to be moved.
        if self.acks(queues, &frame) {
            return Ok(());
        }
        self.handle_whole(alloc, queues, frame, detail)
    }

    /// Does what any frame is decided to be; if an allocation fails, that waits.
    fn handle_whole<const FULL: usize>(
        &mut self,
        alloc: Global,
        queues: &mut Queues<FULL>,
        frame: Frame<MAX_BODY>,
        detail: &mut Option<Detail>,
    ) -> Result<(), AllocError>
        ensures ok { OnOk result (part queues.new self.new ≡ served FULL (answer_of self.old.server frame)
            (part queues.old self.old)) }
        ensures err { OnErr result ((queues.new ≡ queues.old)
            × (self.new ≡ keeping (answer_of self.old.server frame) self.old)) }
    {
        match decide(self.server, frame) {
            Ok(Request::Send(send)) => self.handle_send(alloc, queues, send, detail),
            Ok(request) => {
                let asked = Asked::new(Form::Whole(request));
                self.handle_decided(alloc, queues, Ok(asked), detail)
            }
            Err(refused) => self.handle_decided(alloc, queues, Err(refused), detail),
        }
    }

    /// Does a SEND, which is shared at once; if an allocation fails, it waits.
    fn handle_send<const FULL: usize>(
        &mut self,
        alloc: Global,
        queues: &mut Queues<FULL>,
        send: Send,
        detail: &mut Option<Detail>,
    ) -> Result<(), AllocError>
        ensures ok { OnOk result (part queues.new self.new ≡ served FULL (Ok (Request.Send send))
            (part queues.old self.old)) }
        ensures err { OnErr result ((queues.new ≡ queues.old)
            × (self.new ≡ keeping (Ok (Request.Send send)) self.old)) }
    {
        match SharedSend::new(alloc, send) {
            Ok(send) => {
                let form = Form::Shared(send);
                match self.carry_out(alloc, queues, &form) {
                    Ok(()) => {
                        *detail = None;
                        Ok(())
                    }
                    Err(_) => {
                        // As it is shared by now: the next attempt copies nothing.
                        self.incoming.waiting = Some(Ok(Asked::new(form)));
                        Err(AllocError)
                    }
                }
            }
            Err(send) => {
                let form = Form::Whole(Request::Send(send));
                self.incoming.waiting = Some(Ok(Asked::new(form)));
                Err(AllocError)
            }
        }
    }

    /// Does what was decided; if an allocation fails, it waits.
    fn handle_decided<const FULL: usize>(
        &mut self,
        alloc: Global,
        queues: &mut Queues<FULL>,
        decided: Result<Asked, Refused>,
        detail: &mut Option<Detail>,
    ) -> Result<(), AllocError>
        ensures ok { OnOk result (part queues.new self.new ≡ served FULL decided (part queues.old self.old)) }
        ensures err { OnErr result ((queues.new ≡ queues.old) × (self.new ≡ keeping decided self.old)) }
    {
        let more = detail_of(&decided);
        if let Err(decided) = self.serve(alloc, queues, decided) {
            self.incoming.waiting = Some(decided);
            return Err(AllocError);
        }
        *detail = more;
        Ok(())
    }

    /// Does an ACK of which nothing is asked but its id, unless it is refused. Else nothing has changed.
    #[tactic(auto, using(crate::proofs::Acking::acked))]
    fn acks<const FULL: usize>(&self, queues: &mut Queues<FULL>, frame: &Frame<MAX_BODY>) -> bool
        ensures done { result ≡ true → part queues.new self.now
            ≡ served FULL (answer_of self.now.server frame.now) (part queues.old self.now) }
        ensures other { result ≡ false → queues.new ≡ queues.old }
    {
        let Some(id) = self.server.sole_ack(frame) else {
            return false;
        };
        match text::read_number(id) {
            // An ACK that is refused has changed nothing: it's handled like any other frame then, and answered by an
            // ERROR.
            Some(number) => queues.ack(self.number, number).is_ok(),
            None => false,
        }
    }

    /// Does what was decided, or returns it if an allocation fails, and then nothing has changed.
    fn serve<const FULL: usize>(
        &mut self,
        alloc: Global,
        queues: &mut Queues<FULL>,
        decided: Result<Asked, Refused>,
    ) -> Result<(), Result<Asked, Refused>>
        ensures ok { OnOk result (part queues.new self.new ≡ served FULL decided (part queues.old self.old)) }
        ensures err { OnErr result ((queues.new ≡ queues.old) × (self.new ≡ self.old)) }
        ensures back { IfErr result (λ left. left ≡ decided) }
    {
        match decided {
            Ok(asked) => match self.serve_asked(alloc, queues, asked) {
                Ok(()) => Ok(()),
                Err(asked) => Err(Ok(asked)),
            },
            Err(refused) => match self.serve_refused(alloc, queues, &refused) {
                Ok(()) => Ok(()),
                Err(_) => Err(Err(refused)),
            },
        }
    }

    fn serve_refused<const FULL: usize>(
        &mut self,
        alloc: Global,
        queues: &mut Queues<FULL>,
        refused: &Refused,
    ) -> Result<(), AllocError>
        ensures ok { OnOk result (part queues.new self.new ≡ served FULL (Err refused.now) (part queues.old self.old)) }
        ensures err { OnErr result ((queues.new ≡ queues.old) × (self.new ≡ self.old)) }
    {
        let receipt = receipt_told(&refused.frame);
        self.refuse(
            alloc,
            queues,
            FrameRefusal::Unaccepted(refused.fault),
            receipt,
        )
    }

    fn serve_asked<const FULL: usize>(
        &mut self,
        alloc: Global,
        queues: &mut Queues<FULL>,
        asked: Asked,
    ) -> Result<(), Asked>
        ensures ok { OnOk result (part queues.new self.new ≡ served FULL (Ok asked) (part queues.old self.old)) }
        ensures err { OnErr result ((queues.new ≡ queues.old) × (self.new ≡ self.old)) }
        ensures back { IfErr result (λ left. left ≡ asked) }
    {
        match asked.into_form().share(alloc) {
            Ok(form) => match self.carry_out(alloc, queues, &form) {
                Ok(()) => Ok(()),
                Err(_) => Err(Asked::new(form)),
            },
            Err(form) => Err(Asked::new(form)),
        }
    }

    /// Does a request and writes its reply, or refuses it, and ends the session where it is refused or the last; or
    /// changes nothing.
    fn carry_out<const FULL: usize>(
        &mut self,
        alloc: Global,
        queues: &mut Queues<FULL>,
        form: &Form,
    ) -> Result<(), AllocError>
        requires { is_ready form.now ≡ true }
        ensures ok { OnOk result (part queues.new self.new ≡ served FULL (Ok (request_in form.now))
            (part queues.old self.old)) }
        ensures err { OnErr result ((queues.new ≡ queues.old) × (self.new ≡ self.old)) }
    {
        // The reply comes first: it can be taken back where the request is refused, and a request that was done can't
        // be undone if an allocation for its reply fails.
        let before = self.out.len();
        let wrote = self.out.write_reply(form)?;
        match perform(alloc, queues, &mut self.transactions, self.number, form) {
            Ok(()) => {
                self.server = ServerSession::connected();
                self.fresh = self.fresh || wrote;
                self.close_after(alloc, queues, form.is_last());
                Ok(())
            }
            Err(HandlerFault::Refused(refusal)) => {
                self.out.truncate(before);
                self.refuse(alloc, queues, refusal, form.receipt())
            }
            Err(HandlerFault::Memory) => {
                self.out.truncate(before);
                Err(AllocError)
            }
        }
    }
}
