//! What holds of a broker as long as it lives.
//!
//! A *life* is a list of calls of a [`broker_core::Broker`], each with what it was given and what it answered; one call
//! after another leads from one broker to the next, as its contract says. The laws speak of any life: of the calls of
//! any sessions among one another, and also of those to which memory was refused. Each law is a function that does
//! nothing: its contract is the law. The functions of [`calls`] are the broker's own calls, of which each says which
//! call of a life it is.
//!
//! The first laws are of the broker alone: what is accepted, handed out, kept and handled.
//!
//! ```rust
//! pub fn what_wants_an_ack_stays_until_it_comes()
//!     ensures { NoLifeLosesAny }
//! {
//!     no_message_is_lost();
//! }
//! ```
//!
//! The others are of a broker and its clients. Octets go both ways between them, over wires that cut them in any
//! pieces: what is written for a session is frames in an order that a client takes, a client's decoder reads exactly
//! these, a session handles exactly the frames that its client wrote, and each MESSAGE brings what some client sent.
//!
//! ```text
//! client  --- SEND ----> wire ---> decoder ---> session \
//!                                                        book
//! client  <-- MESSAGE -- decoder <--- wire <--- session /
//! ```
//!
//! ```rust
//! pub fn what_a_client_reads_was_sent()
//!     ensures { ReadMessagesWereSent }
//! {
//!     each_message_was_sent();
//! }
//! ```
#![tactic(auto)]

pub mod calls;
mod laws;
mod texts;

pub use laws::{
    accepted_sends_are_told_once, accepted_sends_were_sent, books_stay_orderly, calls_are_runs,
    frames_are_handled_in_order_all_life, lives_are_runs, lives_feed_in_turn,
    messages_were_accepted, messages_were_sent, no_message_is_lost, no_message_overtakes,
    other_calls_leave_a_session, steps_are_runs,
};
pub use texts::{
    a_client_refuses_nothing, clients_ask_for_acks, each_message_was_sent,
    each_receipt_was_asked_for, what_a_broker_wrote_is_read, what_a_broker_wrote_is_taken,
    what_a_client_wrote_is_handled, what_is_written_is_frames,
};
