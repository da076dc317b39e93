//! Three services over any broker: what holds of them, whatever it loses, repeats or reorders.
//!
//! Of the broker one thing is asked: what a service takes in, one of these services wrote before. Then each service has
//! handled, pair by pair, a beginning of what the other's journal sends, once each and in its order; what it marks as
//! settled its receiver has handled; the partners of each order agree, and nothing of a stock or of an account's limit
//! is lost or used twice; and a pair of which each unsettled letter was taken, and whose next one isn't held, was
//! handled to its end. It holds at the end of any steps, of each content that a stop may leave of each store. That a
//! call is such a step follows from its contract, and so it does of a group, which takes in several envelopes by one
//! transaction: those laws are here too.
//!
//! ```rust
//! pub fn what_a_broker_brought_is_a_step<H, K>(
//!     alloc: Global,
//!     own: &mut Endpoint<H, K>,
//!     client: &mut ClientSession<u64>,
//!     frame: Frame<MAX_BODY>,
//! ) -> Result<Taken, Untaken>
//! where
//!     H: Handler,
//!     K: Keep<State = H::State, Command = H::Command> + Drop,
//!     ensures { (written : List Envelope) → CarriesWritten written frame →
//!         Does K.seen H.service (IsFounded written) own.old own.new }
//! {
//!     frames_are_steps::<H, K>();
//!     take_frame(alloc, own, client, frame)
//! }
//! ```
//!
//! Whichever broker brought the frame: where what it carries was written, or it carries nothing, the call is a step.
#![tactic(auto)]

mod calls;
mod frames;
mod laws;
mod lives;
mod reads;

pub use calls::{
    commits_are_steps, drains_are_steps, groups_are_steps, ingests_are_steps, reopenings_are_steps,
    settles_are_steps,
};
pub use frames::{frames_are_steps, held_letters_are_steps};
pub use laws::{
    any_broker_keeps_the_laws, handled_is_a_beginning, new_services_are_good,
    nothing_waits_all_was_handled,
};
pub use lives::{lives_go_on, overlapping_lives_agree};
pub use reads::{counts_are_steps, listings_are_steps, reads_are_steps};
