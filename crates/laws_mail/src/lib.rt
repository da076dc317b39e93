//! No envelope is made up on the way.
//!
//! From a client to a broker and from the broker to a client envelopes go as octets: of a SEND, of a MESSAGE, or of a
//! part of one. The laws say of all octets at once which envelopes they can be: where each envelope on its way passes a
//! test, the same is so behind each call of the mail and of its connections, and each MESSAGE that a connection gives
//! carries one that passes, or none. So what is read was written, however octets are cut and whatever is lost, dealt
//! again, repeated or refused for want of memory.
//!
//! ```text
//! client.out  --- carry_up --->  session's decoder \
//!                                                   book, transactions, what was accepted
//! client      <-- decoder <--- carry_down --- out  /
//! ```
//!
//! What is on its way is named by session number: `up n` are the octets that the client of session `n` wrote and that
//! weren't carried, `down n` those that were carried to its decoder and are no frame yet. Laws over any predicate of
//! envelopes, of which a clause can't speak, are the lemmas of `proofs/`; the functions here say the same of any test.
//!
//! ```rust
//! pub fn what_is_read_of_a_good_frame_passes()
//!     ensures { ReadingPasses }
//! {
//!     what_is_read_passes();
//! }
//! ```
#![tactic(auto)]

mod laws;

pub use laws::{
    each_call_makes_nothing_up, more_may_pass, nothing_is_on_its_way_at_first, what_is_read_passes,
    what_is_written_is_good,
};
