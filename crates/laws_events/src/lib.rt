//! No event of a service makes an envelope up.
//!
//! Three services are connected with one broker. Where each envelope that is on its way between them, or that the
//! broker keeps, passes a test, the same is so behind each event of one of them, whatever it answers and whatever its
//! store does: what a service takes is among those, and what it writes is true of each content that a stop may leave of
//! its store. A letter that is written is one that its journal sends; a settle goes no farther than its journal
//! handled. The connections of the other services stay as they are.
//!
//! ```text
//! a service's store  --- fill, take, drain --->  client.out  --- carry --->  broker
//!                    <----------- take --------  decoder     <-- carry ---
//! ```
//!
//! Laws over any predicate of envelopes, which a clause can't speak of, are the lemmas of `proofs/`: `Threes` has those
//! of three services. The functions here say the same for any test.
//!
//! ```rust
//! pub fn a_service_that_acts_makes_nothing_up<H, K>()
//! where
//!     H: Handler,
//!     K: Keep<State = H::State, Command = H::Command> + Drop,
//!     ensures { (test : Envelope → Bool) (s t : Site H K H.State H.Command) (from to : Mail)
//!         → EventPasses K.seen H.service test s t from to }
//! {
//!     each_event_makes_nothing_up::<H, K>();
//! }
//! ```
#![tactic(auto)]

mod laws;

pub use laws::{each_event_makes_nothing_up, one_of_three_makes_nothing_up, what_comes_passes};
