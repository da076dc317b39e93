//! The life of a program, once it is closed, meets what the laws of whole lives ask for.
//!
//! `service_workers` promises of a closed life (`LifeStands`) that its tables match their journal, that all frames of its
//! connections are true by it, and that each letter that it has processed since came in a MESSAGE, or was held before. The
//! laws of `laws_services` ask for the envelopes that a life read and wrote (`Lives`). [`closed_lives_are_lives`] leads from
//! the first to the second: the life read what its MESSAGEs carry, and wrote what the SENDs among its frames carry
//! ([`sends_carry_their_envelopes`]). That is what `overlapping_lives_agree` asks of each life of three programs: if each life
//! found what the one before had left, and they read nothing but what one of them wrote, their journals are lawful, whatever
//! the broker loses, repeats or reorders.
//!
//! If the store failed, the life leads to the tables before the call that failed. What this call may have left matches its
//! journal, and all that was written is true by it; more is not said. A program that is killed closes no life, so nothing is
//! said of it here.
//!
//! ```rust
//! pub fn one_more_life_was_lived<N, L, H, K>()
//! where
//!     N: Naming<K, L>,
//!     L: Link + Drop,
//!     H: Handler,
//!     K: Keep<State = H::State, Command = H::Command> + Drop,
//!     ensures { (earlier : Post) (left : K) (conns : List (Option (Conn L)))
//!         (life : LifeStands L.put_gives L.take_gives K.seen H.service N.given N.found left conns) →
//!         (K.seen left).usable ≡ true → (t : Tables H.State H.Command) → (K.seen left).may_leave t →
//!         HasLived H.service earlier (K.seen life.first).tables → HasLived H.service (both_lives earlier (post_of life)) t }
//! {
//!     lives_go_on::<H>();
//!     closed_lives_are_lives::<N, L, H, K>();
//! }
//! ```
//!
//! Lives of one program add up: if it has lived to the tables that one more life finds, it has lived to each content that a
//! stop may leave of the endpoint at the end of that life, where this is still usable.
#![tactic(auto)]

mod frames;
mod lives;

pub use frames::sends_carry_their_envelopes;
pub use lives::closed_lives_are_lives;
