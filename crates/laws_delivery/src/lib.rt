//! Any two services among others, over any broker: between them, exactly-once processing, in order per pair.
//!
//! The two may have any handlers and stores. The broker may lose, repeat and reorder what it likes, and each service may
//! crash at any call. After any calls, and for each content that a crash may leave of each store
//! ([`any_two_services_deliver`]):
//!
//! - both journals are legal;
//! - of each pair between the two, the receiver has handled a prefix of the letters that the sender's journal sends, each
//!   once and in order;
//! - what the sender marks as settled, the receiver has handled;
//! - if each unsettled letter of a pair was taken, in any order, and the next one isn't held, all of them were handled.
//!
//! Of the broker one thing is asked: each letter and settle that the two handle was written before. The other services must
//! write and take nothing of pairs between the two. A service of a third kind meets that by its own contracts
//! ([`a_third_service_is_elsewhere`]). A service that shares a kind with one of the two meets it for all pairs of whose
//! entities its journal has no row, if it takes no letter of them ([`a_stranger_is_elsewhere`]); the law may be asked about
//! these pairs only. So among three services or thirty, it holds of each two of different kinds.
//!
//! Not covered are two services of one kind, and a service whose files are in doubt.
//!
//! ```rust
//! pub fn letters_stay_delivered<H, K, G, L>(
//!     alloc: Global,
//!     own: &mut Endpoint<H, K>,
//!     client: &mut ClientSession<u64>,
//!     frame: Frame<MAX_BODY>,
//! ) -> Result<Taken, Untaken>
//! where
//!     H: Handler,
//!     K: Keep<State = H::State, Command = H::Command> + Drop,
//!     G: Handler,
//!     L: Keep<State = G::State, Command = G::Command>,
//!     ensures { (pairs : Pair → Bool) (first : Two K L) (partner : L) (traffic : Traffic) →
//!         IsRunAmong K.seen L.seen H.service G.service pairs first
//!         (record { left = own.old; right = partner; traffic = traffic }) →
//!         CarriesWritten traffic.written frame → (K.seen own.new).doubt ≡ 0 →
//!         AllDelivered K.seen L.seen H.service G.service pairs
//!         (record { left = own.new; right = partner; traffic = traffic }) }
//! {
//!     frames_are_steps::<H, K>();
//!     laws_delivery::any_two_services_deliver::<H, K, G, L>();
//!     take_frame(alloc, own, client, frame)
//! }
//! ```
//!
//! After any run of a service and its partner the service takes one more frame, whichever broker brought it. Between the
//! two, what was handled is still a prefix of what was sent, whatever the call returns.
#![tactic(auto)]

mod laws;

pub use laws::{
    a_stranger_is_elsewhere, a_third_service_is_elsewhere, any_two_services_deliver,
    two_new_services_are_good,
};
