//! One service of a schedule: its endpoint over a store that may fail on purpose, and its two connections with the
//! broker.
//!
//! A [`Site`] has a function for each event of a schedule that concerns one service. Each does exactly what its outcome
//! says, and nothing else of the service or the mail changes: what the store, the client, the relay and the broker do
//! is told in their own words. A connection that isn't open answers `Closed`; a frame that no server may send, an ERROR
//! and octets at fault cut it; and a store that has failed cuts both.
//!
//! ```rust
//! pub fn nothing_is_sent_where_no_connection_is_open(alloc: Global) -> Result<bool, AllocError> {
//!     let purchasing: Endpoint<Orders, Faulty<PlainKeep<Orders>>> = Endpoint::new(Faulty::new(
//!         PlainKeep::new(alloc),
//!     ));
//!     let mut site = Site::new(purchasing);
//!     let mut mail = Mail::new(alloc);
//!     let outcome = site.fill(&mut mail, ConnectionNumber::Zero, 64);
//!     Ok(matches!(outcome, schedule_text::Outcome::Closed))
//! }
//! ```
//!
//! The answer is true.
#![tactic(auto)]

mod fate;
mod laws;
mod outcomes;
mod site;
mod site_channel;

pub use fate::ChannelFate;
pub use laws::cursors_stay_right;
pub use site::Site;
pub use site_channel::SiteChannel;
