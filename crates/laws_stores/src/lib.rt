//! Three services, as their stores show them, and what holds of them together, whatever a stop leaves of each.
//!
//! A deed of one service, which takes in only letters and settles that are authentic or were held, keeps the three
//! journals lawful, what is marked as settled behind what was handled, and every envelope that was authentic. So the
//! partners of each order agree, and nothing of a stock or of an account's limit is lost or used twice. The
//! definitions, in `specs/`, speak of each combination of contents that a stop may leave, of a store that failed of
//! either content; the laws are the contracts of functions with nothing to do.
//!
//! ```rust
//! pub fn lawful_journals_stay_lawful()
//!     ensures { (x y : AllTables) → DeedOfOne (IsAuthentic (journals_of x)) x y → HoldsAuthentic x →
//!         AreLawful (journals_of x) → AreLawful (journals_of y) }
//! {
//!     a_deed_keeps_the_laws();
//! }
//! ```
//!
//! The prover has it from the law.
#![tactic(auto)]

mod laws;

pub use laws::{a_deed_keeps_the_laws, empty_tables_keep_the_laws, lawful_tables_agree};
