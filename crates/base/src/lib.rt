//! What all layers speak of: entities, pairs of them, the numbers of letters, and the product's limits.
//!
//! An entity's text and reading it are inverse, and a text names one entity at most. Equality and order are those of
//! the octets, and take no memory. What can't be is refused where it would be made: a key of 65 octets, a letter's
//! number of 0.
//!
//! ```rust
//! pub fn an_entity_is_named_again(alloc: Global) -> Result<bool, EntityFault> {
//!     let key = Key::read(alloc, "o1")?;
//!     let order = Entity::new(alloc, Kind::Order, &key)?;
//!     let again = Entity::read(alloc, "order/o1")?;
//!     Ok(again == order)
//! }
//! ```
//!
//! The answer is true.
#![tactic(auto)]

mod entity;
mod fault;
mod key;
mod laws;
pub mod limits;
mod number;
mod pair;

pub use entity::{Entity, Kind};
pub use fault::EntityFault;
pub use key::{Key, is_key};
pub use laws::{
    a_text_names_one_entity, orders_are_total, reading_a_text_gives_its_entity,
    sameness_is_equality,
};
pub use number::Number;
pub use pair::Pair;
