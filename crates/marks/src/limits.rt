//! How many places and seats marks may have.

/// The most places.
pub const PLACES: usize = 64;

/// The most seats.
pub const SEATS: usize = 32;
