//! Where things are.

/// Where a message or a subscriber is: its number or age, by which it is found, and the key that it was given, which
/// makes that quick.
#[derive(Clone, Copy, Debug, PartialEq, Eq)]
pub struct KeyedPlace {
    /// The number of the message, or the age of the subscriber.
    pub number: u64,
    /// The key of the message or the subscriber: a hint.
    pub key: usize,
}

/// A delivery.
#[derive(Clone, Copy, Debug, PartialEq, Eq)]
pub struct Entry {
    /// The number of the delivery.
    pub ack: u64,
    /// The number of the message.
    pub number: u64,
    /// The message's key.
    pub key: usize,
}
