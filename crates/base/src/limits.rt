//! The product's limits, in one place. Those of a body, of a queue and of held letters are const parameters of the
//! types that keep them: who needs others changes a line here, or names another value where such a type is made.

/// Octets of an entity's key: 1 to this many.
pub const MAX_KEY: usize = 64;

/// The greatest number of a letter, a journal position, a quantity or an amount: 2^40.
// So far below 2^64 that no addition of such numbers wraps.
pub const MAX_NUMBER: u64 = 1_099_511_627_776;

/// Stock lines of an order: 1 to this many.
pub const MAX_LINES: usize = 8;

/// Seats of a service, numbered from 0.
pub const SEATS: u8 = 16;

/// How far above the last handled number a letter may be and still be held: of use from 1 to 65,536.
pub const HELD_WINDOW: u64 = 256;

/// Headers of a frame; its first `content-length` line isn't counted.
pub const MAX_HEADERS: usize = 32;

/// Octets of a line without its end of line.
pub const MAX_LINE: usize = 1_024;

// A broker's sessions always have this limit, since their refusals have fixed words.
/// Octets of a frame's body: of use from 1 to 99,999,999, the greatest length that eight digits tell.
pub const MAX_BODY: usize = 1_048_576;

/// Digits of a `content-length`.
pub const MAX_LENGTH_DIGITS: usize = 8;

/// Octets, unescaped, of a value that the broker echoes: `receipt`, `id`, `transaction`.
// An eighth of a line, so that the value fits a line however it is escaped.
pub const MAX_ECHOED: usize = 128;

/// Headers of a SEND that the broker hands on.
// Of 32: a MESSAGE has four of the server's before them.
pub const MAX_OWN_HEADERS: usize = 28;

/// Messages of a destination that are ready or out: of use from 1 to 1,000,000.
pub const MAX_QUEUED: usize = 65_536;

/// Unanswered messages of a subscription.
pub const MAX_UNANSWERED: usize = 16;

/// Subscriptions of a session.
pub const MAX_SUBSCRIPTIONS: usize = 64;

/// Open transactions of a session.
pub const MAX_TRANSACTIONS: usize = 16;

/// Actions of a transaction.
pub const MAX_ACTIONS: usize = 256;

/// Arrivals that the intake of a service holds.
pub const INTAKE_CAPACITY: usize = 64;

/// Places of the shared marks.
pub const MAX_MARKS: usize = 64;

/// Seats of the shared marks.
pub const MAX_MARK_SEATS: usize = 32;
