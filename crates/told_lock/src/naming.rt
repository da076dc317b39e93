//! The name of a lock, for types that can't hold it.

use std::marker::Brand;

/// Names one lock. A type under another lock has it as a parameter: so it can keep a key, and all its users know of which
/// lock. Each call of a program picks it (`Brand`).
pub trait Naming<T> {
    ghost use Rattle.told_lock.specs.Keys.{LockName};

    ghost lock: { LockName T };
}

impl<T> Naming<T> for Brand {
    ghost use Rattle.told_lock.specs.Keys.{no_name};

    ghost lock = { no_name };
}
