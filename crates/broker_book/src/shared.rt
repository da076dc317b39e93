//! Values with several owners.

ghost use Rattle.std.specs.Prelude.{◌≡◌, IfErr, IfOk};

use std::alloc::{AllocError, AllocFailed, Global};
use std::marker::Model;
use std::rc::Rc;

/// A value that several owners share without a copy: contracts see the value.
#[derive(Debug, Drop)]
pub struct Shared<T> {
    // Counted references: a SEND is in memory once, so that a COMMIT that finds no memory has lost nothing.
    value: Rc<T>,
}

impl<T> Model for Shared<T> {
    ghost Value = { T };

    ghost view = { λ s. s.value.value };
}

impl<T> Shared<T> {
    /// The value with a first owner.
    ///
    /// # Errors
    /// If an allocation fails; the value is returned.
    pub fn new(alloc: Global, value: T) -> Result<Shared<T>, AllocFailed<T>>
        ensures ok { IfOk result (λ shared. shared ≡ value) }
        ensures err { IfErr result (λ failed. failed.value ≡ value) }
    {
        match Rc::new(alloc, value) {
            Ok(value) => Ok(Shared { value }),
            // With the value: a request that ran out of memory is kept by its session, and done later.
            Err(failed) => Err(failed),
        }
    }

    /// The value itself.
    pub fn get(&self) -> &T
        ensures { result.now ≡ self.now }
    {
        self.value.as_ref()
    }
}

impl<T: Drop> Shared<T> {
    /// A further owner of the value. It allocates nothing.
    ///
    /// # Errors
    /// Where there are too many owners to count, `usize::MAX`.
    pub fn share(&self) -> Result<Shared<T>, AllocError>
        ensures { IfOk result (λ shared. shared ≡ self.now) }
    {
        Ok(Shared {
            value: self.value.clone()?,
        })
    }
}
