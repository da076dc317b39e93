//! What names a run of a service, and the connections of a run.

ghost use Rattle.std.specs.Prelude.{Option, None, ⊤};
ghost use Rattle.told_lock.specs.Keys.{LockName, no_name};

use std::marker::Brand;

/// Names one run of a service, for what lies under a connection's lock and can't hold the service: its lock, and what has
/// to be so that what is written is true. Each call of `run_service` picks it.
pub trait Naming<T, L> {
    ghost use Rattle.std.specs.Prelude.{Option};

    ghost lock: { LockName T };

    // What has to be so.
    ghost sound: { Type 0 };

    // What is so of the links of the connections that were given, each as it was when its connection was opened.
    ghost given: { L → Type 0 };

    // The endpoint that was found when the service's life began, where that is said.
    ghost found: { Option T };
}

impl<T, L> Naming<T, L> for Brand {
    ghost lock = { no_name };

    ghost sound = { ⊤ };

    ghost given = { λ link. ⊤ };

    ghost found = { None };
}

/// Names the connections of one run, for what comes on them. Each run picks it.
pub(crate) trait RunNaming<L> {
    ghost use Rattle.std.specs.Prelude.{ℕ, Option};

    // The link that a connection began with, by its number, where there was one when the run began.
    ghost begun: { ℕ → Option L };
}

impl<L> RunNaming<L> for Brand {
    ghost use Rattle.std.specs.Prelude.{None};

    ghost begun = { λ number. None };
}
