//! The laws: each is the contract of a function with nothing to do.

ghost use Rattle.envelope.specs.declared.message.Envelope.{Envelope};
ghost use Rattle.laws_journals.specs.Agreement.{states_in, AreSound};
ghost use Rattle.laws_journals.specs.Envelopes.{IsAuthentic, SettledAreHandled};
ghost use Rattle.laws_journals.specs.Journals.{AreLawful};
ghost use Rattle.laws_stores.specs.Deeds.{DeedOfOne};
ghost use Rattle.laws_stores.specs.Good.{journals_of, settled_in, HoldsAuthentic};
ghost use Rattle.laws_stores.specs.Sight.{AllTables, all_empty};

/// A deed of one service that takes in, holds or settles only what is authentic, or was held, keeps the journals of all
/// three lawful, the settled marks behind the handling, and what is held and what was sent authentic.
pub fn a_deed_keeps_the_laws()
    ensures lawful { (x y : AllTables) → DeedOfOne (IsAuthentic (journals_of x)) x y → HoldsAuthentic x →
        AreLawful (journals_of x) → AreLawful (journals_of y) }
    ensures settled { (x y : AllTables) → DeedOfOne (IsAuthentic (journals_of x)) x y → HoldsAuthentic x →
        SettledAreHandled (journals_of x) (settled_in x) → SettledAreHandled (journals_of y) (settled_in y) }
    ensures held { (x y : AllTables) → DeedOfOne (IsAuthentic (journals_of x)) x y → HoldsAuthentic x → HoldsAuthentic y }
    ensures authentic { (x y : AllTables) (e : Envelope) → DeedOfOne (IsAuthentic (journals_of x)) x y → HoldsAuthentic x →
        IsAuthentic (journals_of x) e → IsAuthentic (journals_of y) e }
{}

/// Services that did nothing yet keep the laws.
pub fn empty_tables_keep_the_laws()
    ensures lawful { AreLawful (journals_of all_empty) }
    ensures settled { SettledAreHandled (journals_of all_empty) (settled_in all_empty) }
    ensures held { HoldsAuthentic all_empty }
{}

/// Where the journals are lawful the partners of each order agree, and nothing of a stock or of an account's limit is
/// lost or used twice.
pub fn lawful_tables_agree()
    ensures { (t : AllTables) → AreLawful (journals_of t) → AreSound (states_in (journals_of t)) }
{}
