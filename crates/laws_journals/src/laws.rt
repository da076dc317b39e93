//! The laws: each is the contract of a function with nothing to do.

ghost use Rattle.std.specs.Prelude.{◌≡◌, ◌≤◌, ℕ};
ghost use Rattle.base.specs.Entity.{Entity};
ghost use Rattle.base.specs.declared.entity.Kind.TheVariants.{Order};
ghost use Rattle.base.specs.declared.pair.Pair.{Pair};
ghost use Rattle.envelope.specs.declared.message.Envelope.{Envelope};
ghost use Rattle.envelope.specs.declared.message.Envelope.TheVariants.{Settle};
ghost use Rattle.trade.specs.Sound.{IsOrderSound, IsStockSound, IsAccountSound};
ghost use Rattle.laws_journals.specs.Agreement.{states_in, line_at, PartnersAgree, RefusedAreLeftAlone, AreSound};
ghost use Rattle.laws_journals.specs.Envelopes.{IsAuthentic, SettledAreHandled, Raises};
ghost use Rattle.laws_journals.specs.Growth.{AddsRow, Grows};
ghost use Rattle.laws_journals.specs.Journals.{Journals, AreLawful, HandlesPrefixes, sent_in};
ghost use Rattle.laws_journals.specs.Steps.{Configuration, IsGoodConfiguration, Reaches, ConfigurationStep, start};

/// One row of one service, whichever it is, keeps lawful journals lawful, takes nothing away that was sent or handled,
/// and so keeps marks behind the handling and envelopes authentic.
pub fn a_row_keeps_the_laws()
    ensures lawful { (js later : Journals) → AddsRow js later → AreLawful js → AreLawful later }
    ensures grows { (js later : Journals) → AddsRow js later → Grows js later }
    ensures settled { (js later : Journals) (settled : Pair → ℕ) →
        Grows js later → SettledAreHandled js settled → SettledAreHandled later settled }
    ensures authentic { (js later : Journals) (e : Envelope) → Grows js later → IsAuthentic js e → IsAuthentic later e }
{}

/// A settled mark that is raised by an authentic settle stays behind the handling, and no mark is taken back, also
/// where an older settle arrives behind a newer one.
pub fn a_mark_keeps_the_laws()
    ensures settled { (js : Journals) (pair : Pair) (count : ℕ) (settled later : Pair → ℕ) →
        IsAuthentic js (Settle pair count) → Raises pair count settled later → SettledAreHandled js settled
        → SettledAreHandled js later }
    ensures marks { (pair other : Pair) (count : ℕ) (settled later : Pair → ℕ) →
        Raises pair count settled later → settled other ≤ later other }
{}

/// Whatever arrives, is lost, arrives again or in another order: the journals stay lawful, what is marked settled was
/// handled, and every envelope that was ever sent is authentic. So it is from the beginning on, and from every good
/// configuration.
pub fn stays_lawful()
    ensures start { IsGoodConfiguration start }
    ensures step { (old new : Configuration) → ConfigurationStep old new → IsGoodConfiguration old
        → IsGoodConfiguration new }
    ensures good { (old new : Configuration) → Reaches old new → IsGoodConfiguration old → IsGoodConfiguration new }
    ensures lawful { (new : Configuration) → Reaches start new → AreLawful new.journals }
    ensures settled { (new : Configuration) → Reaches start new → SettledAreHandled new.journals new.settled }
{}

/// Nothing that was sent or handled goes away, what was authentic once stays authentic, and no mark is taken back.
pub fn stays_authentic()
    ensures grows { (old new : Configuration) → Reaches old new → Grows old.journals new.journals }
    ensures authentic { (old new : Configuration) (e : Envelope) →
        Reaches old new → IsAuthentic old.journals e → IsAuthentic new.journals e }
    ensures marks { (old new : Configuration) (pair : Pair) → Reaches old new → old.settled pair ≤ new.settled pair }
{}

/// Where each receiver handled a beginning of what was sent to it, each order and its partners agree: those of a
/// confirmed one hold what it asks for, or have shipped or billed it, and for no other is anything shipped or billed.
/// And nothing that came into a stock, and nothing of an account's limit, is ever lost or used twice.
pub fn agree()
    ensures partners { (js : Journals) → HandlesPrefixes js → (order : Entity) → order.kind ≡ Order →
        PartnersAgree ((states_in js).orders order) (line_at (states_in js) order) }
    ensures orders { (js : Journals) (e : Entity) → IsOrderSound ((states_in js).orders e) }
    ensures stocks { (js : Journals) (e : Entity) → IsStockSound ((states_in js).stocks e) }
    ensures accounts { (js : Journals) (e : Entity) → IsAccountSound ((states_in js).accounts e) }
    ensures lawful { (js : Journals) → AreLawful js → AreSound (states_in js) }
    ensures in_each { (new : Configuration) → Reaches start new → AreSound (states_in new.journals) }
{}

/// A partner that refused isn't told to give anything back, whatever else happened.
pub fn refused_are_left_alone()
    ensures { (js : Journals) (order : Entity) → order.kind ≡ Order →
        RefusedAreLeftAlone ((states_in js).orders order) (λ p. sent_in js (record { from = order; to = p })) }
{}
