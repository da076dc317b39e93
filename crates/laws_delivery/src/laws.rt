//! What holds of two services among others. Each law is the contract of a function with nothing to do.

ghost use Rattle.std.specs.Prelude.{◌≢◌, Bool};
ghost use Rattle.base.specs.declared.pair.Pair.{Pair};
// `IsRunAmong` has the pairs as a parameter: where another service shares a kind with one of the two, the law can
// still be asked about pairs that it never touches.
ghost use Rattle.laws_delivery.specs.Good.{AreGood, AreMatching, AreClean, IsRunAmong};
ghost use Rattle.laws_delivery.specs.Good.{AllLegal, AllDelivered, TakenAreHandled};
// `Elsewhere` is met in two ways: by a kind of one's own, which contracts show, or by a journal without rows of the
// pairs.
ghost use Rattle.laws_delivery.specs.Two.{Two, Elsewhere, StepOfThird, StepOfStranger, DidNothing};

use activities::Handler;
use keep::Keep;

/// Two services with empty tables are good, whatever the others have done, and their tables match their journals.
pub fn two_new_services_are_good<H, K, G, L>()
where
    H: Handler,
    K: Keep<State = H::State, Command = H::Command>,
    G: Handler,
    L: Keep<State = G::State, Command = G::Command>,
    ensures good { (pairs : Pair → Bool) (w : Two K L) → DidNothing K.seen L.seen H.service G.service pairs w →
        AreGood K.seen L.seen H.service G.service pairs w }
    ensures matching { (pairs : Pair → Bool) (w : Two K L) → DidNothing K.seen L.seen H.service G.service pairs w →
        AreMatching K.seen L.seen H.service G.service w }
{}

/// Between any two services, whatever the others do and whatever a broker loses, repeats or reorders: both journals are
/// legal. Of each pair asked about, the receiver has handled a prefix of what the sender sent, each once and in order, and
/// what is settled was handled. If each unsettled letter was taken and the next one isn't held, all was handled.
pub fn any_two_services_deliver<H, K, G, L>()
where
    H: Handler,
    K: Keep<State = H::State, Command = H::Command>,
    G: Handler,
    L: Keep<State = G::State, Command = G::Command>,
    ensures legal { (pairs : Pair → Bool) (first last : Two K L) →
        IsRunAmong K.seen L.seen H.service G.service pairs first last →
        AllLegal K.seen L.seen H.service G.service last }
    ensures delivered { (pairs : Pair → Bool) (first last : Two K L) →
        IsRunAmong K.seen L.seen H.service G.service pairs first last →
        AllDelivered K.seen L.seen H.service G.service pairs last }
    ensures handled { (pairs : Pair → Bool) (first last : Two K L) →
        IsRunAmong K.seen L.seen H.service G.service pairs first last →
        TakenAreHandled K.seen L.seen H.service G.service pairs last }
    ensures good { (pairs : Pair → Bool) (first last : Two K L) →
        IsRunAmong K.seen L.seen H.service G.service pairs first last →
        AreGood K.seen L.seen H.service G.service pairs last }
    ensures matching { (pairs : Pair → Bool) (first last : Two K L) →
        IsRunAmong K.seen L.seen H.service G.service pairs first last →
        AreMatching K.seen L.seen H.service G.service last }
    ensures clean { (pairs : Pair → Bool) (first last : Two K L) →
        IsRunAmong K.seen L.seen H.service G.service pairs first last →
        AreClean K.seen L.seen H.service G.service first }
{}

/// A call of a third service, whose entities are of another kind than those of the two, does nothing between the two.
pub fn a_third_service_is_elsewhere<H, K, G, L, M, N>()
where
    H: Handler,
    K: Keep<State = H::State, Command = H::Command>,
    G: Handler,
    L: Keep<State = G::State, Command = G::Command>,
    M: Handler,
    N: Keep<State = M::State, Command = M::Command>,
    ensures { (pairs : Pair → Bool) (old new : N) (a b : Two K L) →
        StepOfThird N.seen M.service H.service G.service old new a b →
        Elsewhere H.service G.service pairs a b }
{}

/// A call of a service of whatever kind does nothing between the two, if in its journal no entity of a pair asked about has
/// a row, and it takes no letter of such a pair.
pub fn a_stranger_is_elsewhere<H, K, G, L, M, N>()
where
    H: Handler,
    K: Keep<State = H::State, Command = H::Command>,
    G: Handler,
    L: Keep<State = G::State, Command = G::Command>,
    M: Handler,
    N: Keep<State = M::State, Command = M::Command>,
    ensures { (pairs : Pair → Bool) (old new : N) (a b : Two K L) →
        StepOfStranger N.seen M.service H.service G.service pairs old new a b →
        Elsewhere H.service G.service pairs a b }
{}
