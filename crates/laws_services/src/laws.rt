//! What holds of three services over any broker: each law is the contract of a function with nothing to do.

ghost use Rattle.base.specs.declared.pair.Pair.{Pair};
ghost use Rattle.laws_journals.specs.Envelopes.{SettledAreHandled};
ghost use Rattle.laws_journals.specs.Journals.{HandlesPrefixes};
ghost use Rattle.laws_services.specs.Good.{AreGoodServices, IsRun, AllTaken, HoldsNoNext, AllHandled};
// `Services` are stores, and not one content of each: a failed call leaves either of two, and a reader would have to
// show that the choices of three services fit.
ghost use Rattle.laws_services.specs.Services.{Services, sight_of, DidNothing};
ghost use Rattle.laws_stores.specs.Good.{journals_of, settled_in, AllAgree};
ghost use Rattle.laws_stores.specs.Sight.{AllTables, MayLeave, AreClean, AreMatching};

use billing::Account;
use keep::Keep;
use purchasing::Order;
use trade::{AccountCommand, OrderCommand, StockCommand};
use warehouse::Stock;

/// Three services that did nothing yet are good, and their tables match their journals.
pub fn new_services_are_good<KO, KS, KA>()
where
    KO: Keep<State = Option<Order>, Command = OrderCommand>,
    KS: Keep<State = Stock, Command = StockCommand>,
    KA: Keep<State = Account, Command = AccountCommand>,
    ensures good { (w : Services KO KS KA) → DidNothing KO.seen KS.seen KA.seen w →
        AreGoodServices KO.seen KS.seen KA.seen w }
    ensures matching { (w : Services KO KS KA) → DidNothing KO.seen KS.seen KA.seen w →
        AreMatching (sight_of KO.seen KS.seen KA.seen w) }
{}

/// Whatever a broker loses, repeats or reorders, and whatever a stop leaves: where what services read was written, they
/// stay good, and the partners of each order agree; nothing of a stock or of an account's limit is lost or used twice.
pub fn any_broker_keeps_the_laws<KO, KS, KA>()
where
    KO: Keep<State = Option<Order>, Command = OrderCommand>,
    KS: Keep<State = Stock, Command = StockCommand>,
    KA: Keep<State = Account, Command = AccountCommand>,
    ensures good { (first last : Services KO KS KA) → IsRun KO.seen KS.seen KA.seen first last →
        AreGoodServices KO.seen KS.seen KA.seen last }
    ensures agree { (first last : Services KO KS KA) → IsRun KO.seen KS.seen KA.seen first last →
        AllAgree (sight_of KO.seen KS.seen KA.seen last) }
    ensures matching { (first last : Services KO KS KA) → IsRun KO.seen KS.seen KA.seen first last →
        AreMatching (sight_of KO.seen KS.seen KA.seen last) }
    ensures clean { (first last : Services KO KS KA) → IsRun KO.seen KS.seen KA.seen first last →
        AreClean (sight_of KO.seen KS.seen KA.seen first) }
{}

/// Each service has then handled, pair by pair, a beginning of what the sender's journal sends, once each and in its
/// order, and what is marked as settled was handled.
pub fn handled_is_a_beginning<KO, KS, KA>()
where
    KO: Keep<State = Option<Order>, Command = OrderCommand>,
    KS: Keep<State = Stock, Command = StockCommand>,
    KA: Keep<State = Account, Command = AccountCommand>,
    ensures handled { (first last : Services KO KS KA) → IsRun KO.seen KS.seen KA.seen first last →
        (t : AllTables) → MayLeave (sight_of KO.seen KS.seen KA.seen last) t → HandlesPrefixes (journals_of t) }
    ensures settled { (first last : Services KO KS KA) → IsRun KO.seen KS.seen KA.seen first last →
        (t : AllTables) → MayLeave (sight_of KO.seen KS.seen KA.seen last) t →
        SettledAreHandled (journals_of t) (settled_in t) }
{}

/// Where each letter of a pair that its sender doesn't mark as settled was taken, in whatever order, and the next one
/// doesn't wait, all that was sent on the pair was handled.
pub fn nothing_waits_all_was_handled<KO, KS, KA>()
where
    KO: Keep<State = Option<Order>, Command = OrderCommand>,
    KS: Keep<State = Stock, Command = StockCommand>,
    KA: Keep<State = Account, Command = AccountCommand>,
    ensures { (first last : Services KO KS KA) → IsRun KO.seen KS.seen KA.seen first last →
        (t : AllTables) → MayLeave (sight_of KO.seen KS.seen KA.seen last) t →
        (p : Pair) → AllTaken last.traffic t p → HoldsNoNext t p → AllHandled t p }
{}
