//! Whole lives of programs, over a broker that hands on only what was written: each law is the contract of a function
//! with nothing to do.

ghost use Rattle.std.specs.Prelude.{[]};
ghost use Rattle.keep.specs.Tables.{Tables, empty};
ghost use Rattle.laws_journals.specs.Agreement.{states_in, AreSound};
ghost use Rattle.laws_journals.specs.Envelopes.{SettledAreHandled};
ghost use Rattle.laws_journals.specs.Journals.{AreLawful};
// A life is no step: of two programs that run for a day, each reads what the other writes meanwhile, so neither comes
// first. So what was written has to be true by the writer's journal at its end, which appended rows keep.
ghost use Rattle.laws_services.specs.Lives.{Post, both_lives, HasLived, Lives, HaveLived};
ghost use Rattle.laws_stores.specs.Good.{journals_of, settled_in};
ghost use Rattle.laws_stores.specs.Sight.{AllTables};

use activities::Handler;

/// A service that did nothing yet has lived, and read and wrote nothing; and one that has lived has lived to the end of
/// one more life, whatever content that life found.
pub fn lives_go_on<H>()
where
    H: Handler,
    ensures new { HasLived H.service (record { read = []; written = [] }) empty }
    ensures life { (earlier later : Post) (found t : Tables H.State H.Command) → HasLived H.service earlier found →
        Lives H.service later found t → HasLived H.service (both_lives earlier later) t }
{}

/// Three services whose lives overlapped in whatever way, and that read nothing but what one of them wrote: their
/// journals are lawful, what is marked as settled was handled, the partners of each order agree, and nothing of a stock
/// or of an account's limit is lost or used twice.
pub fn overlapping_lives_agree()
    ensures lawful { (t : AllTables) → HaveLived t → AreLawful (journals_of t) }
    ensures settled { (t : AllTables) → HaveLived t → SettledAreHandled (journals_of t) (settled_in t) }
    ensures agree { (t : AllTables) → HaveLived t → AreSound (states_in (journals_of t)) }
{}
