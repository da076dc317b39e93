//! The law: the contract of a function with nothing to do.

ghost use Rattle.std.specs.Prelude.{◌≡◌, true};
ghost use Rattle.laws_journals.specs.Journals.{AreLawful};
ghost use Rattle.laws_stores.specs.Good.{journals_of};
ghost use Rattle.laws_stores.specs.Sight.{AllTables, orders_service, stocks_service, accounts_service};
ghost use Rattle.endpoint.specs.Matches.{TablesMatchJournal};
ghost use Rattle.schedule_audit.specs.Agree.{partners_agree};

use laws_stores::lawful_tables_agree;

/// Where the tables of each service match its journal, and the three journals are lawful, the partners of all orders
/// agree.
pub fn lawful_services_agree()
    ensures { (t : AllTables) → TablesMatchJournal orders_service t.purchasing
        → TablesMatchJournal stocks_service t.warehouse
        → TablesMatchJournal accounts_service t.billing → AreLawful (journals_of t)
        → partners_agree t.purchasing t.warehouse t.billing ≡ true }
{
    lawful_tables_agree();
}
