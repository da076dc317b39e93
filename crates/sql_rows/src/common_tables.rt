//! The tables of every service, as they are made.

ghost use Rattle.std.specs.Prelude.{◌≡◌, OnOk, IsTrue, [], ◌∷◌, ◌++◌};
ghost use Rattle.sqlite.specs.Held.{state};
ghost use Rattle.sqlite.specs.State.{HasCleanDisk};
ghost use Rattle.sql_rows.specs.Schema.{AreMade, IsUnderWay, Makes, common_tables, journal, outbox, out_marks};
ghost use Rattle.sql_rows.specs.Schema.{in_marks, held};

use crate::statements::write;
use sqlite::{Alter, Error, Transaction};

/// Makes the table of what the entities processed.
fn create_journal<S: Alter>(tx: &mut Transaction<'_, S>) -> Result<usize, Error>
    requires made { HasCleanDisk (state S.Store tx.old.conn.now) → AreMade [] (state S.Store tx.old.conn.now).now }
    requires inside { HasCleanDisk (state S.Store tx.old.conn.now)
        → IsTrue (state S.Store tx.old.conn.now).in_transaction }
    ensures same_reference { tx.new.conn.ghost_name ≡ tx.old.conn.ghost_name }
    ensures ok { HasCleanDisk (state S.Store tx.new.conn.now)
        → OnOk result (Makes (journal ∷ []) (state S.Store tx.old.conn.now) (state S.Store tx.new.conn.now)) }
    ensures on { IsUnderWay (state S.Store tx.old.conn.now) (state S.Store tx.new.conn.now) }
{
    // STRICT, here and below: a column holds values of its own type alone.
    write(
        tx,
        "CREATE TABLE journal (pos INTEGER PRIMARY KEY, entity TEXT NOT NULL, seat INTEGER, \
         sender TEXT, number INTEGER, body TEXT NOT NULL) STRICT",
        &[],
    )
}

/// Makes the table of the letters that were sent and aren't settled.
fn create_outbox<S: Alter>(tx: &mut Transaction<'_, S>) -> Result<usize, Error>
    requires made { HasCleanDisk (state S.Store tx.old.conn.now)
        → AreMade (journal ∷ []) (state S.Store tx.old.conn.now).now }
    requires inside { HasCleanDisk (state S.Store tx.old.conn.now)
        → IsTrue (state S.Store tx.old.conn.now).in_transaction }
    ensures same_reference { tx.new.conn.ghost_name ≡ tx.old.conn.ghost_name }
    ensures ok { HasCleanDisk (state S.Store tx.new.conn.now)
        → OnOk result (Makes (journal ∷ outbox ∷ [])
        (state S.Store tx.old.conn.now) (state S.Store tx.new.conn.now)) }
    ensures on { IsUnderWay (state S.Store tx.old.conn.now) (state S.Store tx.new.conn.now) }
{
    // The key is the order in which letters are listed: by pair, and then by number.
    write(
        tx,
        "CREATE TABLE outbox (sender TEXT NOT NULL, receiver TEXT NOT NULL, \
         number INTEGER NOT NULL, body TEXT NOT NULL, \
         PRIMARY KEY (sender, receiver, number)) STRICT",
        &[],
    )
}

/// Makes the table of the last numbers sent and settled.
fn create_out_marks<S: Alter>(tx: &mut Transaction<'_, S>) -> Result<usize, Error>
    requires made { HasCleanDisk (state S.Store tx.old.conn.now)
        → AreMade (journal ∷ outbox ∷ []) (state S.Store tx.old.conn.now).now }
    requires inside { HasCleanDisk (state S.Store tx.old.conn.now)
        → IsTrue (state S.Store tx.old.conn.now).in_transaction }
    ensures same_reference { tx.new.conn.ghost_name ≡ tx.old.conn.ghost_name }
    ensures ok { HasCleanDisk (state S.Store tx.new.conn.now)
        → OnOk result (Makes (journal ∷ outbox ∷ out_marks ∷ [])
        (state S.Store tx.old.conn.now) (state S.Store tx.new.conn.now)) }
    ensures on { IsUnderWay (state S.Store tx.old.conn.now) (state S.Store tx.new.conn.now) }
{
    // The check refuses a mark above what was sent, whatever the code before it does.
    write(
        tx,
        "CREATE TABLE out_marks (sender TEXT NOT NULL, receiver TEXT NOT NULL, \
         sent INTEGER NOT NULL, settled INTEGER NOT NULL CHECK (settled <= sent), \
         PRIMARY KEY (sender, receiver)) STRICT",
        &[],
    )
}

/// Makes the table of the last numbers handled.
fn create_in_marks<S: Alter>(tx: &mut Transaction<'_, S>) -> Result<usize, Error>
    requires made { HasCleanDisk (state S.Store tx.old.conn.now)
        → AreMade (journal ∷ outbox ∷ out_marks ∷ []) (state S.Store tx.old.conn.now).now }
    requires inside { HasCleanDisk (state S.Store tx.old.conn.now)
        → IsTrue (state S.Store tx.old.conn.now).in_transaction }
    ensures same_reference { tx.new.conn.ghost_name ≡ tx.old.conn.ghost_name }
    ensures ok { HasCleanDisk (state S.Store tx.new.conn.now)
        → OnOk result (Makes (journal ∷ outbox ∷ out_marks ∷ in_marks ∷ [])
        (state S.Store tx.old.conn.now) (state S.Store tx.new.conn.now)) }
    ensures on { IsUnderWay (state S.Store tx.old.conn.now) (state S.Store tx.new.conn.now) }
{
    // 1099511627776 is 2^40, the last number that a letter can have. A proof needs this check: one more than such a
    // mark is a number, and no fraction.
    write(
        tx,
        "CREATE TABLE in_marks (sender TEXT NOT NULL, receiver TEXT NOT NULL, \
         handled INTEGER NOT NULL CHECK (handled >= 0 AND handled <= 1099511627776), \
         PRIMARY KEY (sender, receiver)) STRICT",
        &[],
    )
}

/// Makes the table of the letters that came too early.
fn create_held<S: Alter>(tx: &mut Transaction<'_, S>) -> Result<usize, Error>
    requires made { HasCleanDisk (state S.Store tx.old.conn.now)
        → AreMade (journal ∷ outbox ∷ out_marks ∷ in_marks ∷ []) (state S.Store tx.old.conn.now).now }
    requires inside { HasCleanDisk (state S.Store tx.old.conn.now)
        → IsTrue (state S.Store tx.old.conn.now).in_transaction }
    ensures same_reference { tx.new.conn.ghost_name ≡ tx.old.conn.ghost_name }
    ensures ok { HasCleanDisk (state S.Store tx.new.conn.now)
        → OnOk result (Makes (journal ∷ outbox ∷ out_marks ∷ in_marks ∷ held ∷ [])
        (state S.Store tx.old.conn.now) (state S.Store tx.new.conn.now)) }
    ensures on { IsUnderWay (state S.Store tx.old.conn.now) (state S.Store tx.new.conn.now) }
{
    // The key has the number: of two early letters with one number there is one row.
    write(
        tx,
        "CREATE TABLE held (sender TEXT NOT NULL, receiver TEXT NOT NULL, number INTEGER NOT NULL, \
         body TEXT NOT NULL, PRIMARY KEY (sender, receiver, number)) STRICT",
        &[],
    )
}

/// Makes the tables of the journal, of the outbox and of the marks of what is sent.
#[tactic(auto, using(crate::proofs::Creates::then_makes, crate::proofs::Creates::then_goes_on))]
fn create_outgoing<S: Alter>(tx: &mut Transaction<'_, S>) -> Result<usize, Error>
    requires made { HasCleanDisk (state S.Store tx.old.conn.now) → AreMade [] (state S.Store tx.old.conn.now).now }
    requires inside { HasCleanDisk (state S.Store tx.old.conn.now)
        → IsTrue (state S.Store tx.old.conn.now).in_transaction }
    ensures same_reference { tx.new.conn.ghost_name ≡ tx.old.conn.ghost_name }
    ensures ok { HasCleanDisk (state S.Store tx.new.conn.now)
        → OnOk result (Makes (journal ∷ outbox ∷ out_marks ∷ [])
        (state S.Store tx.old.conn.now) (state S.Store tx.new.conn.now)) }
    ensures on { IsUnderWay (state S.Store tx.old.conn.now) (state S.Store tx.new.conn.now) }
{
    create_journal(tx)?;
    create_outbox(tx)?;
    create_out_marks(tx)
}

/// Makes the tables of the marks of what arrives and of held letters.
#[tactic(auto, using(crate::proofs::Creates::then_makes, crate::proofs::Creates::then_goes_on))]
fn create_incoming<S: Alter>(tx: &mut Transaction<'_, S>) -> Result<usize, Error>
    requires made { HasCleanDisk (state S.Store tx.old.conn.now)
        → AreMade (journal ∷ outbox ∷ out_marks ∷ []) (state S.Store tx.old.conn.now).now }
    requires inside { HasCleanDisk (state S.Store tx.old.conn.now)
        → IsTrue (state S.Store tx.old.conn.now).in_transaction }
    ensures same_reference { tx.new.conn.ghost_name ≡ tx.old.conn.ghost_name }
    ensures ok { HasCleanDisk (state S.Store tx.new.conn.now)
        → OnOk result (Makes common_tables (state S.Store tx.old.conn.now) (state S.Store tx.new.conn.now)) }
    ensures on { IsUnderWay (state S.Store tx.old.conn.now) (state S.Store tx.new.conn.now) }
{
    create_in_marks(tx)?;
    create_held(tx)
}

/// Makes the five tables that every service has.
#[tactic(auto, using(crate::proofs::Creates::then_makes, crate::proofs::Creates::then_goes_on))]
pub fn create_common<S: Alter>(tx: &mut Transaction<'_, S>) -> Result<usize, Error>
    requires made { HasCleanDisk (state S.Store tx.old.conn.now) → AreMade [] (state S.Store tx.old.conn.now).now }
    requires inside { HasCleanDisk (state S.Store tx.old.conn.now)
        → IsTrue (state S.Store tx.old.conn.now).in_transaction }
    ensures same_reference { tx.new.conn.ghost_name ≡ tx.old.conn.ghost_name }
    ensures ok { HasCleanDisk (state S.Store tx.new.conn.now)
        → OnOk result (Makes common_tables (state S.Store tx.old.conn.now) (state S.Store tx.new.conn.now)) }
    ensures on { IsUnderWay (state S.Store tx.old.conn.now) (state S.Store tx.new.conn.now) }
{
    create_outgoing(tx)?;
    create_incoming(tx)
}
