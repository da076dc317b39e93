//! The world of three services, and its events, one after another.

ghost use Rattle.laws_stores.specs.Good.{IsGood};
ghost use Rattle.laws_stores.specs.Sight.{AllTables, MayLeave, all_empty};
ghost use Rattle.schedule_mail.specs.Mails.{new_mail};
ghost use Rattle.schedule_runner.specs.Deeds.{In, InPurchasing, InWarehouse, InBilling, Same, Step, Goes};
ghost use Rattle.schedule_runner.specs.Good.{IsGoodWorld, StaysGood, Agrees};
ghost use Rattle.schedule_runner.specs.Passing.{Both, Passes, Passed, PassesAll};
ghost use Rattle.schedule_runner.specs.Paths.{Makes, MakesApart, IsPath};
ghost use Rattle.schedule_runner.specs.Rounds.{connection_events, service_events, round_events, all_rounds};
ghost use Rattle.schedule_runner.specs.Runs.{Ran};
ghost use Rattle.schedule_runner.specs.Sight.{sight, StaysClean, StaysMatching};
ghost use Rattle.schedule_runner.specs.Steps.{At, AtPurchasing, AtWarehouse, AtBilling, AtMail, SendsAgain, BeginsAnew};
ghost use Rattle.schedule_runner.specs.Steps.{WorldStep};
ghost use Rattle.schedule_runner.specs.Told.{Told};
ghost use Rattle.schedule_service.specs.SiteEvents.{Commits};
ghost use Rattle.std.specs.Prelude.{◌≡◌, None, ◌∷◌, []};

use crate::acting::{ServiceEvent, act};
use billing::{Account, Accounts};
use endpoint::Endpoint;
use keep::{Faulty, Keep};
use purchasing::{Order, Orders};
use schedule_mail::Mail;
use schedule_service::Site;
use schedule_text::{
    ConnectionName, ConnectionNumber, Event, Ordinal, Outcome, Rounds, SeatCommand, ServiceName,
};
use std::alloc::{AllocError, Global};
use stomp_wire::Way;
use trade::{AccountCommand, OrderCommand, StockCommand};
use warehouse::{Stock, Stocks};

/// Purchasing, warehouse and billing, each with its connections, and the mail between them.
pub struct World<KO, KS, KA>
where
    KO: Keep<State = Option<Order>, Command = OrderCommand> + Drop,
    KS: Keep<State = Stock, Command = StockCommand> + Drop,
    KA: Keep<State = Account, Command = AccountCommand> + Drop,
{
    /// The service that has the orders.
    pub purchasing: Site<Orders, KO>,
    /// The service that has the stocks.
    pub warehouse: Site<Stocks, KS>,
    /// The service that has the accounts.
    pub billing: Site<Accounts, KA>,
    /// The broker, and all that was ever accepted.
    pub mail: Mail,
    pub(crate) alloc: Global,
}

/// Written by hand, so that a crate that owns a world doesn't prove anew how each of its parts is dropped.
impl<KO, KS, KA> Drop for World<KO, KS, KA>
where
    KO: Keep<State = Option<Order>, Command = OrderCommand> + Drop,
    KS: Keep<State = Stock, Command = StockCommand> + Drop,
    KA: Keep<State = Account, Command = AccountCommand> + Drop,
{
    fn drop(self) {
        let World {
            purchasing: _purchasing,
            warehouse: _warehouse,
            billing: _billing,
            mail: _mail,
            alloc: _,
        } = self;
    }
}

impl<KO, KS, KA> World<KO, KS, KA>
where
    KO: Keep<State = Option<Order>, Command = OrderCommand> + Drop,
    KS: Keep<State = Stock, Command = StockCommand> + Drop,
    KA: Keep<State = Account, Command = AccountCommand> + Drop,
{
    /// Three services over their stores, with no connection, and a broker that accepted nothing. It takes no memory.
    pub fn open(
        alloc: Global,
        purchasing: Endpoint<Orders, Faulty<KO>>,
        warehouse: Endpoint<Stocks, Faulty<KS>>,
        billing: Endpoint<Accounts, Faulty<KA>>,
    ) -> Self
        ensures purchasing { result.purchasing ≡ record { endpoint = purchasing; zero = None; one = None } }
        ensures warehouse { result.warehouse ≡ record { endpoint = warehouse; zero = None; one = None } }
        ensures billing { result.billing ≡ record { endpoint = billing; zero = None; one = None } }
        ensures mail { result.mail ≡ new_mail }
        ensures good { IsGood (sight KO.seen KS.seen KA.seen result) → IsGoodWorld KO.seen KS.seen KA.seen result }
        ensures unused { ((t : AllTables) → MayLeave (sight KO.seen KS.seen KA.seen result) t → t ≡ all_empty)
            → IsGoodWorld KO.seen KS.seen KA.seen result }
    {
        World {
            purchasing: Site::new(purchasing),
            warehouse: Site::new(warehouse),
            billing: Site::new(billing),
            mail: Mail::new(alloc),
            alloc,
        }
    }

    /// A command to an order.
    fn order(&mut self, asked: &SeatCommand<OrderCommand>) -> Outcome
        ensures { Passes KO.seen KS.seen KA.seen (AtPurchasing KO.seen KS.seen KA.seen (Commits asked.now) result)
            (Both (AtPurchasing KO.seen KS.seen KA.seen (Commits asked.now) result)
            (InPurchasing (Commits asked.now) result))
            self.old self.new }
    {
        // A command sends nothing yet. The mail is lent for a store that fails, which cuts both connections.
        self.purchasing.commit(self.alloc, &mut self.mail, asked)
    }

    /// A command to a stock.
    fn stock(&mut self, asked: &SeatCommand<StockCommand>) -> Outcome
        ensures { Passes KO.seen KS.seen KA.seen (AtWarehouse KO.seen KS.seen KA.seen (Commits asked.now) result)
            (Both (AtWarehouse KO.seen KS.seen KA.seen (Commits asked.now) result)
            (InWarehouse (Commits asked.now) result))
            self.old self.new }
    {
        self.warehouse.commit(self.alloc, &mut self.mail, asked)
    }

    /// A command to an account.
    fn account(&mut self, asked: &SeatCommand<AccountCommand>) -> Outcome
        ensures { Passes KO.seen KS.seen KA.seen (AtBilling KO.seen KS.seen KA.seen (Commits asked.now) result)
            (Both (AtBilling KO.seen KS.seen KA.seen (Commits asked.now) result) (InBilling (Commits asked.now) result))
            self.old self.new }
    {
        self.billing.commit(self.alloc, &mut self.mail, asked)
    }

    /// What a service does but for commands.
    pub(crate) fn at(&mut self, service: ServiceName, event: ServiceEvent) -> Outcome
        ensures { Passes KO.seen KS.seen KA.seen (At KO.seen KS.seen KA.seen service event result)
            (Both (At KO.seen KS.seen KA.seen service event result) (In service event result)) self.old self.new }
    {
        match service {
            ServiceName::Purchasing => {
                act::<Orders, KO>(self.alloc, &mut self.purchasing, &mut self.mail, event)
            }
            ServiceName::Warehouse => {
                act::<Stocks, KS>(self.alloc, &mut self.warehouse, &mut self.mail, event)
            }
            ServiceName::Billing => {
                act::<Accounts, KA>(self.alloc, &mut self.billing, &mut self.mail, event)
            }
        }
    }

    /// An accepted message is sent again.
    fn repeat(&mut self, place: Ordinal) -> Outcome
        ensures { Passes KO.seen KS.seen KA.seen (AtMail (SendsAgain place result))
            (Both (AtMail (SendsAgain place result)) Same)
            self.old self.new }
    {
        match self.mail.repeat(place.get()) {
            Ok(Some(number)) => Outcome::Again(number),
            Ok(None) => Outcome::Absent,
            Err(fault) => Outcome::Refused(fault.number()),
        }
    }

    /// All connections are cut, and a new broker begins.
    fn stop_broker(&mut self) -> Outcome
        ensures { Passes KO.seen KS.seen KA.seen (BeginsAnew result) (Both (BeginsAnew result) Same) self.old self.new }
    {
        // Cut before the restart: a new broker numbers its sessions from 1 again, so an old number would be another's.
        self.purchasing.disconnect(&mut self.mail);
        self.warehouse.disconnect(&mut self.mail);
        self.billing.disconnect(&mut self.mail);
        match self.mail.restart() {
            Ok(()) => Outcome::Stopped,
            // The broker stays, with its messages, but no connection is open any more.
            Err(_) => Outcome::Refused(34),
        }
    }

    /// Makes an event.
    pub(crate) fn single_step(&mut self, event: &Event) -> Outcome
        ensures { Passes KO.seen KS.seen KA.seen
            (MakesApart (Passed KO.seen KS.seen KA.seen) (WorldStep KO.seen KS.seen KA.seen) event.now result)
            (Makes (Step KO.seen KS.seen KA.seen) event.now result) self.old self.new }
    {
        match event {
            Event::Order(asked) => self.order(asked),
            Event::Stock(asked) => self.stock(asked),
            Event::Account(asked) => self.account(asked),
            Event::Open(name) => self.at(name.service, ServiceEvent::Open(name.number)),
            Event::Cut(name) => self.at(name.service, ServiceEvent::Cut(name.number)),
            Event::Fill(name, limit) => {
                self.at(name.service, ServiceEvent::Fill(name.number, *limit))
            }
            Event::Resend(name) => self.at(name.service, ServiceEvent::Resend(name.number)),
            Event::Carry(name, way, most) => {
                self.at(name.service, ServiceEvent::Carry(name.number, *way, *most))
            }
            Event::Take(name) => self.at(name.service, ServiceEvent::Take(name.number)),
            Event::Drain(name) => self.at(name.service, ServiceEvent::Drain(name.number)),
            Event::Fail(service, n, leaves) => self.at(*service, ServiceEvent::Fail(*n, *leaves)),
            Event::Reopen(service) => self.at(*service, ServiceEvent::Reopen),
            Event::Stop(service) => self.at(*service, ServiceEvent::Stop),
            Event::Repeat(place) => self.repeat(*place),
            Event::StopBroker => self.stop_broker(),
            Event::Pump(rounds) => {
                // A pump is many steps and reports none: what isn't open, or has nothing to do, is passed over.
                self.pump(*rounds);
                Outcome::Pumped
            }
            Event::Show(entity) => self.show(entity),
            Event::Pair(pair) => self.pair(pair),
            Event::Frames(service) => self.frames(*service),
            Event::Journal(service) => self.journal(*service),
            Event::Agreement => self.tell_agreement(),
        }
    }

    /// What a round does with one connection.
    fn pump_connection(&mut self, name: ConnectionName)
        ensures { PassesAll KO.seen KS.seen KA.seen (connection_events name) self.old self.new }
    {
        // The numbers are part of the format: a schedule that writes a round out, line by line, does the same.
        self.at(name.service, ServiceEvent::Fill(name.number, 64));
        self.at(
            name.service,
            ServiceEvent::Carry(name.number, Way::Up, 1_048_576),
        );
        self.at(
            name.service,
            ServiceEvent::Carry(name.number, Way::Down, 1_048_576),
        );
        // Without a look at what came: a take without a frame changes nothing. `taken` is for the loop's invariant.
        for taken in 0..16_u8 {
            self.at(name.service, ServiceEvent::Take(name.number));
        }
    }

    /// What a round does at one service.
    fn pump_service(&mut self, service: ServiceName)
        ensures { PassesAll KO.seen KS.seen KA.seen (service_events service) self.old self.new }
    {
        let zero = ConnectionName {
            service,
            number: ConnectionNumber::Zero,
        };
        let one = ConnectionName {
            service,
            number: ConnectionNumber::One,
        };
        self.pump_connection(zero);
        self.pump_connection(one);
        // Held letters are the service's and not a connection's, so one drain a round is for both.
        self.at(service, ServiceEvent::Drain(ConnectionNumber::Zero));
    }

    /// One round.
    fn round(&mut self)
        ensures { PassesAll KO.seen KS.seen KA.seen round_events self.old self.new }
    {
        // The service that asks comes first: both others take its letters in the same round.
        self.pump_service(ServiceName::Purchasing);
        self.pump_service(ServiceName::Warehouse);
        self.pump_service(ServiceName::Billing);
    }

    /// So many rounds.
    pub(crate) fn pump(&mut self, rounds: Rounds)
        ensures { PassesAll KO.seen KS.seen KA.seen (all_rounds rounds) self.old self.new }
    {
        for done in 0..rounds.get() {
            self.round();
        }
    }

    /// Makes one event, and tells what became of it.
    #[tactic(auto, using(crate::proofs::Righting::good_agree))]
    pub fn step(&mut self, event: &Event) -> Outcome
        ensures clean { StaysClean KO.seen KS.seen KA.seen self.old self.new }
        ensures matching { StaysMatching KO.seen KS.seen KA.seen self.old self.new }
        ensures good { StaysGood KO.seen KS.seen KA.seen self.old self.new }
        ensures agree { Agrees KO.seen KS.seen KA.seen self.old self.new }
        ensures did { Makes (Passed KO.seen KS.seen KA.seen) event.now result self.old self.new }
        ensures goes { Goes KO.seen KS.seen KA.seen (event.now ∷ []) (result ∷ []) self.old self.new }
        ensures passes { Passes KO.seen KS.seen KA.seen (Makes (Passed KO.seen KS.seen KA.seen) event.now result)
            (Makes (Step KO.seen KS.seen KA.seen) event.now result) self.old self.new }
    {
        // A call of its own with one clause, from which those of `step` and of `run` follow by a lemma.
        self.single_step(event)
    }

    /// Makes these events, one after another, and appends what became of each.
    ///
    /// # Errors
    /// Where there was no room for an outcome: its event isn't made then, nor any after it.
    #[tactic(auto, using(crate::proofs::Righting::good_agree))]
    pub fn run(&mut self, events: &[Event], outcomes: &mut Vec<Outcome>) -> Result<(), AllocError>
        ensures clean { StaysClean KO.seen KS.seen KA.seen self.old self.new }
        ensures matching { StaysMatching KO.seen KS.seen KA.seen self.old self.new }
        ensures good { StaysGood KO.seen KS.seen KA.seen self.old self.new }
        ensures agree { Agrees KO.seen KS.seen KA.seen self.old self.new }
        ensures did { Ran (λ es os. IsPath (Makes (Passed KO.seen KS.seen KA.seen)) es os self.old self.new)
            events.now outcomes.old.items outcomes.new.items result }
        ensures goes { Ran (λ es os. Goes KO.seen KS.seen KA.seen es os self.old self.new)
            events.now outcomes.old.items outcomes.new.items result }
        ensures told { Ran (λ es os. Told KO.seen KS.seen KA.seen es os self.old self.new)
            events.now outcomes.old.items outcomes.new.items result }
    {
        for event in events {
            // Room first: an event that ran without room for its outcome would go unreported.
            match outcomes.reserve(1) {
                Ok(()) => {}
                Err(_) => return Err(AllocError),
            }
            let outcome = self.single_step(event);
            outcomes.push_reserved(outcome);
        }
        Ok(())
    }
}
