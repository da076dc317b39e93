//! One example for the page of each library that needs neither a schedule nor SQL.

ghost use Rattle.std.specs.Prelude.{◌≡◌, ◌≤◌, Bool, true, List, Option};
ghost use Rattle.laws_broker.specs.Runs.{NoLifeLosesAny};
ghost use Rattle.laws_broker.specs.Carried.{ReadMessagesWereSent};
ghost use Rattle.envelope.specs.declared.message.Envelope.{Envelope};
ghost use Rattle.keep.specs.Tables.{Tables};
ghost use Rattle.laws_delivery.specs.Good.{IsRunAmong, AllDelivered};
ghost use Rattle.laws_delivery.specs.Two.{Two};
ghost use Rattle.laws_lives.specs.Posts.{post_of};
ghost use Rattle.laws_services.specs.Frames.{CarriesWritten};
ghost use Rattle.laws_services.specs.Lives.{Post, both_lives, HasLived};
ghost use Rattle.laws_services.specs.Services.{Traffic};
ghost use Rattle.laws_services.specs.Steps.{IsFounded, Does};
ghost use Rattle.laws_stores.specs.Deeds.{DeedOfOne};
ghost use Rattle.laws_stores.specs.Good.{HoldsAuthentic, journals_of};
ghost use Rattle.laws_stores.specs.Sight.{AllTables};
ghost use Rattle.laws_journals.specs.Envelopes.{IsAuthentic};
ghost use Rattle.laws_journals.specs.Journals.{AreLawful};
ghost use Rattle.laws_journals.specs.Steps.{Configuration, Reaches};
ghost use Rattle.service_workers.specs.Lives.{LifeStands};
ghost use Rattle.service_workers.specs.declared.conn.Conn.{Conn};
ghost use Rattle.base.specs.declared.pair.Pair.{Pair};

use activities::{Handler, HandlerFault, Input, Outs};
use base::limits::{MAX_BODY, MAX_QUEUED};
use base::{Entity, EntityFault, Key, Kind, Number, Pair};
use billing::Accounts;
use broker_book::{Action, Mode, QueueFault, Sent, Shared};
use broker_core::{Broker, BrokerFault};
use broker_index::Destinations;
use broker_queues::Queues;
use broker_server::Stop;
use broker_tx::{TransactionFault, Transactions};
use channel::Channel;
use command_line::tell_bad_words;
use endpoint::{EndFault, Endpoint};
use envelope::{Envelope, EnvelopeFault, Letter, Message, to_send};
use hotel::{Room, Rooms};
use inbox::{Class, Rank, classify};
use keep::{Change, Keep, KeepFault};
use keep_plain::PlainKeep;
use last_states::LastStates;
use laws_broker::{each_message_was_sent, no_message_is_lost};
use laws_journals::stays_authentic;
use laws_lives::closed_lives_are_lives;
use laws_network::{Delivery, Event, Network, Outcome, exchange};
use laws_services::{frames_are_steps, lives_go_on};
use laws_stores::a_deed_keeps_the_laws;
use library::{TitleCommand, Titles};
use marks::Marks;
use outbox::settle;
use purchasing::Orders;
use receipts::{ReceiptFault, Receipts};
use reception::{ReceptionFault, Taken, Untaken, take_frame};
use relay::{Relay, RelayFault};
use resequencer::next_held;
use service_workers::Naming;
use std::alloc::{AllocError, Global};
use std::io;
use stomp_client::{ClientFault, ClientSession};
use stomp_frame::{Command, Decoder, Frame, FrameFault};
use stomp_session::{Headers, Octets, ServerSession, Text};
use stomp_wire::{Link, LinkFault, MemoryWire, Way, pump_out};
use streams::write_three;
use test_script::{LineFault, read_octets};
use text::{push_octets, read_number, unescape};
use trade::{AccountCommand, Items, OrderCommand, StockCommand};
use warehouse::Stocks;

// An entity is equal to the one that its text names.
pub fn an_entity_is_named_again(alloc: Global) -> Result<bool, EntityFault> {
    let key = Key::read(alloc, "o1")?;
    let order = Entity::new(alloc, Kind::Order, &key)?;
    let again = Entity::read(alloc, "order/o1")?;
    Ok(again == order)
}

// What a line can't hold is escaped and read back exactly. A number has one text, so `07` is none.
pub fn a_line_is_read_again(alloc: Global) -> Result<bool, AllocError> {
    let mut line = String::new(alloc);
    push_octets(&mut line, b"7\n")?;
    let octets = unescape(alloc, &line)?;
    let is_same = octets.is_some_and(|octets| octets.as_slice() == b"7\n".as_slice());
    Ok(is_same && line.as_str() == "7\\n" && read_number("07").is_none())
}

// A wire passes on only what it is asked to carry: 2 octets of 5.
pub fn what_was_put_is_taken(alloc: Global) -> Result<Vec<u8>, LinkFault> {
    let mut wire = MemoryWire::new(alloc);
    let _gone = pump_out(&mut wire.near, b"hello");
    wire.carry(Way::Up, 2)?;
    let mut taken = Vec::new(alloc);
    wire.far.take(&mut taken, 9)?;
    Ok(taken)
}

// Words and octets have different escapes: `\s` is a space in a word alone.
pub fn printed_octets_are_read(alloc: Global) -> Result<bool, LineFault> {
    let octets = read_octets(alloc, "two\\swords\\x00")?;
    let mut text = String::new(alloc);
    push_octets(&mut text, &octets)?;
    Ok(text.as_str() == "two words\\x00")
}

// Pieces may be cut anywhere, even within a header: the frame is the one that was written.
pub fn a_frame_is_read_from_pieces(alloc: Global) -> Result<bool, FrameFault> {
    let mut decoder: Decoder<65_536> = Decoder::new(alloc);
    decoder.feed(b"SEND\ndestination:/queue/bil")?;
    decoder.feed(b"ling\n\nhello\0")?;
    let found = decoder.next()?;
    Ok(found.is_some_and(|frame| frame.get("destination") == Some("/queue/billing")))
}

// A refusal is a number, here 21, and comes with the frame as it was.
pub fn a_frame_before_connect_is_refused(alloc: Global) -> Option<u8> {
    let mut session = ServerSession::new();
    let frame = Frame::new(alloc, Command::Disconnect);
    let refused = session.accept(frame).err()?;
    Some(refused.fault.number())
}

// In mode `client` an ACK answers earlier deliveries too, in `client-individual` its own alone.
pub fn answers_reach_back_in_mode_client() -> bool {
    Mode::Client.reaches(2, 1) && !Mode::Individual.reaches(2, 1)
}

// A queue is kept only while it has messages or subscribers: names that clients make up leave nothing.
pub fn an_idle_destination_is_closed(alloc: Global) -> Result<bool, QueueFault> {
    let name = Text::new(String::from_str(alloc, "/queue/a")?);
    let mut destinations = Destinations::new(alloc);
    destinations.open(&name)?;
    destinations.close(&name);
    Ok(destinations.get(&name).is_none())
}

// Each SEND that was accepted is listed until somebody asks: laws about loss count by that list.
pub fn a_message_is_accepted(alloc: Global) -> Result<usize, QueueFault> {
    let mut queues: Queues<MAX_QUEUED> = Queues::new(alloc);
    let sent = Sent {
        destination: Text::new(String::from_str(alloc, "/queue/a")?),
        headers: Headers::new(Vec::new(alloc)),
        body: Octets::new(Vec::new(alloc)),
    };
    queues.put(&Shared::new(alloc, sent)?)?;
    Ok(queues.take_accepted().len())
}

// Actions are kept, and not done: what does them is the COMMIT.
pub fn a_transaction_keeps_its_actions(alloc: Global) -> Result<usize, TransactionFault> {
    let mut transactions = Transactions::new(alloc);
    let name = Text::new(String::from_str(alloc, "t")?);
    transactions.begin(alloc, &name)?;
    transactions.add(&name, Action::Ack(1))?;
    let kept = transactions.actions(&name);
    Ok(kept.map_or(0, |actions| actions.len()))
}

// A broker needs no socket to be tried: octets go in and come out, cut anywhere.
pub fn a_broker_answers_connect(alloc: Global) -> Result<bool, BrokerFault> {
    let mut broker: Broker<MAX_QUEUED> = Broker::new(alloc);
    let session = broker.open()?;
    broker.feed(session, b"CONNECT\naccept-version:1.2\nho")?;
    let frames = broker.feed(session, b"st:h\n\n\0")?;
    let connected = b"CONNECTED\nversion:1.2\nheart-beat:0,0\n\n\0".as_slice();
    Ok(frames == 1 && broker.out(session) == connected)
}

pub fn a_server_is_asked_to_end() -> bool {
    let stop = Stop::new();
    stop.ask();
    stop.is_asked()
}

// A law is used by a call: the called function does nothing, and its contract proves this one.
pub fn what_wants_an_ack_stays_until_it_comes()
    ensures { NoLifeLosesAny }
{
    no_message_is_lost();
}

pub fn what_a_client_reads_was_sent()
    ensures { ReadMessagesWereSent }
{
    each_message_was_sent();
}

// A repeated RECEIPT finds no tag, so it can't report a SEND twice.
pub fn a_receipt_is_closed_once(alloc: Global) -> Result<bool, ReceiptFault> {
    let mut receipts = Receipts::new(alloc);
    let number = receipts.open('a')?;
    let tag = receipts.close(number);
    let again = receipts.close(number);
    Ok(tag == Some('a') && again.is_none())
}

// A client's call only appends octets; whoever has the socket takes them from there.
pub fn a_client_asks_to_connect(alloc: Global) -> Result<bool, ClientFault> {
    let mut client: ClientSession<u64> = ClientSession::new(alloc);
    client.connect()?;
    Ok(client.out() == b"CONNECT\naccept-version:1.2\nhost:outbox\n\n\0".as_slice())
}

pub fn three_parts_are_one_text(alloc: Global) -> io::Result<Vec<u8>> {
    let mut out = Vec::new(alloc);
    write_three(&mut out, b"7", b" ", b"8")?;
    Ok(out)
}

pub fn words_that_are_no_text_are_told(alloc: Global) -> io::Result<u8> {
    let mut err = Vec::new(alloc);
    tell_bad_words(&mut err, "hi NAME")
}

// A frame that can't be handled yet is put back, and no later one overtakes it.
pub fn a_time_is_written(alloc: Global) -> Result<String, AllocError> {
    match timed_log::Stamp::of_millis(951_782_400_007) {
        Some(stamp) => format!(in alloc; "{stamp}"),
        None => Ok(String::new(alloc)),
    }
}

pub fn a_frame_that_was_put_back_is_the_next(alloc: Global) -> Result<bool, FrameFault> {
    let mut channel = Channel::new(alloc);
    channel.feed(b"RECEIPT\nreceipt-id:1\n\n\0RECEIPT\nreceipt-id:2\n\n\0")?;
    let Some(first) = channel.next()? else {
        return Ok(false);
    };
    channel.put_back(first);
    let Some(again) = channel.next()? else {
        return Ok(false);
    };
    Ok(again.get("receipt-id") == Some("1"))
}

// A read is never below what its own seat has raised. That it is the greatest of all is known once all seats are
// closed.
pub fn a_mark_is_the_greatest_number_raised(alloc: Global) -> Result<bool, AllocError> {
    let (marks, mut seats) = Marks::open(alloc, 1, 2)?;
    marks.raise(&mut seats[0], 0, 5);
    marks.raise(&mut seats[1], 0, 3);
    let read = marks.read(&mut seats[1], 0);
    let closed = marks.close(seats);
    Ok(read >= 3 && closed.mark(0) == 5)
}

// A settle has one number, for all letters of the pair up to it.
pub fn a_settle_is_sent(alloc: Global, pair: Pair) -> Result<bool, EnvelopeFault> {
    let frame = to_send(alloc, &Envelope::Settle(pair, 7))?;
    Ok(frame.get("number") == Some("7"))
}

// Generic over the handler: this is so of any business, whoever wrote it.
pub fn first_state_of<H: Handler>(
    alloc: Global,
    command: H::Command,
    outs: &mut Outs,
) -> Result<H::State, HandlerFault> {
    let mut state = H::opening(alloc)?;
    H::apply(alloc, &mut state, &Input::FromSeat(0, command), outs)?;
    Ok(state)
}

pub fn order_of_one(
    alloc: Global,
    stock: Key,
    quantity: u64,
    account: Key,
    amount: u64,
) -> Result<OrderCommand, AllocError> {
    let lines = Items::of_one(alloc, stock, quantity)?;
    Ok(OrderCommand::Place {
        lines,
        account,
        amount,
    })
}

pub fn an_order_is_refused(alloc: Global) -> Result<(), HandlerFault> {
    let mut order = Orders::opening(alloc)?;
    let mut outs = Outs::new(alloc);
    let input = Input::FromSeat(0, OrderCommand::CancelOrder);
    Orders::apply(alloc, &mut order, &input, &mut outs)
}

// A handler needs no store and no broker: a state and the letters it sends are values, easily tried alone.
pub fn so_much_is_on_hand(alloc: Global, quantity: u64) -> Result<u64, HandlerFault> {
    let mut stock = Stocks::opening(alloc)?;
    let mut outs = Outs::new(alloc);
    let input = Input::FromSeat(0, StockCommand::Receive(quantity));
    Stocks::apply(alloc, &mut stock, &input, &mut outs)?;
    Ok(stock.on_hand())
}

pub fn so_much_is_the_limit(alloc: Global, amount: u64) -> Result<u64, HandlerFault> {
    let mut account = Accounts::opening(alloc)?;
    let mut outs = Outs::new(alloc);
    let input = Input::FromSeat(0, AccountCommand::SetLimit(amount));
    Accounts::apply(alloc, &mut account, &input, &mut outs)?;
    Ok(account.limit())
}

pub fn a_free_room_is_promised(alloc: Global, order: Entity) -> Result<bool, HandlerFault> {
    let mut room = Rooms::opening(alloc)?;
    let mut outs = Outs::new(alloc);
    let request = Input::FromEntity(order, Number::FIRST, Message::Request(Number::FIRST));
    Rooms::apply(alloc, &mut room, &request, &mut outs)?;
    Ok(matches!(room, Room::Promised(_)))
}

// What is set aside is still here, and no longer on the shelf: no second reader can be promised it.
pub fn one_copy_is_set_aside(
    alloc: Global,
    copies: Number,
    reader: Entity,
) -> Result<u64, HandlerFault> {
    let mut title = Titles::opening(alloc)?;
    let mut outs = Outs::new(alloc);
    let add = Input::FromSeat(0, TitleCommand::Add(copies));
    Titles::apply(alloc, &mut title, &add, &mut outs)?;
    let request = Input::FromEntity(reader, Number::FIRST, Message::Request(Number::FIRST));
    Titles::apply(alloc, &mut title, &request, &mut outs)?;
    Ok(title.on_shelf())
}

pub fn no_mark_is_taken_back()
    ensures { (old new : Configuration) (pair : Pair) → Reaches old new → old.settled pair ≤ new.settled pair }
{
    stays_authentic();
}

pub fn lawful_journals_stay_lawful()
    ensures { (x y : AllTables) → DeedOfOne (IsAuthentic (journals_of x)) x y → HoldsAuthentic x →
        AreLawful (journals_of x) → AreLawful (journals_of y) }
{
    a_deed_keeps_the_laws();
}

// A law and a call together: the call's clauses are the law's premises, so nothing more has to be shown.
pub fn what_a_broker_brought_is_a_step<H, K>(
    alloc: Global,
    own: &mut Endpoint<H, K>,
    client: &mut ClientSession<u64>,
    frame: Frame<MAX_BODY>,
) -> Result<Taken, Untaken>
where
    H: Handler,
    K: Keep<State = H::State, Command = H::Command> + Drop,
    ensures { (written : List Envelope) → CarriesWritten written frame →
        Does K.seen H.service (IsFounded written) own.old own.new }
{
    frames_are_steps::<H, K>();
    take_frame(alloc, own, client, frame)
}

// The partner is a value of the clause alone: one service's code shows what holds of two.
pub fn letters_stay_delivered<H, K, G, L>(
    alloc: Global,
    own: &mut Endpoint<H, K>,
    client: &mut ClientSession<u64>,
    frame: Frame<MAX_BODY>,
) -> Result<Taken, Untaken>
where
    H: Handler,
    K: Keep<State = H::State, Command = H::Command> + Drop,
    G: Handler,
    L: Keep<State = G::State, Command = G::Command>,
    ensures { (pairs : Pair → Bool) (first : Two K L) (partner : L) (traffic : Traffic) →
        IsRunAmong K.seen L.seen H.service G.service pairs first
        (record { left = own.old; right = partner; traffic = traffic }) →
        CarriesWritten traffic.written frame → (K.seen own.new).doubt ≡ 0 →
        AllDelivered K.seen L.seen H.service G.service pairs
        (record { left = own.new; right = partner; traffic = traffic }) }
{
    frames_are_steps::<H, K>();
    laws_delivery::any_two_services_deliver::<H, K, G, L>();
    take_frame(alloc, own, client, frame)
}

pub fn one_more_life_was_lived<N, L, H, K>()
where
    N: Naming<K, L>,
    L: Link + Drop,
    H: Handler,
    K: Keep<State = H::State, Command = H::Command> + Drop,
    ensures { (earlier : Post) (left : K) (conns : List (Option (Conn L)))
        (life : LifeStands L.put_gives L.take_gives K.seen H.service N.given N.found left conns) →
        (K.seen left).usable ≡ true → (t : Tables H.State H.Command) → (K.seen left).may_leave t →
        HasLived H.service earlier (K.seen life.first).tables → HasLived H.service (both_lives earlier (post_of life)) t }
{
    lives_go_on::<H>();
    closed_lives_are_lives::<N, L, H, K>();
}

// Every read requires a usable store, so a caller tests that first.
pub fn a_mark_is_read<K: Keep>(keep: &mut K, alloc: Global, pair: &Pair) -> Result<u64, KeepFault> {
    if !keep.usable() {
        return Err(KeepFault::Failed);
    }
    keep.sent(alloc, pair)
}

pub fn tables_hold_nothing_at_first(alloc: Global) -> Result<bool, KeepFault> {
    let mut keep: PlainKeep<Orders> = PlainKeep::new(alloc);
    let letters = keep.unsettled(alloc, &None, usize::MAX)?;
    Ok(letters.is_empty())
}

// States are kept beside their rows: to forget one costs a read later, and loses nothing.
pub fn what_was_remembered_is_known(alloc: Global, order: &Entity) -> Result<bool, AllocError> {
    let mut states = LastStates::new(alloc)?;
    states.remember(alloc, order, 7_u64);
    let known = states.peek(order).copied();
    let was_known = states.forget(order);
    Ok(known == Some(7) && was_known && states.peek(order).is_none())
}

// The outbox writes nothing: it makes changes, which an endpoint puts into one transaction with others.
pub fn a_mark_is_one_change(alloc: Global, pair: &Pair) -> Result<usize, AllocError> {
    let changes: Vec<Change<u64, u64>> = settle(alloc, pair, Number::FIRST)?;
    Ok(changes.len())
}

// A duplicate is known by its number, without a look at any table.
pub fn a_letter_comes_again(letter: &Letter) -> bool {
    let handled = letter.number.get();
    classify::<64>(letter.pair.to.kind(), handled, letter) == Class::Mine(Rank::Repeated)
}

pub fn nothing_is_held_at_first(alloc: Global, pair: &Pair) -> Result<bool, KeepFault> {
    let mut keep: PlainKeep<Orders> = PlainKeep::new(alloc);
    let next = next_held(alloc, &mut keep, pair, 0)?;
    Ok(next.is_none())
}

// One call is one transaction: the state, the letters and the row of the journal, or none of them.
pub fn a_command_is_taken_in(
    alloc: Global,
    order: &Entity,
    command: OrderCommand,
) -> Result<u64, EndFault> {
    let mut purchasing: Endpoint<Orders, PlainKeep<Orders>> = Endpoint::new(PlainKeep::new(alloc));
    let committed = purchasing.commit(alloc, 0, order, command)?;
    Ok(committed.pos)
}

// A list of indices into what was sent is a network that repeats and reorders.
pub fn what_comes_early_waits<H, K, G, L>(
    alloc: Global,
    left: &mut Endpoint<H, K>,
    right: &mut Endpoint<G, L>,
    pair: &Pair,
) -> Result<Vec<Outcome>, AllocError>
where
    H: Handler,
    K: Keep<State = H::State, Command = H::Command> + Drop,
    G: Handler,
    L: Keep<State = G::State, Command = G::Command> + Drop,
{
    let mut deliveries = Vec::new(alloc);
    deliveries.push(Delivery::Left(Event::Send(4)))?;
    deliveries.push(Delivery::Right(Event::Take(3)))?; // the second letter of the pair
    deliveries.push(Delivery::Right(Event::Take(2)))?; // the first
    deliveries.push(Delivery::Right(Event::Take(2)))?;
    deliveries.push(Delivery::Right(Event::Drain(pair.copy(alloc)?)))?;
    let mut network = Network::new(alloc);
    exchange(alloc, left, right, &mut network, &deliveries)
}

/// No order was placed, so that nobody disagrees.
pub fn services_without_orders_agree(
    alloc: Global,
    purchasing: &mut Endpoint<Orders, PlainKeep<Orders>>,
    warehouse: &mut Endpoint<Stocks, PlainKeep<Stocks>>,
    billing: &mut Endpoint<Accounts, PlainKeep<Accounts>>,
) -> bool {
    matches!(
        schedule_audit::agreement(alloc, purchasing, warehouse, billing),
        Ok(true)
    )
}

// Before CONNECTED there is nothing to do for a relay, which is no fault.
pub fn nothing_goes_out_before_the_broker_answers(alloc: Global) -> Result<usize, RelayFault> {
    let mut purchasing: Endpoint<Orders, PlainKeep<Orders>> = Endpoint::new(PlainKeep::new(alloc));
    let mut client = ClientSession::new(alloc);
    let mut relay = Relay::new(alloc);
    relay.fill(&mut client, &mut purchasing, 64)
}

// SUBSCRIBE follows from CONNECTED: no caller has to ask for it.
pub fn a_connected_client_subscribes(alloc: Global) -> Result<bool, ReceptionFault> {
    let mut purchasing: Endpoint<Orders, PlainKeep<Orders>> = Endpoint::new(PlainKeep::new(alloc));
    let mut client = ClientSession::new(alloc);
    client.connect()?;
    let asked = client.out().len();
    client.taken(asked);
    let connected = Frame::new(alloc, Command::Connected);
    if let Err(untaken) = take_frame(alloc, &mut purchasing, &mut client, connected) {
        return Err(untaken.fault);
    }
    Ok(
        client
            .out()
            .starts_with(b"SUBSCRIBE\nid:0\ndestination:/queue/purchasing\n"),
    )
}
