//! The endpoint under its lock: it's put there with its tokens, and comes out with all of them.

ghost use Rattle.std.specs.Prelude.{◌≡◌, ◌+◌, ◌<◌, ◌++◌, [], suc, map, vec_len, Some, IfOk, IfErr};
ghost use Rattle.std.specs.List.{All};
ghost use Rattle.base.specs.declared.limits.TheConstants.{SEATS};
ghost use Rattle.marks.specs.Seats.{places_of};
ghost use Rattle.told_lock.specs.Keys.{knows, IsKeyOf};
ghost use Rattle.told_lock.specs.Rule.{Every, without};
ghost use Rattle.told_lock.specs.declared.view.Stage.TheVariants.{Open};
ghost use Rattle.shared_endpoint.specs.declared.mark.TheConstants.{TOKENS};
ghost use Rattle.shared_endpoint.specs.Token.{hand_number};
ghost use Rattle.shared_endpoint.specs.History.{fault_in, tells, given, Gives};

use crate::boxed::Boxed;
use crate::lore::EndpointLore;
use crate::mark::TOKENS;
use crate::tokens::{Hand, Scout, Seat};
use activities::Handler;
use base::limits::SEATS;
use endpoint::{EndFault, Endpoint};
use keep::Keep;
use marks::{MarkSeat, Marks};
use std::alloc::Global;
use std::sync::Wait;
use told_lock::{Key, Lock};

/// An endpoint that many threads use in turn.
#[derive(Drop)]
pub struct Shared<H, K>
where
    H: Handler,
    K: Keep<State = H::State, Command = H::Command> + Drop,
{
    // A call takes 1,639 instructions through it, and 1,322 without a lock.
    pub(crate) lock: Lock<Boxed<H, K>, EndpointLore<H, K>>,
    pub(crate) marks: Marks,
    // One mark: the length of the journal.
    ghost one_place: { places_of marks ≡ 1 },
}

/// Whether an answer tells of the journal: all do but those that the store failed, that it had failed before, or that
/// an allocation failed.
pub(crate) fn tells<T>(answer: &Result<T, EndFault>) -> bool
    ensures { result ≡ tells (fault_in answer.now) }
{
    match answer {
        Ok(_) => true,
        // Every fault is named, here and below: one that is added has to be decided on.
        Err(EndFault::StoreFailed | EndFault::Memory | EndFault::Unusable) => false,
        Err(
            EndFault::NotMine
            | EndFault::Business(_)
            | EndFault::TooEarly
            | EndFault::NumberLimit
            | EndFault::NotSent,
        ) => true,
    }
}

impl<H, K> Shared<H, K>
where
    H: Handler,
    K: Keep<State = H::State, Command = H::Command> + Drop,
{
    ghost use Rattle.shared_endpoint.specs.Keys.{maker, IsToken, IsNew, IsSeatOf, IsHandOf, IsScoutOf, AreSeatsOf};
    ghost use Rattle.shared_endpoint.specs.Keys.{IsNewSeat, AreNewSeats, IsNewHand, IsNewScout, seat_number, IsNewMarkOf};
    ghost use Rattle.shared_endpoint.specs.Keys.{told_seats, told_hand, told_scout, Closes};
    ghost use Rattle.shared_endpoint.specs.Keys.{shown, shown_seats, shown_hand, shown_scout};

    /// Gives the endpoint back: as seen, where the answer tells of the journal.
    pub(crate) fn give<R: Wait>(
        &self,
        rt: &R,
        key: &mut Key<Boxed<H, K>>,
        endpoint: Boxed<H, K>,
        told: bool,
    )
        requires key { IsKeyOf self.now.lock key.old }
        requires may { Gives K.seen H.service (knows key.old) endpoint told }
        ensures key { IsKeyOf self.now.lock key.new }
        ensures gave { knows key.new ≡ without (map (given told endpoint) (knows key.old).own) (knows key.old) }
    {
        // A failed call shows its token nothing new: what that has seen before holds of whatever is left.
        if told {
            self.lock.give_seen(rt, key, endpoint);
        } else {
            self.lock.give_unseen(rt, key, endpoint);
        }
    }

    /// Makes the token of this number, which is the next.
    fn token(
        &self,
        key: &mut Key<Boxed<H, K>>,
        _endpoint: &Boxed<H, K>,
        _number: u8,
    ) -> Key<Boxed<H, K>>
        requires key { IsKeyOf self.now.lock key.old }
        requires maker { knows key.old ≡ maker _number _endpoint.now }
        ensures key { IsKeyOf self.now.lock key.new }
        ensures maker { knows key.new ≡ maker (suc _number) _endpoint.now }
        ensures token { IsToken self.now.lock _number result × IsNew _number _endpoint.now result }
        ensures shown { shown result ≡ [] }
    {
        // The endpoint and the number are parameters for the contract alone.
        self.lock.token(key)
    }

    /// The last of the rights to raise and read the mark, which is the next token's.
    fn mark_of(&self, marks: &mut Vec<MarkSeat>, _number: u8) -> MarkSeat
        requires left { vec_len marks.old + _number ≡ TOKENS }
        requires below { _number < TOKENS }
        requires each { All (IsNewMarkOf self.now) marks.old.items }
        ensures left { vec_len marks.new + suc _number ≡ TOKENS }
        ensures each { All (IsNewMarkOf self.now) marks.new.items }
        ensures mark { IsNewMarkOf self.now result }
    {
        let Some(mark) = marks.pop() else {
            // There are as many rights as tokens.
            unreachable!()
        };
        mark
    }

    /// Makes the seat of this number, which is the next.
    fn seat(
        &self,
        key: &mut Key<Boxed<H, K>>,
        endpoint: &Boxed<H, K>,
        marks: &mut Vec<MarkSeat>,
        number: u8,
    ) -> Seat<H, K>
        requires key { IsKeyOf self.now.lock key.old }
        requires maker { knows key.old ≡ maker number endpoint.now }
        requires below { number < SEATS }
        requires left { vec_len marks.old + number ≡ TOKENS }
        requires each { All (IsNewMarkOf self.now) marks.old.items }
        ensures key { IsKeyOf self.now.lock key.new }
        ensures maker { knows key.new ≡ maker (suc number) endpoint.now }
        ensures left { vec_len marks.new + suc number ≡ TOKENS }
        ensures each { All (IsNewMarkOf self.now) marks.new.items }
        ensures seat { IsSeatOf self.now result × IsNewSeat endpoint.now result }
        ensures number { seat_number result ≡ number }
    {
        let key = self.token(key, endpoint, number);
        let mark = self.mark_of(marks, number);
        Seat { number, key, mark }
    }

    /// Makes all sixteen.
    fn seats(
        &self,
        key: &mut Key<Boxed<H, K>>,
        endpoint: &Boxed<H, K>,
        marks: &mut Vec<MarkSeat>,
    ) -> [Seat<H, K>; 16]
        requires key { IsKeyOf self.now.lock key.old }
        requires maker { knows key.old ≡ maker 0 endpoint.now }
        requires left { vec_len marks.old + 0 ≡ TOKENS }
        requires each { All (IsNewMarkOf self.now) marks.old.items }
        ensures key { IsKeyOf self.now.lock key.new }
        ensures maker { knows key.new ≡ maker hand_number endpoint.now }
        ensures left { vec_len marks.new + hand_number ≡ TOKENS }
        ensures each { All (IsNewMarkOf self.now) marks.new.items }
        ensures seats { AreSeatsOf self.now result × AreNewSeats endpoint.now result }
    {
        // One after another: the lock numbers tokens as they are made, and a seat's number is its token's.
        [
            self.seat(key, endpoint, marks, 0),
            self.seat(key, endpoint, marks, 1),
            self.seat(key, endpoint, marks, 2),
            self.seat(key, endpoint, marks, 3),
            self.seat(key, endpoint, marks, 4),
            self.seat(key, endpoint, marks, 5),
            self.seat(key, endpoint, marks, 6),
            self.seat(key, endpoint, marks, 7),
            self.seat(key, endpoint, marks, 8),
            self.seat(key, endpoint, marks, 9),
            self.seat(key, endpoint, marks, 10),
            self.seat(key, endpoint, marks, 11),
            self.seat(key, endpoint, marks, 12),
            self.seat(key, endpoint, marks, 13),
            self.seat(key, endpoint, marks, 14),
            self.seat(key, endpoint, marks, 15),
        ]
    }

    /// Puts an endpoint under a lock, and makes its tokens: the seats 0 to 15, the Hand and the Scout, each of which
    /// has seen this endpoint. It may be any, usable or not. If an allocation fails, it is returned.
    pub fn open<R: Wait>(
        rt: &R,
        alloc: Global,
        endpoint: Endpoint<H, K>,
    ) -> Result<(Shared<H, K>, [Seat<H, K>; 16], Hand<H, K>, Scout<H, K>), Endpoint<H, K>>
        ensures seats { IfOk result (λ r. AreSeatsOf r.0 r.1 × AreNewSeats endpoint r.1) }
        ensures hand { IfOk result (λ r. IsHandOf r.0 r.2 × IsNewHand endpoint r.2) }
        ensures scout { IfOk result (λ r. IsScoutOf r.0 r.3 × IsNewScout endpoint r.3) }
        ensures err { IfErr result (λ e. e ≡ endpoint) }
    {
        // First, so that an endpoint that is returned needn't come out of its box.
        let Ok((marks, mut list)) = Marks::open(alloc, 1, TOKENS) else {
            return Err(endpoint);
        };
        let boxed = Boxed::new(alloc, endpoint)?;
        match Lock::<Boxed<H, K>, EndpointLore<H, K>>::open(rt, alloc, boxed) {
            Err(boxed) => Err(boxed.into_inner()),
            Ok((lock, mut key, boxed)) => {
                // All that may fail is done: no token was made before.
                let shared = Shared { lock, marks };
                let seats = shared.seats(&mut key, &boxed, &mut list);
                // After the seats: contracts know these two tokens by their numbers (`hand_number`, `scout_number`).
                let hand = shared.token(&mut key, &boxed, 16);
                let scout = shared.token(&mut key, &boxed, 17);
                // Unseen: no token has called the endpoint yet.
                shared.lock.give_unseen(rt, &mut key, boxed);
                // The key that makes tokens ends with this call, so that none is ever added.
                let hand = Hand {
                    key: hand,
                    mark: shared.mark_of(&mut list, 16),
                };
                let scout = Scout {
                    key: scout,
                    mark: shared.mark_of(&mut list, 17),
                };
                Ok((shared, seats, hand, scout))
            }
        }
    }

    /// Takes all seats in.
    fn all_in(&self, key: &mut Key<Boxed<H, K>>, seats: [Seat<H, K>; 16])
        requires key { IsKeyOf self.now.lock key.old }
        requires seats { Every (λ s. IsKeyOf self.now.lock s.key) seats }
        requires holds { ((knows key.old).stage ≡ Open) × ((e : K) × ((knows key.old).has ≡ Some e)) }
        ensures key { IsKeyOf self.now.lock key.new }
        ensures holds { ((knows key.new).stage ≡ Open) × ((knows key.new).has ≡ (knows key.old).has) }
        ensures own { (knows key.new).own ≡ (knows key.old).own ++ told_seats seats }
        ensures shown { (knows key.new).shown ≡ (knows key.old).shown ++ shown_seats seats }
    {
        // In the order in which they were made: for any order it would have to be proved that sixteen numbers are all
        // of them.
        for seat in seats {
            let Seat {
                number: _,
                key: other,
                mark: _,
            } = seat;
            self.lock.take_in(key, other);
        }
    }

    /// The endpoint, once all tokens are back: the seats in their order.
    pub fn close<R: Wait>(
        self,
        rt: &R,
        seats: [Seat<H, K>; 16],
        hand: Hand<H, K>,
        scout: Scout<H, K>,
    ) -> Endpoint<H, K>
        requires seats { AreSeatsOf self seats }
        requires hand { IsHandOf self hand }
        requires scout { IsScoutOf self scout }
        ensures { Closes K.seen H.service ((told_scout scout ++ told_hand hand) ++ told_seats seats)
            ((shown_scout scout ++ shown_hand hand) ++ shown_seats seats) result }
    {
        let Scout { mut key, mark: _ } = scout;
        let Hand {
            key: other,
            mark: _,
        } = hand;
        // Taken first: a key that holds the endpoint takes the other tokens in.
        let boxed = self.lock.take(rt, &mut key);
        self.lock.take_in(&mut key, other);
        self.all_in(&mut key, seats);
        // For contracts alone: what the tokens know is so of the endpoint that is returned.
        self.lock.compare(&mut key);
        boxed.into_inner()
    }
}
