//! Letters that aren't settled for long.

ghost use Rattle.shared_endpoint.specs.Keys.{IsScoutOf, told_scout};
ghost use Rattle.shared_endpoint.specs.Token.{scout_number};
ghost use Rattle.service_workers.specs.Tokens.{GoesOn};

use crate::board::Board;
use crate::waiting::show_first;
use activities::Handler;
use envelope::Letter;
use keep::{Keep, LetterPlace};
use service_workers::unsettled;
use shared_endpoint::{Scout, Shared};
use std::alloc::Global;
use std::sync::Wait;
use std::time::Clock;

/// How long it is at first until it's looked again whether the first letter is settled, in milliseconds.
const FIRST: u64 = 30_000;

/// The longest that this grows to: while a partner is away, its queue isn't to be filled with copies.
const LONGEST: u64 = 3_600_000;

/// The first letter that wasn't settled when it was looked last, how many settles were taken until then, and when it is
/// looked again; and whether any wasn't settled just now.
#[derive(Drop)]
pub struct Overdue {
    has_unsettled: bool,
    first: Option<LetterPlace>,
    settles: u64,
    next: u64,
    pause: u64,
}

impl Overdue {
    /// Nobody has looked.
    pub fn new() -> Overdue {
        Overdue {
            has_unsettled: false,
            first: None,
            settles: 0,
            next: 0,
            pause: FIRST,
        }
    }

    /// When it is looked again, in milliseconds since the beginning.
    pub fn next(&self) -> u64 {
        self.next
    }

    /// Whether there are letters that aren't settled: a new connection would send them again.
    pub fn has_unsettled(&self) -> bool {
        self.has_unsettled
    }

    /// The first letter that isn't settled is at this place, and so many settles were taken: whether letters are overdue.
    /// Where some were settled meanwhile the receivers are at work, and the first may just wait for its turn.
    fn found(&mut self, first: Option<LetterPlace>, settles: u64) -> bool {
        let is_same = first.is_some() && first == self.first;
        // Without the count a partner that took more than 30 s for what waited got all of it twice.
        let is_overdue = is_same && settles == self.settles;
        if is_overdue {
            self.pause = self.pause.saturating_mul(2).min(LONGEST);
        } else if !is_same {
            // Another first letter. With the first as before, and settles meanwhile, the pause stays as it is.
            self.pause = FIRST;
        }
        self.first = first;
        self.settles = settles;
        is_overdue
    }

    /// Looks whether there are letters that aren't settled; and where it's time, whether the first of them is that of the last
    /// look, and none was settled since: so a settle may be lost, and it has to be sent again.
    pub fn look<H, K, R: Wait + Clock>(
        &mut self,
        rt: &R,
        alloc: Global,
        shared: &Shared<H, K>,
        scout: &mut Scout<H, K>,
        board: &Board,
    ) -> bool
    where
        H: Handler,
        K: Keep<State = H::State, Command = H::Command> + Drop,
        requires scout { IsScoutOf shared.now scout.old }
        ensures scout { IsScoutOf shared.now scout.new }
        ensures goes_on { GoesOn K.seen H.service scout_number (told_scout scout.old) (told_scout scout.new) }
    {
        let now = board.now(rt);
        let is_time = now >= self.next;
        // Read at each look, and not only when it is time: whether a letter is unsettled decides about silent
        // connections.
        let first = match unsettled(rt, alloc, shared, scout, &None, 1) {
            Ok(letters) => {
                note_first(rt, alloc, board, letters.as_slice(), now);
                first_place(letters)
            }
            Err(fault) => {
                // What can't be read isn't overdue: nothing is resent for it.
                board.heed(fault);
                None
            }
        };
        self.has_unsettled = first.is_some();
        if !is_time {
            return false;
        }
        let is_overdue = self.found(first, board.settles.get());
        // After `found`, which sets the pause: so each further attempt waits twice as long.
        self.next = now.saturating_add(self.pause);
        is_overdue
    }
}

/// Notes for `status` which letter is the first that isn't settled. Where an allocation fails the last note stays.
fn note_first<R: Wait>(rt: &R, alloc: Global, board: &Board, letters: &[Letter], now: u64) {
    if let Ok(letter) = show_first(alloc, letters) {
        board.waiting.lock(rt).note(letter, now);
    }
}

/// The place of the only letter.
fn first_place(mut letters: Vec<Letter>) -> Option<LetterPlace> {
    let Letter {
        pair,
        number,
        message: _,
    } = letters.pop()?;
    Some(LetterPlace { pair, number })
}
