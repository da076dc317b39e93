//! Witnesses: who makes them, and who learns them. None of these calls takes memory or the lock: it reads one word.

ghost use Rattle.std.specs.Prelude.{◌≡◌, ◌++◌};
ghost use Rattle.told_lock.specs.Rule.{seen_by};

use crate::shared::Shared;
use crate::tokens::{Hand, Scout, Witness};
use activities::Handler;
use keep::Keep;

impl<H, K> Hand<H, K>
where
    H: Handler,
    K: Keep<State = H::State, Command = H::Command> + Drop,
{
    ghost use Rattle.shared_endpoint.specs.Keys.{IsHandOf, IsWitnessOf, told_hand, shown_hand, shown_witness, hand_raised};

    /// Makes a witness of what the Hand has seen, and of all that was shown to it.
    pub fn witness(&mut self, shared: &Shared<H, K>) -> Witness<H, K>
        requires hand { IsHandOf shared.now self.old }
        ensures hand { IsHandOf shared.now self.new × (hand_raised self.new ≡ hand_raised self.old) }
        ensures knows { (told_hand self.new ≡ told_hand self.old) × (shown_hand self.new ≡ shown_hand self.old) }
        ensures witness { IsWitnessOf shared.now result }
        ensures shown { shown_witness result ≡ seen_by (told_hand self.old) ++ shown_hand self.old }
    {
        let known = shared.lock.witness(&mut self.key);
        Witness { key: known }
    }

    /// Learns what a witness knows: it is shown to the Hand, and each call after this bears it out.
    pub fn learn(&mut self, shared: &Shared<H, K>, witness: Witness<H, K>)
        requires hand { IsHandOf shared.now self.old }
        requires witness { IsWitnessOf shared.now witness }
        ensures hand { IsHandOf shared.now self.new × (hand_raised self.new ≡ hand_raised self.old) }
        ensures knows { told_hand self.new ≡ told_hand self.old }
        ensures shown { shown_hand self.new ≡ shown_hand self.old ++ shown_witness witness }
    {
        let Witness { key: shown } = witness;
        shared.lock.learn(&mut self.key, shown);
    }
}

impl<H, K> Scout<H, K>
where
    H: Handler,
    K: Keep<State = H::State, Command = H::Command> + Drop,
{
    ghost use Rattle.shared_endpoint.specs.Keys.{IsScoutOf, IsWitnessOf, told_scout, shown_scout, shown_witness, marks_read};

    /// Makes a witness of what the Scout has seen.
    pub fn witness(&mut self, shared: &Shared<H, K>) -> Witness<H, K>
        requires scout { IsScoutOf shared.now self.old }
        ensures scout { IsScoutOf shared.now self.new × (marks_read self.new ≡ marks_read self.old) }
        ensures knows { (told_scout self.new ≡ told_scout self.old) × (shown_scout self.new ≡ shown_scout self.old) }
        ensures witness { IsWitnessOf shared.now result }
        ensures shown { shown_witness result ≡ seen_by (told_scout self.old) ++ shown_scout self.old }
    {
        let seen = shared.lock.witness(&mut self.key);
        Witness { key: seen }
    }
}

impl<H, K> Witness<H, K>
where
    H: Handler,
    K: Keep<State = H::State, Command = H::Command> + Drop,
{
    ghost use Rattle.shared_endpoint.specs.Keys.{IsWitnessOf, shown_witness};

    /// Another witness of the same.
    pub fn again(&mut self, shared: &Shared<H, K>) -> Witness<H, K>
        requires witness { IsWitnessOf shared.now self.old }
        ensures witness { IsWitnessOf shared.now self.new × (shown_witness self.new ≡ shown_witness self.old) }
        ensures another { IsWitnessOf shared.now result × (shown_witness result ≡ shown_witness self.old) }
    {
        let another = shared.lock.witness(&mut self.key);
        Witness { key: another }
    }

    /// Learns what another witness knows.
    pub fn learn(&mut self, shared: &Shared<H, K>, other: Witness<H, K>)
        requires witness { IsWitnessOf shared.now self.old }
        requires other { IsWitnessOf shared.now other }
        ensures witness { IsWitnessOf shared.now self.new }
        ensures shown { shown_witness self.new ≡ shown_witness self.old ++ shown_witness other }
    {
        let Witness { key: other } = other;
        shared.lock.learn(&mut self.key, other);
    }
}
