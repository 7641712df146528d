//! The rounds of a phase with one shard of each kind.

ghost use Rattle.std.specs.Prelude.{◌≡◌, ◌≢◌, ◌<◌, ◌≤◌, [], IfSome, IfNone};
ghost use Rattle.auc_answers.specs.Answers.{why_of};
ghost use Rattle.auc_persons.specs.Candidates.{Kept};
ghost use Rattle.auc_persons.specs.Persons.{NeverFall};
ghost use Rattle.auc_world.specs.SinglePhase.{IsGoing, IsHalfway, IsStopped, left_of};

use crate::single_shard::kept::SingleShard;
use crate::single_shard::task::Task;
use auc_claim::Reason;
use auc_graph::MOST_PRICE;
use auc_persons::Bidder;

/// A phase that has been played.
#[derive(Drop)]
pub(crate) struct Played {
    pub(crate) world: SingleShard,
    /// None where each person has an object.
    pub(crate) stopped: Option<Reason>,
}

impl SingleShard {
    /// The person who has been free longest bids, if anybody is free, and the bid is answered; or a limit stops the
    /// phase.
    #[inline(always)]
    fn trade(&mut self, task: &Task, bidder: &mut Bidder) -> Option<Reason>
        requires going { IsGoing task.now self.old }
        requires more { self.old.count < self.old.persons }
        requires kept { Kept task.now.table self.old.copies bidder.old }
        ensures stopped { IfSome result (λ reason. IsStopped task.now self.new (why_of reason)) }
        ensures halfway { IfNone result (IsHalfway task.now self.new) }
        ensures less { IfNone result (left_of self.new ≤ left_of self.old) }
        ensures waits { IfNone result (self.new.notices ≢ []) }
        ensures kept { IfNone result (Kept task.now.table self.new.copies bidder.new) }
    {
        let Some(person) = self.next_free() else {
            return None;
        };
        if !self.has_bids() {
            return Some(Reason::Bids);
        }
        let Some(bid) = bidder.bid(task.rows, task.eps, person, self.copies()) else {
            // Each person has an arc.
            return Some(Reason::Bids);
        };
        if bid.amount > MOST_PRICE {
            return Some(Reason::Ceiling);
        }
        self.answer(task.eps, bid);
        None
    }

    /// The persons take the first letter that waits for them.
    #[inline(always)]
    fn hear(&mut self, task: &Task)
        requires halfway { IsHalfway task.now self.old }
        requires waits { self.old.notices ≢ [] }
        ensures going { IsGoing task.now self.new }
        ensures less { left_of self.new < left_of self.old }
        ensures rises { NeverFall self.old.copies self.new.copies }
    {
        if let Some(notices) = self.next_notice() {
            self.note(notices);
        }
    }

    /// Takes rounds until each person has an object, or a limit stops the phase.
    // By value, so that the state needs no place in memory that other code could reach.
    pub(crate) fn run(self, task: &Task, bidder: &mut Bidder) -> Played
        requires going { IsGoing task.now self }
        requires kept { Kept task.now.table self.copies bidder.old }
        ensures going { IfNone result.stopped (IsGoing task.now result.world) }
        ensures done { IfNone result.stopped (result.world.persons ≤ result.world.count) }
        ensures kept { IfNone result.stopped (Kept task.now.table result.world.copies bidder.new) }
        ensures stopped { IfSome result.stopped (λ reason. IsStopped task.now result.world (why_of reason)) }
    {
        let mut world = self;
        while !world.is_done() {
            if let Some(reason) = world.trade(task, bidder) {
                return Played {
                    world,
                    stopped: Some(reason),
                };
            }
            world.hear(task);
        }
        Played {
            world,
            stopped: None,
        }
    }
}
