//! The bids of a worker of the persons.

ghost use Rattle.std.specs.Prelude.{◌≡◌, ◌≢◌, ◌<◌, All};
ghost use Rattle.auc_letters.specs.declared.letter.Why.{Why};
ghost use Rattle.auc_persons.specs.Candidates.{Kept};
ghost use Rattle.auc_persons.specs.Persons.{NextBid};
ghost use Rattle.auc_phases.specs.Shards.{IsPersonShard};
ghost use Rattle.auc_threads.specs.Taking.{GoesWithin};
ghost use Rattle.auc_threads.specs.Buying.{Asks, asker};
ghost use Rattle.auc_threads.specs.Hearing.{SomebodyStuck};
ghost use Rattle.auc_threads.specs.Worker.{round};

use crate::calls::{BATCH, Step};
use crate::task::Task;
use arrayvec::ArrayVec;
use auc_letters::{Out, Why};
use auc_persons::{Bidder, Bidding, PersonShard};

/// A shard of the persons, and its bidder.
#[derive(Drop)]
pub(crate) struct Buyer {
    pub(crate) shard: PersonShard,
    pub(crate) lists: Bidder,
}

/// Asks for the next bid.
fn ask(task: &Task, number: u32, buyer: &mut Buyer) -> Bidding
    requires shard { IsPersonShard task.now.rows.now task.now.limits.now.shards number buyer.old.shard }
    requires kept { Kept task.now.rows.now buyer.old.shard.copies buyer.old.lists }
    requires known { number < task.now.limits.now.shards }
    ensures is { IsPersonShard task.now.rows.now task.now.limits.now.shards number buyer.new.shard }
    ensures kept { Kept task.now.rows.now buyer.new.shard.copies buyer.new.lists }
    ensures copies { buyer.new.shard.copies ≡ buyer.old.shard.copies }
    ensures next { NextBid task.now.rows.now task.now.eps buyer.old.shard result buyer.new.shard }
    ensures reach { (o : _) → result ≡ Bidding.Out o → GoesWithin task.now.limits.now.shards o }
{
    let lists = &mut buyer.lists;
    buyer.shard.next_bid_by(task.rows, task.eps, lists)
}

/// Asks for bids until nobody is free, but for no more than there is room for.
pub(crate) fn ask_all(
    task: &Task,
    number: u32,
    buyer: &mut Buyer,
    bids: &mut ArrayVec<Out, BATCH>,
) -> Step
    requires shard { IsPersonShard task.now.rows.now task.now.limits.now.shards number buyer.old.shard }
    requires kept { Kept task.now.rows.now buyer.old.shard.copies buyer.old.lists }
    requires known { number < task.now.limits.now.shards }
    requires reach { All (GoesWithin task.now.limits.now.shards) bids.old.items }
    ensures is { IsPersonShard task.now.rows.now task.now.limits.now.shards number buyer.new.shard }
    ensures kept { Kept task.now.rows.now buyer.new.shard.copies buyer.new.lists }
    ensures copies { buyer.new.shard.copies ≡ buyer.old.shard.copies }
    ensures asks { Asks (round task.now.rows.now task.now.eps) (asker buyer.old.shard bids.old.items)
        (asker buyer.new.shard bids.new.items) result }
    ensures stuck { result ≡ Step.Stop Why.Stuck → SomebodyStuck task.now.rows.now }
    ensures why { result ≢ Step.Stop Why.Fell }
    ensures reach { All (GoesWithin task.now.limits.now.shards) bids.new.items }
{
    for _ in 0..BATCH {
        if bids.is_full() {
            return Step::On;
        }
        match ask(task, number, buyer) {
            Bidding::Idle => return Step::On,
            Bidding::Stop { why } => return Step::Stop { why },
            Bidding::Out { out } => bids.push(out),
        }
    }
    Step::On
}
