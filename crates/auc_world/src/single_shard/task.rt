//! The input of a phase with one shard of each kind.

ghost use Rattle.std.specs.Prelude.{◌≡◌, ◌↔◌, IsTrue};
ghost use Rattle.auc_letters.specs.Price.{IsEps};
ghost use Rattle.auc_phases.specs.Begins.{ArePrices};
ghost use Rattle.auc_phases.specs.Limits.{AreLimits};
ghost use Rattle.auc_answers.specs.Prepared.{NobodyStuck};
ghost use Rattle.auc_world.specs.SinglePhase.{IsGiven, MayPlaySingleShard};

use auc_graph::Rows;
use auc_phases::Limits;
use std::marker::Model;

/// The input of a phase that the single-shard machine plays. Prices and `eps` are in scaled costs, the prices by
/// object.
#[derive(Drop)]
pub(crate) struct Task<'a> {
    pub(crate) rows: &'a Rows,
    pub(crate) limits: &'a Limits,
    pub(crate) prices: &'a [i64],
    pub(crate) eps: i64,
}

impl<'a> Model for Task<'a> {
    ghost use Rattle.auc_world.specs.SinglePhase.{Given};

    ghost Value = { Given };

    ghost view = { λ t. record { table = t.rows.now; limits = t.limits.now; prices = t.prices.now; eps = t.eps } };
}

/// Whether the machine with one shard of each kind may replace a `World`, which is so where:
///
/// - there is one shard of each kind;
/// - as many letters may wait as is usual;
/// - the bid limit can't exhaust a lane, since a bid is answered by two letters at most.
pub(crate) fn may_play_single_shard(limits: &Limits) -> bool
    ensures { IsTrue result → MayPlaySingleShard limits.now }
{
    limits.shards == 1 && limits.nodes == 0 && limits.bids < limits.posts / 2
}

impl<'a> Task<'a> {
    /// A phase at these prices and this eps.
    pub(crate) fn new(rows: &'a Rows, limits: &'a Limits, prices: &'a [i64], eps: i64) -> Task<'a>
        requires limits { AreLimits limits.now }
        requires single_shard { MayPlaySingleShard limits.now }
        requires prices { ArePrices rows.now prices.now }
        requires eps { IsEps eps }
        requires arcs { NobodyStuck rows.now }
        ensures is { result ≡ record { table = rows.now; limits = limits.now; prices = prices.now; eps = eps } }
        ensures given { IsGiven result }
    {
        // Read here, so that the proof has the invariant of the rows.
        let _ = rows.persons();
        Task {
            rows,
            limits,
            prices,
            eps,
        }
    }
}
