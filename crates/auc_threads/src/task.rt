//! The input of a phase, and its mails: one of the two is passed by reference to each function of a phase.

ghost use Rattle.auc_letters.specs.Price.{IsEps};
ghost use Rattle.auc_phases.specs.Begins.{ArePrices};
ghost use Rattle.auc_threads.specs.Naming.{AreBoxes, AreThreadLimits};

use crate::mails::Mails;
use auc_book::MailBrand;
use auc_graph::Rows;
use auc_phases::Limits;

/// The input of a phase. That all of it is in range is proved where one is made, so no function has to require it.
#[derive(Clone, Copy)]
pub(crate) struct Task<'a> {
    /// The arcs of each person.
    pub(crate) rows: &'a Rows,
    /// The number of shards of each kind, and their limits.
    pub(crate) limits: &'a Limits,
    /// The prices that the phase begins with, in scaled costs, indexed by object.
    pub(crate) prices: &'a [i64],
    /// How far a bid has to be above a price, in scaled costs.
    pub(crate) eps: i64,
    pub(crate) ghost limits_are: { AreThreadLimits limits.now },
    pub(crate) ghost prices_are: { ArePrices rows.now prices.now },
    pub(crate) ghost eps_is: { IsEps eps },
}

/// A phase while its workers run.
#[derive(Drop)]
pub(crate) struct PhaseRun<'a, O: MailBrand, P: MailBrand, H: MailBrand> {
    /// What it is run on.
    pub(crate) task: Task<'a>,
    /// The mails between its workers.
    pub(crate) mails: &'a Mails<O, P, H>,
    pub(crate) ghost boxes: { AreBoxes O.boxes P.boxes H.boxes task.limits.now.shards },
}
