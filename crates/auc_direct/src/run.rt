//! A run: its phases one after another, as the rules choose them (epsilon scaling).

ghost use Rattle.std.specs.Prelude.{true, ℤ, List, pos, ◌≡◌, ◌⊎◌, ◌<◌, ◌-◌, ◌^◌, length};
ghost use Rattle.std.specs.Prelude.{IfErr, IfNone, IfOk, IfSome, OnOk};
ghost use Rattle.auc_claim.specs.declared.reason.Reason.{Reason};
ghost use Rattle.auc_market.specs.Endings.{IsStart};
ghost use Rattle.auc_market.specs.declared.ending.Ending.{Ending};
ghost use Rattle.auc_rows.specs.Rows.{EachHasArc};
ghost use Rattle.auc_market.specs.Eps.{IsEpsOf};
ghost use Rattle.auc_market.specs.Halts.{IsHalt};
ghost use Rattle.auc_market.specs.Position.{AreHandedOn, Begins, Law};
ghost use Rattle.auc_direct.specs.Endings.{IsCeilingWide, IsOutcome};
ghost use Rattle.auc_direct.specs.Runs.{IsPlayedAt, IsRunOut, Plays};

use crate::adopt::{Searched, search_table};
use crate::eps::{coarse_eps, fine_eps, next_eps};
use crate::reduce::start_prices;
use crate::rules::{
    are_apart, attempt_ahead, attempt_of_first, attempt_of_held, attempt_with_ties, may_hold_first,
};
use crate::tuning::{PACING, SAMPLED_ROWS};
use auc_claim::Reason;
use auc_market::{Attempt, Ending, Halt, Holdings, LAST_EPS, Market, Pace, Watch};
use auc_rows::{Columns, FlatRows};
use std::alloc::{AllocError, Global};

/// How the last phase has ended, and the market that it leaves.
#[derive(Drop)]
pub(crate) struct Outcome {
    pub(crate) ending: Ending,
    pub(crate) holdings: Holdings,
}

impl Outcome {
    /// After a search over a full table.
    fn sold(holdings: Holdings) -> Outcome
        ensures ending { result.ending ≡ Ending.Sold }
        ensures holdings { result.holdings ≡ holdings }
    {
        Outcome {
            ending: Ending::Sold,
            holdings,
        }
    }

    /// After a no within such a search.
    fn stopped(market: Market<'_>) -> Outcome
        ensures ending { result.ending ≡ Ending.Stopped Reason.Bids }
        ensures law { Law market.entry }
        ensures handed { AreHandedOn (Ending.Stopped Reason.Bids) market.entry result.holdings.prices.items
            result.holdings.holders.items result.holdings.owns.items }
    {
        market.law();
        let ending = Ending::Stopped(Reason::Bids);
        Outcome {
            ending,
            holdings: market.into_holdings(ending),
        }
    }
}

/// A phase in which nobody keeps an object. None where the attempt is given up, or where it has no bids.
fn play_anew<W: Watch>(
    market: &mut Market<'_>,
    eps: i64,
    bids: u64,
    attempt: Attempt,
    pace: &mut Pace,
    watch: &mut W,
) -> Result<Option<Ending>, Halt>
    requires square { market.old.table.objects ≡ length market.old.table.rows }
    requires eps { IsEpsOf market.old.table eps }
    ensures plays { OnOk result (Plays bids market.old market.new) }
    ensures played { IfOk result
        (λ o. IfSome o (λ e. IsPlayedAt eps bids (W.has_stopped watch.old)
        (W.has_stopped watch.new) e market.old market.new)) }
    ensures going { IfOk result (λ o. IfNone o (W.has_stopped watch.new ≡ W.has_stopped watch.old)) }
    ensures asked { IfOk result (λ o. IfSome o (λ e. W.was_asked watch.new ≡ true)) }
    ensures whole { IfOk result (λ o. IfNone o (attempt.bids < 2 ^ 64 - 1)) }
    ensures halt { IfErr result (λ h. IsHalt market.old.table h × (W.has_stopped watch.new ≡ W.has_stopped watch.old)) }
{
    if attempt.bids == 0 {
        return Ok(None);
    }
    market.open(eps);
    market.try_phase(bids, attempt, pace, watch)
}

/// A phase from the prices of the market, in which nobody keeps an object, and others after it, each from the prices of
/// the one before. The first eps is chosen by the mean spread of a row. It ends after the phase at the last eps, or
/// after the first that a limit stops. Each phase may make `bids` bids.
fn play_phases<W: Watch>(
    market: &mut Market<'_>,
    rows: &FlatRows,
    spread: i64,
    bids: u64,
    pace: &mut Pace,
    watch: &mut W,
) -> Result<Ending, Halt>
    requires rows { market.old.table ≡ rows.now }
    requires square { rows.now.objects ≡ length rows.now.rows }
    requires spread { IsEpsOf rows.now spread }
    ensures over { IfOk result (λ e. IsRunOut bids (W.has_stopped watch.old)
        (W.has_stopped watch.new) e market.old market.new) }
    ensures asked { IfOk result (λ e. W.was_asked watch.new ≡ true) }
    ensures halt { IfErr result (λ h. IsHalt rows.now h × (W.has_stopped watch.new ≡ W.has_stopped watch.old)) }
{
    let mut eps = fine_eps(rows, spread);
    let mut attempt = attempt_of_first(rows, eps);
    loop {
        let played = play_anew(market, eps, bids, attempt, pace, watch)?;
        market.law();
        attempt = Attempt::WHOLE;
        let Some(ending) = played else {
            eps = coarse_eps(rows, spread);
            continue;
        };
        match ending {
            Ending::Stopped(_) => return Ok(ending),
            Ending::Sold => {}
        }
        let Some(next) = next_eps(eps) else {
            return Ok(ending);
        };
        eps = next;
        let ahead = attempt_ahead(rows, pace.made, eps);
        let early = play_anew(market, LAST_EPS, bids, ahead, pace, watch)?;
        market.law();
        if let Some(ending) = early {
            return Ok(ending);
        }
    }
}

/// The phases of a run with as many objects as persons. Where there are ties, the last phase is tried first, unless it
/// was tried before.
fn play_square<W: Watch>(
    market: &mut Market<'_>,
    rows: &FlatRows,
    is_tried: bool,
    bids: u64,
    pace: &mut Pace,
    watch: &mut W,
) -> Result<Ending, Halt>
    requires rows { market.old.table ≡ rows.now }
    requires square { rows.now.objects ≡ length rows.now.rows }
    ensures over { IfOk result (λ e. IsRunOut bids (W.has_stopped watch.old)
        (W.has_stopped watch.new) e market.old market.new) }
    ensures asked { IfOk result (λ e. W.was_asked watch.new ≡ true) }
    ensures halt { IfErr result (λ h. IsHalt rows.now h × (W.has_stopped watch.new ≡ W.has_stopped watch.old)) }
{
    let sample = market.sample(SAMPLED_ROWS);
    let attempt = attempt_with_ties(rows, sample.has_ties && !is_tried);
    let tied = play_anew(market, LAST_EPS, bids, attempt, pace, watch)?;
    market.law();
    if let Some(ending) = tied {
        return Ok(ending);
    }
    play_phases(market, rows, sample.spread, bids, pace, watch)
}

/// A run with more objects than persons: one phase, in which persons keep what they hold. Without a start a full table
/// is searched as a table first.
fn run_wide<W: Watch>(
    alloc: Global,
    rows: &FlatRows,
    bids: u64,
    market: Market<'_>,
    start: &[i64],
    watch: &mut W,
) -> Result<Outcome, Halt>
    requires begins { Begins rows.now market }
    ensures outcome { IfOk result
        (λ o. IsOutcome rows.now bids market.entry.prices (W.has_stopped watch.old) (W.has_stopped watch.new)
        o.ending o.holdings.prices.items o.holdings.holders.items o.holdings.owns.items) }
    ensures asked { IfOk result (λ o. W.was_asked watch.new ≡ true) }
    ensures halt { IfErr result (λ h. IsHalt rows.now h × (W.has_stopped watch.new ≡ W.has_stopped watch.old)) }
{
    match search_table(alloc, rows, start, watch)? {
        Searched::Adopted(holdings) => return Ok(Outcome::sold(holdings)),
        Searched::Ended => return Ok(Outcome::stopped(market)),
        Searched::Nothing => {}
    }
    let mut market = market;
    let mut pace = Pace::new(rows, PACING);
    let ending = market.play(bids, &mut pace, watch)?;
    market.law();
    Ok(Outcome {
        ending,
        holdings: market.into_holdings(ending),
    })
}

/// A run from the holdings of a market at the last eps. Where it begins with a start, or persons hold objects, the last
/// phase is tried first, in which they keep these. A full table is searched as a table before all other phases.
pub(crate) fn run<W: Watch>(
    alloc: Global,
    rows: &FlatRows,
    bids: u64,
    market: Market<'_>,
    start: &[i64],
    watch: &mut W,
) -> Result<Outcome, Halt>
    requires begins { Begins rows.now market }
    ensures outcome { IfOk result
        (λ o. IsOutcome rows.now bids market.entry.prices (W.has_stopped watch.old) (W.has_stopped watch.new)
        o.ending o.holdings.prices.items o.holdings.holders.items o.holdings.owns.items) }
    ensures asked { IfOk result (λ o. W.was_asked watch.new ≡ true) }
    ensures halt { IfErr result (λ h. IsHalt rows.now h × (W.has_stopped watch.new ≡ W.has_stopped watch.old)) }
{
    if rows.persons() != rows.objects() {
        return run_wide(alloc, rows, bids, market, start, watch);
    }
    let mut market = market;
    let mut pace = Pace::new(rows, PACING);
    let attempt = attempt_of_held(rows, market.held(), !start.is_empty());
    let is_tried = attempt.bids > 0 && start.is_empty();
    if let Some(ending) = market.try_phase(bids, attempt, &mut pace, watch)? {
        market.law();
        return Ok(Outcome {
            ending,
            holdings: market.into_holdings(ending),
        });
    }
    match search_table(alloc, rows, start, watch)? {
        Searched::Adopted(holdings) => return Ok(Outcome::sold(holdings)),
        Searched::Ended => return Ok(Outcome::stopped(market)),
        Searched::Nothing => {}
    }
    let ending = play_square(&mut market, rows, is_tried, bids, &mut pace, watch)?;
    Ok(Outcome {
        ending,
        holdings: market.into_holdings(ending),
    })
}

/// One phase, at the last eps, from prices of 0. Objects that nobody holds keep price 0 in it, so prices rise no higher
/// than they have to: clause `ceiling`.
fn run_from_zero<W: Watch>(
    alloc: Global,
    rows: &FlatRows,
    bids: u64,
    watch: &mut W,
) -> Result<Outcome, Halt>
    requires arcs { EachHasArc rows.now }
    ensures outcome { (begun : List ℤ) × IsStart rows.now (pos 1) begun × IfOk result
        (λ o. IsOutcome rows.now bids begun (W.has_stopped watch.old) (W.has_stopped watch.new)
        o.ending o.holdings.prices.items o.holdings.holders.items o.holdings.owns.items) }
    ensures ceiling { IfOk result (λ o. IsCeilingWide rows.now o.ending) }
    ensures asked { IfOk result (λ o. W.was_asked watch.new ≡ true) }
    ensures halt { IfErr result (λ h. IsHalt rows.now h × (W.has_stopped watch.new ≡ W.has_stopped watch.old)) }
{
    let prices = vec![in alloc; 0; rows.objects() as usize]?;
    let mut market = Market::new(alloc, rows, prices)?;
    market.law();
    let mut pace = Pace::new(rows, PACING);
    let ending = market.play(bids, &mut pace, watch)?;
    market.law();
    Ok(Outcome {
        ending,
        holdings: market.into_holdings(ending),
    })
}

/// The market of a run without a start, at reduced columns. Where best arcs lie far enough apart, persons hold what is
/// best for them. The columns are freed before the run.
fn first_market<'a>(
    alloc: Global,
    rows: &'a FlatRows,
    columns: Columns,
) -> Result<Market<'a>, AllocError>
    requires arcs { EachHasArc rows.now }
    ensures begins { IfOk result (Begins rows.now) }
    ensures start { IfOk result (λ m. IsStart rows.now (pos 1) m.prices) }
{
    let prices = start_prices(alloc, rows, &columns)?;
    let market = Market::new(alloc, rows, prices)?;
    if rows.persons() != rows.objects() {
        return Ok(market);
    }
    if !may_hold_first(rows) || !are_apart(market.sample(SAMPLED_ROWS)) {
        return Ok(market);
    }
    drop(market);
    let prices = start_prices(alloc, rows, &columns)?;
    let market = Market::from_start(alloc, rows, prices.as_slice())?;
    Ok(market)
}

/// A run without a start. Where the greatest price ends it, a phase from prices of 0 takes its place: in the phases
/// before, prices may have risen higher than they have to.
pub(crate) fn run_first<W: Watch>(
    alloc: Global,
    rows: &FlatRows,
    columns: Columns,
    bids: u64,
    watch: &mut W,
) -> Result<Outcome, Halt>
    requires arcs { EachHasArc rows.now }
    ensures outcome { (begun : List ℤ) × IsStart rows.now (pos 1) begun × IfOk result
        (λ o. IsOutcome rows.now bids begun (W.has_stopped watch.old) (W.has_stopped watch.new)
        o.ending o.holdings.prices.items o.holdings.holders.items o.holdings.owns.items) }
    ensures ceiling { IfOk result (λ o. IsCeilingWide rows.now o.ending) }
    ensures asked { IfOk result (λ o. W.was_asked watch.new ≡ true) }
    ensures halt { IfErr result (λ h. IsHalt rows.now h × (W.has_stopped watch.new ≡ W.has_stopped watch.old)) }
{
    let market = first_market(alloc, rows, columns)?;
    let outcome = run(alloc, rows, bids, market, &[], watch)?;
    if outcome.ending != Ending::Stopped(Reason::Ceiling) {
        return Ok(outcome);
    }
    drop(outcome);
    run_from_zero(alloc, rows, bids, watch)
}
