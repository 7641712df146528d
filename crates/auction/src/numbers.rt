//! The numbers that options give.

ghost use Rattle.std.specs.Prelude.{◌≡◌, ◌≤◌, ℕ, IfErr, IfOk, codes, is_some};
ghost use Rattle.clap.specs.Words.{first_value, found_of};
ghost use Rattle.auc_run.specs.Jobs.{IsInRange};
ghost use Rattle.auc_run.specs.Problems.{objects_limit};
ghost use Rattle.auction.specs.Options.{AreTogether, HasNumber, HasObjects, HasSeconds, IsNumberIn, IsSolveOf};
ghost use Rattle.auction.specs.Options.{IsWatchedBy, is_direct, is_large, usual_bids};

use crate::asked::{Solve, Watching};
use crate::words_error::WordsError;
use auc_run::{Job, MOST_BIDS, USUAL_BIDS};
use clap::ArgMatches;

/// The most threads that may do the work of each kind of shard.
pub(crate) const MOST_WORKERS: u64 = 16;

/// The most calls that the trail of a mail may note.
pub(crate) const MOST_AUDIT: u64 = 1_000_000;

/// The most objects that a usual problem may have.
pub(crate) const MOST_OBJECTS: u64 = 20_000;

/// The most objects that a large problem may have: [`auc_graph::MOST_OBJECTS`].
pub(crate) const MOST_LARGE_OBJECTS: u64 = 4_194_304;

/// The most seconds that a solve may be given.
pub(crate) const MOST_SECONDS: u64 = 1_000_000;

/// The number that a text spells, where it is from `least` to `most`.
pub(crate) fn number_in(text: &str, least: u64, most: u64) -> Result<u64, WordsError>
    ensures { IsNumberIn least most text.now result }
{
    match text.parse::<u64>() {
        Ok(number) if least <= number && number <= most => Ok(number),
        _ => Err(WordsError::Usage),
    }
}

/// The number of an option, from `least` to `most`; the usual one where it is not given.
fn number_of(
    matches: &ArgMatches<'_>,
    id: &str,
    least: u64,
    most: u64,
    usual: u64,
) -> Result<u64, WordsError>
    ensures given { IfOk result (HasNumber least most usual (first_value (found_of matches.now) id.now)) }
    ensures refused { IfErr result
        (λ e. (e ≡ WordsError.Usage) × ((n : ℕ) → ¬ HasNumber least most usual
        (first_value (found_of matches.now) id.now) n)) }
{
    match matches.get_str(id) {
        Some(text) => number_in(text, least, most),
        None => Ok(usual),
    }
}

/// The most objects that a problem may have, a large one or not.
fn most_objects(large: bool) -> u64
    ensures limit { result ≡ objects_limit large }
    ensures most { result ≤ 4194304 }
{
    if large {
        MOST_LARGE_OBJECTS
    } else {
        MOST_OBJECTS
    }
}

/// How many objects the problem is to have, a large one or not; 0, as without the option, means as many as persons.
pub(crate) fn objects_of(matches: &ArgMatches<'_>, large: bool) -> Result<u32, WordsError>
    ensures given { IfOk result (HasObjects large (first_value (found_of matches.now) (codes "objects"))) }
    ensures refused { IfErr result
        (λ e. (e ≡ WordsError.Usage) × ((n : ℕ) → ¬ HasObjects large
        (first_value (found_of matches.now) (codes "objects")) n)) }
    ensures range { IfOk result (λ n. n ≤ objects_limit large) }
{
    let objects = number_of(matches, "objects", 1, most_objects(large), 0)?;
    Ok(objects as u32)
}

/// How many bids a phase may make where the option isn't given: for a large problem as many as there may be.
fn usual_bids(large: bool) -> u64
    ensures { result ≡ usual_bids large }
{
    if large { MOST_BIDS } else { USUAL_BIDS }
}

/// Whether an option is given.
pub(crate) fn is_given(matches: &ArgMatches<'_>, id: &str) -> bool
    ensures { result ≡ is_some (first_value (found_of matches.now) id.now) }
{
    matches.get_str(id).is_some()
}

/// How the solve is to be watched.
fn watching_of(matches: &ArgMatches<'_>) -> Result<Watching, WordsError>
    ensures given { IfOk result (IsWatchedBy (λ name. first_value (found_of matches.now) name)) }
    ensures refused { IfErr result
        (λ e. (e ≡ WordsError.Usage) × ((n : ℕ) → ¬ HasSeconds (first_value (found_of matches.now) (codes "seconds"))
        n)) }
{
    let seconds = number_of(matches, "seconds", 1, MOST_SECONDS, 0)?;
    Ok(Watching {
        seconds,
        progress: is_given(matches, "progress"),
    })
}

/// Looks whether the options go together: a direct solve has no threads and no trail; another one has a trail only
/// with threads, starts from a certificate only without a number of objects, isn't watched, and has no large problem.
fn look_together(
    matches: &ArgMatches<'_>,
    workers: u64,
    audit: u64,
    direct: bool,
) -> Result<(), WordsError>
    requires { direct ≡ is_direct (λ name. first_value (found_of matches.now) name) }
    ensures whether { AreTogether (λ name. first_value (found_of matches.now) name) workers audit result }
{
    if direct {
        if is_given(matches, "workers") || is_given(matches, "audit") {
            return Err(WordsError::DirectThreads);
        }
        return Ok(());
    }
    if workers == 0 && audit > 0 {
        return Err(WordsError::AuditAlone);
    }
    if is_given(matches, "from") && is_given(matches, "objects") {
        return Err(WordsError::FromObjects);
    }
    if is_given(matches, "seconds") || is_given(matches, "progress") {
        return Err(WordsError::WatchAlone);
    }
    if is_given(matches, "large") {
        return Err(WordsError::LargeAlone);
    }
    Ok(())
}

/// The solve that the options ask for. A number that is wrong is named before options that don't go together.
pub(crate) fn solve_of_options(matches: &ArgMatches<'_>) -> Result<Solve, WordsError>
    ensures solve { IsSolveOf (λ name. first_value (found_of matches.now) name) result }
    ensures range { IfOk result (λ s. IsInRange s.job) }
{
    let workers = number_of(matches, "workers", 0, MOST_WORKERS, 0)?;
    let large = is_given(matches, "large");
    let bids = number_of(matches, "bids", 1, MOST_BIDS, usual_bids(large))?;
    let audit = number_of(matches, "audit", 0, MOST_AUDIT, 0)?;
    let objects = objects_of(matches, large)?;
    let watching = watching_of(matches)?;
    let direct = is_given(matches, "direct");
    look_together(matches, workers, audit, direct)?;
    let job = Job::Solve {
        workers: workers as u32,
        bids,
        audit: audit as u32,
        objects,
        from: is_given(matches, "from"),
        direct,
        large,
    };
    Ok(Solve { job, watching })
}
