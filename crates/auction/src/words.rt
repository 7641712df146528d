//! The words of the command line.

ghost use Rattle.std.specs.Prelude.{◌≡◌, ◌≢◌, ◌<◌, ◌⊎◌, ℕ, List, [], Option, Some, None, IfOk, IfErr, map, option_map};
ghost use Rattle.std.specs.Prelude.{codes, is_some, true, false};
ghost use Rattle.std.specs.String.{string_bytes};
ghost use Rattle.clap.specs.Words.{Row, fault_of, first_of, first_value, found_of, rows_of, subcommand_of};
ghost use Rattle.clap.specs.Words.{subcommand_rows_of, takes};
ghost use Rattle.auc_run.specs.Jobs.{IsInRange};
ghost use Rattle.auction.specs.Arguments.{AreCheck, AreCheckOf, AreHallOf, AreJob, AreSolve, value_in};
ghost use Rattle.auction.specs.CommandLine.{AsksFor, IsAuditAlone, IsDirectThreads, IsFromObjects, IsUsage};
ghost use Rattle.auction.specs.CommandLine.{IsLargeAlone, IsWatchAlone};
ghost use Rattle.auction.specs.Grammar.{grammar};
ghost use Rattle.auction.specs.Options.{AreNumbers, GoTogether, HasBoth, HasCheckOf, HasHallOf, HasObjects, HasSolveOf};
ghost use Rattle.auction.specs.Options.{HasThreads, HasWatch, IsWatchedBy, is_direct, is_large};

use crate::asked::{UNWATCHED, Watching, Words};
use crate::grammar::all_commands;
use crate::numbers::{is_given, objects_of, solve_of_options};
use crate::words_error::WordsError;
use auc_run::Job;
use clap::ArgMatches;
use clap::error::ErrorKind;
use std::alloc::{AllocError, Global};

/// The matches of the words, where they fit the commands.
fn matches_of<'a>(alloc: Global, words: &'a [String]) -> Result<ArgMatches<'a>, WordsError>
    ensures found { IfOk result (λ m. subcommand_rows_of m ≡ subcommand_of grammar (map string_bytes words.entry.now)) }
    ensures faultless { IfOk result (λ m. fault_of grammar (map string_bytes words.entry.now) ≡ []) }
    ensures taken { takes grammar (map string_bytes words.entry.now) ≡ true
        → IfErr result (λ e. e ≡ WordsError.NoMemory) }
    ensures refused { IfErr result (λ e. (e ≡ WordsError.Usage) ⊎ (e ≡ WordsError.NoMemory)) }
{
    match all_commands(alloc)?.try_get_matches_from(words) {
        Ok(matches) => Ok(matches),
        Err(error) if error.kind() == ErrorKind::OutOfMemory => Err(WordsError::NoMemory),
        Err(_) => Err(WordsError::Usage),
    }
}

/// The text of an argument, where it is given.
fn name_of(alloc: Global, matches: &ArgMatches<'_>, id: &str) -> Result<Option<String>, AllocError>
    ensures { IfOk result (λ o. option_map string_bytes o ≡ first_value (found_of matches.now) id.now) }
{
    match matches.get_str(id) {
        Some(text) => Ok(Some(text.to_string(alloc)?)),
        None => Ok(None),
    }
}

/// A job with one input, the one that this argument names.
fn job_of(alloc: Global, matches: &ArgMatches<'_>, job: Job, id: &str) -> Result<Words, WordsError>
    requires { IsInRange job }
    ensures names { AsksFor job result (first_of id.now (rows_of (found_of matches.now))) None }
    ensures range { IfOk result (λ w. IsInRange w.job) }
{
    Ok(Words {
        job,
        first: name_of(alloc, matches, id)?,
        second: None,
        watching: UNWATCHED,
    })
}

/// A job with two inputs, those that these arguments name, watched so.
fn job_of_two(
    alloc: Global,
    matches: &ArgMatches<'_>,
    job: Job,
    first: &str,
    second: &str,
    watching: Watching,
) -> Result<Words, WordsError>
    requires { IsInRange job }
    ensures watching { IfOk result (λ w. w.watching ≡ watching) }
    ensures names { AsksFor job result (first_of first.now (rows_of (found_of matches.now)))
        (first_of second.now (rows_of (found_of matches.now))) }
    ensures range { IfOk result (λ w. IsInRange w.job) }
{
    Ok(Words {
        job,
        first: name_of(alloc, matches, first)?,
        second: name_of(alloc, matches, second)?,
        watching,
    })
}

/// A check of the files that are named.
fn check_of(alloc: Global, matches: &ArgMatches<'_>) -> Result<Words, WordsError>
    ensures check { HasCheckOf result (rows_of (found_of matches.now)) }
    ensures range { IfOk result (λ w. IsInRange w.job) }
{
    let large = is_given(matches, "large");
    let objects = objects_of(matches, large)?;
    let check = Job::Check { objects, large };
    job_of_two(alloc, matches, check, "file", "cert", UNWATCHED)
}

/// A hall of the file that is named.
fn hall_of(alloc: Global, matches: &ArgMatches<'_>) -> Result<Words, WordsError>
    ensures hall { HasHallOf result (rows_of (found_of matches.now)) }
    ensures range { IfOk result (λ w. IsInRange w.job) }
{
    let large = is_given(matches, "large");
    let objects = objects_of(matches, large)?;
    job_of(alloc, matches, Job::Hall { objects, large }, "file")
}

/// The solve that the options ask for, of the file that is named, from the certificate that is named.
fn solve_of(alloc: Global, matches: &ArgMatches<'_>) -> Result<Words, WordsError>
    ensures solve { HasSolveOf result (rows_of (found_of matches.now)) }
    ensures range { IfOk result (λ w. IsInRange w.job) }
{
    let solve = solve_of_options(matches)?;
    job_of_two(alloc, matches, solve.job, "file", "from", solve.watching)
}

/// What the command that was found asks for.
fn words_of(alloc: Global, matches: &ArgMatches<'_>) -> Result<Words, WordsError>
    ensures check { (rows : List Row) → subcommand_rows_of matches.now ≡ Some (codes "check", rows)
        → HasCheckOf result rows }
    ensures hall { (rows : List Row) → subcommand_rows_of matches.now ≡ Some (codes "hall", rows)
        → HasHallOf result rows }
    ensures mail { (rows : List Row) → subcommand_rows_of matches.now ≡ Some (codes "mail", rows)
        → AsksFor Job.Mail result (first_of (codes "script") rows) None }
    ensures solve { (rows : List Row) → subcommand_rows_of matches.now ≡ Some (codes "solve", rows)
        → HasSolveOf result rows }
    ensures range { IfOk result (λ w. IsInRange w.job) }
{
    match matches.subcommand() {
        Some(("check", matches)) => check_of(alloc, matches),
        Some(("hall", matches)) => hall_of(alloc, matches),
        Some(("mail", matches)) => job_of(alloc, matches, Job::Mail, "script"),
        Some(("solve", matches)) => solve_of(alloc, matches),
        _ => Err(WordsError::Usage),
    }
}

/// The job that the words give, without the program's name.
///
/// # Errors
///
/// [`WordsError::Usage`] where the words are no job, or a number is out of its range; then
/// [`WordsError::DirectThreads`] where a direct solve is to have threads or a trail; then, of another one,
/// [`WordsError::AuditAlone`] where it has no threads and is to keep a trail; then [`WordsError::FromObjects`] where it
/// is to start from a certificate and has a number of objects; then [`WordsError::WatchAlone`] where it is to be
/// watched; then [`WordsError::LargeAlone`] where its problem is to be a large one.
pub fn read_words(alloc: Global, words: &[String]) -> Result<Words, WordsError>
    // A check that is asked for without options is read as that check, of as many objects as persons, unless memory
    // runs out.
    ensures check { (file : List ℕ) (cert : Option (List ℕ)) → AreCheck (map string_bytes words.now) file cert
        → AsksFor (Job.Check 0 false) result (Some file) cert }
    // A check with a number of objects, with the flag for a large problem, or with both, anywhere among its files, is
    // read as the check with that number, of a large problem where the flag is given, unless memory runs out.
    ensures check_objects { (given : List (List ℕ × List ℕ)) (objects : ℕ)
        → AreCheckOf (map string_bytes words.now) given
        → HasObjects (is_large (value_in given)) (value_in given (codes "objects")) objects
        → AsksFor (Job.Check objects (is_large (value_in given))) result (value_in given (codes "file"))
        (value_in given (codes "cert")) }
    // A hall that is asked for without options is read as that hall, of as many objects as persons, unless memory runs
    // out.
    ensures hall { (file : Option (List ℕ)) → AreJob (codes "hall") (map string_bytes words.now) file
        → AsksFor (Job.Hall 0 false) result file None }
    // A hall with a number of objects, with the flag for a large problem, or with both, before or after its file, is
    // read as the hall with that number, of a large problem where the flag is given, unless memory runs out.
    ensures hall_objects { (given : List (List ℕ × List ℕ)) (objects : ℕ)
        → AreHallOf (map string_bytes words.now) given
        → HasObjects (is_large (value_in given)) (value_in given (codes "objects")) objects
        → AsksFor (Job.Hall objects (is_large (value_in given))) result (value_in given (codes "file")) None }
    // A mail that is asked for is read as that mail, unless memory runs out.
    ensures mail { (script : Option (List ℕ)) → AreJob (codes "mail") (map string_bytes words.now) script
        → AsksFor Job.Mail result script None }
    // A solve that is asked for without options is read as that solve, with no threads, the usual bids, no trail, as
    // many objects as persons, and from no certificate, unless memory runs out.
    ensures solve { (file : Option (List ℕ)) → AreJob (codes "solve") (map string_bytes words.now) file
        → AsksFor (Job.Solve 0 100000000 0 0 false false false) result file None }
    // A solve with options, in any order, is read as the solve with their numbers and the usual ones of the others,
    // from the certificate that they name, directly where they say so, and of a large problem where they say that,
    // unless memory runs out.
    ensures options { (given : List (List ℕ × List ℕ)) (workers bids audit objects : ℕ)
        → AreSolve (map string_bytes words.now) given → AreNumbers (value_in given) workers bids audit objects
        → GoTogether (value_in given) workers audit
        → AsksFor (Job.Solve workers bids audit objects (is_some (value_in given (codes "from")))
        (is_direct (value_in given)) (is_large (value_in given))) result (value_in given (codes "file"))
        (value_in given (codes "from")) }
    // An option whose value is no number, or one out of range, is a fault of usage, unless memory runs out.
    ensures wrong_number { (given : List (List ℕ × List ℕ)) → AreSolve (map string_bytes words.now) given
        → ((workers bids audit objects : ℕ) → ¬ AreNumbers (value_in given) workers bids audit objects)
        → IsUsage result }
    // So is a number of objects of a check, or of a hall.
    ensures wrong_objects { (given : List (List ℕ × List ℕ)) → AreCheckOf (map string_bytes words.now) given
        ⊎ AreHallOf (map string_bytes words.now) given
        → ((objects : ℕ) → ¬ HasObjects (is_large (value_in given)) (value_in given (codes "objects")) objects)
        → IsUsage result }
    // A direct solve with threads or a trail is a fault of its own, unless memory runs out.
    ensures direct_threads { (given : List (List ℕ × List ℕ)) (workers bids audit objects : ℕ)
        → AreSolve (map string_bytes words.now) given → AreNumbers (value_in given) workers bids audit objects
        → is_direct (value_in given) ≡ true → HasThreads (value_in given) → IsDirectThreads result }
    // So is, of another one, a trail without threads.
    ensures audit_alone { (given : List (List ℕ × List ℕ)) (bids audit objects : ℕ)
        → AreSolve (map string_bytes words.now) given → AreNumbers (value_in given) 0 bids audit objects
        → is_direct (value_in given) ≡ false → 0 < audit → IsAuditAlone result }
    // After it, so is a start from a certificate with a number of objects.
    ensures from_objects { (given : List (List ℕ × List ℕ)) (workers bids audit objects : ℕ)
        → AreSolve (map string_bytes words.now) given → AreNumbers (value_in given) workers bids audit objects
        → is_direct (value_in given) ≡ false → (workers ≡ 0 → audit ≡ 0) → HasBoth (value_in given)
        → IsFromObjects result }
    // After these, so is one that is to be watched.
    ensures watch_alone { (given : List (List ℕ × List ℕ)) (workers bids audit objects : ℕ)
        → AreSolve (map string_bytes words.now) given → AreNumbers (value_in given) workers bids audit objects
        → is_direct (value_in given) ≡ false → (workers ≡ 0 → audit ≡ 0) → ¬ HasBoth (value_in given)
        → HasWatch (value_in given) → IsWatchAlone result }
    // After all of these, so is one of a large problem.
    ensures large_alone { (given : List (List ℕ × List ℕ)) (workers bids audit objects : ℕ)
        → AreSolve (map string_bytes words.now) given → AreNumbers (value_in given) workers bids audit objects
        → is_direct (value_in given) ≡ false → (workers ≡ 0 → audit ≡ 0) → ¬ HasBoth (value_in given)
        → ¬ HasWatch (value_in given) → is_large (value_in given) ≡ true → IsLargeAlone result }
    // A solve is watched as its options ask: for so many seconds, and with or without progress.
    ensures watched { (given : List (List ℕ × List ℕ)) → AreSolve (map string_bytes words.now) given
        → IfOk result (λ w. IsWatchedBy (value_in given) w.watching) }
    // Words that the grammar does not take are a fault of usage, unless memory runs out.
    ensures unfit { fault_of grammar (map string_bytes words.now) ≢ [] → IsUsage result }
    // The numbers of the job are those that it may have.
    ensures range { IfOk result (λ w. IsInRange w.job) }
{
    let matches = matches_of(alloc, words)?;
    words_of(alloc, &matches)
}
