//! What each command has after it: its options, what each of them wants, and its files.

use crate::numbers::{
    MOST_AUDIT, MOST_LARGE_OBJECTS, MOST_OBJECTS, MOST_SECONDS, MOST_WORKERS, number_in,
};
use crate::word_fault::{WordFault, nearest};
use auc_run::MOST_BIDS;
use std::alloc::{AllocError, Global};

/// A command.
#[derive(Clone, Copy, Debug, PartialEq, Eq)]
pub(crate) enum Command {
    Solve,
    Check,
    Hall,
    Mail,
}

/// What an option wants after it.
#[derive(Clone, Copy, Debug, PartialEq, Eq)]
pub(crate) enum Wanted {
    Workers,
    Bids,
    Audit,
    Objects,
    LargeObjects,
    Seconds,
    Name,
    Nothing,
}

/// The command that this word names.
pub(crate) fn command_of(word: &str) -> Option<Command> {
    match word {
        "solve" => Some(Command::Solve),
        "check" => Some(Command::Check),
        "hall" => Some(Command::Hall),
        "mail" => Some(Command::Mail),
        _ => None,
    }
}

/// What an option of a solve, a check or a hall wants after it; none where not all of them have such an option.
fn wanted_of_all(is_large: bool, option: &str) -> Option<Wanted> {
    match option {
        "--objects" if is_large => Some(Wanted::LargeObjects),
        "--objects" => Some(Wanted::Objects),
        "--large" => Some(Wanted::Nothing),
        _ => None,
    }
}

/// What an option of this command wants after it; none where the command has no such option.
pub(crate) fn wanted_of(command: Command, is_large: bool, option: &str) -> Option<Wanted> {
    if command == Command::Mail {
        return None;
    }
    if let Some(wanted) = wanted_of_all(is_large, option) {
        return Some(wanted);
    }
    if command != Command::Solve {
        return None;
    }
    match option {
        "--workers" => Some(Wanted::Workers),
        "--bids" => Some(Wanted::Bids),
        "--audit" => Some(Wanted::Audit),
        "--from" => Some(Wanted::Name),
        "--seconds" => Some(Wanted::Seconds),
        "--direct" | "--progress" => Some(Wanted::Nothing),
        _ => None,
    }
}

/// The option of this command that is most like a wrong one, both without hyphens.
pub(crate) fn nearest_option(
    alloc: Global,
    command: Command,
    option: &str,
) -> Result<Option<&'static str>, AllocError> {
    let name = option.trim_start_matches('-');
    match command {
        Command::Solve => {
            let right = [
                "workers", "bids", "audit", "objects", "from", "direct", "seconds", "progress",
                "large",
            ];
            nearest(alloc, name, right.as_slice())
        }
        Command::Check | Command::Hall => nearest(alloc, name, ["objects", "large"].as_slice()),
        Command::Mail => Ok(None),
    }
}

/// The most files that a command reads.
pub(crate) fn most_names(command: Command) -> u32 {
    match command {
        Command::Check => 2,
        Command::Solve | Command::Hall | Command::Mail => 1,
    }
}

/// The least and the greatest number that an option may have, and what is said before a value that is none of them.
fn range_of(wanted: Wanted) -> Option<(u64, u64, &'static str)> {
    let range = match wanted {
        Wanted::Workers => (
            0,
            MOST_WORKERS,
            "--workers wants a whole number from 0 to 16, and not ",
        ),
        Wanted::Bids => (
            1,
            MOST_BIDS,
            "--bids wants a whole number from 1 to 1000000000000, and not ",
        ),
        Wanted::Audit => (
            0,
            MOST_AUDIT,
            "--audit wants a whole number from 0 to 1000000, and not ",
        ),
        Wanted::Objects => (
            1,
            MOST_OBJECTS,
            "--objects wants a whole number from 1 to 20000, with --large to 4194304, and not ",
        ),
        Wanted::LargeObjects => (
            1,
            MOST_LARGE_OBJECTS,
            "--objects wants a whole number from 1 to 4194304, and not ",
        ),
        Wanted::Seconds => (
            1,
            MOST_SECONDS,
            "--seconds wants a whole number from 1 to 1000000, and not ",
        ),
        Wanted::Name | Wanted::Nothing => return None,
    };
    Some(range)
}

/// What is wrong with a value, if anything.
pub(crate) fn fault_of_value<'a>(wanted: Wanted, value: &'a str) -> Option<WordFault<'a>> {
    let (least, most, before) = range_of(wanted)?;
    match number_in(value, least, most) {
        Ok(_) => None,
        Err(_) => Some(WordFault::about(before, value, "")),
    }
}
