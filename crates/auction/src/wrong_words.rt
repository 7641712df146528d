//! Which of some words that are no job is at fault, and what was wanted. Whether words are a job, the parser says
//! (`words.rt`); this says why not.

use crate::wanted::{
    Command, Wanted, command_of, fault_of_value, most_names, nearest_option, wanted_of,
};
use crate::word_fault::{WordFault, nearest};
use std::alloc::{AllocError, Global};

/// Of arguments that are no command, where none of them can be named.
const NO_COMMAND: &str = "these arguments are no command; see auction --help";

/// How far a walk over the words after a command has come.
#[derive(Drop)]
struct Walk<'a> {
    command: Command,
    // Whether the flag for a large problem is among the words.
    is_large: bool,
    // How many names there were.
    names: u32,
    // Whether all that comes is a name, after --.
    is_plain: bool,
    // The option before this word, where its value is to come.
    awaited: Option<(&'a str, Wanted)>,
}

/// Whether a word is an option, and no name.
fn is_option(word: &str) -> bool {
    word.len() > 1 && word.starts_with('-')
}

/// The part of an option before its value, and the value where it is in the same word.
fn parts_of(word: &str) -> (&str, Option<&str>) {
    match word.split_once('=') {
        Some((option, value)) => (option, Some(value)),
        None => (word, None),
    }
}

/// Whether an option was given among these words.
fn is_among(words: &[String], option: &str) -> bool {
    for word in words {
        if parts_of(word.as_str()).0 == option {
            return true;
        }
    }
    false
}

/// Whether the flag for a large problem is among these words, before those that are names only.
fn is_large_among(words: &[String]) -> bool {
    for word in words {
        match word.as_str() {
            "--" => return false,
            "--large" => return true,
            _ => {}
        }
    }
    false
}

impl<'a> Walk<'a> {
    /// Goes past the value of the option before it.
    fn value(&self, option: &'a str, wanted: Wanted, word: &'a str) -> Option<WordFault<'a>> {
        if is_option(word) {
            return Some(WordFault::about("no value follows ", option, "; see auction --help"));
        }
        fault_of_value(wanted, word)
    }

    /// Goes past a name.
    fn name(&mut self, word: &'a str) -> Option<WordFault<'a>> {
        self.names = self.names.saturating_add(1);
        if self.names > most_names(self.command) {
            return Some(WordFault::about("one name too many, ", word, "; see auction --help"));
        }
        None
    }

    /// Goes past an option of the command, and its value where that is in the same word.
    fn option(&mut self, wanted: Wanted, word: &'a str) -> Option<WordFault<'a>> {
        let (option, value) = parts_of(word);
        match value {
            Some(_) if wanted == Wanted::Nothing => {
                Some(WordFault::about("no value goes with this option, ", word, "; leave it out"))
            }
            Some(value) => fault_of_value(wanted, value),
            None => {
                if wanted != Wanted::Nothing {
                    self.awaited = Some((option, wanted));
                }
                None
            }
        }
    }

    /// Goes past a word that is no value, where there are `earlier` ones.
    fn word(
        &mut self,
        alloc: Global,
        earlier: &[String],
        word: &'a str,
    ) -> Result<Option<WordFault<'a>>, AllocError> {
        if self.is_plain || !is_option(word) {
            return Ok(self.name(word));
        }
        if word == "--" {
            self.is_plain = true;
            return Ok(None);
        }
        let option = parts_of(word).0;
        let Some(wanted) = wanted_of(self.command, self.is_large, option) else {
            let nearest = nearest_option(alloc, self.command, option)?;
            let fault = WordFault::about(
                "this command has no option ",
                option,
                "; see auction --help",
            );
            return Ok(Some(fault.with_nearest("--", nearest)));
        };
        if is_among(earlier, option) {
            return Ok(Some(WordFault::about(
                "an option is given twice, ",
                option,
                "; give it once",
            )));
        }
        Ok(self.option(wanted, word))
    }

    /// What is missing at the end of the words.
    fn end(&self) -> WordFault<'a> {
        if let Some((option, _)) = self.awaited {
            return WordFault::about("no value follows ", option, "; see auction --help");
        }
        if self.names == 0 && self.command == Command::Check {
            return WordFault::alone(
                "check wants the name of a problem: auction check FILE [CERT] [--objects M]",
            );
        }
        WordFault::alone(NO_COMMAND)
    }
}

/// What is wrong with the words after a command.
fn fault_after<'a>(
    alloc: Global,
    command: Command,
    words: &'a [String],
) -> Result<WordFault<'a>, AllocError> {
    let mut walk = Walk {
        command,
        is_large: is_large_among(words),
        names: 0,
        is_plain: false,
        awaited: None,
    };
    for place in 0..words.len() {
        let word = words[place].as_str();
        let fault = match walk.awaited.take() {
            Some((option, wanted)) => walk.value(option, wanted, word),
            None => walk.word(alloc, &words[..place], word)?,
        };
        if let Some(fault) = fault {
            return Ok(fault);
        }
    }
    Ok(walk.end())
}

/// What is wrong with a first word that is no command.
fn fault_of_command<'a>(alloc: Global, word: &'a str) -> Result<WordFault<'a>, AllocError> {
    if is_option(word) {
        return Ok(WordFault::about(
            "a command comes first, and not ",
            word,
            "; see auction --help",
        ));
    }
    let after = "; there are solve, check, hall and mail, and auction --help";
    let nearest = nearest(alloc, word, ["solve", "check", "hall", "mail"].as_slice())?;
    Ok(WordFault::about("no command ", word, after).with_nearest("", nearest))
}

/// What is wrong with the words after `help`, which are no command's name alone.
fn fault_of_help<'a>(alloc: Global, words: &'a [String]) -> Result<WordFault<'a>, AllocError> {
    match words {
        [] => Ok(WordFault::alone(NO_COMMAND)),
        [word] => fault_of_command(alloc, word.as_str()),
        [_, word, ..] => {
            Ok(WordFault::about("one name too many, ", word.as_str(), "; see auction --help"))
        }
    }
}

/// What is wrong with words that are no job: the first word at fault, and the right one that is most like it, if one
/// is.
///
/// # Errors
///
/// Only where memory was refused.
pub(crate) fn fault_of<'a>(
    alloc: Global,
    words: &'a [String],
) -> Result<WordFault<'a>, AllocError> {
    let Some(first) = words.first() else {
        let none = "no command; there are solve, check, hall and mail, and auction --help";
        return Ok(WordFault::alone(none));
    };
    if first.as_str() == "help" {
        return fault_of_help(alloc, &words[1..]);
    }
    match command_of(first.as_str()) {
        Some(command) => fault_after(alloc, command, &words[1..]),
        None => fault_of_command(alloc, first.as_str()),
    }
}
