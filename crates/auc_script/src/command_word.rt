//! The words that begin a command of a script.

/// A word that begins a command.
#[derive(Clone, Copy, Debug, PartialEq, Eq)]
pub enum CommandWord {
    /// It opens the script, and comes nowhere else.
    MailWord,
    PostWord,
    TakeWord,
    CloseWord,
}
