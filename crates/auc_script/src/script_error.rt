//! Why a text is no script.

ghost use Rattle.std.specs.Prelude.{◌≡◌};
ghost use Rattle.auc_script.specs.declared.script_error.ScriptError.TheVariants.{NoMemory};

use std::alloc::{AllocError, AllocFailed};
use thiserror::Error;

/// Why a text is no script of calls: its first fault. Tokens are numbered from 0.
#[derive(Clone, Copy, Debug, PartialEq, Eq, Error)]
pub enum ScriptError {
    /// This token is no command where a command is needed, not `mail` where the script begins, or no number where a
    /// number is needed.
    #[error("token {token} is not what has to stand there")]
    Word { token: u64 },
    /// This token is a number out of its range.
    #[error("token {token} is out of range")]
    Range { token: u64 },
    /// The text, which has this many tokens, ends inside a command, or has none.
    #[error("the script ends inside a command, after {tokens} tokens")]
    Cut { tokens: u64 },
    /// A token comes after the last call that is allowed.
    #[error("there are too many calls")]
    TooManyCalls,
    /// Memory was refused.
    #[error("out of memory")]
    NoMemory,
}

impl From<AllocError> for ScriptError {
    ghost from_gives = { λ _ e. e ≡ NoMemory };

    fn from(_e: AllocError) -> ScriptError {
        ScriptError::NoMemory
    }
}

impl<T: Drop> From<AllocFailed<T>> for ScriptError {
    ghost from_gives = { λ _ e. e ≡ NoMemory };

    fn from(_e: AllocFailed<T>) -> ScriptError {
        ScriptError::NoMemory
    }
}
