//! Words that ask for a page about the program, and for no job.

ghost use Rattle.std.specs.Prelude.{◌≡◌, map};
ghost use Rattle.std.specs.String.{string_bytes};
ghost use Rattle.auc_messages.specs.Pages.{is_help, is_help_command, is_version, page_of, page_of_command};

/// A page about the program.
#[derive(Clone, Copy, Debug, PartialEq, Eq)]
pub enum Page {
    /// How it is used.
    Usage,
    /// How a solve is asked for.
    Solve,
    /// How a check is asked for.
    Check,
    /// How a hall is asked for.
    Hall,
    /// How the calls of a mail are asked for.
    Mail,
    /// Which version it is of.
    Version,
}

#[tactic(auto, unfolding(crate::specs::Pages::is_help))]
fn is_help(word: &[u8]) -> bool
    ensures { result ≡ is_help word.now }
{
    word == b"--help".as_slice() || word == b"-h".as_slice()
}

#[tactic(auto, unfolding(crate::specs::Pages::is_version))]
fn is_version(word: &[u8]) -> bool
    ensures { result ≡ is_version word.now }
{
    word == b"--version".as_slice() || word == b"-V".as_slice()
}

#[tactic(auto, unfolding(crate::specs::Pages::is_help_command))]
fn is_help_command(word: &[u8]) -> bool
    ensures { result ≡ is_help_command word.now }
{
    word == b"help".as_slice()
}

/// The page about a command, or none where there is no such command.
#[tactic(auto, unfolding(crate::specs::Pages::page_of_command))]
fn page_of_command(word: &[u8]) -> Option<Page>
    ensures { result ≡ page_of_command word.now }
{
    if word == b"solve".as_slice() {
        return Some(Page::Solve);
    }
    if word == b"check".as_slice() {
        return Some(Page::Check);
    }
    if word == b"hall".as_slice() {
        return Some(Page::Hall);
    }
    if word == b"mail".as_slice() {
        return Some(Page::Mail);
    }
    None
}

/// The page that the words after the program's name ask for, or none.
pub fn page_of(words: &[String]) -> Option<Page>
    ensures { result ≡ page_of (map string_bytes words.now) }
{
    match words {
        [word] => {
            let word = word.as_bytes();
            if is_help(word) || is_help_command(word) {
                Some(Page::Usage)
            } else if is_version(word) {
                Some(Page::Version)
            } else {
                None
            }
        }
        [first, second] => {
            if is_help(second.as_bytes()) {
                page_of_command(first.as_bytes())
            } else if is_help_command(first.as_bytes()) {
                page_of_command(second.as_bytes())
            } else {
                None
            }
        }
        _ => None,
    }
}
