//! What is wrong with a word of the command line, in a sentence.

use auc_messages::write_name;
use std::alloc::{AllocError, Global};
use std::io::Write;
use strsim::jaro;

/// How alike a wrong word and a right one are at least that is named beside it, from 0 to 1: that of `clap`.
const ALIKE: f64 = 0.7;

/// What is wrong with some words.
#[derive(Debug, Drop)]
pub(crate) struct WordFault<'a> {
    // What is before the word in the sentence, the word, and what is after it where no right word is near.
    before: &'static str,
    word: Option<&'a str>,
    after: &'static str,
    // The right word that is like it, without its hyphens, and these.
    nearest: Option<&'static str>,
    hyphens: &'static str,
}

impl<'a> WordFault<'a> {
    /// With no word.
    pub fn alone(before: &'static str) -> WordFault<'a> {
        WordFault {
            before,
            word: None,
            after: "",
            nearest: None,
            hyphens: "",
        }
    }

    /// About a word.
    pub fn about(before: &'static str, word: &'a str, after: &'static str) -> WordFault<'a> {
        WordFault {
            before,
            word: Some(word),
            after,
            nearest: None,
            hyphens: "",
        }
    }

    /// The same, where this right word after these hyphens is like it, if any is.
    pub fn with_nearest(
        self,
        hyphens: &'static str,
        nearest: Option<&'static str>,
    ) -> WordFault<'a> {
        WordFault {
            nearest,
            hyphens,
            ..self
        }
    }

    /// Writes it in one sentence, with no control character of the word.
    pub fn write<W: Write>(&self, writer: &mut W) {
        let _ = writer.write_all(b"auction: ");
        let _ = writer.write_all(self.before.as_bytes());
        if let Some(word) = self.word {
            let _ = writer.write_all(b"`");
            let _ = write_name(writer, word);
            let _ = writer.write_all(b"`");
        }
        match self.nearest {
            Some(nearest) => {
                let _ = writer.write_all(b"; did you mean `");
                let _ = writer.write_all(self.hyphens.as_bytes());
                let _ = writer.write_all(nearest.as_bytes());
                let _ = writer.write_all(b"`?\n");
            }
            None => {
                let _ = writer.write_all(self.after.as_bytes());
                let _ = writer.write_all(b"\n");
            }
        }
    }
}

/// How alike two words are, from 0 to 1; in capitals a word is as right.
fn likeness(alloc: Global, word: &str, other: &str) -> Result<f64, AllocError> {
    if word.eq_ignore_ascii_case(other) {
        return Ok(1.0);
    }
    jaro(alloc, word, other)
}

/// The right word that is most like a wrong one, where one is like it.
pub(crate) fn nearest(
    alloc: Global,
    word: &str,
    right: &[&'static str],
) -> Result<Option<&'static str>, AllocError> {
    let mut found = None;
    let mut most = ALIKE;
    for other in right {
        let alike = likeness(alloc, word, other)?;
        if alike > most {
            most = alike;
            found = Some(*other);
        }
    }
    Ok(found)
}
