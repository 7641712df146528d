//! Writing of a sentence.

ghost use Rattle.std.specs.Prelude.{◌≡◌, ◌++◌, map};
ghost use Rattle.std.specs.Option.{option_map};
ghost use Rattle.auc_cert.specs.Writing.{Writes};
ghost use Rattle.auc_messages.specs.Sentences.{place_words, quote_end, quoted_end, sentence, sentence_alone};
ghost use Rattle.auc_messages.specs.Sentences.{sentence_at, sentence_numbered, sentence_of_all, sentence_on};
ghost use Rattle.auc_messages.specs.Sentences.{shown_byte};

use crate::naming::write_front;
use crate::remark::Remark;
use crate::shown::shown;
use crate::spot::Spot;
use auc_cert::{Part, WriteFault, write_parts, write_whole};
use auc_place::Place;
use std::io::Write;

/// How the quotation of a token ends, of which all bytes are shown or not.
fn quote_end(whole: bool) -> &'static [u8]
    ensures { result.now ≡ quote_end whole }
{
    if whole { b"\"" } else { b"...\"" }
}

/// Writes where a token is in the input of this name.
fn write_place<W: Write>(writer: &mut W, name: &str, place: &Place) -> Result<(), WriteFault>
    ensures { Writes result (W.contents writer.old) (W.contents writer.new) (place_words name.now place.now) }
{
    write_front(writer, name)?;
    let parts = [
        Part::Words(b", line "),
        Part::Count(place.line),
        Part::Words(b", column "),
        Part::Count(place.column),
        Part::Words(b", \""),
    ];
    write_parts(writer, &parts)
}

/// Writes what comes after the first bytes of a token.
fn write_end<W: Write>(writer: &mut W, whole: bool, phrase: &[u8]) -> Result<(), WriteFault>
    ensures { Writes result (W.contents writer.old) (W.contents writer.new) (quoted_end whole phrase.now) }
{
    let parts = [
        Part::Words(quote_end(whole)),
        Part::Words(b": "),
        Part::Words(phrase),
        Part::LineEnd,
    ];
    write_parts(writer, &parts)
}

/// Writes the first bytes of a token, and what comes after them.
fn write_quoted<W: Write>(writer: &mut W, place: &Place, phrase: &[u8]) -> Result<(), WriteFault>
    ensures { Writes result (W.contents writer.old) (W.contents writer.new)
        (map shown_byte place.now.front.items ++ quoted_end place.now.whole phrase.now) }
{
    let front = shown(place.front.as_slice());
    write_whole(writer, front.as_slice())?;
    write_end(writer, place.whole, phrase)
}

/// Writes a sentence about a token at its place in the input of this name.
fn write_at<W: Write>(
    writer: &mut W,
    name: &str,
    place: &Place,
    phrase: &[u8],
) -> Result<(), WriteFault>
    ensures { Writes result (W.contents writer.old) (W.contents writer.new)
        (sentence_at name.now place.now phrase.now) }
{
    write_place(writer, name, place)?;
    write_quoted(writer, place, phrase)
}

/// Writes a sentence about what has this number, from 0 on, in the input of this name.
fn write_numbered<'x, W: Write>(
    writer: &mut W,
    name: &'x str,
    what: &'x [u8],
    number: u64,
    phrase: &'x [u8],
) -> Result<(), WriteFault>
    ensures { Writes result (W.contents writer.old) (W.contents writer.new)
        (sentence_numbered name.now what.now number phrase.now) }
{
    write_front(writer, name)?;
    let parts = [
        Part::Words(what),
        Part::Place(number),
        Part::Words(b": "),
        Part::Words(phrase),
        Part::LineEnd,
    ];
    write_parts(writer, &parts)
}

/// Writes a sentence about the whole input of this name.
fn write_all<'x, W: Write>(
    writer: &mut W,
    name: &'x str,
    phrase: &'x [u8],
) -> Result<(), WriteFault>
    ensures { Writes result (W.contents writer.old) (W.contents writer.new) (sentence_of_all name.now phrase.now) }
{
    write_front(writer, name)?;
    let parts = [Part::Words(b": "), Part::Words(phrase), Part::LineEnd];
    write_parts(writer, &parts)
}

/// Writes a sentence about a spot of the input of this name.
fn write_on<'x, W: Write>(
    writer: &mut W,
    name: &'x str,
    spot: Spot,
    phrase: &'x [u8],
) -> Result<(), WriteFault>
    ensures { Writes result (W.contents writer.old) (W.contents writer.new) (sentence_on name.now spot phrase.now) }
{
    match spot {
        Spot::All => write_all(writer, name, phrase),
        Spot::Token(token) => write_numbered(writer, name, b", token ", token, phrase),
        Spot::Line(line) => write_numbered(writer, name, b", line ", line, phrase),
        Spot::Person(person) => write_numbered(writer, name, b", person ", person, phrase),
        Spot::Object(object) => write_numbered(writer, name, b", object ", object, phrase),
    }
}

/// Writes a sentence about no input.
fn write_alone<W: Write>(writer: &mut W, phrase: &[u8]) -> Result<(), WriteFault>
    ensures { Writes result (W.contents writer.old) (W.contents writer.new) (sentence_alone phrase.now) }
{
    let parts = [
        Part::Words(b"auction: "),
        Part::Words(phrase),
        Part::LineEnd,
    ];
    write_parts(writer, &parts)
}

/// Writes what is to be said, in one sentence: `name` is that of the input that it is about, if any, and `place` the
/// place of its token, if that is known. Takes no memory.
///
/// # Errors
///
/// As [`auc_cert::write_whole`].
pub fn write_remark<W: Write>(
    writer: &mut W,
    name: Option<&str>,
    place: &Option<Place>,
    remark: Remark,
) -> Result<(), WriteFault>
    ensures { Writes result (W.contents writer.old) (W.contents writer.new)
        (sentence (option_map (λ x. x.now) name.entry) place.now remark.spot remark.phrase.now) }
{
    match name {
        None => write_alone(writer, remark.phrase),
        Some(name) => match place {
            None => write_on(writer, name, remark.spot, remark.phrase),
            Some(place) => write_at(writer, name, place, remark.phrase),
        },
    }
}
