//! Names of files, as they are shown.

ghost use Rattle.std.specs.Prelude.{◌≡◌, ◌<◌, true, codes, ◌++◌};
ghost use Rattle.std.specs.Char.{digit_char, is_control};
ghost use Rattle.std.specs.Char.Escape.{escape_default, escape_unicode};
ghost use Rattle.auc_cert.specs.Writing.{Writes};
ghost use Rattle.auc_messages.specs.Names.{front_of, shown_character, shown_name};

use auc_cert::{WriteFault, write_whole};
use std::io::Write;

/// A hexadecimal digit.
fn digit_of(value: u32) -> u8
    requires { value < 16 }
    ensures { result ≡ digit_char value }
{
    if value < 10 {
        (48 + value) as u8
    } else {
        (87 + value) as u8
    }
}

/// Writes a control character by its number.
fn write_code<W: Write>(writer: &mut W, code: u32) -> Result<(), WriteFault>
    requires { code < 256 }
    ensures { Writes result (W.contents writer.old) (W.contents writer.new) (escape_unicode code) }
{
    let low = digit_of(code % 16);
    if code < 16 {
        return write_whole(writer, &[b'\\', b'u', b'{', low, b'}']);
    }
    let high = digit_of(code / 16 % 16);
    write_whole(writer, &[b'\\', b'u', b'{', high, low, b'}'])
}

/// Writes a control character as Rust writes it in a literal.
fn write_control<W: Write>(writer: &mut W, character: char) -> Result<(), WriteFault>
    requires { is_control character ≡ true }
    ensures { Writes result (W.contents writer.old) (W.contents writer.new) (escape_default character) }
{
    match character {
        '\t' => write_whole(writer, b"\\t"),
        '\n' => write_whole(writer, b"\\n"),
        '\r' => write_whole(writer, b"\\r"),
        _ => write_code(writer, character as u32),
    }
}

/// Writes a character of a name.
fn write_character<W: Write>(writer: &mut W, character: char) -> Result<(), WriteFault>
    ensures { Writes result (W.contents writer.old) (W.contents writer.new) (shown_character character) }
{
    if character.is_control() {
        return write_control(writer, character);
    }
    let mut bytes = [0u8; 4];
    write_whole(writer, character.encode_utf8(&mut bytes).as_bytes())
}

/// Writes a name, with control characters as Rust writes them in a literal, so that none of them gets to a terminal or
/// ends the line. Takes no memory.
///
/// # Errors
///
/// As [`auc_cert::write_whole`].
pub fn write_name<W: Write>(writer: &mut W, name: &str) -> Result<(), WriteFault>
    ensures { Writes result (W.contents writer.old) (W.contents writer.new) (shown_name name.now) }
{
    for character in name.chars() {
        write_character(writer, character)?;
    }
    Ok(())
}

/// Writes how a sentence about the input of this name begins.
pub(crate) fn write_front<W: Write>(writer: &mut W, name: &str) -> Result<(), WriteFault>
    ensures { Writes result (W.contents writer.old) (W.contents writer.new) (front_of name.now) }
{
    write_whole(writer, b"auction: ")?;
    write_name(writer, name)
}
