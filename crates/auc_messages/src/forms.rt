//! Files that are no problem but something else, seen by the token that is no number. The signatures are those that the
//! formats fix: gzip (RFC 1952), bzip2, xz, Zstandard (RFC 8878), zip, byte order marks (Unicode), MatrixMarket and
//! DIMACS.

ghost use Rattle.std.specs.Prelude.{◌≡◌, IsTrue};
ghost use Rattle.auc_messages.specs.Forms.{bad_number, form_of, form_told, mark_form, packed_form, phrase_of_form};
ghost use Rattle.auc_messages.specs.Forms.{text_form, word_form};
ghost use Rattle.auc_messages.specs.Sentences.{is_phrase};

use crate::remark::told_refusal;
use crate::texts;
use auc_graph::ReadError;
use auc_place::Place;
use auc_run::{Ending, Refusal};

/// What a file is that is no problem.
#[derive(Clone, Copy, Debug, PartialEq, Eq)]
pub enum Form {
    /// Packed by gzip.
    Gzip,
    /// Packed by bzip2, xz or Zstandard.
    Packed,
    /// A zip archive, as workbooks are.
    Zip,
    /// Text of 16-bit units.
    Utf16,
    /// Text after a byte order mark.
    Marked,
    /// A matrix of the MatrixMarket's form.
    MatrixMarket,
    /// A problem of DIMACS.
    Dimacs,
    /// A certificate of this program.
    Certificate,
    /// A script of a mail.
    Script,
    /// JSON.
    Json,
    /// Values with commas or semicolons between them, or in them.
    Separated,
}

/// A packed file, by its first bytes.
#[tactic(auto, unfolding(crate::specs::Forms::packed_form))]
fn packed_form(bytes: &[u8]) -> Option<Form>
    ensures { result ≡ packed_form bytes.now }
{
    if bytes.starts_with(&[31, 139]) {
        return Some(Form::Gzip);
    }
    if bytes.starts_with(b"BZh")
        || bytes.starts_with(&[253, 55, 122, 88, 90])
        || bytes.starts_with(&[40, 181, 47, 253])
    {
        return Some(Form::Packed);
    }
    if bytes.starts_with(&[80, 75, 3, 4]) {
        return Some(Form::Zip);
    }
    None
}

/// A text of another format, by its first bytes.
#[tactic(auto, unfolding(crate::specs::Forms::text_form))]
fn text_form(bytes: &[u8]) -> Option<Form>
    ensures { result ≡ text_form bytes.now }
{
    if bytes.starts_with(&[255, 254]) || bytes.starts_with(&[254, 255]) {
        return Some(Form::Utf16);
    }
    if bytes.starts_with(&[239, 187, 191]) {
        return Some(Form::Marked);
    }
    if bytes.starts_with(b"%%MatrixMarket") {
        return Some(Form::MatrixMarket);
    }
    if bytes.starts_with(b"{") || bytes.starts_with(b"[") {
        return Some(Form::Json);
    }
    None
}

/// A text of another format, by its whole first word.
#[tactic(auto, unfolding(crate::specs::Forms::word_form))]
fn word_form(bytes: &[u8]) -> Option<Form>
    ensures { result ≡ word_form bytes.now }
{
    if bytes == b"c".as_slice() || bytes == b"p".as_slice() {
        return Some(Form::Dimacs);
    }
    if bytes == b"auction".as_slice() {
        return Some(Form::Certificate);
    }
    if bytes == b"mail".as_slice() {
        return Some(Form::Script);
    }
    None
}

/// Values with marks between them, or in them.
#[tactic(auto, unfolding(crate::specs::Forms::mark_form))]
fn mark_form(bytes: &[u8]) -> Option<Form>
    ensures { result ≡ mark_form bytes.now }
{
    if bytes.contains(&b',') || bytes.contains(&b';') {
        Some(Form::Separated)
    } else {
        None
    }
}

/// What a file is whose token of this number begins so and is no number, if that is known.
fn form_of(number: u64, bytes: &[u8]) -> Option<Form>
    ensures { result ≡ form_of number bytes.now }
{
    if number > 0 {
        return mark_form(bytes);
    }
    if let Some(form) = packed_form(bytes) {
        return Some(form);
    }
    if let Some(form) = text_form(bytes) {
        return Some(form);
    }
    if let Some(form) = word_form(bytes) {
        return Some(form);
    }
    mark_form(bytes)
}

/// The token that is no number, where a problem was refused for it.
fn bad_number(refusal: Option<Refusal>) -> Option<u64>
    ensures { result ≡ bad_number refusal }
{
    match refusal {
        Some(Refusal::NoProblem(ReadError::BadNumber { token })) => Some(token),
        _ => None,
    }
}

/// What the first file is, where it was refused for a token at this place that is no number.
pub(crate) fn form_told(ending: Ending, place: &Option<Place>) -> Option<Form>
    ensures { result ≡ form_told ending place.now }
{
    let number = bad_number(told_refusal(ending))?;
    match place {
        Some(place) => form_of(number, place.front.as_slice()),
        None => None,
    }
}

/// What is said of a file of this form.
#[tactic(auto, unfolding(crate::specs::Forms::phrase_of_form))]
pub(crate) fn of_form(form: Form) -> &'static [u8]
    ensures words { result.now ≡ phrase_of_form form }
    ensures phrase { IsTrue (is_phrase result.now) }
{
    match form {
        Form::Gzip => texts::GZIP,
        Form::Packed => texts::PACKED,
        Form::Zip => texts::ZIP,
        Form::Utf16 => texts::UTF16,
        Form::Marked => texts::MARKED,
        Form::MatrixMarket => texts::MATRIX_MARKET,
        Form::Dimacs => texts::DIMACS,
        Form::Certificate => texts::CERTIFICATE,
        Form::Script => texts::SCRIPT,
        Form::Json => texts::JSON,
        Form::Separated => texts::SEPARATED,
    }
}
