//! The line that says a claim, or a refusal.

ghost use Rattle.std.specs.Prelude.{◌+◌};
ghost use Rattle.auc_cert.specs.Writing.{Writes, counted};
ghost use Rattle.auc_run.specs.declared.valid.Valid.TheVariants.{Optimal, Bracket, Infeasible};
ghost use Rattle.auc_run.specs.Lines.{input_line, problem_line, certificate_line, claim_line, start_line, script_line};
ghost use Rattle.auc_run.specs.Lines.{refusal_line, valid_line};

use crate::input::ReadFault;
use crate::refusal::Refusal;
use crate::valid::Valid;
use auc_cert::{CertTextError, Part, WriteFault, write_counted, write_parts, write_whole};
use auc_claim::{CertRefused, StartError};
use auc_graph::ReadError;
use auc_script::ScriptError;
use std::io::Write;

/// Writes the number from 1 on of what is numbered from 0.
fn write_place<W: Write>(writer: &mut W, words: &[u8], place: u64) -> Result<(), WriteFault>
    ensures { Writes result (W.contents writer.old) (W.contents writer.new) (counted words.now (place + 1)) }
{
    let parts = [Part::Words(words), Part::Place(place), Part::LineEnd];
    write_parts(writer, &parts)
}

fn write_optimal<W: Write>(writer: &mut W, cost: i64) -> Result<(), WriteFault>
    ensures { Writes result (W.contents writer.old) (W.contents writer.new) (valid_line (Optimal cost)) }
{
    let words = Part::Words(b"valid optimal ");
    write_parts(writer, &[words, Part::Number(cost), Part::LineEnd])
}

fn write_bracket<W: Write>(writer: &mut W, lower: i64, cost: i64) -> Result<(), WriteFault>
    ensures { Writes result (W.contents writer.old) (W.contents writer.new) (valid_line (Bracket lower cost)) }
{
    let words = Part::Words(b"valid bracket ");
    let parts = [
        words,
        Part::Number(lower),
        Part::Space,
        Part::Number(cost),
        Part::LineEnd,
    ];
    write_parts(writer, &parts)
}

fn write_infeasible<W: Write>(writer: &mut W, persons: u64, objects: u64) -> Result<(), WriteFault>
    ensures { Writes result (W.contents writer.old) (W.contents writer.new) (valid_line (Infeasible persons objects)) }
{
    let words = Part::Words(b"valid infeasible ");
    let parts = [
        words,
        Part::Count(persons),
        Part::Space,
        Part::Count(objects),
        Part::LineEnd,
    ];
    write_parts(writer, &parts)
}

/// Writes the one line of a claim that holds.
pub(crate) fn write_valid<W: Write>(writer: &mut W, valid: Valid) -> Result<(), WriteFault>
    ensures { Writes result (W.contents writer.old) (W.contents writer.new) (valid_line valid) }
{
    match valid {
        Valid::Optimal { cost } => write_optimal(writer, cost),
        Valid::Bracket { lower, cost } => write_bracket(writer, lower, cost),
        Valid::Infeasible { persons, objects } => {
            write_infeasible(writer, persons as u64, objects as u64)
        }
    }
}

fn write_input<W: Write>(writer: &mut W, fault: ReadFault) -> Result<(), WriteFault>
    ensures { Writes result (W.contents writer.old) (W.contents writer.new) (input_line fault) }
{
    match fault {
        ReadFault::Failed => write_whole(writer, b"refused read\n"),
        ReadFault::TooManyReads => write_whole(writer, b"refused reads\n"),
        ReadFault::NoMemory => write_whole(writer, b"refused memory\n"),
    }
}

fn write_problem<W: Write>(writer: &mut W, error: ReadError) -> Result<(), WriteFault>
    ensures { Writes result (W.contents writer.old) (W.contents writer.new) (problem_line error) }
{
    match error {
        ReadError::Empty => write_whole(writer, b"refused empty\n"),
        ReadError::BadNumber { token } => write_place(writer, b"refused number ", token),
        ReadError::CountRange => write_whole(writer, b"refused count\n"),
        ReadError::TooManyArcs => write_whole(writer, b"refused arcs\n"),
        ReadError::PersonRange { arc } => write_place(writer, b"refused person ", arc),
        ReadError::ObjectRange { arc } => write_place(writer, b"refused object ", arc),
        ReadError::CostRange { arc } => write_place(writer, b"refused cost ", arc),
        ReadError::Cut { tokens } => { write_counted(writer, b"refused cut ", tokens) }
        ReadError::NoMemory => write_whole(writer, b"refused memory\n"),
        ReadError::ReadFault => write_whole(writer, b"refused read\n"),
        ReadError::TooManyReads => write_whole(writer, b"refused reads\n"),
        ReadError::TooFewObjects => write_whole(writer, b"refused objects\n"),
    }
}

fn write_certificate<W: Write>(writer: &mut W, error: CertTextError) -> Result<(), WriteFault>
    ensures { Writes result (W.contents writer.old) (W.contents writer.new) (certificate_line error) }
{
    match error {
        CertTextError::Line { line } => write_place(writer, b"refused certificate ", line),
        CertTextError::NoMemory => write_whole(writer, b"refused memory\n"),
    }
}

fn write_claim<W: Write>(writer: &mut W, error: CertRefused) -> Result<(), WriteFault>
    ensures { Writes result (W.contents writer.old) (W.contents writer.new) (claim_line error) }
{
    match error {
        CertRefused::WrongSize => write_whole(writer, b"invalid size\n"),
        CertRefused::NoSuchArc { person } => { write_place(writer, b"invalid arc ", person as u64) }
        CertRefused::ObjectTwice { object } => {
            write_place(writer, b"invalid twice ", object as u64)
        }
        CertRefused::WrongCost => write_whole(writer, b"invalid cost\n"),
        CertRefused::Slack { person } => { write_place(writer, b"invalid slack ", person as u64) }
        CertRefused::LeftOver { object } => {
            write_place(writer, b"invalid leftover ", object as u64)
        }
        CertRefused::NotHall => write_whole(writer, b"invalid hall\n"),
        CertRefused::WrongBound => write_whole(writer, b"invalid bound\n"),
        CertRefused::NoMemory => write_whole(writer, b"refused memory\n"),
    }
}

fn write_start<W: Write>(writer: &mut W, error: StartError) -> Result<(), WriteFault>
    ensures { Writes result (W.contents writer.old) (W.contents writer.new) (start_line error) }
{
    match error {
        StartError::NotSquare
        | StartError::NoPrices
        | StartError::OtherSize
        | StartError::TooHigh { .. } => write_whole(writer, b"refused start\n"),
        StartError::NoMemory => write_whole(writer, b"refused memory\n"),
    }
}

fn write_script<W: Write>(writer: &mut W, error: ScriptError) -> Result<(), WriteFault>
    ensures { Writes result (W.contents writer.old) (W.contents writer.new) (script_line error) }
{
    match error {
        ScriptError::Word { token } => write_place(writer, b"refused word ", token),
        ScriptError::Range { token } => write_place(writer, b"refused range ", token),
        ScriptError::Cut { tokens } => write_counted(writer, b"refused cut ", tokens),
        ScriptError::TooManyCalls => write_whole(writer, b"refused calls\n"),
        ScriptError::NoMemory => write_whole(writer, b"refused memory\n"),
    }
}

/// Writes the one line of a refusal.
pub(crate) fn write_refusal<W: Write>(writer: &mut W, refusal: Refusal) -> Result<(), WriteFault>
    ensures { Writes result (W.contents writer.old) (W.contents writer.new) (refusal_line refusal) }
{
    match refusal {
        Refusal::NotRead(fault) => write_input(writer, fault),
        Refusal::NoProblem(error) => write_problem(writer, error),
        Refusal::NoCertificate(error) => write_certificate(writer, error),
        Refusal::Invalid(error) => write_claim(writer, error),
        Refusal::NoStart(error) => write_start(writer, error),
        Refusal::NoScript(error) => write_script(writer, error),
        Refusal::NoMemory => write_whole(writer, b"refused memory\n"),
        Refusal::NoThreads => write_whole(writer, b"refused threads\n"),
    }
}
