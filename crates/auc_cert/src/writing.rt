//! The text of a certificate, written.

ghost use Rattle.std.specs.Prelude.{◌++◌, ◌<◌, ◌≤◌, ◌^◌, length};
ghost use Rattle.auc_cert.specs.Writing.{Writes};
ghost use Rattle.auc_cert.specs.Text.{text, head_line, assign_line, price_line, optimal_line, infeasible_line};
ghost use Rattle.auc_cert.specs.Text.{bracket_line, number_line, numbered, joined, choice_lines};

use crate::form::Form;
use crate::line::Line;
use crate::output::{Part, WriteFault, write_parts, write_whole};
use crate::words::{head_line, reason_word};
use auc_claim::{Cert, CertParts, Pick, Reason};
use std::io::Write;

/// Writes the first two lines of an optimal certificate.
fn write_optimal_head<W: Write>(
    writer: &mut W,
    form: Form,
    persons: u64,
    objects: u64,
    cost: i64,
) -> Result<(), WriteFault>
    ensures { Writes result (W.contents writer.old) (W.contents writer.new)
        (head_line form ++ optimal_line form persons objects cost) }
{
    let head = head_line(form);
    if form.has_objects() {
        let parts = [
            Part::Words(head),
            Part::Words(b"optimal "),
            Part::Count(persons),
            Part::Space,
            Part::Count(objects),
            Part::Space,
            Part::Number(cost),
            Part::LineEnd,
        ];
        return write_parts(writer, &parts);
    }
    let parts = [
        Part::Words(head),
        Part::Words(b"optimal "),
        Part::Count(persons),
        Part::Space,
        Part::Number(cost),
        Part::LineEnd,
    ];
    write_parts(writer, &parts)
}

/// Writes the first two lines of an infeasible certificate.
fn write_infeasible_head<W: Write>(
    writer: &mut W,
    form: Form,
    persons: u64,
    objects: u64,
) -> Result<(), WriteFault>
    ensures { Writes result (W.contents writer.old) (W.contents writer.new)
        (head_line form ++ infeasible_line persons objects) }
{
    let parts = [
        Part::Words(head_line(form)),
        Part::Words(b"infeasible "),
        Part::Count(persons),
        Part::Space,
        Part::Count(objects),
        Part::LineEnd,
    ];
    write_parts(writer, &parts)
}

/// Writes the first two lines of a bracket.
fn write_bracket_head<W: Write>(
    writer: &mut W,
    form: Form,
    reason: Reason,
    persons: u64,
    objects: u64,
    lower: i64,
    cost: i64,
) -> Result<(), WriteFault>
    ensures { Writes result (W.contents writer.old) (W.contents writer.new)
        (head_line form ++ bracket_line form reason persons objects lower cost) }
{
    let (head, word) = (head_line(form), reason_word(reason));
    if form.has_objects() {
        let parts = [
            Part::Words(head),
            Part::Words(b"bracket "),
            Part::Words(word),
            Part::Space,
            Part::Count(persons),
            Part::Space,
            Part::Count(objects),
            Part::Space,
            Part::Number(lower),
            Part::Space,
            Part::Number(cost),
            Part::LineEnd,
        ];
        return write_parts(writer, &parts);
    }
    let parts = [
        Part::Words(head),
        Part::Words(b"bracket "),
        Part::Words(word),
        Part::Space,
        Part::Count(persons),
        Part::Space,
        Part::Number(lower),
        Part::Space,
        Part::Number(cost),
        Part::LineEnd,
    ];
    write_parts(writer, &parts)
}

/// Writes the line of a person, who is numbered from 0.
fn write_pick<W: Write>(writer: &mut W, person: u64, pick: Pick) -> Result<(), WriteFault>
    requires { person < 2 ^ 32 }
    ensures { Writes result (W.contents writer.old) (W.contents writer.new) (assign_line person pick) }
{
    let mut line = Line::ended();
    line.put_number(pick.cost);
    line.put_space();
    line.put_count(u64::from(pick.object) + 1);
    line.put_space();
    line.put_count(person + 1);
    line.put_words(b"assign ");
    write_whole(writer, line.as_slice())
}

/// Writes the line of an object, which is numbered from 0.
fn write_price<W: Write>(writer: &mut W, object: u64, price: i64) -> Result<(), WriteFault>
    requires { object < 2 ^ 32 }
    ensures { Writes result (W.contents writer.old) (W.contents writer.new) (price_line object price) }
{
    let mut line = Line::ended();
    line.put_number(price);
    line.put_space();
    line.put_count(object + 1);
    line.put_words(b"price ");
    write_whole(writer, line.as_slice())
}

/// Writes the lines of all persons: `assign I J C` for the pick of person I, who takes object J at cost C, both
/// numbered from 1.
pub fn write_picks<W: Write>(writer: &mut W, choice: &[Pick]) -> Result<(), WriteFault>
    requires { length choice.now < 2 ^ 32 }
    ensures { Writes result (W.contents writer.old) (W.contents writer.new)
        (joined (numbered assign_line 0 choice.now)) }
{
    let mut person: u64 = 0;
    for pick in choice {
        write_pick(writer, person, *pick)?;
        person += 1;
    }
    Ok(())
}

/// Writes the lines of all objects.
fn write_prices<W: Write>(writer: &mut W, prices: &[i64]) -> Result<(), WriteFault>
    requires { length prices.now < 2 ^ 32 }
    ensures { Writes result (W.contents writer.old) (W.contents writer.new)
        (joined (numbered price_line 0 prices.now)) }
{
    let mut object: u64 = 0;
    for price in prices {
        write_price(writer, object, *price)?;
        object += 1;
    }
    Ok(())
}

/// Writes the lines of all persons, then those of all objects.
fn write_choice<W: Write>(writer: &mut W, choice: &[Pick], prices: &[i64]) -> Result<(), WriteFault>
    requires choice { length choice.now < 2 ^ 32 }
    requires prices { length prices.now < 2 ^ 32 }
    ensures { Writes result (W.contents writer.old) (W.contents writer.new)
        (joined (choice_lines choice.now prices.now)) }
{
    write_picks(writer, choice)?;
    write_prices(writer, prices)
}

fn write_optimal<W: Write>(
    writer: &mut W,
    cost: i64,
    choice: &[Pick],
    prices: &[i64],
) -> Result<(), WriteFault>
    requires choice { length choice.now < 2 ^ 32 }
    requires prices { length prices.now < 2 ^ 32 }
    ensures { Writes result (W.contents writer.old) (W.contents writer.new)
        (text (CertParts.Optimal cost choice.now prices.now)) }
{
    let form = Form::of_sizes(choice.len(), prices.len());
    write_optimal_head(writer, form, choice.len() as u64, prices.len() as u64, cost)?;
    write_choice(writer, choice, prices)
}

fn write_bracket<W: Write>(
    writer: &mut W,
    reason: Reason,
    lower: i64,
    cost: i64,
    choice: &[Pick],
    prices: &[i64],
) -> Result<(), WriteFault>
    requires choice { length choice.now < 2 ^ 32 }
    requires prices { length prices.now < 2 ^ 32 }
    ensures { Writes result (W.contents writer.old) (W.contents writer.new)
        (text (CertParts.Bracket reason lower cost choice.now prices.now)) }
{
    let form = Form::of_sizes(choice.len(), prices.len());
    let (persons, objects) = (choice.len() as u64, prices.len() as u64);
    write_bracket_head(writer, form, reason, persons, objects, lower, cost)?;
    write_choice(writer, choice, prices)
}

/// Writes the line of a number, which the text counts from 1 on, after this front.
fn write_number<W: Write>(writer: &mut W, front: &[u8], number: u32) -> Result<(), WriteFault>
    requires { length front.now ≤ 8 }
    ensures { Writes result (W.contents writer.old) (W.contents writer.new) (number_line front.now 0 number) }
{
    let mut line = Line::ended();
    line.put_count(u64::from(number) + 1);
    line.put_words(front);
    write_whole(writer, line.as_slice())
}

/// Writes the lines of numbers, each after this front.
fn write_numbers<W: Write>(writer: &mut W, front: &[u8], numbers: &[u32]) -> Result<(), WriteFault>
    requires { length front.now ≤ 8 }
    ensures { Writes result (W.contents writer.old) (W.contents writer.new)
        (joined (numbered (number_line front.now) 0 numbers.now)) }
{
    for number in numbers {
        write_number(writer, front, *number)?;
    }
    Ok(())
}

fn write_infeasible<W: Write>(
    writer: &mut W,
    persons: &[u32],
    objects: &[u32],
) -> Result<(), WriteFault>
    ensures { Writes result (W.contents writer.old) (W.contents writer.new)
        (text (CertParts.Infeasible persons.now objects.now)) }
{
    let form = Form::of_names(persons, objects);
    write_infeasible_head(writer, form, persons.len() as u64, objects.len() as u64)?;
    write_numbers(writer, b"person ", persons)?;
    write_numbers(writer, b"object ", objects)
}

/// Writes the text of a certificate, the one that [`read_cert`](crate::read_cert) reads; where the certificate is too
/// large for that, the one of version 3, which [`read_large_cert`](crate::read_large_cert) reads. Takes
/// O(persons + objects) writes and no memory.
///
/// # Errors
///
/// As [`write_whole`](crate::write_whole), of the whole text: a beginning of it was written.
pub fn write_cert<W: Write>(writer: &mut W, cert: &Cert) -> Result<(), WriteFault>
    ensures { Writes result (W.contents writer.old) (W.contents writer.new) (text cert.now) }
{
    match cert.parts() {
        CertParts::Optimal {
            cost,
            choice,
            prices,
        } => write_optimal(writer, *cost, choice.as_slice(), prices.as_slice()),
        CertParts::Infeasible { persons, objects } => {
            write_infeasible(writer, persons.as_slice(), objects.as_slice())
        }
        CertParts::Bracket {
            reason,
            lower,
            cost,
            choice,
            prices,
        } => write_bracket(
            writer,
            *reason,
            *lower,
            *cost,
            choice.as_slice(),
            prices.as_slice(),
        ),
    }
}
