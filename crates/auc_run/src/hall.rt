//! The job of a hall: a problem is read, and each person gets an arc, or a Hall violator is named.

ghost use Rattle.std.specs.Prelude.{◌≡◌, IfOk};
ghost use Rattle.auc_claim.specs.InRange.{AreNamesInRange};
ghost use Rattle.auc_cert.specs.Writing.{Writes};
ghost use Rattle.auc_run.specs.Completions.{IsFound, IsFoundIn, IsSmall, found_text};
ghost use Rattle.auc_run.specs.Problems.{AreSizes};

use crate::command::Sizes;
use crate::found::Found;
use crate::problem::problem_of;
use crate::refusal::Refusal;
use auc_cert::{WriteFault, write_cert, write_counted, write_picks};
use auc_claim::{Cert, CertParts, Picks};
use auc_graph::{ArcList, Indices, Rows};
use auc_hall::{Matching, Partial, complete};
use auc_world::picks_of_matching;
use std::alloc::{AllocError, Global};
use std::io::{Read, Write};

/// The certificate that names these persons and objects.
fn certificate_of(persons: Indices, objects: Indices) -> Cert
    requires { AreNamesInRange persons objects }
    ensures { result ≡ CertParts.Infeasible persons objects }
{
    match Cert::make_wide(CertParts::Infeasible { persons, objects }) {
        Ok(cert) => cert,
        Err(_) => unreachable!("the numbers rise, and are those of a problem"),
    }
}

/// An arc for each person of the problem, or a Hall violator.
fn found_in(alloc: Global, problem: &ArcList) -> Result<Found, AllocError>
    ensures found { IfOk result (IsFound problem.now) }
    ensures small { IfOk result IsSmall }
{
    // Read here, so that the proof has what every problem keeps.
    let _ = problem.arcs();
    let rows = Rows::build(alloc, problem)?;
    let partial = Partial::new(alloc, &rows)?;
    match complete(alloc, &rows, partial)? {
        Matching::Full(numbers) => {
            let picks = picks_of_matching(alloc, problem, numbers.as_slice())?;
            Ok(Found::Full(Picks::new(picks)))
        }
        Matching::Hall { persons, objects } => Ok(Found::Hall(certificate_of(persons, objects))),
    }
}

/// What is found in the problem that the reader has, of these sizes.
pub(crate) fn found_of<R: Read>(
    alloc: Global,
    reader: &mut R,
    sizes: Sizes,
) -> Result<Found, Refusal>
    requires { AreSizes sizes }
    ensures found { IsFoundIn sizes (R.remaining reader.old) result }
    ensures small { IfOk result IsSmall }
{
    let problem = problem_of(alloc, reader, sizes)?;
    let found = found_in(alloc, &problem)?;
    Ok(found)
}

/// Writes what was found.
pub(crate) fn write_found<W: Write>(writer: &mut W, found: &Found) -> Result<(), WriteFault>
    requires { IsSmall found.now }
    ensures { Writes result (W.contents writer.old) (W.contents writer.new) (found_text found.now) }
{
    match found {
        Found::Full(choice) => {
            let choice = choice.as_slice();
            write_counted(writer, b"full ", choice.len() as u64)?;
            write_picks(writer, choice)
        }
        Found::Hall(cert) => write_cert(writer, cert),
    }
}
