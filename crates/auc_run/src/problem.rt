//! Reading of the problem of a job.

ghost use Rattle.std.specs.Prelude.{◌≢◌, IfErr};
ghost use Rattle.auc_graph.specs.Pieces.{AreReadLimits};
ghost use Rattle.auc_run.specs.Problems.{AreLimitsOf, AreSizes, IsProblemIn};

use crate::command::Sizes;
use crate::refusal::Refusal;
use auc_graph::{ArcList, MOST_ARCS, MOST_PERSONS, ReadLimits, read_arcs_from};
use std::alloc::Global;
use std::io::Read;

/// The limits of reading for these sizes.
fn limits_of(sizes: Sizes) -> ReadLimits
    requires { AreSizes sizes }
    ensures are { AreLimitsOf sizes result }
    ensures limits { AreReadLimits result }
{
    let Sizes { objects, large } = sizes;
    let usual = ReadLimits {
        objects,
        ..ReadLimits::usual()
    };
    if large {
        return ReadLimits {
            persons: MOST_PERSONS,
            arcs: MOST_ARCS,
            ..usual
        };
    }
    usual
}

/// The problem that the reader has, of these sizes.
pub(crate) fn problem_of<R: Read>(
    alloc: Global,
    reader: &mut R,
    sizes: Sizes,
) -> Result<ArcList, Refusal>
    requires { AreSizes sizes }
    ensures problem { IsProblemIn sizes (R.remaining reader.old) result }
    // Want of memory is given as a fault of the reading.
    ensures memory { IfErr result (λ refusal. refusal ≢ Refusal.NoMemory) }
{
    let problem = read_arcs_from(alloc, reader, limits_of(sizes))?;
    Ok(problem)
}
