//! Why a list of arcs is no problem.

use thiserror::Error;

/// Why a list of arcs is no problem: its first fault. Arcs are numbered from 0.
#[derive(Clone, Copy, Debug, PartialEq, Eq, Error)]
pub enum ListFault {
    /// The number of persons is 0 or above 4,194,304.
    #[error("the number of persons is out of range")]
    Persons,
    /// The number of objects is below that of the persons or above 4,194,304.
    #[error("the number of objects is out of range")]
    Objects,
    /// There are more than 268,435,456 arcs, and none of the first 268,435,456 has a fault.
    #[error("there are too many arcs")]
    TooManyArcs,
    /// The person of this arc is not one of the problem.
    #[error("the person of arc {arc} is out of range")]
    Person { arc: u32 },
    /// The object of this arc is not one of the problem.
    #[error("the object of arc {arc} is out of range")]
    Object { arc: u32 },
    /// The cost of this arc is too great or too small.
    #[error("the cost of arc {arc} is out of range")]
    Cost { arc: u32 },
}
