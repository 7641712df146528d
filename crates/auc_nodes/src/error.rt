//! Why a pool is not made.

use thiserror::Error;

/// Why a pool was not made. Where there are several causes, the first of them in this order is returned.
#[derive(Clone, Copy, Debug, PartialEq, Eq, Error)]
pub enum PoolError {
    /// More lists than `MOST_LISTS`.
    #[error("too many lists")]
    TooManyLists,

    /// More nodes than `MOST_NODES`.
    #[error("too many nodes")]
    TooManyNodes,

    /// Memory was refused.
    #[error("out of memory")]
    NoMemory,
}
