//! A phase with one shard of each kind, played without a [`crate::World`]: the same rounds, of which only what such a
//! round needs is kept. A letter between two turns of a round is passed on directly. The letters from one round to the
//! next, which are the answers to the persons, are one queue. The world that this state means is defined in
//! `specs/SingleState.antt`.

mod kept;
mod lot;
pub(crate) mod notice;
pub(crate) mod playing;
mod rounds;
pub(crate) mod task;
