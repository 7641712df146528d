//! Worked examples of rows, letters, shards and the Hall search: tests of the crates below by their public calls alone.
#![tactic(auto)]

#[cfg(test)]
mod alone;
#[cfg(test)]
mod desk;
#[cfg(test)]
mod objects;
#[cfg(test)]
mod persons;
#[cfg(test)]
mod placing;
#[cfg(test)]
mod quick;
#[cfg(test)]
mod rows;
#[cfg(test)]
mod same;
#[cfg(test)]
mod stall;
#[cfg(test)]
mod twins;
#[cfg(test)]
mod wide;
