//! What no case of the built program can show of jobs and of the crates below: readers and writers that fail, jobs that
//! no words spell, parts that no text spells, and each public call once with ample memory. Rows that the program can
//! show are cases (`cases/`).
#![tactic(auto)]

#[cfg(test)]
mod calls;
#[cfg(test)]
mod certificates;
#[cfg(test)]
mod checks;
#[cfg(test)]
mod direct;
#[cfg(test)]
mod fakes;
#[cfg(test)]
mod halls;
#[cfg(test)]
mod larges;
#[cfg(test)]
mod mails;
#[cfg(test)]
mod pieces;
#[cfg(test)]
mod said;
#[cfg(test)]
mod same;
#[cfg(test)]
mod solves;
#[cfg(test)]
mod unequal;
