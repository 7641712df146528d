//! Refused memory: public calls that take memory, with each of their growths refused in turn. The calls that the
//! program's commands make aren't here: `cases/growth/run` refuses each growth of the commands themselves.
//!
//! A test makes what it needs with ample memory, takes a mark (`marks.rt`), and makes its call. The answer has to be
//! the one with ample memory: at once, or, where memory was refused, when the same call is made again. The state of the
//! call's arguments has to be the one that its contract says.
//!
//! Growths are refused from outside, by `cases/growth/run`, which runs each test again and again. It refuses the first
//! growth after the mark, then the second, and so on until none is met. Under the gate nothing is refused, and the
//! answers are those with ample memory.
#![tactic(auto)]

#[cfg(test)]
mod mails;
#[cfg(test)]
mod marks;
#[cfg(test)]
mod problems;
#[cfg(test)]
mod same;
#[cfg(test)]
mod solvers;
#[cfg(test)]
mod threads;
