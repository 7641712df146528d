//! Worked examples of phases and of the solver in threads: tests of `auc_threads` by its public calls alone.
#![tactic(auto)]

#[cfg(test)]
mod answers;
#[cfg(test)]
mod gates;
#[cfg(test)]
mod locks;
#[cfg(test)]
mod problems;
