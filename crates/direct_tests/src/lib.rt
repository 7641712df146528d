//! Worked examples of the direct solver: tests of `auc_direct` by its public calls alone.
#![tactic(auto)]

#[cfg(test)]
mod ahead;
#[cfg(test)]
mod alike;
#[cfg(test)]
mod answers;
#[cfg(test)]
mod limits;
#[cfg(test)]
mod paths;
#[cfg(test)]
mod spare;
#[cfg(test)]
mod starts;
#[cfg(test)]
mod texts;
#[cfg(test)]
mod watched;
