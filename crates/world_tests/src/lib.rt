//! Worked examples of worlds, their turns and the serial solver: tests of `auc_world` by its public calls alone.
#![tactic(auto)]

#[cfg(test)]
mod answers;
#[cfg(test)]
mod closing;
#[cfg(test)]
mod hostile;
#[cfg(test)]
mod limits;
#[cfg(test)]
mod moves;
#[cfg(test)]
mod numbers;
#[cfg(test)]
mod phases;
#[cfg(test)]
mod problems;
#[cfg(test)]
mod rounds;
#[cfg(test)]
mod same;
#[cfg(test)]
mod schedules;
#[cfg(test)]
mod starts;
#[cfg(test)]
mod telling;
#[cfg(test)]
mod turns;
#[cfg(test)]
mod unequal;
