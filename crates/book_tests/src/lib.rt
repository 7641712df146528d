//! Pools of nodes, mails and scripts of calls, mails that threads share, their seats and trails: tests of `auc_nodes`,
//! `auc_mail` and `auc_book` by their public calls alone.
#![tactic(auto)]

#[cfg(test)]
mod letters;
#[cfg(test)]
mod limits;
#[cfg(test)]
mod nodes;
#[cfg(test)]
mod same;
#[cfg(test)]
mod scripts;
#[cfg(test)]
mod states;
#[cfg(test)]
mod threads;
#[cfg(test)]
mod waking;
#[cfg(test)]
mod worked;
