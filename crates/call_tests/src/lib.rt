//! The calls for C, made from Rattle: each status once, with ample memory. What a C program sees of them is tried by
//! `c/test`.
#![tactic(auto)]

#[cfg(test)]
mod calls;
#[cfg(test)]
mod given;
#[cfg(test)]
mod patience;
#[cfg(test)]
mod same;
#[cfg(test)]
mod searched;
#[cfg(test)]
mod spare;
#[cfg(test)]
mod tables;
#[cfg(test)]
mod watched;
