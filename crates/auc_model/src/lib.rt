//! The world of the auction as a plain machine, and laws over every schedule of turns.
//!
//! Shards of persons bid, shards of objects sell, a hub counts, and letters go between them through three mails
//! (`specs/World.antt`). A turn is one step of one shard or of the hub, with at most one step of one mail. A schedule
//! is any list of turns, in any order (`specs/Schedule.antt`).
//!
//! There is no code here but the types of the turns: the functions do nothing, and their contracts are theorems about
//! all schedules. Nothing is said of fairness: a schedule may leave out any turn.
#![tactic(auto)]

mod laws;
mod turn;

pub use laws::{
    copies_never_fall, counted_holders_are_assigned, ends_stay, every_schedule, no_guard, no_stall,
    only_the_sender_is_free_in_turns, premises_can_be_met, problems_make_phases, reached_worlds,
    rounds_use_up_work, schedules_go_on, stuck_has_its_cause, turns_are_small,
    turns_keep_invariants, unheld_prices_stay,
};
pub use turn::{End, MailName, Turn, TurnReply};
