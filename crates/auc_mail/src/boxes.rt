//! The state of a box beside its lanes, and the lane whose turn it is.

ghost use Rattle.std.specs.Prelude.{[], ◌≡◌, ◌≢◌, ◌+◌, ◌-◌, ◌*◌, ◌<◌, ◌≤◌, ◌^◌, ℕ, length, slice_set, MatchOption};
ghost use Rattle.std.specs.Prelude.{false};
ghost use Rattle.auc_nodes.specs.Lists.{list_of};
ghost use Rattle.auc_mail.specs.Pool.{IsLaneOf, box_of};

use auc_nodes::NodePool;

// The state of a box beside its lanes.
#[derive(Clone, Copy)]
pub struct MailBox {
    // The number of letters that wait in its lanes.
    pub waiting: u32,

    // The lane of the newest letter, where one waits.
    pub last: u32,

    // The lane whose letter was taken last, or none of the box's.
    pub giver: u32,
    pub accepting: bool,
}

// No lane.
pub(crate) const NO_LANE: u32 = u32::MAX;

// Adds a letter that waits in the box, in this lane.
#[inline]
pub(crate) fn note_post(boxes: &mut Vec<MailBox>, at: u32, lane: u32)
    requires at { at < length boxes.old.items }
    requires fits { (box_of boxes.old.items at).waiting + 1 < 2 ^ 32 }
    ensures { boxes.new.items ≡ slice_set boxes.old.items at
        (record {
          waiting = (box_of boxes.old.items at).waiting + 1;
          last = lane;
          giver = (box_of boxes.old.items at).giver;
          accepting = (box_of boxes.old.items at).accepting;
        }) }
{
    let state = &mut boxes[at as usize];
    state.waiting += 1;
    state.last = lane;
}

// Removes a letter of that lane from the box.
#[inline]
pub(crate) fn note_take(boxes: &mut Vec<MailBox>, at: u32, lane: u32)
    requires at { at < length boxes.old.items }
    requires some { 0 < (box_of boxes.old.items at).waiting }
    ensures { boxes.new.items ≡ slice_set boxes.old.items at
        (record {
          waiting = (box_of boxes.old.items at).waiting - 1;
          last = (box_of boxes.old.items at).last;
          giver = lane;
          accepting = (box_of boxes.old.items at).accepting;
        }) }
{
    let state = &mut boxes[at as usize];
    state.waiting -= 1;
    state.giver = lane;
}

// Notes that the box is closed.
#[inline]
pub(crate) fn note_close(boxes: &mut Vec<MailBox>, at: u32)
    requires { at < length boxes.old.items }
    ensures { boxes.new.items ≡ slice_set boxes.old.items at
        (record {
          waiting = (box_of boxes.old.items at).waiting;
          last = (box_of boxes.old.items at).last;
          giver = (box_of boxes.old.items at).giver;
          accepting = false;
        }) }
{
    let state = &mut boxes[at as usize];
    state.accepting = false;
}

// The number of the lane of a box and a sender.
#[inline]
pub(crate) fn lane_number(senders: u32, to: u32, sender: u32) -> u32
    requires { to * senders + sender < 2 ^ 32 }
    ensures { result ≡ to * senders + sender }
{
    to * senders + sender
}

// The sender of a lane of the box.
#[inline]
pub(crate) fn sender_of(senders: u32, at: u32, lane: u32) -> u32
    requires { IsLaneOf senders at lane }
    ensures { at * senders + result ≡ lane }
{
    lane - at * senders
}

// The first of these lanes that has a letter.
fn first_waiting<T: Copy>(lists: &NodePool<T>, from: u32, to: u32) -> Option<u32>
    requires { to ≤ length lists.now.lists }
    ensures { MatchOption result ((k : ℕ) → from ≤ k → k < to → list_of lists.now k ≡ [])
        (λ k. (from ≤ k) × (k < to) × (list_of lists.now k ≢ [])) }
{
    for lane in from..to {
        if lists.len(lane) > 0 {
            return Some(lane);
        }
    }
    None
}

// The lane whose turn it is: the first of the box's that has a letter, in rotating order from the one after the last
// giver.
#[inline(never)]
pub(crate) fn lane_in_turn<T: Copy>(
    lists: &NodePool<T>,
    senders: u32,
    at: u32,
    giver: u32,
) -> Option<u32>
    requires lanes { at * senders + senders ≤ length lists.now.lists }
    requires fits { at * senders + senders < 2 ^ 32 }
    ensures { MatchOption result ((k : ℕ) → IsLaneOf senders at k → list_of lists.now k ≡ [])
        (λ k. IsLaneOf senders at k × (list_of lists.now k ≢ [])) }
{
    let first = at * senders;
    let end = first + senders;
    let start = if first <= giver && giver < end {
        giver + 1
    } else {
        first
    };
    match first_waiting(lists, start, end) {
        Some(lane) => Some(lane),
        None => first_waiting(lists, first, start),
    }
}
