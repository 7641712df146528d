//! Numbers above the limits, and the order in which they are refused. Several of these numbers have more than one
//! cause.

ghost use Rattle.std.specs.Prelude.{◌≡◌, ◌<◌};

use crate::same::assert_same;
use auc_book::{MailBrand, MailState, SharedMail};
use auc_mail::{MailError, MailPool};
use std::alloc::Global;
use std::marker::Brand;
use std::sync::ledger::Blank;
use std::test::*;

fn pool_refusal(alloc: Global, boxes: u32, senders: u32, nodes: u32) -> Option<MailError> {
    MailPool::make(alloc, boxes, senders, nodes, 9, 0i64).err()
}

#[test]
fn pools_above_the_limits(rt: HostRuntime) {
    let alloc = rt.alloc();
    let lanes = Some(MailError::TooManyLanes);
    assert_same(&rt, pool_refusal(alloc, 2_000, 1_000, 0), lanes);
    assert_same(&rt, pool_refusal(alloc, 65_537, 1, 16_777_217), lanes);
    assert_same(&rt, pool_refusal(alloc, 1, 65_537, 0), lanes);
    assert_same(
        &rt,
        pool_refusal(alloc, 1, 1, 16_777_217),
        Some(MailError::TooManyNodes),
    );
    assert_same(&rt, pool_refusal(alloc, 1_000, 1_000, 1_000_000), None);
    assert_same(&rt, pool_refusal(alloc, 0, 0, 0), None);
}

fn state_refusal(alloc: Global, boxes: u32, nodes: u32, room: u32) -> Option<MailError> {
    MailState::make(alloc, boxes, 1, nodes, 9, 0i64, room).err()
}

#[test]
fn states_above_the_limits(rt: HostRuntime) {
    let alloc = rt.alloc();
    let lanes = Some(MailError::TooManyLanes);
    assert_same(
        &rt,
        state_refusal(alloc, 65_537, 16_777_217, 1_000_001),
        lanes,
    );
    assert_same(
        &rt,
        state_refusal(alloc, 1, 16_777_217, 1_000_001),
        Some(MailError::TooManyNodes),
    );
    assert_same(
        &rt,
        state_refusal(alloc, 1, 4, 1_000_001),
        Some(MailError::TooMuchRoom),
    );
    assert_same(&rt, state_refusal(alloc, 1, 4, 1_000_000), None);
    assert_same(&rt, state_refusal(alloc, 0, 0, 0), None);
}

#[test]
fn shared_mails_above_the_limits(rt: HostRuntime) {
    for (boxes, workers, nodes, room, expected) in [
        (2_000, 1_000, 0, 0, Some(MailError::TooManyLanes)),
        (1, 1, 16_777_217, 1_000_001, Some(MailError::TooManyNodes)),
        (1, 1, 4, 1_000_001, Some(MailError::TooMuchRoom)),
        (1, 1, 4, 1_000_000, None),
    ] {
        let ledger = Blank::new(u64::from(workers));
        let refused = refusal::<Brand>(rt.alloc(), boxes, workers, nodes, room, ledger);
        assert_same(&rt, refused, expected);
    }
}

fn refusal<N: MailBrand>(
    alloc: Global,
    boxes: u32,
    workers: u32,
    nodes: u32,
    room: u32,
    ledger: Blank,
) -> Option<MailError>
    requires name { ledger.name ≡ N.name }
    requires parts { (ledger.parts ≡ N.parts) × (N.parts ≡ workers) }
    requires numbers { (boxes ≡ N.boxes) × (workers ≡ N.workers) × (nodes ≡ N.nodes) × (N.most ≡ 9) × (room ≡ N.room) }
    requires some_worker { 0 < workers }
{
    SharedMail::<i64, N>::make(alloc, boxes, workers, nodes, 9, 0, room, ledger).err()
}
