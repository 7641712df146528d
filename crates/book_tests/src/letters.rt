//! Letters of the solver in a shared mail: they are posted, looked at, taken and settled.

ghost use Rattle.std.specs.Prelude.{◌≡◌};

use crate::same::assert_same;
use auc_book::{MailBrand, MailState, SharedMail};
use auc_letters::{Letter, equal_letters_are_same};
use auc_mail::Taken;
use std::alloc::Global;
use std::marker::Brand;
use std::process::Abort;
use std::sync::Wait;
use std::sync::ledger::Blank;
use std::test::*;

const BLANK: Letter = Letter::First { object: 0 };

const BID: Letter = Letter::Bid {
    person: 3,
    arc: 7,
    object: 5,
    amount: 12,
};

#[test]
fn letters_of_the_solver_settle(rt: HostRuntime) -> Result<(), Fail> {
    letters_settle::<Brand, _>(&rt, rt.alloc(), Blank::new(1))
}

fn letters_settle<N: MailBrand, R: Wait + Abort>(
    rt: &R,
    alloc: Global,
    ledger: Blank,
) -> Result<(), Fail>
    requires name { ledger.name ≡ N.name }
    requires parts { (ledger.parts ≡ N.parts) × (N.parts ≡ 1) }
    requires numbers { (N.boxes ≡ 1) × (N.workers ≡ 1) × (N.nodes ≡ 4) × (N.most ≡ 9) × (N.room ≡ 3) }
{
    let (mail, mut seats) = SharedMail::<Letter, N>::make(alloc, 1, 1, 4, 9, BLANK, 3, ledger)?;
    assert!(rt; seats.len() == 1);
    let mut seat = seats.remove(0);
    assert_same(rt, mail.post(rt, &mut seat, 0, BID, 0), Ok(1));
    assert_same(
        rt,
        mail.look(rt, |state: &MailState<Letter>| state.count()),
        1,
    );
    assert_same(
        rt,
        mail.take(rt, &mut seat, 0),
        Ok(Taken::Letter {
            sender: 0,
            number: 1,
            item: BID,
        }),
    );
    seats.push(seat)?;
    // The law by which equal letters are the same, which `settle` requires.
    equal_letters_are_same();
    let trail = mail.settle(seats)?;
    assert_same(rt, trail.lines().len(), 2);
    Ok(())
}
