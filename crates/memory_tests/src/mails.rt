//! A mail that threads share.

ghost use Rattle.std.specs.Prelude.{◌≡◌};

use crate::marks::refuse_one;
use crate::same::assert_same;
use auc_book::{MailBrand, SharedMail};
use auc_mail::MailError;
use std::alloc::Global;
use std::marker::Brand;
use std::sync::ledger::Blank;
use std::test::*;

#[test]
fn shared_mails(rt: HostRuntime) -> Result<(), Fail> {
    let mark = refuse_one(rt.alloc())?;
    let mut refused = refusal::<Brand>(rt.alloc(), Blank::new(3));
    drop(mark);
    if refused == Some(MailError::NoMemory) {
        refused = refusal::<Brand>(rt.alloc(), Blank::new(3));
    }
    assert_same(&rt, refused, None);
    Ok(())
}

/// Why a mail that three workers share isn't made.
fn refusal<N: MailBrand>(alloc: Global, ledger: Blank) -> Option<MailError>
    requires name { ledger.name ≡ N.name }
    requires parts { (ledger.parts ≡ N.parts) × (N.parts ≡ 3) }
    requires numbers { (N.boxes ≡ 2) × (N.workers ≡ 3) × (N.nodes ≡ 5) × (N.most ≡ 9) × (N.room ≡ 7) }
{
    SharedMail::<i64, N>::make(alloc, 2, 3, 5, 9, 0, 7, ledger).err()
}
