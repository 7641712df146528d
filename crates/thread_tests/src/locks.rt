//! The three mails have three locks.

ghost use Rattle.std.specs.Prelude.{◌≡◌, ◌<◌};
ghost use Rattle.auc_threads.specs.Naming.{AreNamed, AreThreadLimits, IsUnopened, numbers, workers_of};

use crate::problems::limits_of;
use auc_book::{MailBrand, MailState, TrailFull};
use auc_letters::Letter;
use auc_mail::Taken;
use auc_threads::{Ledgers, Mails};
use auc_world::Limits;
use std::alloc::Global;
use std::marker::Brand;
use std::process::Abort;
use std::sync::Wait;
use std::sync::atomic::AtomicU64;
use std::sync::atomic::Ordering::SeqCst;
use std::sync::ledger::Blank;
use std::test::*;
use std::thread::{Threads, join, yield_now};

/// How often a thread looks for the other, and lets it run in between.
const TURNS: u32 = 10_000_000;

/// Waits until the flag is set. False where the turns are used up first.
fn is_set_in_time(flag: &AtomicU64) -> bool {
    for _turn in 0..TURNS {
        if flag.load(SeqCst) != 0 {
            return true;
        }
        yield_now();
    }
    false
}

#[test]
fn the_three_locks_are_three(rt: HostRuntime) -> Result<(), Fail> {
    let limits = limits_of(1, 0)?;
    let ledgers = Ledgers {
        objects: Blank::new(3),
        persons: Blank::new(3),
        hub: Blank::new(3),
    };
    take_while_another_looks::<Brand, Brand, Brand, _>(&rt, rt.alloc(), &limits, ledgers)
}

// One thread looks at the objects' mail, and so has its lock, until the other has taken at the persons' mail.
fn take_while_another_looks<
    O: MailBrand + Send + Sync,
    P: MailBrand + Send + Sync,
    H: MailBrand + Send + Sync,
    R: Wait + Threads + Abort + Sync,
>(rt: &R, alloc: Global, limits: &Limits, ledgers: Ledgers) -> Result<(), Fail>
    requires limits { AreThreadLimits limits.now }
    requires one { limits.now.shards ≡ 1 }
    requires objects_ledger { IsUnopened ledgers.objects.name O.name ledgers.objects.parts O.parts
        (workers_of limits.now.shards) }
    requires persons_ledger { IsUnopened ledgers.persons.name P.name ledgers.persons.parts P.parts
        (workers_of limits.now.shards) }
    requires hub_ledger { IsUnopened ledgers.hub.name H.name ledgers.hub.parts H.parts (workers_of limits.now.shards) }
    requires names { AreNamed limits.now 2 (numbers O.boxes O.workers O.nodes O.most O.room)
        (numbers P.boxes P.workers P.nodes P.most P.room) (numbers H.boxes H.workers H.nodes H.most H.room) }
{
    let (mails, mut seats) = Mails::<O, P, H>::make(alloc, 2, limits, ledgers)?;
    assert_eq!(rt; seats.len(), 3);
    let mut worker = seats.remove(0);
    let looking = AtomicU64::new(0);
    let taken = AtomicU64::new(0);
    let (in_time, answer) = join(
        rt,
        || -> bool {
            mails.objects.look(rt, |_state: &MailState<Letter>| {
                looking.store(1, SeqCst);
                is_set_in_time(&taken)
            })
        },
        || -> Result<Taken<Letter>, TrailFull>
            requires { 0 < P.boxes }
        {
            let _ = is_set_in_time(&looking);
            let answer = mails.persons.try_take(rt, &mut worker.persons, 0);
            taken.store(1, SeqCst);
            answer
        },
    );
    assert!(rt; in_time);
    assert_eq!(rt; answer, Ok(Taken::Empty));
    Ok(())
}
