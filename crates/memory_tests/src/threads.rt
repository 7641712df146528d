//! The mails of a phase in threads.

ghost use Rattle.std.specs.Prelude.{◌≡◌};
ghost use Rattle.auc_threads.specs.Naming.{AreNamed, AreThreadLimits, IsUnopened, numbers, workers_of};

use crate::marks::refuse_one;
use crate::same::assert_same;
use crate::solvers::limits_of;
use auc_book::MailBrand;
use auc_threads::{Ledgers, Mails, RunError};
use auc_world::Limits;
use std::alloc::Global;
use std::marker::Brand;
use std::sync::ledger::Blank;
use std::test::*;

/// The number of workers that have a seat at the three mails of a phase of two persons.
fn seated<O: MailBrand, P: MailBrand, H: MailBrand>(
    alloc: Global,
    limits: &Limits,
    ledgers: Ledgers,
) -> Result<usize, RunError>
    requires limits { AreThreadLimits limits.now }
    requires objects_ledger { IsUnopened ledgers.objects.name O.name ledgers.objects.parts O.parts
        (workers_of limits.now.shards) }
    requires persons_ledger { IsUnopened ledgers.persons.name P.name ledgers.persons.parts P.parts
        (workers_of limits.now.shards) }
    requires hub_ledger { IsUnopened ledgers.hub.name H.name ledgers.hub.parts H.parts (workers_of limits.now.shards) }
    requires names { AreNamed limits.now 2 (numbers O.boxes O.workers O.nodes O.most O.room)
        (numbers P.boxes P.workers P.nodes P.most P.room) (numbers H.boxes H.workers H.nodes H.most H.room) }
{
    let (_mails, seats) = Mails::<O, P, H>::make(alloc, 2, limits, ledgers)?;
    Ok(seats.len())
}

/// The mails of one shard of each kind, whose three workers have a part of each ledger. Where memory was refused, they
/// are made anew.
#[test]
fn three_mails(rt: HostRuntime) -> Result<(), Fail> {
    let limits = limits_of(1, 7)?;
    let mark = refuse_one(rt.alloc())?;
    let ledgers = Ledgers {
        objects: Blank::new(3),
        persons: Blank::new(3),
        hub: Blank::new(3),
    };
    let mut workers = seated::<Brand, Brand, Brand>(rt.alloc(), &limits, ledgers);
    drop(mark);
    if workers == Err(RunError::NoMemory) {
        let ledgers = Ledgers {
            objects: Blank::new(3),
            persons: Blank::new(3),
            hub: Blank::new(3),
        };
        workers = seated::<Brand, Brand, Brand>(rt.alloc(), &limits, ledgers);
    }
    assert_same(&rt, workers, Ok(3));
    Ok(())
}
