//! The three mails of a phase, and the seats of its workers.

ghost use Rattle.std.specs.Prelude.{ℕ, ◌≡◌, ◌≤◌, ◌<◌, ◌+◌, ◌*◌, length, vec_len, IfOk, IfErr};
ghost use Rattle.auc_graph.specs.declared.limits.TheConstants.{MOST_PERSONS};
ghost use Rattle.auc_mail.specs.Limits.{NodesFit};
ghost use Rattle.auc_book.specs.declared.limits.TheConstants.{MOST_ROOM};
ghost use Rattle.auc_book.specs.Seat.{new_account};
ghost use Rattle.auc_threads.specs.declared.error.RunError.TheVariants.{NoMemory};
ghost use Rattle.auc_threads.specs.Naming.{AreBoxes, AreNamed, AreThreadLimits, IsNamed, IsUnopened, numbers};
ghost use Rattle.auc_threads.specs.Naming.{workers_of};
ghost use Rattle.auc_threads.specs.Placed.{Placed};
ghost use Rattle.auc_threads.specs.Worker.{AreNewSeats, accounts_of};

use crate::error::RunError;
use auc_book::{MailBrand, Seat, SharedMail};
use auc_letters::Letter;
use auc_mail::MailError;
use auc_phases::{Limits, nodes_or};
use std::alloc::{AllocError, Global};
use std::sync::ledger::Blank;

/// The three mails of a phase, each under a lock of its own. Their workers are the shards of the persons, then those of
/// the objects, and then the hub.
#[derive(Drop)]
pub struct Mails<O: MailBrand, P: MailBrand, H: MailBrand> {
    /// Bids, with a box for each shard of the objects.
    pub objects: SharedMail<Letter, O>,
    /// Answers and prices, with a box for each shard of the persons.
    pub persons: SharedMail<Letter, P>,
    /// To the hub, with one box.
    pub hub: SharedMail<Letter, H>,
    /// The number of shards of each kind.
    pub shards: u32,
    pub(crate) ghost boxes: { AreBoxes O.boxes P.boxes H.boxes shards },
}

/// A worker's seats at the three mails.
#[derive(Drop)]
pub struct WorkerSeats<O: MailBrand, P: MailBrand, H: MailBrand> {
    pub objects: Seat<Letter, O>,
    pub persons: Seat<Letter, P>,
    pub hub: Seat<Letter, H>,
}

/// The unopened ledgers of the three mails, with a part for each worker.
pub struct Ledgers {
    pub objects: Blank,
    pub persons: Blank,
    pub hub: Blank,
}

/// One of the mails, and its seats.
fn new_mail<N: MailBrand>(
    alloc: Global,
    boxes: u32,
    workers: u32,
    nodes: u32,
    limits: &Limits,
    ledger: Blank,
) -> Result<(SharedMail<Letter, N>, Vec<Seat<Letter, N>>), RunError>
    requires ledger { IsUnopened ledger.name N.name ledger.parts N.parts workers }
    requires numbers { IsNamed (numbers N.boxes N.workers N.nodes N.most N.room) boxes nodes limits.now }
    requires boxes { boxes ≤ 16 }
    requires workers { workers ≡ workers_of limits.now.shards }
    requires nodes { NodesFit nodes }
    requires limits { AreThreadLimits limits.now }
    ensures seats { IfOk result (λ r. Placed (λ k a. a ≡ new_account k) 0 r.1.items) }
    ensures many { IfOk result (λ r. vec_len r.1 ≡ workers) }
    ensures refused { IfErr result (λ e. e ≡ NoMemory) }
{
    let blank = Letter::First { object: 0 };
    match SharedMail::make(
        alloc,
        boxes,
        workers,
        nodes,
        limits.posts,
        blank,
        limits.audit,
        ledger,
    ) {
        Ok(made) => Ok(made),
        Err(MailError::NoMemory) => Err(RunError::NoMemory),
        Err(_) => unreachable!("all numbers are in range"),
    }
}

/// The seats of each worker together.
fn join_seats<O: MailBrand, P: MailBrand, H: MailBrand>(
    alloc: Global,
    objects: Vec<Seat<Letter, O>>,
    persons: Vec<Seat<Letter, P>>,
    hub: Vec<Seat<Letter, H>>,
) -> Result<Vec<WorkerSeats<O, P, H>>, AllocError>
    requires objects { Placed (λ k a. a ≡ new_account k) 0 objects.items }
    requires persons { Placed (λ k a. a ≡ new_account k) 0 persons.items }
    requires hub { Placed (λ k a. a ≡ new_account k) 0 hub.items }
    requires same { (vec_len persons ≡ vec_len objects) × (vec_len hub ≡ vec_len objects) }
    ensures seats { IfOk result (λ v. Placed (λ k w. AreNewSeats k (accounts_of w)) 0 v.items) }
    ensures many { IfOk result (λ v. vec_len v ≡ vec_len objects) }
{
    let mut seats = Vec::with_capacity(alloc, objects.len())?;
    let mut persons = persons.into_iter();
    let mut hub = hub.into_iter();
    for objects in objects {
        let Some(persons) = persons.next() else {
            unreachable!()
        };
        let Some(hub) = hub.next() else {
            unreachable!()
        };
        seats.push_reserved(WorkerSeats {
            objects,
            persons,
            hub,
        });
    }
    Ok(seats)
}

impl<O: MailBrand, P: MailBrand, H: MailBrand> Mails<O, P, H> {
    /// The three mails with nothing noted, and the seats of each worker, in order.
    ///
    /// The conditions tie the names in the types to these arguments: a caller of code that is generic over the names
    /// picks them so.
    pub fn make(
        alloc: Global,
        persons: u32,
        limits: &Limits,
        ledgers: Ledgers,
    ) -> Result<(Mails<O, P, H>, Vec<WorkerSeats<O, P, H>>), RunError>
        requires persons { persons ≤ MOST_PERSONS }
        requires limits { AreThreadLimits limits.now }
        requires objects_ledger { IsUnopened ledgers.objects.name O.name ledgers.objects.parts O.parts
            (workers_of limits.now.shards) }
        requires persons_ledger { IsUnopened ledgers.persons.name P.name ledgers.persons.parts P.parts
            (workers_of limits.now.shards) }
        requires hub_ledger { IsUnopened ledgers.hub.name H.name ledgers.hub.parts H.parts
            (workers_of limits.now.shards) }
        requires names { AreNamed limits.now persons (numbers O.boxes O.workers O.nodes O.most O.room)
            (numbers P.boxes P.workers P.nodes P.most P.room) (numbers H.boxes H.workers H.nodes H.most H.room) }
        ensures shards { IfOk result (λ r. r.0.shards ≡ limits.now.shards) }
        ensures seats { IfOk result (λ r. Placed (λ k w. AreNewSeats k (accounts_of w)) 0 r.1.items) }
        ensures many { IfOk result (λ r. vec_len r.1 ≡ workers_of limits.now.shards) }
        ensures refused { IfErr result (λ e. e ≡ NoMemory) }
    {
        let shards = limits.shards;
        let workers = 2 * shards + 1;
        let Ledgers {
            objects,
            persons: persons_ledger,
            hub,
        } = ledgers;
        let nodes = nodes_or(limits.nodes, persons);
        let (objects, objects_seats) = new_mail(alloc, shards, workers, nodes, limits, objects)?;
        let nodes = nodes_or(limits.nodes, 4 * persons);
        let (persons_mail, persons_seats) = new_mail(
            alloc,
            shards,
            workers,
            nodes,
            limits,
            persons_ledger,
        )?;
        let nodes = nodes_or(limits.nodes, persons + 2 * shards);
        let (hub, hub_seats) = new_mail(alloc, 1, workers, nodes, limits, hub)?;
        let seats = join_seats(alloc, objects_seats, persons_seats, hub_seats)?;
        let mails = Mails {
            objects,
            persons: persons_mail,
            hub,
            shards,
        };
        Ok((mails, seats))
    }
}
