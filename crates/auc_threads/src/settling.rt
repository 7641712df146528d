//! The seats of all workers, and the trails of the mails that settle with them.

ghost use Rattle.std.specs.Prelude.{◌≡◌, [], ◌∷◌, ◌++◌, map, IfOk, OnOk, IfSome};
ghost use Rattle.auc_book.specs.Settling.{IsSettled};

use crate::hub::HubWork;
use crate::mails::{Mails, WorkerSeats};
use crate::object_worker::ObjectWork;
use crate::person_worker::PersonWork;
use crate::running::Works;
use auc_book::{MailBrand, Seat, Trail};
use auc_letters::{Letter, equal_letters_are_same};
use std::alloc::{AllocError, Global};

/// The trails of the three mails of a phase.
#[derive(Drop)]
pub struct Trails {
    pub objects: Trail<Letter>,
    pub persons: Trail<Letter>,
    pub hub: Trail<Letter>,
}

/// All seats of one mail, in the workers' order, with room for them.
#[derive(Drop)]
pub(crate) struct AllSeats<O: MailBrand, P: MailBrand, H: MailBrand> {
    objects: Vec<Seat<Letter, O>>,
    persons: Vec<Seat<Letter, P>>,
    hub: Vec<Seat<Letter, H>>,
}

/// Adds a worker's seats to the others.
fn push_seats<O: MailBrand, P: MailBrand, H: MailBrand>(
    all: &mut AllSeats<O, P, H>,
    seats: WorkerSeats<O, P, H>,
) -> Result<(), AllocError>
    ensures objects { OnOk result (all.new.objects.items ≡ all.old.objects.items ++ seats.objects ∷ []) }
    ensures persons { OnOk result (all.new.persons.items ≡ all.old.persons.items ++ seats.persons ∷ []) }
    ensures hub { OnOk result (all.new.hub.items ≡ all.old.hub.items ++ seats.hub ∷ []) }
{
    let WorkerSeats {
        objects,
        persons,
        hub,
    } = seats;
    all.objects.push(objects)?;
    all.persons.push(persons)?;
    all.hub.push(hub)?;
    Ok(())
}

/// The seats of all workers, by mail.
pub(crate) fn seats_of<O: MailBrand, P: MailBrand, H: MailBrand>(
    alloc: Global,
    works: Works<O, P, H>,
) -> Result<AllSeats<O, P, H>, AllocError>
    ensures objects { IfOk result (λ a. a.objects.items ≡ (map (λ w. w.seats.objects) works.persons.items ++ map
        (λ w. w.seats.objects) works.objects.items) ++ works.hub.seats.objects ∷ []) }
    ensures persons { IfOk result (λ a. a.persons.items ≡ (map (λ w. w.seats.persons) works.persons.items ++ map
        (λ w. w.seats.persons) works.objects.items) ++ works.hub.seats.persons ∷ []) }
    ensures hub { IfOk result (λ a. a.hub.items ≡ (map (λ w. w.seats.hub) works.persons.items ++ map
        (λ w. w.seats.hub) works.objects.items)
        ++ works.hub.seats.hub ∷ []) }
{
    let Works {
        persons,
        objects,
        hub,
    } = works;
    let mut all = AllSeats {
        objects: Vec::new(alloc),
        persons: Vec::new(alloc),
        hub: Vec::new(alloc),
    };
    for bought in persons {
        let PersonWork { seats, .. } = bought;
        push_seats(&mut all, seats)?;
    }
    for sold in objects {
        let ObjectWork { seats, .. } = sold;
        push_seats(&mut all, seats)?;
    }
    let HubWork { seats, .. } = hub;
    push_seats(&mut all, seats)?;
    Ok(all)
}

/// The trails, where all three mails settle.
pub(crate) fn settle_all<O: MailBrand, P: MailBrand, H: MailBrand>(
    mails: Mails<O, P, H>,
    all: AllSeats<O, P, H>,
) -> Option<Trails>
    ensures objects { IfSome result (λ t. IsSettled O.boxes O.workers O.nodes O.most O.room all.objects.items
        t.objects) }
    ensures persons { IfSome result (λ t. IsSettled P.boxes P.workers P.nodes P.most P.room all.persons.items
        t.persons) }
    ensures hub { IfSome result (λ t. IsSettled H.boxes H.workers H.nodes H.most H.room all.hub.items t.hub) }
{
    let Mails {
        objects,
        persons,
        hub,
        ..
    } = mails;
    equal_letters_are_same();
    let objects = objects.settle(all.objects).ok()?;
    let persons = persons.settle(all.persons).ok()?;
    let hub = hub.settle(all.hub).ok()?;
    Some(Trails {
        objects,
        persons,
        hub,
    })
}
