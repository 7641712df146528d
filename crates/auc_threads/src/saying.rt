//! The letters that a worker of the objects posts after it has answered bids.

ghost use Rattle.std.specs.Prelude.{◌≡◌, ◌<◌, [], ◌∷◌, false, All};
ghost use Rattle.auc_phases.specs.Boxes.{Reaches};
ghost use Rattle.auc_threads.specs.Posting.{Says, is_to_hub};
ghost use Rattle.auc_threads.specs.Worker.{accounts_of, rooms};

use crate::calls::{Step, hold, post, send};
use crate::gate::Gate;
use crate::mails::WorkerSeats;
use crate::task::PhaseRun;
use auc_book::{HeldMail, MailBrand};
use auc_letters::{Letter, Out, To};
use std::sync::Wait;

/// Whether a letter goes to the hub.
fn is_to_hub(to: To) -> bool
    ensures { result ≡ is_to_hub to }
{
    matches!(to, To::Hub)
}

/// Posts a letter to the persons or to the hub.
fn post_one<O: MailBrand, P: MailBrand, H: MailBrand>(
    persons: &mut HeldMail<'_, Letter, P>,
    hub: &mut HeldMail<'_, Letter, H>,
    seats: &mut WorkerSeats<O, P, H>,
    out: Out,
) -> Step
    requires hub { H.boxes ≡ 1 }
    requires some { 0 < P.boxes }
    requires reach { Reaches P.boxes out }
    ensures objects { seats.new.objects ≡ seats.old.objects }
    ensures says { Says (rooms O.room P.room H.room) (accounts_of seats.old) (out ∷ []) (accounts_of seats.new) result }
{
    if is_to_hub(out.to) {
        return post(hub, &mut seats.hub, out);
    }
    post(persons, &mut seats.persons, out)
}

/// Posts letters in order, until one of them ends the worker.
fn post_each<O: MailBrand, P: MailBrand, H: MailBrand>(
    persons: &mut HeldMail<'_, Letter, P>,
    hub: &mut HeldMail<'_, Letter, H>,
    seats: &mut WorkerSeats<O, P, H>,
    said: &[Out],
) -> Step
    requires hub { H.boxes ≡ 1 }
    requires some { 0 < P.boxes }
    requires reach { All (Reaches P.boxes) said.now }
    ensures objects { seats.new.objects ≡ seats.old.objects }
    ensures says { Says (rooms O.room P.room H.room) (accounts_of seats.old) said.now (accounts_of seats.new) result }
{
    for out in said {
        let step = post_one(persons, hub, seats, *out);
        if step != Step::On {
            return step;
        }
    }
    Step::On
}

/// Whether any letter goes to the hub.
fn has_first(said: &[Out]) -> bool
    ensures { result ≡ false → All (λ o. is_to_hub o.to ≡ false) said.now }
{
    for out in said {
        if is_to_hub(out.to) {
            return true;
        }
    }
    false
}

/// Posts the letters that follow the answered bids, in order. The hub's lock is taken only where a letter goes to it.
/// Then the gate is passed for both mails before either is locked, and the hub's lock is always taken after the
/// persons'. The persons' lock is released first, since the persons wait for it.
pub(crate) fn say<O: MailBrand, P: MailBrand, H: MailBrand, R: Wait, G: Gate>(
    rt: &R,
    gate: &G,
    run: &PhaseRun<'_, O, P, H>,
    seats: &mut WorkerSeats<O, P, H>,
    said: &[Out],
) -> Step
    requires { All (Reaches run.now.task.limits.now.shards) said.now }
    ensures objects { seats.new.objects ≡ seats.old.objects }
    ensures says { Says (rooms O.room P.room H.room) (accounts_of seats.old) said.now (accounts_of seats.new) result }
{
    if !has_first(said) {
        return send(rt, gate, &run.mails.persons, &mut seats.persons, said);
    }
    let worker = seats.objects.worker();
    gate.pass(worker);
    let mut persons = hold(rt, gate, &run.mails.persons, worker);
    let mut hub = run.mails.hub.hold(rt);
    let step = post_each(&mut persons, &mut hub, seats, said);
    persons.release();
    hub.release();
    step
}
