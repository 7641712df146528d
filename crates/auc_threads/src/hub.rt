//! The hub: it counts the objects that have their first holder, and ends the phase.

ghost use Rattle.std.specs.Prelude.{ℕ, ◌≡◌, ◌≢◌, ◌<◌, None, Ok};
ghost use Rattle.auc_mail.specs.declared.call.Taken.{Taken as ATaken};
ghost use Rattle.auc_threads.specs.Counting.{Closes, Counted, Counts};

use crate::mails::{Mails, WorkerSeats};
use auc_book::{MailBrand, TrailFull};
use auc_letters::{Letter, Why};
use auc_mail::Taken;
use auc_model::End;
use auc_phases::Hub;
use std::sync::Wait;

/// The effect of what the hub heard.
#[derive(Clone, Copy, PartialEq, Eq)]
pub(crate) enum Heard {
    /// It goes on.
    On,
    /// It has counted a First for each person.
    All,
    /// The phase has to end, for this reason of the hub's own, if it has one: a shard that stops gives its reason
    /// itself.
    End { why: Option<Why> },
}

/// The result of the hub: its seats, whether it counted one First for each person, and its own reason to stop.
#[derive(Drop)]
pub(crate) struct HubWork<O: MailBrand, P: MailBrand, H: MailBrand> {
    pub(crate) seats: WorkerSeats<O, P, H>,
    pub(crate) is_all: bool,
    pub(crate) why: Option<Why>,
}

/// The hub hears a letter.
fn hear_letter(hub: &mut Hub, persons: u32, letter: Letter) -> Heard
    requires going { hub.old.end ≡ None }
    requires fewer { hub.old.count < persons }
    ensures { (from number : ℕ) → Counted persons hub.old (Ok (ATaken.Letter from number letter)) result hub.new }
{
    hub.hear(letter, persons);
    match letter {
        Letter::First { .. } => match hub.end() {
            None => Heard::On,
            Some(_) => Heard::All,
        },
        Letter::Stop { .. } => Heard::End { why: None },
        Letter::Bid { .. }
        | Letter::Award { .. }
        | Letter::Refused { .. }
        | Letter::Outbid { .. }
        | Letter::Price { .. } => Heard::End {
            why: Some(Why::Stray),
        },
    }
}

/// The hub hears what was taken.
fn hear(hub: &mut Hub, persons: u32, taken: Result<Taken<Letter>, TrailFull>) -> Heard
    requires going { hub.old.end ≡ None }
    requires fewer { hub.old.count < persons }
    requires some { taken ≢ Ok ATaken.Empty }
    ensures { Counted persons hub.old taken result hub.new }
{
    match taken {
        Ok(Taken::Letter { item, .. }) => hear_letter(hub, persons, item),
        Ok(_) => Heard::End { why: None },
        Err(TrailFull) => Heard::End {
            why: Some(Why::Trail),
        },
    }
}

/// Closes every box, the hub's last. A close that can't be noted is passed over, since all workers that wait are woken
/// then too.
pub(crate) fn close_all<O: MailBrand, P: MailBrand, H: MailBrand, R: Wait>(
    rt: &R,
    mails: &Mails<O, P, H>,
    seats: &mut WorkerSeats<O, P, H>,
)
    ensures objects { Closes O.room O.boxes seats.old.objects seats.new.objects }
    ensures persons { Closes P.room P.boxes seats.old.persons seats.new.persons }
    ensures hub { Closes H.room 1 seats.old.hub seats.new.hub }
{
    for at in 0..mails.shards {
        let _ = mails.objects.close(rt, &mut seats.objects, at);
        let _ = mails.persons.close(rt, &mut seats.persons, at);
    }
    let _ = mails.hub.close(rt, &mut seats.hub, 0);
}

/// Counts until each person has an object, or the phase has to end, and then closes all boxes.
pub(crate) fn count<O: MailBrand, P: MailBrand, H: MailBrand, R: Wait>(
    rt: &R,
    mails: &Mails<O, P, H>,
    persons: u32,
    seats: WorkerSeats<O, P, H>,
) -> HubWork<O, P, H>
    requires { 0 < persons }
    ensures counts { Counts H.room persons seats.hub result.is_all result.why result.seats.hub }
    ensures objects { Closes O.room O.boxes seats.objects result.seats.objects }
    ensures persons { Closes P.room P.boxes seats.persons result.seats.persons }
{
    let mut seats = seats;
    let mut hub = Hub::new();
    for _ in rt.forever() {
        let taken = mails.hub.take(rt, &mut seats.hub, 0);
        match hear(&mut hub, persons, taken) {
            Heard::On => {}
            Heard::All => {
                close_all(rt, mails, &mut seats);
                return HubWork {
                    seats,
                    is_all: true,
                    why: None,
                };
            }
            Heard::End { why } => {
                close_all(rt, mails, &mut seats);
                return HubWork {
                    seats,
                    is_all: false,
                    why,
                };
            }
        }
    }
    unreachable!()
}
