//! How a worker stops the phase.

ghost use Rattle.std.specs.Prelude.{◌≡◌, ◌<◌};
ghost use Rattle.auc_letters.specs.declared.letter.Why.{Why as AWhy};
ghost use Rattle.auc_threads.specs.Posting.{Ends, why_of};
ghost use Rattle.auc_threads.specs.declared.calls.Step.{Step as AStep};

use crate::calls::Step;
use crate::gate::Gate;
use auc_book::{MailBrand, Seat, SharedMail};
use auc_letters::{Letter, Why};
use std::sync::Wait;

/// Posts to the hub why a worker stops. Where that can't be posted, for whatever reason, it closes the hub's box.
fn post_stop<N: MailBrand, R: Wait, G: Gate>(
    rt: &R,
    gate: &G,
    mail: &SharedMail<Letter, N>,
    seat: &mut Seat<Letter, N>,
    why: Why,
)
    requires { 0 < N.boxes }
    ensures { Ends N.room seat.old (AStep.Stop why) seat.new }
{
    gate.pass(seat.worker());
    if mail.post(rt, seat, 0, Letter::Stop { why }, 0).is_err() {
        gate.pass(seat.worker());
        let _ = mail.close(rt, seat, 0);
    }
}

/// The last act of a worker, at the hub's mail: where it stops the phase, it posts the reason to the hub.
pub(crate) fn end<N: MailBrand, R: Wait, G: Gate>(
    rt: &R,
    gate: &G,
    mail: &SharedMail<Letter, N>,
    seat: &mut Seat<Letter, N>,
    step: Step,
) -> Option<Why>
    requires { 0 < N.boxes }
    ensures ends { Ends N.room seat.old step seat.new }
    ensures why { result ≡ why_of step }
{
    match step {
        Step::Stop { why } => {
            post_stop(rt, gate, mail, seat, why);
            Some(why)
        }
        _ => None,
    }
}
