//! A worker's calls of one mail, under one lock.

ghost use Rattle.std.specs.Prelude.{◌≡◌, ◌≢◌, ◌<◌, [], ◌∷◌, All};
ghost use Rattle.auc_mail.specs.declared.call.PostRefused.{PostRefused as ARefusal};
ghost use Rattle.auc_book.specs.LockedMail.{IsWaiting};
ghost use Rattle.auc_model.specs.Mails.{box_of};
ghost use Rattle.auc_threads.specs.Taking.{GoesWithin};
ghost use Rattle.auc_threads.specs.Posting.{PostsAt, step_after, step_without};

use crate::gate::Gate;
use auc_book::{CallRefused, HeldMail, MailBrand, Seat, SharedMail};
use auc_letters::{Letter, Out, To, Why};
use auc_mail::PostRefused;
use auc_phases::reason_to_stop;
use std::sync::Wait;

/// The greatest number of bids that are posted, or taken, under one lock. With more of them bids would be made at older
/// prices.
pub(crate) const BATCH: usize = 16;

/// How a worker goes on.
#[derive(Clone, Copy, PartialEq, Eq)]
pub(crate) enum Step {
    /// With its next call.
    On,
    /// It ends, since the phase is over.
    Over,
    /// It stops the phase.
    Stop { why: Why },
}

/// How a worker goes on where an open box refuses a letter: as in the world, by the same reasons.
fn step_without(letter: Letter, refused: PostRefused) -> Step
    requires { refused ≢ ARefusal.Closed }
    ensures { result ≡ step_without letter refused }
{
    match reason_to_stop(refused, letter) {
        Some(why) => Step::Stop { why },
        None => Step::On,
    }
}

/// How a worker goes on after a post. A closed box means that the phase is over.
fn step_after(letter: Letter, posted: Result<u64, CallRefused>) -> Step
    ensures { result ≡ step_after letter posted }
{
    match posted {
        Ok(_) => Step::On,
        Err(CallRefused::TrailFull) => Step::Stop { why: Why::Trail },
        Err(CallRefused::Closed) => Step::Over,
        Err(CallRefused::Spent) => step_without(letter, PostRefused::Spent),
        Err(CallRefused::Full) => step_without(letter, PostRefused::Full),
    }
}

/// The box that a letter goes to, in the mail of its receivers.
fn box_of(to: To) -> u32
    ensures { result ≡ box_of to }
{
    match to {
        To::Person { shard } => shard,
        To::Object { shard } => shard,
        To::Hub => 0,
    }
}

/// Passes the gate, and takes the lock of a mail, for several calls.
pub(crate) fn hold<'b, N: MailBrand, R: Wait, G: Gate>(
    rt: &R,
    gate: &G,
    mail: &'b SharedMail<Letter, N>,
    worker: u32,
) -> HeldMail<'b, Letter, N> {
    gate.pass(worker);
    mail.hold(rt)
}

/// The same, once a take from the box gives a letter, says that none will come, or is refused.
pub(crate) fn hold_for<'b, N: MailBrand, R: Wait, G: Gate>(
    rt: &R,
    gate: &G,
    mail: &'b SharedMail<Letter, N>,
    worker: u32,
    at: u32,
) -> HeldMail<'b, Letter, N>
    requires { at < N.boxes }
    ensures { ¬ (IsWaiting result at) }
{
    gate.pass(worker);
    mail.hold_for(rt, at)
}

/// Posts a letter to its receiver.
pub(crate) fn post<N: MailBrand>(
    held: &mut HeldMail<'_, Letter, N>,
    seat: &mut Seat<Letter, N>,
    out: Out,
) -> Step
    requires { GoesWithin N.boxes out }
    ensures { PostsAt N.room seat.old (out ∷ []) seat.new result }
{
    let posted = held.post(seat, box_of(out.to), out.letter, out.reserve);
    step_after(out.letter, posted)
}

/// Posts letters in order, until one of them ends the worker.
pub(crate) fn post_all<N: MailBrand>(
    held: &mut HeldMail<'_, Letter, N>,
    seat: &mut Seat<Letter, N>,
    letters: &[Out],
) -> Step
    requires { All (GoesWithin N.boxes) letters.now }
    ensures { PostsAt N.room seat.old letters.now seat.new result }
{
    for out in letters {
        let step = post(held, seat, *out);
        if step != Step::On {
            return step;
        }
    }
    Step::On
}

/// Posts letters in order under one lock, until one of them ends the worker.
pub(crate) fn send<N: MailBrand, R: Wait, G: Gate>(
    rt: &R,
    gate: &G,
    mail: &SharedMail<Letter, N>,
    seat: &mut Seat<Letter, N>,
    letters: &[Out],
) -> Step
    requires { All (GoesWithin N.boxes) letters.now }
    ensures { PostsAt N.room seat.old letters.now seat.new result }
{
    if letters.is_empty() {
        return Step::On;
    }
    let mut held = hold(rt, gate, mail, seat.worker());
    let step = post_all(&mut held, seat, letters);
    held.release();
    step
}
