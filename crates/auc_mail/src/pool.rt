//! The mail itself, and its calls.

ghost use Rattle.std.specs.Prelude.{replicate, ◌≡◌, ◌≤◌, IfOk, IfErr, OnOk};
ghost use Rattle.auc_nodes.specs.Lists.{empty_lists};
ghost use Rattle.auc_mail.specs.Limits.{LanesFit, NodesFit, IsRefusedFor};
ghost use Rattle.auc_mail.specs.Mail.{IsSound, empty_mail};
ghost use Rattle.auc_mail.specs.Step.{Fits, Step};
ghost use Rattle.auc_mail.specs.Pool.{new_box};

mod looking;
mod posting;
mod taking;

use crate::boxes::{MailBox, NO_LANE, note_close};
use crate::call::{Call, Reply};
use crate::error::MailError;
use crate::limits::{MOST_BOXES, MOST_LANES, MOST_SENDERS};
use auc_nodes::{MOST_NODES, NodePool};
use std::alloc::{AllocError, Global};
use std::marker::Model;

/// A mail: boxes that accept letters until they are closed, and a lane for each box and sender.
///
/// Boxes and senders are numbered from 0. All boxes together have room for a fixed number of waiting letters, reserved
/// by `make`; each lane has a fixed number of posts. No other call takes memory.
///
/// Contracts see a mail as the `Mail` of `specs/Mail.antt`. They leave open which sender's letter a take gives.
#[derive(Drop)]
pub struct MailPool<T: Copy> {
    // The letters that wait, a list for each lane.
    lists: NodePool<T>,

    // The number of letters posted in each lane.
    posted: Vec<u64>,
    boxes: Vec<MailBox>,
    most: u64,
    senders: u32,
}

impl<T: Copy> Model for MailPool<T> {
    ghost use Rattle.auc_mail.specs.Mail.{Mail};

    ghost Value = { Mail T };

    ghost use Rattle.auc_mail.specs.Pool.{mail_of, IsKept};

    ghost view = { λ p. mail_of p.senders p.most p.boxes.items p.posted.items p.lists };

    ghost invariant = { λ p. IsKept p.senders p.most p.boxes.items p.posted.items p.lists };
}

// The lists of a new mail: its letters, its counts and its boxes.
fn new_lists<T: Copy>(
    alloc: Global,
    boxes: u32,
    lanes: u32,
    nodes: u32,
    blank: T,
) -> Result<(NodePool<T>, Vec<u64>, Vec<MailBox>), AllocError>
    requires { (lanes ≤ MOST_LANES) × (nodes ≤ MOST_NODES) }
    ensures letters { IfOk result (λ lists. lists.0 ≡ empty_lists lanes nodes) }
    ensures counts { IfOk result (λ lists. lists.1.items ≡ replicate lanes 0) }
    ensures boxes { IfOk result (λ lists. lists.2.items ≡ replicate boxes new_box) }
{
    let Ok(letters) = NodePool::make(alloc, lanes, nodes, blank) else {
        return Err(AllocError);
    };
    let posted = vec![in alloc; 0; lanes as usize]?;
    let boxes = vec![in alloc; MailBox {
        waiting: 0,
        last: 0,
        giver: NO_LANE,
        accepting: true,
    }; boxes as usize]?;
    Ok((letters, posted, boxes))
}

impl<T: Copy> MailPool<T> {
    /// The empty mail: every box is open, and nothing was posted.
    ///
    /// There are `boxes` boxes and `senders` senders. In all boxes together `nodes` letters may wait at a time, and
    /// `most` letters may ever be posted in each lane. `blank` is any item: it fills places that hold no letter, and is
    /// never handed out.
    ///
    /// Errors, in this order: `TooManyLanes` above `MOST_BOXES`, `MOST_SENDERS` or `MOST_LANES`; `TooManyNodes` above
    /// `MOST_NODES`; `NoMemory` where memory was refused.
    ///
    /// Takes O(boxes * senders) time, and O(boxes * senders + nodes) memory.
    pub fn make(
        alloc: Global,
        boxes: u32,
        senders: u32,
        nodes: u32,
        most: u64,
        blank: T,
    ) -> Result<MailPool<T>, MailError>
        ensures made { IfOk result (λ mail. mail ≡ empty_mail boxes senders nodes most) }
        ensures within { OnOk result (LanesFit boxes senders × NodesFit nodes) }
        ensures refused { IfErr result (IsRefusedFor boxes senders nodes) }
    {
        if boxes > MOST_BOXES || senders > MOST_SENDERS {
            return Err(MailError::TooManyLanes);
        }
        let lanes = u64::from(boxes) * u64::from(senders);
        if lanes > MOST_LANES {
            return Err(MailError::TooManyLanes);
        }
        if nodes > MOST_NODES {
            return Err(MailError::TooManyNodes);
        }
        match new_lists(alloc, boxes, lanes as u32, nodes, blank) {
            Ok((lists, posted, boxes)) => Ok(MailPool {
                lists,
                posted,
                boxes,
                most,
                senders,
            }),
            Err(_) => Err(MailError::NoMemory),
        }
    }

    /// Closes the box, and returns whether it was still open. Its waiting letters stay. Takes O(1) time.
    pub fn close(&mut self, at: u32) -> bool
        requires { Fits self.old (Call.Close at) }
        ensures { Step self.old (Call.Close at) (Reply.WasOpen result) self.new }
    {
        let was_open = self.boxes[at as usize].accepting;
        note_close(&mut self.boxes, at);
        was_open
    }

    /// Makes the call, and returns its answer. Takes the time of `post`, `take` or `close`.
    pub fn answer(&mut self, call: Call<T>) -> Reply<T>
        requires { Fits self.old call }
        ensures { Step self.old call result self.new }
    {
        match call {
            Call::Post {
                sender,
                to,
                item,
                reserve,
            } => match self.post(sender, to, item, reserve) {
                Ok(number) => Reply::Posted(number),
                Err(refused) => Reply::Refused(refused),
            },
            Call::Take { at } => Reply::Took(self.take(at)),
            Call::Close { at } => Reply::WasOpen(self.close(at)),
        }
    }

    /// The invariant of every mail. This is a law, and does nothing: proofs above cite it.
    pub fn every_mail_is_sound(&self)
        ensures { IsSound self.now }
    {
        self.lists.every_pool_is_sound();
    }
}
