//! The replies of a mail, and the lines that report them.

ghost use Rattle.std.specs.Prelude.{◌≡◌, All, MatchResult};
ghost use Rattle.auc_mail.specs.Step.{FitsIn};
ghost use Rattle.auc_script.specs.declared.script_error.ScriptError.TheVariants.{NoMemory};
ghost use Rattle.auc_cert.specs.Writing.{Writes};
ghost use Rattle.auc_mail.specs.declared.call.Reply.TheVariants.{Posted, Refused, Took, WasOpen};
ghost use Rattle.auc_mail.specs.declared.call.Taken.TheVariants.{Letter};
ghost use Rattle.auc_script.specs.Replies.{AreRepliesTo, reply_line, reply_lines};

use crate::script::Script;
use crate::script_error::ScriptError;
use auc_cert::{Part, WriteFault, write_counted, write_parts, write_whole};
use auc_mail::{MailPool, PostRefused, Reply, Taken, run_script};
use std::alloc::Global;
use std::io::Write;
use std::marker::Model;

/// The replies to the calls of a script, in order. Contracts see them as a list.
#[derive(Debug, Drop)]
pub struct Replies {
    replies: Vec<Reply<i64>>,
}

impl Model for Replies {
    ghost use Rattle.std.specs.Prelude.{List, ℤ};
    ghost use Rattle.auc_mail.specs.declared.call.Reply.{Reply};

    ghost Value = { List (Reply ℤ) };

    ghost view = { λ a. a.replies.items };
}

impl Replies {
    /// These replies. Takes no memory.
    pub fn new(replies: Vec<Reply<i64>>) -> Self
        ensures { result ≡ replies.items }
    {
        Replies { replies }
    }

    /// The replies, in order.
    pub fn as_slice(&self) -> &[Reply<i64>]
        ensures { result.now ≡ self.now }
    {
        self.replies.as_slice()
    }
}

/// Writes the line of a letter. Its sender is numbered from 0.
fn write_letter<W: Write>(
    writer: &mut W,
    sender: u32,
    number: u64,
    item: i64,
) -> Result<(), WriteFault>
    ensures { Writes result (W.contents writer.old) (W.contents writer.new)
        (reply_line (Took (Letter sender number item))) }
{
    let sender = Part::Place(sender as u64);
    let parts = [
        Part::Words(b"letter "),
        sender,
        Part::Space,
        Part::Count(number),
        Part::Space,
        Part::Number(item),
        Part::LineEnd,
    ];
    write_parts(writer, &parts)
}

fn write_refused<W: Write>(writer: &mut W, refused: PostRefused) -> Result<(), WriteFault>
    ensures { Writes result (W.contents writer.old) (W.contents writer.new) (reply_line (Refused refused)) }
{
    match refused {
        PostRefused::Closed => write_whole(writer, b"closed\n"),
        PostRefused::Spent => write_whole(writer, b"spent\n"),
        PostRefused::Full => write_whole(writer, b"full\n"),
    }
}

fn write_taken<W: Write>(writer: &mut W, taken: Taken<i64>) -> Result<(), WriteFault>
    ensures { Writes result (W.contents writer.old) (W.contents writer.new) (reply_line (Took taken)) }
{
    match taken {
        Taken::Letter {
            sender,
            number,
            item,
        } => write_letter(writer, sender, number, item),
        Taken::Empty => write_whole(writer, b"empty\n"),
        Taken::Over => write_whole(writer, b"over\n"),
    }
}

fn write_closed<W: Write>(writer: &mut W, was_open: bool) -> Result<(), WriteFault>
    ensures { Writes result (W.contents writer.old) (W.contents writer.new) (reply_line (WasOpen was_open)) }
{
    if was_open {
        write_whole(writer, b"was open\n")
    } else {
        write_whole(writer, b"was closed\n")
    }
}

/// Writes the line of a reply.
fn write_reply<W: Write>(writer: &mut W, reply: Reply<i64>) -> Result<(), WriteFault>
    ensures { Writes result (W.contents writer.old) (W.contents writer.new) (reply_line reply) }
{
    match reply {
        Reply::Posted(number) => write_counted(writer, b"ok ", number),
        Reply::Refused(refused) => write_refused(writer, refused),
        Reply::Took(taken) => write_taken(writer, taken),
        Reply::WasOpen(was_open) => write_closed(writer, was_open),
    }
}

/// Writes the lines of replies, one for each, in order.
pub fn write_replies<W: Write>(writer: &mut W, replies: &[Reply<i64>]) -> Result<(), WriteFault>
    ensures { Writes result (W.contents writer.old) (W.contents writer.new) (reply_lines replies.now) }
{
    for reply in replies {
        write_reply(writer, *reply)?;
    }
    Ok(())
}

/// The replies to the calls of a script, on its mail.
pub fn replies_to(alloc: Global, script: &Script) -> Result<Replies, ScriptError>
    requires { All (FitsIn script.now.senders script.now.boxes) script.now.calls }
    ensures { MatchResult result (AreRepliesTo script.now) (λ e. e ≡ NoMemory) }
{
    let Ok(mut pool) = MailPool::make(
        alloc,
        script.boxes,
        script.senders,
        script.nodes,
        script.most,
        0i64,
    ) else {
        return Err(ScriptError::NoMemory);
    };
    let replies = run_script(alloc, &mut pool, script.calls.as_slice())?;
    Ok(Replies::new(replies))
}
