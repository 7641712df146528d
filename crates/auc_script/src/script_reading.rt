//! Reading of a script from a text.

ghost use Rattle.std.specs.Prelude.{◌≡◌, ◌≤◌, ◌<◌, ◌+◌, ◌*◌, ◌-◌, ◌^◌, ◌∷◌, [], ℕ, pos, ◌≤ℤ◌, IfSome, IfNone, IfOk};
ghost use Rattle.std.specs.Prelude.{length, All};
ghost use Rattle.std.specs.Result.{result_map_both};
ghost use Rattle.auc_graph.specs.Memory.{AnswersUnless};
ghost use Rattle.auc_graph.specs.Tokens.{tokens};
ghost use Rattle.auc_graph.specs.Numbers.{number};
ghost use Rattle.auc_script.specs.Script.{command, number_in, operand, index, count, post_at, call_by, call_at};
ghost use Rattle.auc_script.specs.Script.{calls_from, opening, script_of, ReadsAsScript};
ghost use Rattle.auc_mail.specs.Step.{FitsIn};
ghost use Rattle.auc_script.specs.ScriptLimits.{most_boxes, most_nodes, most_calls};

use crate::command_word::CommandWord;
use crate::script::{
    Calls, MOST_CALLS, MOST_ITEM, MOST_SCRIPT_BOXES, MOST_SCRIPT_NODES, MOST_SCRIPT_POSTS, Script,
};
use crate::script_error::ScriptError;
use auc_graph::{Number, number_of, token_at};
use auc_mail::Call;
use std::alloc::Global;

/// The token at the front, and the text after it.
fn next_token(bytes: &[u8]) -> Option<(&[u8], &[u8])>
    ensures found { IfSome result (λ x. tokens bytes.now ≡ x.0.now ∷ tokens x.1.now) }
    ensures shorter { IfSome result (λ x. length x.1.now < length bytes.now) }
    ensures none { IfNone result (tokens bytes.now ≡ []) }
{
    let token = token_at(bytes, 0)?;
    Some((&bytes[token.start..token.end], &bytes[token.end..]))
}

/// The command that a token names.
#[tactic(auto, unfolding(crate::specs::Script::command))]
fn command_of(token: &[u8]) -> Option<CommandWord>
    ensures { result ≡ command token.now }
{
    if token == b"post".as_slice() {
        Some(CommandWord::PostWord)
    } else if token == b"take".as_slice() {
        Some(CommandWord::TakeWord)
    } else if token == b"close".as_slice() {
        Some(CommandWord::CloseWord)
    } else if token == b"mail".as_slice() {
        Some(CommandWord::MailWord)
    } else {
        None
    }
}

/// The number at token `place`, from `least` to `most`.
fn number_within(number: Number, place: u64, least: i64, most: i64) -> Result<i64, ScriptError>
    ensures exact { result ≡ number_in least most place number }
    ensures bounds { IfOk result (λ z. (least ≤ℤ z) × (z ≤ℤ most)) }
{
    match number {
        Number::Bad => Err(ScriptError::Word { token: place }),
        Number::Value(value) if least <= value && value <= most => Ok(value),
        Number::Value(_) | Number::Huge => Err(ScriptError::Range { token: place }),
    }
}

/// The operand at token `place`, from `least` to `most`, and the text after it.
fn operand_of(bytes: &[u8], place: u64, least: i64, most: i64) -> Result<(i64, &[u8]), ScriptError>
    ensures exact { result_map_both (λ x. (x.0, tokens x.1.now)) (λ e. e) result
        ≡ operand least most place (tokens bytes.now) }
    ensures bounds { IfOk result (λ x. (least ≤ℤ x.0) × (x.0 ≤ℤ most)) }
    ensures shorter { IfOk result (λ x. length x.1.now ≤ length bytes.now) }
{
    let Some((token, rest)) = next_token(bytes) else {
        return Err(ScriptError::Cut { tokens: place });
    };
    let value = number_within(number_of(token), place, least, most)?;
    Ok((value, rest))
}

/// The operand at token `place`, from 1 to `most`, as a number from 0, and the text after it.
fn index_of(bytes: &[u8], place: u64, most: u32) -> Result<(u32, &[u8]), ScriptError>
    ensures exact { result_map_both (λ x. (x.0, tokens x.1.now)) (λ e. e) result ≡ index most place (tokens bytes.now) }
    ensures below { IfOk result (λ x. x.0 < most) }
    ensures shorter { IfOk result (λ x. length x.1.now ≤ length bytes.now) }
{
    let (value, rest) = operand_of(bytes, place, 1, most as i64)?;
    Ok(((value - 1) as u32, rest))
}

/// The operand at token `place`, from `least` to `most`, and the text after it.
fn count_of(bytes: &[u8], place: u64, least: u32, most: u32) -> Result<(u32, &[u8]), ScriptError>
    ensures exact { result_map_both (λ x. (x.0, tokens x.1.now)) (λ e. e) result
        ≡ count least most place (tokens bytes.now) }
    ensures bounds { IfOk result (λ x. (least ≤ x.0) × (x.0 ≤ most)) }
    ensures shorter { IfOk result (λ x. length x.1.now ≤ length bytes.now) }
{
    let (value, rest) = operand_of(bytes, place, least as i64, most as i64)?;
    Ok((value as u32, rest))
}

/// The call that is `post` at token `place`, the number of the token after it, and the text after it.
#[tactic(auto, unfolding(crate::specs::Script::post_at))]
fn post_of(
    boxes: u32,
    senders: u32,
    place: u64,
    bytes: &[u8],
) -> Result<(Call<i64>, u64, &[u8]), ScriptError>
    requires { place < 2 ^ 40 }
    ensures exact { result_map_both (λ x. ((x.0, x.1), tokens x.2.now)) (λ e. e) result
        ≡ post_at boxes senders place (tokens bytes.now) }
    ensures within { IfOk result (λ x. FitsIn senders boxes x.0) }
    ensures next { IfOk result (λ x. x.1 ≤ place + 5) }
    ensures shorter { IfOk result (λ x. length x.2.now ≤ length bytes.now) }
{
    let (sender, rest) = index_of(bytes, place + 1, senders)?;
    let (to, rest) = index_of(rest, place + 2, boxes)?;
    let (item, rest) = operand_of(rest, place + 3, -MOST_ITEM, MOST_ITEM)?;
    let (reserve, rest) = count_of(rest, place + 4, 0, MOST_SCRIPT_NODES)?;
    let post = Call::Post {
        sender,
        to,
        item,
        reserve,
    };
    Ok((post, place + 5, rest))
}

/// The call whose command is at token `place`, the number of the token after it, and the text after it.
fn call_of(
    boxes: u32,
    senders: u32,
    place: u64,
    bytes: &[u8],
    command: Option<CommandWord>,
) -> Result<(Call<i64>, u64, &[u8]), ScriptError>
    requires { place < 2 ^ 40 }
    ensures exact { result_map_both (λ x. ((x.0, x.1), tokens x.2.now)) (λ e. e) result ≡ call_by boxes senders place
        (tokens bytes.now) command }
    ensures within { IfOk result (λ x. FitsIn senders boxes x.0) }
    ensures next { IfOk result (λ x. x.1 ≤ place + 5) }
    ensures shorter { IfOk result (λ x. length x.2.now ≤ length bytes.now) }
{
    match command {
        Some(CommandWord::PostWord) => post_of(boxes, senders, place, bytes),
        Some(CommandWord::TakeWord) => {
            let (at, rest) = index_of(bytes, place + 1, boxes)?;
            Ok((Call::Take { at }, place + 2, rest))
        }
        Some(CommandWord::CloseWord) => {
            let (at, rest) = index_of(bytes, place + 1, boxes)?;
            Ok((Call::Close { at }, place + 2, rest))
        }
        Some(CommandWord::MailWord) | None => Err(ScriptError::Word { token: place }),
    }
}

/// The calls of a text after the numbers of its mail.
fn calls_of(
    alloc: Global,
    boxes: u32,
    senders: u32,
    text: &[u8],
) -> Result<Vec<Call<i64>>, ScriptError>
    ensures exact { AnswersUnless ScriptError.NoMemory (λ v. v.items) result
        (λ r. calls_from most_calls boxes senders 5 (tokens text.now) ≡ r) }
    ensures within { IfOk result (λ v. All (FitsIn senders boxes) v.items) }
{
    let mut calls = Vec::new(alloc);
    let mut place: u64 = 5;
    let mut rest = text;
    while let Some((word, after)) = next_token(rest) {
        if calls.len() >= MOST_CALLS as usize {
            return Err(ScriptError::TooManyCalls);
        }
        let (call, next, after) = call_of(boxes, senders, place, after, command_of(word))?;
        calls.push(call)?;
        place = next;
        rest = after;
    }
    Ok(calls)
}

/// A script begins with `mail`.
fn open_script(command: Option<CommandWord>) -> Result<u32, ScriptError>
    ensures { result ≡ opening command }
{
    match command {
        Some(CommandWord::MailWord) => Ok(1),
        Some(CommandWord::PostWord)
        | Some(CommandWord::TakeWord)
        | Some(CommandWord::CloseWord)
        | None => Err(ScriptError::Word { token: 0 }),
    }
}

/// The script that a text reads as, or the first fault in the order of the text.
///
/// The text is split into tokens, and its numbers are spelled, as those of a problem are. It begins with `mail BOXES
/// SENDERS NODES MOST`: 1 to 1,000 boxes and senders, up to 1,000,000 waiting letters, up to 10^12 posts for each lane.
/// The calls follow, each one of `post SENDER BOX ITEM RESERVE`, `take BOX` and `close BOX`.
///
/// # Errors
///
/// At a token [`ScriptError::TooManyCalls`] comes first, then [`ScriptError::Word`], then [`ScriptError::Range`];
/// [`ScriptError::Cut`] comes at the end of the text. [`ScriptError::NoMemory`] may come in place of any other answer,
/// where memory was refused.
///
/// Takes O(length) time, and 32 bytes of memory a call.
#[tactic(auto, unfolding(crate::specs::Script::script_of))]
pub fn read_script(alloc: Global, bytes: &[u8]) -> Result<Script, ScriptError>
    ensures exact { ReadsAsScript bytes.now result }
    ensures within { IfOk result (λ s. All (FitsIn s.senders s.boxes) s.calls) }
    ensures sizes { IfOk result (λ s. (s.boxes ≤ most_boxes) × (s.senders ≤ most_boxes) × (s.nodes ≤ most_nodes)) }
{
    let Some((word, rest)) = next_token(bytes) else {
        return Err(ScriptError::Cut { tokens: 0 });
    };
    let _ = open_script(command_of(word))?;
    let (boxes, rest) = count_of(rest, 1, 1, MOST_SCRIPT_BOXES)?;
    let (senders, rest) = count_of(rest, 2, 1, MOST_SCRIPT_BOXES)?;
    let (nodes, rest) = count_of(rest, 3, 0, MOST_SCRIPT_NODES)?;
    let (most, rest) = operand_of(rest, 4, 0, MOST_SCRIPT_POSTS)?;
    let calls = calls_of(alloc, boxes, senders, rest)?;
    Ok(Script {
        boxes,
        senders,
        nodes,
        most: most as u64,
        calls: Calls::new(calls),
    })
}
