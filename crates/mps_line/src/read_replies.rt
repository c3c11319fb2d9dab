//! How replies are read, and the first line of a connection.
ghost use Rattle.std.specs.Prelude.{◌≡◌, ℕ, List, [], ◌∷◌, IfOk, IfSome, IfNone, IsErrOf, IsTrue, IsFalse, ◌↔◌};
ghost use Rattle.mps_base.specs.declared.action.Message.{Message};
ghost use Rattle.mps_base.specs.Values.{IsShown};
ghost use Rattle.mps_command.specs.Shown.{IsShownText};
ghost use Rattle.mps_command.specs.declared.answer.Answer.TheVariants.{Done as Accepted, Undone, News, Shown};
ghost use Rattle.mps_command.specs.declared.answer.Done.{Done};
ghost use Rattle.mps_line.specs.Replies.{SpellsJoin, SpellsReply, done_tokens, message_token};
ghost use Rattle.mps_line.specs.Private.Replies.{SpellsSteps};
ghost use Rattle.mps_line.specs.Tokens.{Called, Number, SpellsLine, SpellsToken};
ghost use Rattle.mps_line.specs.declared.write_replies.Reply.{Reply};
ghost use Rattle.mps_line.specs.declared.write_replies.Reply.TheVariants.{Answer as Answered, Joined};

use crate::line_parts::{after_word, read_count, read_step, split_at_space};
use crate::read_commands::LineFault;
use crate::read_refusals::refused_reply;
use crate::write_replies::Reply;
use mps_base::{Message, Name, StepId, Value, ValueFault};
use mps_command::{Answer, Done, ShownText, StepIds};
use std::alloc::Global;

/// Reads all of the bytes as a reply of any kind, without a line break, as a client does; the JSON of a shown session
/// isn't parsed. `Bad` for other bytes, also when out of memory; `Memory` only for lists of numbers, texts and shown
/// sessions. After an error nothing is kept.
pub fn read_answer(alloc: Global, bytes: &[u8]) -> Result<Reply, LineFault>
    ensures read { IfOk result (SpellsReply bytes.now) }
    ensures bad { IsErrOf result LineFault.Bad → (reply : Reply) → SpellsReply bytes.now reply → ⊥ }
    ensures memory { IsErrOf result LineFault.Memory → (reply : Reply) × SpellsReply bytes.now reply }
{
    match bytes {
        [b'd', ..] => done_reply(alloc, bytes),
        [b'u', ..] => undone_reply(alloc, bytes),
        [b'n', ..] => news_reply(alloc, bytes),
        [b'{', ..] => shown_reply(alloc, bytes),
        [b'j', ..] => joined_reply(bytes),
        [b'r', ..] => refused_reply(bytes),
        _ => Err(LineFault::Bad),
    }
}

/// Reads all of the bytes as the first line of a connection: `join`, a session's number below 2^64 and a role's name;
/// else `Bad`. It does not allocate, so it is never `Memory`.
pub fn read_join(bytes: &[u8]) -> Result<(u64, Name), LineFault>
    ensures read { IfOk result (λ r. SpellsJoin bytes.now r.0 r.1) }
    ensures bad { IsErrOf result LineFault.Bad → (session : ℕ) (name : List ℕ)
        → SpellsJoin bytes.now session name → ⊥ }
    ensures memory { IsErrOf result LineFault.Memory → ⊥ }
{
    let Some(rest) = after_word(bytes, b"join") else {
        return Err(LineFault::Bad);
    };
    match read_number_and_name(rest) {
        Some(pass) => Ok(pass),
        None => Err(LineFault::Bad),
    }
}

// Reads all of the bytes as a number, a space and a name, or `None`: what `join` and `joined` share.
fn read_number_and_name(bytes: &[u8]) -> Option<(u64, Name)>
    ensures read { IfSome result (λ r. SpellsLine [] bytes.now (Number r.0 ∷ Called r.1 ∷ [])) }
    ensures none { IfNone result ((n : ℕ) (name : List ℕ)
        → SpellsLine [] bytes.now (Number n ∷ Called name ∷ []) → ⊥) }
{
    let parts = split_at_space(bytes)?;
    let number = read_count(parts.0)?;
    let name = Name::read(parts.1)?;
    Some((number, name))
}

// Reads all of the bytes as `joined`, a session's number and a role's name; else `Bad`. It does not allocate, so it is
// never `Memory`.
fn joined_reply(bytes: &[u8]) -> Result<Reply, LineFault>
    ensures read { IfOk result (SpellsReply bytes.now) }
    ensures bad { IsErrOf result LineFault.Bad → (session : ℕ) (name : List ℕ)
        → SpellsReply bytes.now (Joined session name) → ⊥ }
    ensures memory { IsErrOf result LineFault.Memory → ⊥ }
{
    let Some(rest) = after_word(bytes, b"joined") else {
        return Err(LineFault::Bad);
    };
    let Some(pass) = read_number_and_name(rest) else {
        return Err(LineFault::Bad);
    };
    let (session, name) = pass;
    Ok(Reply::Joined { session, name })
}

// Reads all of the bytes as a shown session: printable ASCII that begins with `{`; else `Bad`. They are tested before
// they are copied, so `Memory` comes only for a shown session.
fn shown_reply(alloc: Global, bytes: &[u8]) -> Result<Reply, LineFault>
    ensures read { IfOk result (SpellsReply bytes.now) }
    ensures bad { IsErrOf result LineFault.Bad → (text : List ℕ)
        → SpellsReply bytes.now (Answered (Shown text)) → ⊥ }
    ensures memory { IsErrOf result LineFault.Memory → (reply : Reply) × SpellsReply bytes.now reply }
{
    if !is_shown_text(bytes) {
        return Err(LineFault::Bad);
    }
    match Vec::from_slice(alloc, bytes) {
        Ok(text) => Ok(Reply::Answer(Answer::Shown(ShownText::of(text)))),
        Err(_) => Err(LineFault::Memory),
    }
}

// Whether the bytes may be a shown session: they begin with `{` and are printable ASCII. That they are JSON isn't
// tested.
fn is_shown_text(bytes: &[u8]) -> bool
    ensures { IsTrue result ↔ IsShownText bytes.now }
{
    bytes.first() == Some(&b'{') && bytes.iter().all(|&byte| is_shown(byte))
}

// Whether the byte is printable ASCII, from the space to `~`, as each byte of a line is.
fn is_shown(byte: u8) -> bool
    ensures { IsTrue result ↔ IsShown byte }
{
    (b' '..=b'~').contains(&byte)
}

// Reads all of the bytes as `done`, a step's number, and the message that the step took, if it took one; else `Bad`.
// `Memory` only for a text.
fn done_reply(alloc: Global, bytes: &[u8]) -> Result<Reply, LineFault>
    ensures read { IfOk result (SpellsReply bytes.now) }
    ensures bad { IsErrOf result LineFault.Bad → (done : Done)
        → SpellsReply bytes.now (Answered (Accepted done)) → ⊥ }
    ensures memory { IsErrOf result LineFault.Memory → (reply : Reply) × SpellsReply bytes.now reply }
{
    let Some(rest) = after_word(bytes, b"done") else {
        return Err(LineFault::Bad);
    };
    let done = read_done(alloc, rest)?;
    Ok(Reply::Answer(Answer::Done(done)))
}

// The arguments of `done`: a step's number, and after a space the message, if there is a space; else `Bad`. `Memory`
// only for a text.
fn read_done(alloc: Global, bytes: &[u8]) -> Result<Done, LineFault>
    ensures read { IfOk result (λ done. SpellsLine [] bytes.now (done_tokens done.id done.got)) }
    ensures bad { IsErrOf result LineFault.Bad → (done : Done)
        → SpellsLine [] bytes.now (done_tokens done.id done.got) → ⊥ }
    ensures memory { IsErrOf result LineFault.Memory → (done : Done)
        × SpellsLine [] bytes.now (done_tokens done.id done.got) }
{
    let Some(parts) = split_at_space(bytes) else {
        return match read_step(bytes) {
            Some(id) => Ok(Done { id, got: None }),
            None => Err(LineFault::Bad),
        };
    };
    let Some(id) = read_step(parts.0) else {
        return Err(LineFault::Bad);
    };
    let message = read_message(alloc, parts.1)?;
    Ok(Done {
        id,
        got: Some(message),
    })
}

// Reads all of the bytes as a message; else `Bad`. No bytes spell both a label and a value, so the order of the tries
// doesn't matter. `Memory` only for a text.
fn read_message(alloc: Global, bytes: &[u8]) -> Result<Message, LineFault>
    ensures read { IfOk result (λ message. SpellsToken [] bytes.now (message_token message)) }
    ensures bad { IsErrOf result LineFault.Bad → (message : Message)
        → SpellsToken [] bytes.now (message_token message) → ⊥ }
    ensures memory { IsErrOf result LineFault.Memory → (message : Message)
        × SpellsToken [] bytes.now (message_token message) }
{
    if let Some(label) = Name::read(bytes) {
        return Ok(Message::Label(label));
    }
    match Value::read(alloc, bytes) {
        Ok(value) => Ok(Message::Value(value)),
        Err(ValueFault::Bad) => Err(LineFault::Bad),
        Err(ValueFault::Memory) => Err(LineFault::Memory),
    }
}

// Reads all of the bytes as `undone` and the numbers of steps, or of none; else `Bad`. `Memory` only where numbers
// follow.
fn undone_reply(alloc: Global, bytes: &[u8]) -> Result<Reply, LineFault>
    ensures read { IfOk result (SpellsReply bytes.now) }
    ensures bad { IsErrOf result LineFault.Bad → (ids : List ℕ)
        → SpellsReply bytes.now (Answered (Undone ids)) → ⊥ }
    ensures memory { IsErrOf result LineFault.Memory → (reply : Reply) × SpellsReply bytes.now reply }
{
    if bytes == b"undone".as_slice() {
        return Ok(Reply::Answer(Answer::Undone(StepIds::of(Vec::new(alloc)))));
    }
    let Some(rest) = after_word(bytes, b"undone") else {
        return Err(LineFault::Bad);
    };
    let ids = read_steps(alloc, rest)?;
    Ok(Reply::Answer(Answer::Undone(StepIds::of(ids))))
}

// Reads all of the bytes as `news`, the length of the journal, and the numbers of steps, or of none; else `Bad`.
// `Memory` only where numbers follow.
fn news_reply(alloc: Global, bytes: &[u8]) -> Result<Reply, LineFault>
    ensures read { IfOk result (SpellsReply bytes.now) }
    ensures bad { IsErrOf result LineFault.Bad → (n : ℕ) (ids : List ℕ)
        → SpellsReply bytes.now (Answered (News n ids)) → ⊥ }
    ensures memory { IsErrOf result LineFault.Memory → (reply : Reply) × SpellsReply bytes.now reply }
{
    let Some(rest) = after_word(bytes, b"news") else {
        return Err(LineFault::Bad);
    };
    let Some(parts) = split_at_space(rest) else {
        return match read_count(rest) {
            Some(length) => Ok(news_of(length, Vec::new(alloc))),
            None => Err(LineFault::Bad),
        };
    };
    let Some(length) = read_count(parts.0) else {
        return Err(LineFault::Bad);
    };
    let ids = read_steps(alloc, parts.1)?;
    Ok(news_of(length, ids))
}

// The reply `news` of this length and these numbers. Apart, since a line with numbers and one without both make it.
fn news_of(length: u64, ids: Vec<StepId>) -> Reply
    ensures { result ≡ Answered (News length ids.items) }
{
    Reply::Answer(Answer::News {
        length,
        ids: StepIds::of(ids),
    })
}

// Reads all of the bytes as numbers of steps, one at least, with a space between two; else `Bad`. All are tested before
// memory is asked for, so `Memory` comes only for such a list.
fn read_steps(alloc: Global, bytes: &[u8]) -> Result<Vec<StepId>, LineFault>
    ensures read { IfOk result (λ ids. SpellsSteps bytes.now ids.items) }
    ensures bad { IsErrOf result LineFault.Bad → (ids : List ℕ) → SpellsSteps bytes.now ids → ⊥ }
    ensures memory { IsErrOf result LineFault.Memory → (ids : List ℕ) × SpellsSteps bytes.now ids }
{
    if !are_steps(bytes) {
        return Err(LineFault::Bad);
    }
    let mut ids = Vec::new(alloc);
    let mut rest = bytes;
    while let Some(parts) = split_at_space(rest) {
        // read once more, so this never fails
        let Some(id) = read_step(parts.0) else {
            return Err(LineFault::Bad);
        };
        ids.push(id)?;
        rest = parts.1;
    }
    let Some(id) = read_step(rest) else {
        return Err(LineFault::Bad);
    };
    ids.push(id)?;
    Ok(ids)
}

// Whether the bytes are numbers of steps, one at least, with a space between two. It does not allocate: the test before
// `read_steps` asks for memory.
fn are_steps(bytes: &[u8]) -> bool
    ensures yes { IsTrue result → (ids : List ℕ) × SpellsSteps bytes.now ids }
    ensures no { IsFalse result → (ids : List ℕ) → SpellsSteps bytes.now ids → ⊥ }
{
    let mut rest = bytes;
    while let Some(parts) = split_at_space(rest) {
        if read_step(parts.0).is_none() {
            return false;
        }
        rest = parts.1;
    }
    read_step(rest).is_some()
}
