//! The lines that answer others.
ghost use Rattle.std.specs.Prelude.{◌≡◌, ℕ, List, [], ◌∷◌, ◌++◌, map, IsTrue, IfOk, OnOk, OnErr};
ghost use Rattle.std.specs.Io.{StartsWith};
ghost use Rattle.mps_base.specs.Appends.{AppendsSuch};
ghost use Rattle.mps_command.specs.declared.answer.Answer.TheVariants.{Refused};
ghost use Rattle.mps_command.specs.declared.answer.Refusal.TheVariants.{Violation as Violates};
ghost use Rattle.mps_line.specs.Tokens.{Token, Number, SpellsToken, SpellsLine};
ghost use Rattle.mps_line.specs.Replies.{SpellsReply, message_token, done_tokens, undone_tokens, news_tokens};
ghost use Rattle.mps_line.specs.declared.write_replies.Reply.TheVariants.{Answer as Answered, BadLine, Joined};
ghost use Rattle.mps_line.specs.Codes.{code_of, refusal_code, violation_code};

use crate::answer_texts::{answer_has_text, pass_has_text};
use crate::line_parts::{write_count, write_name, write_step};
use mps_base::{Message, Name, StepId};
use mps_command::{Answer, Done, Refusal, Violation};
use std::alloc::{AllocError, Global};

/// The reply to a line.
#[derive(Debug, Drop)]
pub enum Reply {
    /// The answer to the command that the line spells.
    Answer(Answer),
    /// The line is unreadable: it spells nothing that may come there.
    BadLine,
    /// The connection acts for the role of that name in that session from now on.
    Joined { session: u64, name: Name },
    /// No session has that number.
    NoSession,
    /// The session has no role of that name.
    NoRole,
    /// Another connection acts for the role.
    Taken,
    /// The number of the line is neither that of the last accepted one nor the one after it.
    Number,
    /// As many sessions are open as may be.
    Busy,
    /// The session's file can't be used.
    Unkept,
    /// Another server has the session.
    Elsewhere,
}

impl Reply {
    /// The code of a refusal, 1 to 22, for clients that have no words; 0 for any other reply. The codes are those of
    /// docs/FORMATS.md.
    pub fn code(&self) -> u8
        ensures { result ≡ code_of self.now }
    {
        match self {
            Reply::Answer(Answer::Refused(refusal)) => refusal_code(refusal),
            Reply::BadLine => 14,
            Reply::NoSession => 15,
            Reply::NoRole => 16,
            Reply::Taken => 17,
            Reply::Number => 19,
            Reply::Busy => 20,
            Reply::Unkept => 21,
            Reply::Elsewhere => 22,
            Reply::Answer(_) | Reply::Joined { .. } => 0,
        }
    }

    /// Whether the reply can be written as a line: always, and as just one (`one_reply_line`). A caller asks it for the
    /// clause `text`, also when out of memory. It does not allocate.
    pub fn has_text(&self) -> bool
        ensures always { IsTrue result }
        ensures text { (text : List ℕ) × SpellsReply text self.now }
    {
        match self {
            Reply::Answer(answer) => answer_has_text(answer),
            Reply::BadLine => true,
            Reply::Joined { session, name } => pass_has_text(*session, name),
            Reply::NoSession => true,
            Reply::NoRole => true,
            Reply::Taken => true,
            Reply::Number => true,
            Reply::Busy => true,
            Reply::Unkept => true,
            Reply::Elsewhere => true,
        }
    }

    /// Appends the reply's line to `out`, without a line break. Out of memory is the only error, and leaves `out`
    /// unchanged.
    pub fn write(&self, out: &mut Vec<u8>) -> Result<(), AllocError>
        ensures ok { OnOk result
            (AppendsSuch (λ text. SpellsReply text self.now) out.old.items out.new.items) }
        ensures err { OnErr result (out.new.items ≡ out.old.items) }
    {
        let before = out.len();
        let written = self.write_parts(out);
        if written.is_err() {
            out.truncate(before);
        }
        written
    }

    // `write` without the clean-up: when out of memory a part may stand in `out`, which `write` truncates. Apart, so
    // that its clause `err` says of all replies at once what `write` truncates.
    fn write_parts(&self, out: &mut Vec<u8>) -> Result<(), AllocError>
        ensures ok { OnOk result
            (AppendsSuch (λ text. SpellsReply text self.now) out.old.items out.new.items) }
        ensures err { OnErr result (StartsWith out.new.items out.old.items) }
    {
        match self {
            Reply::Answer(answer) => append_answer(answer, out),
            Reply::BadLine => write_bad_line(out),
            Reply::Joined { session, name } => write_joined(*session, name, out),
            Reply::NoSession => out.extend_from_slice(b"refused nosession"),
            Reply::NoRole => out.extend_from_slice(b"refused norole"),
            Reply::Taken => out.extend_from_slice(b"refused taken"),
            Reply::Number => out.extend_from_slice(b"refused number"),
            Reply::Busy => out.extend_from_slice(b"refused busy"),
            Reply::Unkept => out.extend_from_slice(b"refused journal"),
            Reply::Elsewhere => out.extend_from_slice(b"refused elsewhere"),
        }
    }
}

/// Appends `refused line`, the reply to an unreadable line, without a line break. Out of memory is the only error, and
/// leaves `out` unchanged.
pub fn write_bad_line(out: &mut Vec<u8>) -> Result<(), AllocError>
    ensures ok { OnOk result
        (AppendsSuch (λ text. SpellsReply text BadLine) out.old.items out.new.items) }
    ensures err { OnErr result (out.new.items ≡ out.old.items) }
{
    out.extend_from_slice(b"refused line")
}

// Appends `joined`, the session's number and the role's name. When out of memory a part may stand in `out`; the caller
// truncates it.
fn write_joined(session: u64, name: &Name, out: &mut Vec<u8>) -> Result<(), AllocError>
    ensures ok { OnOk result (AppendsSuch
        (λ text. SpellsReply text (Joined session name.now)) out.old.items out.new.items) }
    ensures err { OnErr result (StartsWith out.new.items out.old.items) }
{
    out.extend_from_slice(b"joined ")?;
    write_count(session, out)?;
    out.push(b' ')?;
    write_name(name, out)
}

/// The reply's line in a buffer of its own, without a line break. It fails only when out of memory.
pub fn write_answer(alloc: Global, reply: &Reply) -> Result<Vec<u8>, AllocError>
    ensures { IfOk result (λ line. SpellsReply line.items reply.now) }
{
    let mut line = Vec::new(alloc);
    reply.write(&mut line)?;
    Ok(line)
}

/// The line of the reply with this answer, in a buffer of its own, without a line break: for an answer that is kept and
/// only borrowed, of which `write_answer` would need a copy. It fails only when out of memory.
pub fn write_kept(alloc: Global, answer: &Answer) -> Result<Vec<u8>, AllocError>
    ensures { IfOk result (λ line. SpellsReply line.items (Answered answer.now)) }
{
    let mut line = Vec::new(alloc);
    append_answer(answer, &mut line)?;
    Ok(line)
}

/// Appends the line of the reply with this answer to `out`, without a line break. When out of memory a part may stand
/// in `out`, for the caller to truncate: so the usual path has no clean-up.
#[inline(always)]
pub fn append_answer(answer: &Answer, out: &mut Vec<u8>) -> Result<(), AllocError>
    ensures ok { OnOk result (AppendsSuch
        (λ text. SpellsReply text (Answered answer.now)) out.old.items out.new.items) }
    ensures err { OnErr result (StartsWith out.new.items out.old.items) }
{
    match answer {
        Answer::Done(done) => {
            out.extend_from_slice(b"done ")?;
            write_done(done, out)
        }
        Answer::Undone(ids) => write_undone(ids.as_slice(), out),
        Answer::News { length, ids } => write_news(*length, ids.as_slice(), out),
        Answer::Shown(text) => out.extend_from_slice(text.as_bytes()),
        Answer::Refused(refusal) => write_refused(refusal, out),
    }
}

/// Appends the line of a refused command to `out`, without a line break, as `append_answer` does. When out of memory a
/// part may stand in `out`.
pub fn write_refused(refusal: &Refusal, out: &mut Vec<u8>) -> Result<(), AllocError>
    ensures ok { OnOk result (AppendsSuch
        (λ text. SpellsReply text (Answered (Refused refusal.now))) out.old.items out.new.items) }
    ensures err { OnErr result (StartsWith out.new.items out.old.items) }
{
    match refusal {
        Refusal::Violation(violation) => write_violation(*violation, out),
        Refusal::NoStep => out.extend_from_slice(b"refused nostep"),
        Refusal::NotYours => out.extend_from_slice(b"refused notyours"),
        Refusal::Final { by } => {
            out.extend_from_slice(b"refused final ")?;
            write_step(*by, out)
        }
        Refusal::Needed { by } => {
            out.extend_from_slice(b"refused needed ")?;
            write_step(*by, out)
        }
        Refusal::NoMark => out.extend_from_slice(b"refused nomark"),
        Refusal::Full => out.extend_from_slice(b"refused full"),
        Refusal::Memory => out.extend_from_slice(b"refused memory"),
    }
}

// Appends `refused` and the violation's word. Out of memory is the only error, and leaves `out` unchanged.
fn write_violation(violation: Violation, out: &mut Vec<u8>) -> Result<(), AllocError>
    ensures ok { OnOk result (AppendsSuch
        (λ text. SpellsReply text (Answered (Refused (Violates violation)))) out.old.items out.new.items) }
    ensures err { OnErr result (out.new.items ≡ out.old.items) }
{
    match violation {
        Violation::Ended => out.extend_from_slice(b"refused ended"),
        Violation::WrongAct => out.extend_from_slice(b"refused wrongact"),
        Violation::WrongPeer => out.extend_from_slice(b"refused wrongpeer"),
        Violation::WrongSort => out.extend_from_slice(b"refused wrongsort"),
        Violation::NoLabel => out.extend_from_slice(b"refused nolabel"),
        Violation::NothingQueued => out.extend_from_slice(b"refused nothingqueued"),
        Violation::Mismatch => out.extend_from_slice(b"refused mismatch"),
    }
}

// Appends the arguments of `done`: the step's number, and the message that it took, if it took one. When out of memory a
// part may stand in `out`; the caller truncates it. Apart, since its contract is by tokens alone: the proof of
// `append_answer` puts the word in front once, with a message and without.
#[inline(always)]
fn write_done(done: &Done, out: &mut Vec<u8>) -> Result<(), AllocError>
    ensures ok { OnOk result (AppendsSuch
        (λ text. SpellsLine [] text (done_tokens done.now.id done.now.got))
        out.old.items out.new.items) }
    ensures err { OnErr result (StartsWith out.new.items out.old.items) }
{
    write_step(done.id, out)?;
    match &done.got {
        Some(message) => {
            out.push(b' ')?;
            write_message(message, out)
        }
        None => Ok(()),
    }
}

// Appends a message, a value or a label, as it is spelled. When out of memory a part may stand in `out`; the caller
// truncates it.
fn write_message(message: &Message, out: &mut Vec<u8>) -> Result<(), AllocError>
    ensures ok { OnOk result (AppendsSuch
        (λ text. SpellsToken [] text (message_token message.now)) out.old.items out.new.items) }
    ensures err { OnErr result (StartsWith out.new.items out.old.items) }
{
    match message {
        Message::Value(value) => value.write(out),
        Message::Label(label) => write_name(label, out),
    }
}

// Appends `undone` and the steps' numbers. When out of memory a part may stand in `out`; the caller truncates it.
fn write_undone(ids: &[StepId], out: &mut Vec<u8>) -> Result<(), AllocError>
    ensures ok { OnOk result (AppendsSuch
        (λ text. SpellsLine [] text (undone_tokens ids.now)) out.old.items out.new.items) }
    ensures err { OnErr result (StartsWith out.new.items out.old.items) }
{
    out.extend_from_slice(b"undone")?;
    write_ids(ids, out)
}

// Appends `news`, the journal's length and the steps' numbers. When out of memory a part may stand in `out`; the caller
// truncates it.
fn write_news(length: u64, ids: &[StepId], out: &mut Vec<u8>) -> Result<(), AllocError>
    ensures ok { OnOk result (AppendsSuch
        (λ text. SpellsLine [] text (news_tokens length ids.now)) out.old.items out.new.items) }
    ensures err { OnErr result (StartsWith out.new.items out.old.items) }
{
    out.extend_from_slice(b"news ")?;
    write_count(length, out)?;
    write_ids(ids, out)
}

// Appends the numbers of steps, each after a space. When out of memory a part may stand in `out`; the caller truncates
// it.
fn write_ids(ids: &[StepId], out: &mut Vec<u8>) -> Result<(), AllocError>
    ensures ok { OnOk result ((start : List ℕ) (first : Token) (others : List Token)
        → AppendsSuch (λ text. SpellsLine [] text (first ∷ others)) start out.old.items
        → AppendsSuch (λ text. SpellsLine [] text (first ∷ (others ++ map Number ids.now))) start out.new.items) }
    ensures err { OnErr result (StartsWith out.new.items out.old.items) }
{
    for id in ids {
        out.push(b' ')?;
        write_step(*id, out)?;
    }
    Ok(())
}

// The code of a command's refusal, 1 to 13 and 18, as docs/FORMATS.md lists them: new ones come at the end, so they
// aren't in order.
fn refusal_code(refusal: &Refusal) -> u8
    ensures { result ≡ refusal_code refusal.now }
{
    match refusal {
        Refusal::Violation(violation) => violation_code(*violation),
        Refusal::NoStep => 8,
        Refusal::NotYours => 9,
        Refusal::Final { .. } => 18,
        Refusal::Needed { .. } => 10,
        Refusal::NoMark => 11,
        Refusal::Full => 12,
        Refusal::Memory => 13,
    }
}

// The code of a violation, 1 to 7, as docs/FORMATS.md lists them, in the order of `Violation`.
fn violation_code(violation: Violation) -> u8
    ensures { result ≡ violation_code violation }
{
    match violation {
        Violation::Ended => 1,
        Violation::WrongAct => 2,
        Violation::WrongPeer => 3,
        Violation::WrongSort => 4,
        Violation::NoLabel => 5,
        Violation::NothingQueued => 6,
        Violation::Mismatch => 7,
    }
}
