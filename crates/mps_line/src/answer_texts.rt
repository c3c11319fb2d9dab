//! The law that each answer has a text. A local such as `_number` reads what its proof needs to know: that a number is
//! in its range, or that bytes are a name's or a text's.
ghost use Rattle.std.specs.Prelude.{ℕ, ◌<◌, ◌^◌, List, IsTrue};
ghost use Rattle.std.specs.List.{AllByRecursion};
ghost use Rattle.mps_base.specs.declared.value.Value.TheVariants as values;
ghost use Rattle.mps_command.specs.declared.answer.Answer.TheVariants.{Refused};
ghost use Rattle.mps_line.specs.Replies.{SpellsReply, answer_tokens, done_tokens, message_token};
ghost use Rattle.mps_line.specs.Private.Spellable.{AreSpellable, IsSpellable};
ghost use Rattle.mps_line.specs.Tokens.{Worth};
ghost use Rattle.mps_line.specs.declared.write_replies.Reply.TheVariants.{Answer as Answered, Joined};

use mps_base::{Message, Name, StepId, Value};
use mps_command::{Answer, Done, Refusal};

/// Whether the answer can be written as a line: always. A caller asks it for the clause `text`, also when out of
/// memory, where no line can be made to show it. It does not allocate.
pub fn answer_has_text(answer: &Answer) -> bool
    ensures always { IsTrue result }
    ensures text { (text : List ℕ) × SpellsReply text (Answered answer.now) }
{
    // for the proof alone
    answer_is_spellable(answer);
    true
}

// Whether the reply `joined` for this session and name can be written as a line: always. It does not allocate.
pub(crate) fn pass_has_text(session: u64, name: &Name) -> bool
    ensures always { IsTrue result }
    ensures text { (text : List ℕ) × SpellsReply text (Joined session name.now) }
{
    // looked at for the proof alone: the bytes are a name's, the number is below 2^64
    let _name = name.as_bytes();
    let _session = session;
    true
}

// A law: the parts of each answer have spellings. Nothing is done when run; the arms show the proof the ranges of their
// parts.
fn answer_is_spellable(answer: &Answer)
    ensures { AreSpellable (answer_tokens answer.now) }
{
    match answer {
        Answer::Done(done) => done_is_spellable(done),
        Answer::Undone(ids) => ids_are_small(ids.as_slice()),
        Answer::News { length, ids } => {
            count_is_small(*length);
            ids_are_small(ids.as_slice());
        }
        Answer::Shown(text) => {
            // looked at for the proof alone: they are a shown text's
            let _bytes = text.as_bytes();
        }
        Answer::Refused(refusal) => refusal_is_spellable(refusal),
    }
}

// A law: a step's number and the message that it took have spellings. Nothing is done when run.
fn done_is_spellable(done: &Done)
    ensures { AreSpellable (done_tokens done.now.id done.now.got) }
{
    // looked at for the proof alone: it is below 2^64
    let _number = done.id.number();
    match &done.got {
        Some(message) => message_is_spellable(message),
        None => {}
    }
}

// A law: each message, a value or a label, has a spelling. Nothing is done when run.
fn message_is_spellable(message: &Message)
    ensures { IsSpellable (message_token message.now) }
{
    match message {
        Message::Value(value) => value_is_spellable(value),
        Message::Label(label) => {
            // looked at for the proof alone: they are a name's
            let _bytes = label.as_bytes();
        }
    }
}

// A law: each value has a spelling. Nothing is done when run.
#[tactic(auto, using(crate::proofs::Spellings::text))]
fn value_is_spellable(value: &Value)
    ensures { IsSpellable (Worth value.now) }
{
    match value {
        Value::Int(number) => int_is_spellable(*number),
        Value::Bool(_) => {}
        Value::Text(text) => {
            // looked at for the proof alone: they are a text's
            let _bytes = text.as_bytes();
        }
    }
}

// A law: each integer of 64 bits has a spelling. Nothing is done when run.
#[tactic(auto, using(crate::proofs::Spellings::int))]
fn int_is_spellable(number: i64)
    ensures { IsSpellable (Worth (values.Int number)) }
{
    // looked at for the proof alone: it is in range
    let _number = number;
}

// A law: the parts of each refusal have spellings. Nothing is done when run; the numbers are looked at for the proof
// alone.
fn refusal_is_spellable(refusal: &Refusal)
    ensures { AreSpellable (answer_tokens (Refused refusal.now)) }
{
    match refusal {
        Refusal::Final { by } => {
            let _number = by.number();
        }
        Refusal::Needed { by } => {
            let _number = by.number();
        }
        _ => {}
    }
}

// A law: a count is below 2^64, which the proof learns from the type. Nothing is done when run.
fn count_is_small(count: u64)
    ensures { count < 2 ^ 64 }
{
    // looked at for the proof alone
    let _count = count;
}

// A law: the number of each step is below 2^64. When run it reads each number, O(numbers), and keeps nothing.
fn ids_are_small(ids: &[StepId])
    ensures { AllByRecursion (λ n. n < 2 ^ 64) ids.now }
{
    for id in ids {
        // looked at for the proof alone
        let _number = id.number();
    }
}
