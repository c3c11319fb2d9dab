//! How refusals are read.
ghost use Rattle.std.specs.Prelude.{◌≡◌, ◌≢◌, ◌<◌, [], ◌∷◌, length, IfOk, IfSome, IfNone, IsErrOf};
ghost use Rattle.mps_base.specs.Names.{IsNoneOf};
ghost use Rattle.mps_command.specs.declared.answer.Answer.TheVariants.{Refused};
ghost use Rattle.mps_command.specs.declared.answer.Refusal.{Refusal};
ghost use Rattle.mps_command.specs.declared.answer.Refusal.TheVariants.{Violation as Violates};
ghost use Rattle.mps_command.specs.declared.answer.Violation.{Violation};
ghost use Rattle.mps_line.specs.Replies.{SpellsReply, refusal_tokens, word_of};
ghost use Rattle.mps_line.specs.Private.Replies.{lone_words, opening_words, own_word, own_words};
ghost use Rattle.mps_line.specs.Tokens.{Word, SpellsLine};
ghost use Rattle.mps_line.specs.declared.write_replies.Reply.TheVariants.{Answer as Answered, BadLine, NoSession, NoRole, Taken};
ghost use Rattle.mps_line.specs.declared.write_replies.Reply.TheVariants.{Busy, Elsewhere, Number as WrongNumber, Unkept};

use crate::line_parts::{after_word, read_step};
use crate::read_commands::LineFault;
use crate::write_replies::Reply;
use mps_command::{Answer, Refusal, Violation};

// Reads all of the bytes as a reply that begins with `refused`: of a command, a line, a connection or a number; else
// `Bad`. It does not allocate, so it is never `Memory`.
#[tactic(auto, using(crate::proofs::ReplyLines::own_line))]
pub(crate) fn refused_reply(bytes: &[u8]) -> Result<Reply, LineFault>
    ensures read { IfOk result (SpellsReply bytes.now) }
    ensures refusal { IsErrOf result LineFault.Bad → (refusal : Refusal)
        → SpellsReply bytes.now (Answered (Refused refusal)) → ⊥ }
    ensures line { IsErrOf result LineFault.Bad → SpellsReply bytes.now BadLine → ⊥ }
    ensures session { IsErrOf result LineFault.Bad → SpellsReply bytes.now NoSession → ⊥ }
    ensures role { IsErrOf result LineFault.Bad → SpellsReply bytes.now NoRole → ⊥ }
    ensures pass { IsErrOf result LineFault.Bad → SpellsReply bytes.now Taken → ⊥ }
    ensures number { IsErrOf result LineFault.Bad → SpellsReply bytes.now WrongNumber → ⊥ }
    ensures busy { IsErrOf result LineFault.Bad → SpellsReply bytes.now Busy → ⊥ }
    ensures journal { IsErrOf result LineFault.Bad → SpellsReply bytes.now Unkept → ⊥ }
    ensures elsewhere { IsErrOf result LineFault.Bad → SpellsReply bytes.now Elsewhere → ⊥ }
    ensures memory { IsErrOf result LineFault.Memory → ⊥ }
{
    let Some(rest) = after_word(bytes, b"refused") else {
        return Err(LineFault::Bad);
    };
    if let Some(refusal) = read_refusal(rest) {
        return Ok(Reply::Answer(Answer::Refused(refusal)));
    }
    if let Some(reply) = own_reply(rest) {
        return Ok(reply);
    }
    match opening_reply(rest) {
        Some(reply) => Ok(reply),
        None => Err(LineFault::Bad),
    }
}

// The reply of that word after `refused` that is no command's refusal: of a line, a session, a role, a connection or a
// number; else `None`.
fn own_reply(word: &[u8]) -> Option<Reply>
    ensures read { IfSome result (λ reply. word.now ≡ own_word reply) }
    ensures some { IfSome result (λ reply. 0 < length (own_word reply)) }
    ensures none { IfNone result (IsNoneOf own_words word.now) }
{
    match word {
        b"line" => Some(Reply::BadLine),
        b"nosession" => Some(Reply::NoSession),
        b"norole" => Some(Reply::NoRole),
        b"taken" => Some(Reply::Taken),
        b"number" => Some(Reply::Number),
        _ => None,
    }
}

// The reply of that word after `refused` that says why a session isn't opened; else `None`. Apart from `own_reply`, since the
// search for a proof tries each path through a match of words.
fn opening_reply(word: &[u8]) -> Option<Reply>
    ensures read { IfSome result (λ reply. word.now ≡ own_word reply) }
    ensures some { IfSome result (λ reply. 0 < length (own_word reply)) }
    ensures none { IfNone result (IsNoneOf opening_words word.now) }
{
    match word {
        b"busy" => Some(Reply::Busy),
        b"journal" => Some(Reply::Unkept),
        b"elsewhere" => Some(Reply::Elsewhere),
        _ => None,
    }
}

// Reads all of the bytes as why a command is refused: its word, and after `final` or `needed` a step's number; else
// `None`.
fn read_refusal(bytes: &[u8]) -> Option<Refusal>
    ensures read { IfSome result (λ refusal. SpellsLine [] bytes.now (refusal_tokens refusal)) }
    ensures none { IfNone result ((refusal : Refusal)
        → SpellsLine [] bytes.now (refusal_tokens refusal) → ⊥) }
{
    if let Some(number) = after_word(bytes, b"needed") {
        return match read_step(number) {
            Some(by) => Some(Refusal::Needed { by }),
            None => None,
        };
    }
    if let Some(number) = after_word(bytes, b"final") {
        return match read_step(number) {
            Some(by) => Some(Refusal::Final { by }),
            None => None,
        };
    }
    match read_violation(bytes) {
        Some(violation) => Some(Refusal::Violation(violation)),
        None => lone_refusal(bytes),
    }
}

// The refusal of that word, where it is no violation and no step's number follows it; else `None`.
fn lone_refusal(word: &[u8]) -> Option<Refusal>
    ensures read { IfSome result (λ refusal. word.now ≡ word_of refusal) }
    ensures alone { IfSome result (λ refusal. refusal_tokens refusal ≡ Word (word_of refusal) ∷ []) }
    ensures none { IfNone result (IsNoneOf lone_words word.now) }
{
    match word {
        b"nostep" => Some(Refusal::NoStep),
        b"notyours" => Some(Refusal::NotYours),
        b"nomark" => Some(Refusal::NoMark),
        b"full" => Some(Refusal::Full),
        b"memory" => Some(Refusal::Memory),
        _ => None,
    }
}

// The violation of that word, or `None`: the inverse of `write_violation`.
fn read_violation(word: &[u8]) -> Option<Violation>
    ensures read { IfSome result (λ violation. word.now ≡ word_of (Violates violation)) }
    ensures none { IfNone result ((violation : Violation)
        → word.now ≢ word_of (Violates violation)) }
{
    match word {
        b"ended" => Some(Violation::Ended),
        b"wrongact" => Some(Violation::WrongAct),
        b"wrongpeer" => Some(Violation::WrongPeer),
        b"wrongsort" => Some(Violation::WrongSort),
        b"nolabel" => Some(Violation::NoLabel),
        b"nothingqueued" => Some(Violation::NothingQueued),
        b"mismatch" => Some(Violation::Mismatch),
        _ => None,
    }
}
