//! What holds of rooms, whatever they are called for.
ghost use Rattle.std.specs.Prelude.{◌≢◌, ℕ, List};
ghost use denote.Param.Send.{IsSend};
ghost use Rattle.mps_embed.specs.Crossing.{file_room};
ghost use Rattle.mps_embed.specs.Embedded.{EmbeddedState, IsAnswered, IsNewRoomOf, IsOnlyTold};
ghost use Rattle.mps_embed.specs.Faithful.{HasNoMismatch};
ghost use Rattle.mps_embed.specs.Kept.{IsKeptRoomOf};
ghost use Rattle.mps_fidelity.specs.Fidelity.{mismatch};
ghost use Rattle.mps_line.specs.declared.write_replies.Reply.{Reply};
ghost use Rattle.mps_line.specs.declared.write_replies.Reply.TheVariants.{Answer as Answered};
ghost use Rattle.mps_local.specs.declared.merging.Merging.{Merging};

/// A law: a room that may have a file may go to another thread. The body is empty: the bound of the clause is checked.
pub fn rooms_may_cross_threads()
    ensures room { IsSend file_room }
{}

/// A law: no line is answered `refused mismatch` in a room of a protocol's text, be it new or one that a file keeps, after
/// whatever lines; nor is it by the call of a role that the room doesn't have.
pub fn no_line_is_a_mismatch()
    ensures new { (merging : Merging) (text : List ℕ) (e : EmbeddedState)
        → IsNewRoomOf merging text e → HasNoMismatch e }
    ensures kept { (merging : Merging) (text : List ℕ) (e : EmbeddedState)
        → IsKeptRoomOf merging text e → HasNoMismatch e }
    ensures answered { (before : EmbeddedState) (role : ℕ) (line : List ℕ) (after : EmbeddedState)
        → HasNoMismatch before → IsAnswered before role line after → after.reply ≢ Answered mismatch }
    ensures still { (before : EmbeddedState) (role : ℕ) (line : List ℕ) (after : EmbeddedState)
        → HasNoMismatch before → IsAnswered before role line after → HasNoMismatch after }
    ensures told { (reply : Reply) (before after : EmbeddedState)
        → HasNoMismatch before → IsOnlyTold reply before after → HasNoMismatch after }
{}
