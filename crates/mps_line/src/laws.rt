//! Laws of the lines' spellings.
ghost use Rattle.std.specs.Prelude.{◌≡◌, ◌≢◌, ◌↔◌, ℕ, ◌<◌, IsTrue, List, None, Option, length};
ghost use Rattle.std.specs.List.{AllByRecursion};
ghost use Rattle.mps_base.specs.RoleLists.{AreDistinct};
ghost use Rattle.mps_base.specs.Values.{IsShown};
ghost use Rattle.mps_command.specs.declared.command.Command.{Command};
ghost use Rattle.mps_line.specs.declared.write_replies.Reply.{Reply};
ghost use Rattle.mps_line.specs.Codes.{code_of, is_refusal};
ghost use Rattle.mps_line.specs.Commands.{SpellsCommand, SpellsScriptLine, SpellsNumbered, NamesRolesOf};
ghost use Rattle.mps_line.specs.JournalLines.{SpellsJournalLine};
ghost use Rattle.mps_line.specs.Replies.{SpellsReply};

use mps_base::spelling::one_spelling;

/// A law: bytes spell at most one command, where no two roles have one name, and each command has one spelling, with no
/// line break in it. It names no role but these. So reading and writing are inverse.
pub fn one_command()
    ensures command { (names : List (List ℕ)) (a : List ℕ) (c d : Command) → AreDistinct names
        → SpellsCommand names a c → SpellsCommand names a d → c ≡ d }
    ensures spelling { (names : List (List ℕ)) (a b : List ℕ) (c : Command)
        → SpellsCommand names a c → SpellsCommand names b c → a ≡ b }
    ensures known { (names : List (List ℕ)) (a : List ℕ) (c : Command)
        → SpellsCommand names a c → NamesRolesOf names c }
    ensures shown { (names : List (List ℕ)) (a : List ℕ) (c : Command)
        → SpellsCommand names a c → AllByRecursion IsShown a }
{
    // for the proof alone
    one_spelling();
}

/// A law: a script's line has at most one role and one command, where no two roles have one name, and these have one
/// line, with no line break in it. So reading and writing are inverse.
pub fn one_script_line()
    ensures role { (names : List (List ℕ)) (a : List ℕ) (p q : ℕ) (c d : Command)
        → AreDistinct names → SpellsScriptLine names a p c → SpellsScriptLine names a q d → p ≡ q }
    ensures command { (names : List (List ℕ)) (a : List ℕ) (p q : ℕ) (c d : Command)
        → AreDistinct names → SpellsScriptLine names a p c → SpellsScriptLine names a q d → c ≡ d }
    ensures spelling { (names : List (List ℕ)) (a b : List ℕ) (p : ℕ) (c : Command)
        → SpellsScriptLine names a p c → SpellsScriptLine names b p c → a ≡ b }
    ensures shown { (names : List (List ℕ)) (a : List ℕ) (p : ℕ) (c : Command)
        → SpellsScriptLine names a p c → AllByRecursion IsShown a }
{
    // for the proof alone
    one_spelling();
}

/// A law: a conversation's line has at most one number, and one command where no two roles have one name; these have
/// one line, with no line break in it. The command names no role but these.
pub fn one_numbered()
    ensures number { (names : List (List ℕ)) (a : List ℕ) (m n : Option ℕ) (c d : Command)
        → SpellsNumbered names a m c → SpellsNumbered names a n d → m ≡ n }
    ensures command { (names : List (List ℕ)) (a : List ℕ) (m n : Option ℕ) (c d : Command)
        → AreDistinct names → SpellsNumbered names a m c → SpellsNumbered names a n d → c ≡ d }
    ensures spelling { (names : List (List ℕ)) (a b : List ℕ) (n : Option ℕ) (c : Command)
        → SpellsNumbered names a n c → SpellsNumbered names b n c → a ≡ b }
    ensures known { (names : List (List ℕ)) (a : List ℕ) (n : Option ℕ) (c : Command)
        → SpellsNumbered names a n c → NamesRolesOf names c }
    ensures shown { (names : List (List ℕ)) (a : List ℕ) (n : Option ℕ) (c : Command)
        → SpellsNumbered names a n c → AllByRecursion IsShown a }
{
    // for the proof alone
    one_spelling();
}

/// A law: each reply has at most one text, on one line and not empty, and a text is at most one reply's. It begins with
/// `r` exactly where the reply has a code other than 0, so a client tells refusals by one byte.
pub fn one_reply_line()
    ensures spelling { (a b : List ℕ) (r : Reply) → SpellsReply a r → SpellsReply b r → a ≡ b }
    ensures reply { (a : List ℕ) (r s : Reply) → SpellsReply a r → SpellsReply a s → r ≡ s }
    ensures some { (a : List ℕ) (r : Reply) → SpellsReply a r → 0 < length a }
    ensures shown { (a : List ℕ) (r : Reply) → SpellsReply a r → AllByRecursion IsShown a }
    ensures no_line_feed { (a : List ℕ) (r : Reply) → SpellsReply a r
        → AllByRecursion (λ c. c ≢ 10) a }
    ensures refusal { (a : List ℕ) (r : Reply) → SpellsReply a r → IsTrue (is_refusal a) ↔ code_of r ≢ 0 }
{
    // for the proof alone
    one_spelling();
}

/// A law: a journal's line has at most one role, one number and one command, where no two roles have one name, and
/// these have one line, with no line break in it. One without a number is a script's line, so a journal file can be run
/// as a script.
pub fn one_journal_line()
    ensures role { (names : List (List ℕ)) (a : List ℕ) (p q : ℕ) (m n : Option ℕ) (c d : Command) → AreDistinct names
        → SpellsJournalLine names a p m c → SpellsJournalLine names a q n d → p ≡ q }
    ensures number { (names : List (List ℕ)) (a : List ℕ) (p q : ℕ) (m n : Option ℕ) (c d : Command)
        → SpellsJournalLine names a p m c → SpellsJournalLine names a q n d → m ≡ n }
    ensures command { (names : List (List ℕ)) (a : List ℕ) (p q : ℕ) (m n : Option ℕ) (c d : Command)
        → AreDistinct names
        → SpellsJournalLine names a p m c → SpellsJournalLine names a q n d → c ≡ d }
    ensures spelling { (names : List (List ℕ)) (a b : List ℕ) (p : ℕ) (n : Option ℕ) (c : Command)
        → SpellsJournalLine names a p n c → SpellsJournalLine names b p n c → a ≡ b }
    ensures no_line_feed { (names : List (List ℕ)) (a : List ℕ) (p : ℕ) (n : Option ℕ) (c : Command)
        → SpellsJournalLine names a p n c → AllByRecursion (λ c. c ≢ 10) a }
    ensures script { (names : List (List ℕ)) (a : List ℕ) (p : ℕ) (c : Command)
        → SpellsJournalLine names a p None c → SpellsScriptLine names a p c }
{
    // for the proof alone
    one_numbered();
}
