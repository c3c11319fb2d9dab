//! Tokens, one at a time.
ghost use Rattle.std.specs.Prelude.{◌≡◌, ◌≤◌, true, false, length, MatchOption};
ghost use Rattle.std.specs.List.{list_all};
ghost use Rattle.mps_base.specs.Names.{is_lower, is_upper, is_name_byte, is_variable_byte};
ghost use Rattle.mps_text.specs.Tokens.{first_is, is_blank, is_word_byte};
ghost use Rattle.mps_text.specs.Private.Lexing.{is_small_word, is_capital_word, is_word};
ghost use Rattle.mps_text.specs.Private.Lexing.{Gives, unblanked, is_punctuation_byte, run_len, word_len, token_len};
ghost use Rattle.mps_text.specs.Private.Lexing.{lexeme_of, lexeme_at, plain_lexeme, is_name, is_variable};
ghost use Rattle.mps_text.specs.Private.Reading.{Takes};
ghost use Rattle.mps_text.specs.declared.lexing.Halt.TheVariants.{Memory};

use crate::fault::TextKind;
use mps_base::name::MAX_NAME;
use mps_base::{Name, VarName};
use std::alloc::{AllocError, AllocFailed};

/// Why reading stopped: because memory ran out, or at a fault with so many bytes left from it on.
#[derive(Clone, Copy, Debug)]
pub(crate) enum Halt {
    Memory,
    At(usize, TextKind),
}

impl From<AllocError> for Halt {
    ghost from_gives = { λ _ e. e ≡ Memory };

    // Lets `?` turn a failed allocation into `Memory`.
    fn from(_e: AllocError) -> Halt {
        Halt::Memory
    }
}

impl<T: Drop> From<AllocFailed<T>> for Halt {
    ghost from_gives = { λ _ e. e ≡ Memory };

    // Lets `?` turn a failed allocation into `Memory`; what the allocation gives back is dropped.
    fn from(_e: AllocFailed<T>) -> Halt {
        Halt::Memory
    }
}

/// A token, how many bytes are left from its first one on, and those after it.
#[derive(Clone, Copy, Debug)]
pub(crate) struct Lexeme<'a> {
    pub(crate) token: &'a [u8],
    pub(crate) left: usize,
    pub(crate) rest: &'a [u8],
}

impl Lexeme<'_> {
    /// The fault of that kind at this token. Faults are told by the bytes left, so that no function needs the whole
    /// text.
    pub(crate) fn fault(&self, kind: TextKind) -> Halt
        ensures { result ≡ Halt.At self.now.left kind }
    {
        Halt::At(self.left, kind)
    }
}

/// The bytes that aren't read yet, and how many more nodes may begin there.
#[derive(Debug, Drop)]
pub(crate) struct Cursor<'a> {
    pub(crate) rest: &'a [u8],
    pub(crate) nodes: usize,
}

/// Takes the next token and moves the cursor past it. Where no token comes next it is a fault, and the cursor stays.
pub(crate) fn take<'a>(cursor: &mut Cursor<'a>) -> Result<Lexeme<'a>, Halt>
    ensures next { Takes result cursor.old cursor.new }
    ensures nodes { cursor.new.nodes ≡ cursor.old.nodes }
{
    let next = lexeme_at(cursor.rest)?;
    cursor.rest = next.rest;
    Ok(next)
}

/// The next token, after blanks, without moving a cursor, as for a token that may not be taken. The end of the text is
/// `Unexpected`, and what begins no token is a malformed `Word`. It does not allocate.
#[tactic(auto, unfolding(crate::specs::Private::Lexing::lexeme_at))]
pub(crate) fn lexeme_at(bytes: &[u8]) -> Result<Lexeme<'_>, Halt>
    ensures { Gives plain_lexeme result (lexeme_at bytes.now) }
{
    lexeme_of(unblanked(bytes))
}

// `lexeme_at` for bytes that begin with no blank, so that a fault's place is the token's first byte.
#[tactic(auto, unfolding(crate::specs::Private::Lexing::lexeme_of))]
fn lexeme_of(bytes: &[u8]) -> Result<Lexeme<'_>, Halt>
    ensures { Gives plain_lexeme result (lexeme_of bytes.now) }
{
    if bytes.is_empty() {
        return Err(Halt::At(0, TextKind::Unexpected));
    }
    let len = token_len(bytes);
    if len == 0 {
        return Err(Halt::At(bytes.len(), TextKind::Word));
    }
    let (token, rest) = bytes.split_at(len);
    Ok(Lexeme {
        token,
        left: bytes.len(),
        rest,
    })
}

/// The bytes without the blanks in front: spaces, tabs, CR and LF, in any number.
pub(crate) fn unblanked(bytes: &[u8]) -> &[u8]
    ensures { result.now ≡ unblanked bytes.now }
{
    let mut rest = bytes;
    while let [first, after @ ..] = rest {
        if !is_blank(*first) {
            return rest;
        }
        rest = after;
    }
    rest
}

// Whether the byte separates tokens and is none: a space, a tab, CR or LF. There are no comments in protocol texts.
fn is_blank(byte: u8) -> bool
    ensures { result ≡ is_blank byte }
{
    byte == b' ' || byte == b'\t' || byte == b'\n' || byte == b'\r'
}

// The length in bytes of the token in front, or 0 where none stands there: `->`, one mark of punctuation, or a word.
#[tactic(auto, unfolding(crate::specs::Private::Lexing::token_len))]
fn token_len(bytes: &[u8]) -> usize
    ensures len { result ≡ token_len bytes.now }
    ensures within { result ≤ length bytes.now }
{
    if bytes.starts_with(b"->") {
        return 2;
    }
    match bytes {
        [first, ..] if is_punctuation(*first) => 1,
        _ => word_len(bytes),
    }
}

// Whether the byte is a token by itself, whatever comes after it: one of `: ; . , { }`.
fn is_punctuation(byte: u8) -> bool
    ensures { result ≡ is_punctuation_byte byte }
{
    byte == b':' || byte == b';' || byte == b'.' || byte == b',' || byte == b'{' || byte == b'}'
}

// The length in bytes of the word in front, or 0 where none is well-formed. The longest run counts, so a word that goes
// on too long, or mixes both cases, is no word.
#[tactic(auto, unfolding(crate::specs::Private::Lexing::word_len))]
fn word_len(bytes: &[u8]) -> usize
    ensures len { result ≡ word_len bytes.now }
    ensures within { result ≤ length bytes.now }
{
    let len = run_len(bytes);
    if is_word(&bytes[..len]) { len } else { 0 }
}

// How many bytes in front may stand in words: letters, digits and `_`, up to the first other byte.
fn run_len(bytes: &[u8]) -> usize
    ensures len { result ≡ run_len bytes.now }
    ensures within { result ≤ length bytes.now }
{
    let mut len = 0;
    for byte in bytes {
        if !is_word_byte(*byte) {
            return len;
        }
        len += 1;
    }
    len
}

// Whether the byte is a letter, a digit or `_`: what may stand somewhere in a word.
fn is_word_byte(byte: u8) -> bool
    ensures { result ≡ is_word_byte byte }
{
    byte.is_ascii_lowercase() || byte.is_ascii_digit() || byte == b'_' || byte.is_ascii_uppercase()
}

// Whether the bytes are a well-formed word: at most 32, in the form of a name or of a variable. Reserved words are
// words too; the parser tells them apart.
fn is_word(bytes: &[u8]) -> bool
    ensures { result ≡ is_word bytes.now }
{
    bytes.len() <= MAX_NAME && (is_small_word(bytes) || is_capital_word(bytes))
}

// Whether the bytes are small letters, digits and `_`, the first a letter: the form of names and reserved words.
fn is_small_word(bytes: &[u8]) -> bool
    ensures { result ≡ is_small_word bytes.now }
{
    begins_small(bytes) && are_name_bytes(bytes)
}

// Whether the first byte is a small letter; false for no bytes. Apart, as the definition of a small word has it.
fn begins_small(bytes: &[u8]) -> bool
    ensures { result ≡ first_is is_lower bytes.now }
{
    match bytes {
        [] => false,
        [first, ..] => first.is_ascii_lowercase(),
    }
}

// Whether each byte is a small letter, a digit or `_`; true for no bytes.
fn are_name_bytes(bytes: &[u8]) -> bool
    ensures { result ≡ list_all is_name_byte bytes.now }
{
    bytes.iter().all(|byte| byte.is_ascii_lowercase() || byte.is_ascii_digit() || *byte == b'_')
}

// Whether the bytes are capital letters, digits and `_`, the first a letter: the form of variables.
fn is_capital_word(bytes: &[u8]) -> bool
    ensures { result ≡ is_capital_word bytes.now }
{
    begins_capital(bytes) && are_variable_bytes(bytes)
}

// Whether the first byte is a capital letter; false for no bytes. Apart, as the definition of a capital word has it.
fn begins_capital(bytes: &[u8]) -> bool
    ensures { result ≡ first_is is_upper bytes.now }
{
    match bytes {
        [] => false,
        [first, ..] => first.is_ascii_uppercase(),
    }
}

// Whether each byte is a capital letter, a digit or `_`; true for no bytes.
fn are_variable_bytes(bytes: &[u8]) -> bool
    ensures { result ≡ list_all is_variable_byte bytes.now }
{
    bytes.iter().all(|byte| byte.is_ascii_uppercase() || byte.is_ascii_digit() || *byte == b'_')
}

/// The name that the bytes spell, or `None`, as for a reserved word: `Name::read` with a contract in terms of tokens,
/// by which the proofs of texts go.
pub(crate) fn name_of(bytes: &[u8]) -> Option<Name>
    ensures { MatchOption result (is_name bytes.now ≡ false)
        (λ name. (is_name bytes.now ≡ true) × (name ≡ bytes.now)) }
{
    Name::read(bytes)
}

/// The variable that the bytes spell, or `None`: `VarName::read` with a contract in terms of tokens, by which the
/// proofs of texts go.
pub(crate) fn variable_of(bytes: &[u8]) -> Option<VarName>
    ensures { MatchOption result (is_variable bytes.now ≡ false)
        (λ name. (is_variable bytes.now ≡ true) × (name ≡ bytes.now)) }
{
    VarName::read(bytes)
}
