//! Whole numbers as text.
ghost use Rattle.std.specs.Prelude.{◌≡◌, ℕ, ◌<◌, ◌≤◌, ◌^◌, ℤ, List, length, IfSome, IfNone, OnOk, OnErr};
ghost use Rattle.std.specs.Str.Parse.{AllDigits, digits_value};
ghost use Rattle.mps_base.specs.Appends.{AppendsSuch};
ghost use Rattle.mps_base.specs.Numbers.{IsNumberText, IsIntText};

use itoa::Buffer;
use std::alloc::AllocError;

/// Reads all of the bytes as a number below 2^64: decimal digits, with no `0` in front of others. `None` for other
/// bytes, and for a larger number. It does not allocate; O(bytes).
pub fn read_number(bytes: &[u8]) -> Option<u64>
    ensures read { IfSome result (IsNumberText bytes.now) }
    ensures none { IfNone result ((n : ℕ) → n < 2 ^ 64 → IsNumberText bytes.now n → ⊥) }
{
    match bytes {
        [] | [b'0', _, ..] => None,
        digits if digits.len() <= FEW => read_few(digits),
        digits => read_many(digits),
    }
}

// The most digits that stand for a number below 2^64 whatever they are: 10^19 is below 2^64, and 10^20 is not.
const FEW: usize = 19;

// Reads at most 19 digits as a number. The sum can't overflow, so it isn't checked: the fast path of `read_number`.
// `None` where a byte is no digit.
#[inline(always)]
fn read_few(digits: &[u8]) -> Option<u64>
    requires { length digits.now ≤ 19 }
    ensures read { IfSome result (λ n. AllDigits 10 digits.now × (digits_value 10 digits.now ≡ n)) }
    ensures none { IfNone result (¬ AllDigits 10 digits.now) }
{
    let mut n = 0u64;
    for byte in digits {
        if !byte.is_ascii_digit() {
            return None;
        }
        n = n * 10 + u64::from(byte - b'0');
    }
    Some(n)
}

// Reads any number of digits, and checks each sum for overflow. `None` where a byte is no digit, or the number is 2^64
// or more.
fn read_many(digits: &[u8]) -> Option<u64>
    ensures read { IfSome result (λ n. AllDigits 10 digits.now × (digits_value 10 digits.now ≡ n)) }
    ensures none { IfNone result (AllDigits 10 digits.now → 2 ^ 64 ≤ digits_value 10 digits.now) }
{
    let mut n = 0u64;
    for byte in digits {
        if !byte.is_ascii_digit() {
            return None;
        }
        n = n.checked_mul(10)?.checked_add(u64::from(byte - b'0'))?;
    }
    Some(n)
}

/// Appends a number to `out` in decimal digits, 1 to 20 of them, with no `0` in front. Out of memory is the only error,
/// and leaves `out` unchanged.
#[tactic(auto, using(crate::proofs::Numbers::decimal_is_number))]
#[inline(always)]
pub fn write_number(n: u64, out: &mut Vec<u8>) -> Result<(), AllocError>
    ensures ok { OnOk result (AppendsSuch (λ text. IsNumberText text n) out.old.items out.new.items) }
    ensures err { OnErr result (out.new.items ≡ out.old.items) }
{
    let mut digits = Buffer::new();
    out.extend_from_slice(digits.format(n).as_bytes())
}

// Reads all of the bytes as an integer of 64 bits: `0`, or digits without a `0` in front, after a `-` if it is below 0.
// `None` for other bytes, for `-0` and out of range.
pub(crate) fn read_int(bytes: &[u8]) -> Option<i64>
    ensures read { IfSome result (IsIntText bytes.now) }
    ensures none { IfNone result ((z : ℤ) → IsIntText bytes.now z → ⊥) }
{
    match bytes {
        [b'-', digits @ ..] => {
            let size = read_number(digits)?;
            if size == 0 {
                return None;
            }
            // down from 0, since -(2^63) is in range and 2^63 isn't
            0i64.checked_sub_unsigned(size)
        }
        _ => i64::try_from(read_number(bytes)?).ok(),
    }
}

// Appends an integer to `out`: 1 to 19 decimal digits, after a `-` if it is below 0. Out of memory is the only error,
// and leaves `out` unchanged.
pub(crate) fn write_int(n: i64, out: &mut Vec<u8>) -> Result<(), AllocError>
    ensures ok { OnOk result (AppendsSuch (λ text. IsIntText text n) out.old.items out.new.items) }
    ensures err { OnErr result (out.new.items ≡ out.old.items) }
{
    let mut text = Buffer::new();
    out.extend_from_slice(text.format(n).as_bytes())
}

/// A law: each number below 2^64 has one spelling, and a text spells at most one number. So numbers can be compared as
/// text.
pub fn one_number_spelling()
    ensures spelling { (a b : List ℕ) (n : ℕ) → n < 2 ^ 64
        → IsNumberText a n → IsNumberText b n → a ≡ b }
    ensures number { (a : List ℕ) (m n : ℕ) → IsNumberText a m → IsNumberText a n → m ≡ n }
{}
