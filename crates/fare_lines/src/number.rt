ghost use Rattle.std.specs.Prelude.{◌≡◌, ◌≢◌, ◌≤◌, ◌<◌, ◌^◌, ◌++◌, ℕ, List, IfSome, IfNone, IfOk, length, take, drop};
ghost use Rattle.std.specs.Fmt.{decimal};
ghost use Rattle.std.specs.Str.Parse.{AllDigits, digits_value};
ghost use Rattle.fare_lines.specs.Reading.{BeginsWith, BeginsWithNumbers, CutsAt, OfFirstLine, SpellsNoNumbers, is_feed, is_no_digit};

use crate::cut::{behind_space, cut_at_no_digit, ends_line};
use std::alloc::AllocError;

// So many digits always spell a number below 2^64.
const SURE_DIGITS: usize = 19;

/// The number that the digits at the front of a text spell, also with leading zeros, and how many they are; of more
/// than 19 that of the first 19.
fn read_few(text: &[u8]) -> (u64, usize)
    ensures within { result.1 ≤ length text.now }
    ensures digits { AllDigits 10 (take result.1 text.now) }
    ensures value { result.0 ≡ digits_value 10 (take result.1 text.now) }
    ensures few { result.1 ≤ 19 }
    ensures ends { result.1 ≢ 19 → BeginsWith is_no_digit (drop result.1 text.now) }
{
    let mut number: u64 = 0;
    let mut count: usize = 0;
    for byte in text {
        if !byte.is_ascii_digit() || count == SURE_DIGITS {
            return (number, count);
        }
        number = number * 10 + u64::from(*byte - b'0');
        count += 1;
    }
    (number, count)
}

/// The number below 2^64 that any digits spell, also with leading zeros.
fn read_long(word: &[u8]) -> Option<u64>
    ensures found { IfSome result (λ n. AllDigits 10 word.now × (n ≡ digits_value 10 word.now) × (n < 2 ^ 64)) }
    ensures none { IfNone result (AllDigits 10 word.now → digits_value 10 word.now < 2 ^ 64 → ⊥) }
{
    let mut number: u64 = 0;
    for byte in word {
        if !byte.is_ascii_digit() {
            return None;
        }
        number = number
            .checked_mul(10)?
            .checked_add(u64::from(*byte - b'0'))?;
    }
    Some(number)
}

/// The number below 2^64 that a word spells: decimal digits, and no leading zero but in 0 itself.
fn read_number(word: &[u8]) -> Option<u64>
    ensures found { IfSome result (λ n. (n < 2 ^ 64) × (word.now ≡ decimal n)) }
    ensures none { IfNone result ((n : ℕ) → n < 2 ^ 64 → word.now ≡ decimal n → ⊥) }
{
    if word.is_empty() {
        return None;
    }
    if word[0] == b'0' && word.len() > 1 {
        return None;
    }
    read_long(word)
}

/// The number below 2^64 that the digits at the front of a text spell, however many they are, and what stands behind
/// them.
fn cut_long(text: &[u8]) -> Option<(u64, &[u8])>
    ensures found { IfSome result (λ cut. (cut.0 < 2 ^ 64) × CutsAt is_no_digit text.now (decimal cut.0) cut.1.now) }
    ensures none { IfNone result ((n : ℕ) (rest : List ℕ) → n < 2 ^ 64 → BeginsWith is_no_digit rest → text.now ≡ decimal n ++ rest → ⊥) }
{
    let (word, rest) = cut_at_no_digit(text);
    match read_number(word) {
        Some(number) => Some((number, rest)),
        None => None,
    }
}

/// The same, of few digits without a second look at them.
fn cut_number(text: &[u8]) -> Option<(u64, &[u8])>
    ensures found { IfSome result (λ cut. (cut.0 < 2 ^ 64) × CutsAt is_no_digit text.now (decimal cut.0) cut.1.now) }
    ensures none { IfNone result ((n : ℕ) (rest : List ℕ) → n < 2 ^ 64 → BeginsWith is_no_digit rest → text.now ≡ decimal n ++ rest → ⊥) }
{
    let (number, count) = read_few(text);
    match count {
        0 => None,
        1 => Some((number, &text[1..])),
        SURE_DIGITS => cut_long(text),
        _ if text[0] == b'0' => None,
        _ => Some((number, &text[count..])),
    }
}

/// Reads the numbers below 2^64 that the first line of a text spells, with one space between each two, and answers what
/// stands from its line feed on; None where it spells no such. They are then in `numbers`, in place of what it held. An
/// empty line spells none.
pub fn read_numbers<'a>(
    text: &'a [u8],
    numbers: &mut Vec<u64>,
) -> Result<Option<&'a [u8]>, AllocError>
    ensures found { IfOk result (λ found. IfSome found (λ rest. BeginsWithNumbers text.now numbers.new.items rest.now)) }
    ensures none { IfOk result (λ found. IfNone found (OfFirstLine SpellsNoNumbers text.now)) }
{
    numbers.clear();
    if ends_line(text) {
        return Ok(Some(text));
    }
    let mut rest = text;
    loop {
        let Some((number, after)) = cut_number(rest) else {
            return Ok(None);
        };
        numbers.push(number)?;
        if ends_line(after) {
            return Ok(Some(after));
        }
        match behind_space(after) {
            Some(next) => rest = next,
            None => return Ok(None),
        }
    }
}
