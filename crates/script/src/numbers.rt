//! Words and numbers at the front of some bytes. Each function answers what stands there with the bytes that follow it.
ghost use Rattle.std.specs.Prelude.{◌≡◌, ◌++◌, ◌↔◌, ◌^◌, ◌<◌, ◌≤◌, ℕ, ℤ, pos, neg_ℤ, ◌≤ℤ◌, IsTrue, IfSome, SomeIff, option_map, length, take};
ghost use Rattle.std.specs.Char.{is_ascii_digit};
ghost use Rattle.std.specs.List.{prefix_len};
ghost use Rattle.std.specs.Option.{MatchOption};
ghost use Rattle.std.specs.Str.{all_ascii_digits};
ghost use Rattle.std.specs.Str.Parse.{digits_value};
ghost use Rattle.ais_values.specs.Times.{unknown_time};
ghost use Rattle.script_grammar.specs.Values.{IsNumber};
ghost use Rattle.script_grammar.specs.Reading.{skipped, word, maybe, unless};
ghost use Rattle.script_grammar.specs.ValueReading.{is_plain, magnitude_at, number_at, in_signed_range, signed_at};
ghost use Rattle.script_language.specs.ValueReading.{number8_at, number16_at, number32_at, number64_at, signed64_at, script_time_at, client_at, queue_length_at, count_at};

use ais_values::{LAST_TIME, MAX_CLIENT, UNKNOWN_TIME};

/// The most elements of a queue.
const MAX_QUEUE: u64 = 256;

/// The most workers of a dispatch.
const MAX_WORKERS: u64 = 8;

/// What follows the word; none exactly where the bytes do not begin with it. It takes no memory.
#[tactic(auto, using(script_grammar::proofs::Words::skipped_is))]
pub fn skip<'a>(bytes: &'a [u8], word: &[u8]) -> Option<&'a [u8]>
    ensures { skipped word.now bytes.now ≡ option_map (λ rest. rest.now) result }
{
    // Most words that are tried differ in their first letter, which is seen sooner than a whole word is compared.
    match (bytes, word) {
        ([byte, ..], [letter, ..]) if *byte != *letter => None,
        _ => bytes.strip_prefix(word),
    }
}

/// What follows the two words, where the bytes begin with them.
#[tactic(auto, using(crate::proofs::Skipping::skipped_both))]
pub(crate) fn skip_both<'a>(bytes: &'a [u8], first: &[u8], second: &[u8]) -> Option<&'a [u8]>
    ensures { skipped (first.now ++ second.now) bytes.now ≡ option_map (λ rest. rest.now) result }
{
    skip(skip(bytes, first)?, second)
}

/// How many digits stand at the front.
fn digit_count(bytes: &[u8]) -> usize
    ensures { result ≡ prefix_len is_ascii_digit bytes.now }
{
    bytes
        .iter()
        .take_while(|byte| byte.is_ascii_digit())
        .count()
}

/// Whether digits have no leading zero, or are `0` alone.
fn has_plain_form(digits: &[u8]) -> bool
    ensures { result ≡ is_plain digits.now }
{
    match digits {
        [] => false,
        [_] => true,
        [first, ..] => *first != b'0',
    }
}

/// The number that digits write, where it fits.
#[tactic(auto, using(script_grammar::proofs::Digits::value_step, script_grammar::proofs::Digits::value_front, script_grammar::proofs::Digits::digit_range))]
fn value_of(digits: &[u8]) -> Option<u64>
    requires { IsTrue (all_ascii_digits digits.now) }
    ensures { SomeIff result (digits_value 10 digits.now < 2 ^ 64) (digits_value 10 digits.now) }
{
    let mut value = 0u64;
    for digit in digits {
        value = value
            .checked_mul(10)?
            .checked_add(u64::from(*digit - b'0'))?;
    }
    Some(value)
}

/// A number in decimal without a leading zero that fits 64 bits.
#[tactic(auto, unfolding(script_grammar::specs::ValueReading::magnitude_at))]
fn magnitude(bytes: &[u8]) -> Option<(u64, &[u8])>
    ensures { magnitude_at bytes.now ≡ option_map (λ found. (found.0, found.1.now)) result }
{
    let (digits, rest) = bytes.split_at(digit_count(bytes));
    if !has_plain_form(digits) {
        return None;
    }
    Some((value_of(digits)?, rest))
}

/// A number from `low` to `high`.
#[tactic(auto, unfolding(script_grammar::specs::ValueReading::number_at))]
pub(crate) fn number(bytes: &[u8], low: u64, high: u64) -> Option<(u64, &[u8])>
    ensures found { number_at low high bytes.now
        ≡ option_map (λ found. (found.0, found.1.now)) result }
    ensures bound { IfSome result (λ found. found.0 ≤ high) }
{
    let (value, rest) = magnitude(bytes)?;
    if low <= value && value <= high {
        Some((value, rest))
    } else {
        None
    }
}

/// The number from `low` to `high` that the bytes spell in decimal, without a leading zero.
///
/// None exactly where they spell none. It takes no memory.
pub fn whole_number(bytes: &[u8], low: u64, high: u64) -> Option<u64>
    ensures { MatchOption result ((n : ℕ) → IsNumber low high n bytes.now → ⊥)
        (λ n. IsNumber low high n bytes.now) }
{
    match number(bytes, low, high) {
        None => None,
        Some((value, rest)) => { if rest.is_empty() { Some(value) } else { None } }
    }
}

/// A number that fits 8 bits.
pub(crate) fn number8(bytes: &[u8]) -> Option<(u8, &[u8])>
    ensures { number8_at bytes.now ≡ option_map (λ found. (found.0, found.1.now)) result }
{
    let (value, rest) = number(bytes, 0, 255)?;
    Some((value as u8, rest))
}

/// A number that fits 16 bits.
pub(crate) fn number16(bytes: &[u8]) -> Option<(u16, &[u8])>
    ensures { number16_at bytes.now ≡ option_map (λ found. (found.0, found.1.now)) result }
{
    let (value, rest) = number(bytes, 0, 65_535)?;
    Some((value as u16, rest))
}

/// A number that fits 32 bits.
pub(crate) fn number32(bytes: &[u8]) -> Option<(u32, &[u8])>
    ensures { number32_at bytes.now ≡ option_map (λ found. (found.0, found.1.now)) result }
{
    let (value, rest) = number(bytes, 0, 4_294_967_295)?;
    Some((value as u32, rest))
}

/// A number that fits 64 bits.
pub(crate) fn number64(bytes: &[u8]) -> Option<(u64, &[u8])>
    ensures { number64_at bytes.now ≡ option_map (λ found. (found.0, found.1.now)) result }
{
    let (value, rest) = number(bytes, 0, u64::MAX)?;
    Some((value, rest))
}

/// A client, from 1 to 4,096.
pub(crate) fn client(bytes: &[u8]) -> Option<(u16, &[u8])>
    ensures { client_at bytes.now ≡ option_map (λ found. (found.0, found.1.now)) result }
{
    let (value, rest) = number(bytes, 1, u64::from(MAX_CLIENT))?;
    Some((value as u16, rest))
}

/// The length of a queue, from 1 to 256.
pub(crate) fn queue_length(bytes: &[u8]) -> Option<(u32, &[u8])>
    ensures { queue_length_at bytes.now ≡ option_map (λ found. (found.0, found.1.now)) result }
{
    let (value, rest) = number(bytes, 1, MAX_QUEUE)?;
    Some((value as u32, rest))
}

/// The workers of a dispatch, from 1 to 8.
pub(crate) fn workers(bytes: &[u8]) -> Option<(u32, &[u8])>
    ensures { number_at 1 8 bytes.now ≡ option_map (λ found. (found.0, found.1.now)) result }
{
    let (value, rest) = number(bytes, 1, MAX_WORKERS)?;
    Some((value as u32, rest))
}

/// A count from 1 that fits 64 bits.
pub(crate) fn count(bytes: &[u8]) -> Option<(u64, &[u8])>
    ensures { count_at bytes.now ≡ option_map (λ found. (found.0, found.1.now)) result }
{
    let (value, rest) = number(bytes, 1, u64::MAX)?;
    Some((value, rest))
}

/// The signed number, where it is in the range.
fn within(value: i64, rest: &[u8], low: i64, high: i64) -> Option<(i64, &[u8])>
    ensures { in_signed_range low high value rest.now
        ≡ option_map (λ found. (found.0, found.1.now)) result }
{
    if low <= value && value <= high {
        Some((value, rest))
    } else {
        None
    }
}

/// A number from `low` to `high` that may be negative.
#[tactic(auto, unfolding(script_grammar::specs::ValueReading::signed_at))]
pub(crate) fn signed(bytes: &[u8], low: i64, high: i64) -> Option<(i64, &[u8])>
    ensures { signed_at low high bytes.now ≡ option_map (λ found. (found.0, found.1.now)) result }
{
    match skip(bytes, b"-") {
        Some(digits) => {
            let (value, rest) = magnitude(digits)?;
            within(0i64.checked_sub_unsigned(value)?, rest, low, high)
        }
        None => {
            let (value, rest) = magnitude(bytes)?;
            within(0i64.checked_add_unsigned(value)?, rest, low, high)
        }
    }
}

/// A number that fits 64 bits with its sign.
pub(crate) fn signed64(bytes: &[u8]) -> Option<(i64, &[u8])>
    ensures { signed64_at bytes.now ≡ option_map (λ found. (found.0, found.1.now)) result }
{
    signed(bytes, i64::MIN, i64::MAX)
}

/// A moment that a script names, in nanoseconds.
pub(crate) fn script_time(bytes: &[u8]) -> Option<(i64, &[u8])>
    ensures { script_time_at bytes.now ≡ option_map (λ found. (found.0, found.1.now)) result }
{
    signed(bytes, 0, LAST_TIME)
}

/// The time behind the word, or the unknown time where the word does not stand.
pub(crate) fn time_unless<'a>(bytes: &'a [u8], word: &[u8]) -> Option<(i64, &'a [u8])>
    ensures { unless unknown_time word.now signed64_at bytes.now
        ≡ option_map (λ found. (found.0, found.1.now)) result }
{
    match skip(bytes, word) {
        Some(rest) => signed64(rest),
        None => Some((UNKNOWN_TIME, bytes)),
    }
}

/// A number of 16 bits behind the word, where the word stands.
pub(crate) fn maybe_number16<'a>(bytes: &'a [u8], word: &[u8]) -> Option<(Option<u16>, &'a [u8])>
    ensures { maybe word.now number16_at bytes.now
        ≡ option_map (λ found. (found.0, found.1.now)) result }
{
    match skip(bytes, word) {
        Some(rest) => {
            let (value, rest) = number16(rest)?;
            Some((Some(value), rest))
        }
        None => Some((None, bytes)),
    }
}

/// A number that fits 8 bits, behind the word.
pub(crate) fn number8_behind<'a>(bytes: &'a [u8], label: &[u8]) -> Option<(u8, &'a [u8])>
    ensures { word label.now number8_at bytes.now
        ≡ option_map (λ found. (found.0, found.1.now)) result }
{
    match skip(bytes, label) {
        Some(rest) => number8(rest),
        None => None,
    }
}

/// A number that fits 16 bits, behind the word.
pub(crate) fn number16_behind<'a>(bytes: &'a [u8], label: &[u8]) -> Option<(u16, &'a [u8])>
    ensures { word label.now number16_at bytes.now
        ≡ option_map (λ found. (found.0, found.1.now)) result }
{
    match skip(bytes, label) {
        Some(rest) => number16(rest),
        None => None,
    }
}

/// A number that fits 32 bits, behind the word.
pub(crate) fn number32_behind<'a>(bytes: &'a [u8], label: &[u8]) -> Option<(u32, &'a [u8])>
    ensures { word label.now number32_at bytes.now
        ≡ option_map (λ found. (found.0, found.1.now)) result }
{
    match skip(bytes, label) {
        Some(rest) => number32(rest),
        None => None,
    }
}

/// A number that fits 64 bits, behind the word.
pub(crate) fn number64_behind<'a>(bytes: &'a [u8], label: &[u8]) -> Option<(u64, &'a [u8])>
    ensures { word label.now number64_at bytes.now
        ≡ option_map (λ found. (found.0, found.1.now)) result }
{
    match skip(bytes, label) {
        Some(rest) => number64(rest),
        None => None,
    }
}
