//! Whole numbers in decimal digits, where each number has exactly one text: no sign and no leading zero.
ghost use Rattle.std.specs.Prelude.{◌≡◌, ◌≢◌, ◌<◌, ◌≤◌, ◌^◌, ℕ, decimal, IfSome, IfNone, slice_index};
ghost use Rattle.std.specs.Int.{is_in_range};
ghost use Rattle.tcf_values.specs.Number.{number_of};

use std::str;

/// No sign, and no zero.
fn has_plain_front(digits: &[u8]) -> bool
    ensures { result ≡ is_in_range 49 57 (slice_index digits.now 0) }
{
    matches!(digits, [b'1'..=b'9', ..])
}

/// The number of 1 or more that the digits say.
fn positive_number(digits: &[u8]) -> Option<u32>
    ensures found { IfSome result (λ n. digits.now ≡ decimal n) }
    ensures none { IfNone result ((n : ℕ) → 1 ≤ n → n < 2 ^ 32 → digits.now ≢ decimal n) }
{
    if !has_plain_front(digits) {
        return None;
    }
    match str::from_utf8(digits) {
        Ok(text) => text.parse::<u32>().ok(),
        Err(_) => None,
    }
}

/// The number that the digits say.
#[tactic(auto, using(crate::specs::NumberLaws::zero_found, crate::specs::NumberLaws::zero_or_more))]
fn plain_number(digits: &[u8]) -> Option<u32>
    ensures found { IfSome result (λ n. digits.now ≡ decimal n) }
    ensures none { IfNone result ((n : ℕ) → n < 2 ^ 32 → digits.now ≢ decimal n) }
{
    if digits == b"0".as_slice() {
        return Some(0);
    }
    positive_number(digits)
}

/// The number from `low` to `high` that the digits say. None comes exactly where they say no such number: also
/// where they have a sign or a leading zero, and where there are none.
#[tactic(auto, using(crate::specs::NumberLaws::number_there, crate::specs::NumberLaws::number_out, crate::specs::NumberLaws::number_gone))]
pub fn number_within(digits: &[u8], low: u32, high: u32) -> Option<u32>
    ensures value { result ≡ number_of low high digits.now }
    ensures least { IfSome result (λ number. low ≤ number) }
    ensures most { IfSome result (λ number. number ≤ high) }
{
    let number = plain_number(digits)?;
    if low <= number && number <= high {
        Some(number)
    } else {
        None
    }
}
