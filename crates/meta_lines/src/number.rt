ghost use Rattle.std.specs.Prelude.{◌≡◌, ◌≢◌, ◌<◌, ◌≤◌, ◌^◌, ℕ, IfSome, IfNone};
ghost use Rattle.std.specs.Fmt.{decimal};
ghost use Rattle.meta_lines.specs.Number.{is_plain};

use std::str;

/// Whether the word has no sign and no needless zero at its front.
fn is_plain(word: &[u8]) -> bool
    ensures { result ≡ is_plain word.now }
{
    match word.first() {
        Some(b'+') => false,
        Some(b'0') => word.len() == 1,
        _ => true,
    }
}

/// The number of 64 bits that the word is, if it is one.
fn number_of(word: &[u8]) -> Option<u64>
    ensures some { IfSome result (λ n. word.now ≡ decimal n) }
    ensures small { IfSome result (λ n. n < 2 ^ 64) }
    ensures none { IfNone result ((n : ℕ) → n < 2 ^ 64 → word.now ≢ decimal n) }
{
    let Ok(text) = str::from_utf8(word) else {
        return None;
    };
    match text.parse::<u64>() {
        Ok(number) if is_plain(word) => Some(number),
        _ => None,
    }
}

/// The number that the word is, if it is at most `most`: decimal, without a sign, and without a needless zero at its front. `None` exactly
/// if the word isn't such a number.
pub fn number_in(word: &[u8], most: u64) -> Option<u64>
    ensures some { IfSome result (λ n. word.now ≡ decimal n) }
    ensures within { IfSome result (λ n. n ≤ most) }
    ensures none { IfNone result ((n : ℕ) → n ≤ most → word.now ≢ decimal n) }
{
    let number = number_of(word)?;
    if number <= most { Some(number) } else { None }
}

/// The number of 8 bits that the word is, as `number_in` reads it.
pub fn number_u8(word: &[u8]) -> Option<u8>
    ensures some { IfSome result (λ n. word.now ≡ decimal n) }
    ensures none { IfNone result ((n : ℕ) → n < 2 ^ 8 → word.now ≢ decimal n) }
{
    let number = number_in(word, 255)?;
    Some(number as u8)
}

/// The number of 16 bits that the word is, as `number_in` reads it.
pub fn number_u16(word: &[u8]) -> Option<u16>
    ensures some { IfSome result (λ n. word.now ≡ decimal n) }
    ensures none { IfNone result ((n : ℕ) → n < 2 ^ 16 → word.now ≢ decimal n) }
{
    let number = number_in(word, 65_535)?;
    Some(number as u16)
}

/// The number of 32 bits that the word is, as `number_in` reads it.
pub fn number_u32(word: &[u8]) -> Option<u32>
    ensures some { IfSome result (λ n. word.now ≡ decimal n) }
    ensures none { IfNone result ((n : ℕ) → n < 2 ^ 32 → word.now ≢ decimal n) }
{
    let number = number_in(word, 4_294_967_295)?;
    Some(number as u32)
}
