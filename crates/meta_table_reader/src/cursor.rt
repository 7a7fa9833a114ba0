ghost use Rattle.std.specs.Prelude.{◌≡◌, ◌<◌, ◌^◌, ◌/◌, ◌%◌, ◌+◌, ◌*◌, ℕ, List, [], ◌∷◌, ◌++◌, IsTrue, IfOk, All, false, length, map, drop};
ghost use Rattle.std.specs.Prelude.{slice_index};
ghost use Rattle.std.specs.Char.{is_ascii_digit};
ghost use Rattle.std.specs.Fmt.{decimal, digit_glyph};
ghost use Rattle.std.specs.List.{flat_map};
ghost use Rattle.std.specs.Str.{IsAscii, IsUtf8};
ghost use Rattle.meta_table_reader.specs.Spans.{lacks, begins_with, is_line, from_byte, after_line, after_lines};

use meta_lines::{end_of, number_in};
use meta_types::Text;
use std::alloc::{AllocError, Global};
use std::marker::Model;
use std::str;

/// What is left of a text that is being read.
#[derive(Drop)]
pub(crate) struct Cursor<'t> {
    left: &'t [u8],
}

impl<'t> Model for Cursor<'t> {
    ghost use Rattle.std.specs.Prelude.{List, ℕ};

    ghost Value = { List ℕ };

    ghost view = { λ c. c.left.now };
}

impl<'t> Cursor<'t> {
    pub(crate) fn new(text: &'t [u8]) -> Cursor<'t>
        ensures { result ≡ text.now }
    {
        Cursor { left: text }
    }

    pub(crate) fn len(&self) -> usize
        ensures { result ≡ length self.now }
    {
        self.left.len()
    }

    /// Skips `count` bytes, or all if fewer are left.
    pub(crate) fn skip(&mut self, count: usize)
        ensures { self.new ≡ drop count self.old }
    {
        let count = self.left.len().min(count);
        self.left = self.left.split_at(count).1;
    }

    /// Skips as many bytes as the text has. It doesn't compare them.
    pub(crate) fn pass(&mut self, text: &str)
        ensures item { (rest : List ℕ) → self.old ≡ text.now ++ rest → self.new ≡ rest }
        ensures left { self.new ≡ drop (length text.now) self.old }
    {
        self.skip(text.len());
    }

    /// Skips as many bytes as `before` has, and reads up to the next byte `stop`, which is left.
    pub(crate) fn until(&mut self, before: &str, stop: u8) -> &'t [u8]
        ensures item { (item rest : List ℕ) → IsTrue (lacks stop item) → IsTrue (begins_with stop rest)
            → self.old ≡ before.now ++ (item ++ rest) → (result.now ≡ item) × (self.new ≡ rest) }
        ensures left { self.new ≡ from_byte stop (drop (length before.now) self.old) }
    {
        self.pass(before);
        let (item, left) = self.left.split_at(end_of(self.left, stop));
        self.left = left;
        item
    }
}

/// The text with these bytes. It is empty if they aren't UTF-8.
fn text_of(alloc: Global, bytes: &[u8]) -> Result<Text, AllocError>
    ensures { IfOk result (λ t. IsUtf8 bytes.now → t ≡ bytes.now) }
{
    match str::from_utf8(bytes) {
        Ok(text) => Text::new(alloc, text),
        Err(_) => Text::new(alloc, ""),
    }
}

/// The value of a hexadecimal digit. It is 0 for any other byte.
fn value_of(digit: u8) -> u8
    ensures value { (d : ℕ) → d < 16 → digit ≡ digit_glyph false d → result ≡ d }
    ensures small { result < 16 }
{
    match digit {
        b'0'..=b'9' => digit - b'0',
        b'a'..=b'f' => digit - b'a' + 10,
        _ => 0,
    }
}

impl<'t> Cursor<'t> {
    /// The byte at this place of what is left. It is 0 if there is no such byte.
    pub(crate) fn byte_at(&self, place: usize) -> u8
        ensures { result ≡ slice_index self.now place }
    {
        match self.left.get(place) {
            Some(byte) => *byte,
            None => 0,
        }
    }

    /// Skips as many bytes as `before` has, and reads a decimal number up to the next byte `stop`, which isn't a digit and is left. It
    /// answers 0 if there isn't a number.
    pub(crate) fn number(&mut self, before: &str, stop: u8) -> usize
        ensures item { (n : ℕ) (rest : List ℕ) → n < 2 ^ 64 → is_ascii_digit stop ≡ false → IsTrue (begins_with stop rest)
            → self.old ≡ before.now ++ (decimal n ++ rest) → (result ≡ n) × (self.new ≡ rest) }
        ensures left { self.new ≡ from_byte stop (drop (length before.now) self.old) }
    {
        match number_in(self.until(before, stop), u64::MAX) {
            Some(number) => number as usize,
            None => 0,
        }
    }

    pub(crate) fn number_u8(&mut self, before: &str, stop: u8) -> u8
        ensures item { (n : ℕ) (rest : List ℕ) → n < 2 ^ 8 → is_ascii_digit stop ≡ false → IsTrue (begins_with stop rest)
            → self.old ≡ before.now ++ (decimal n ++ rest) → (result ≡ n) × (self.new ≡ rest) }
        ensures left { self.new ≡ from_byte stop (drop (length before.now) self.old) }
    {
        u8::try_from(self.number(before, stop)).unwrap_or(0)
    }

    pub(crate) fn number_u16(&mut self, before: &str, stop: u8) -> u16
        ensures item { (n : ℕ) (rest : List ℕ) → n < 2 ^ 16 → is_ascii_digit stop ≡ false → IsTrue (begins_with stop rest)
            → self.old ≡ before.now ++ (decimal n ++ rest) → (result ≡ n) × (self.new ≡ rest) }
        ensures left { self.new ≡ from_byte stop (drop (length before.now) self.old) }
    {
        u16::try_from(self.number(before, stop)).unwrap_or(0)
    }

    pub(crate) fn number_u32(&mut self, before: &str, stop: u8) -> u32
        ensures item { (n : ℕ) (rest : List ℕ) → n < 2 ^ 32 → is_ascii_digit stop ≡ false → IsTrue (begins_with stop rest)
            → self.old ≡ before.now ++ (decimal n ++ rest) → (result ≡ n) × (self.new ≡ rest) }
        ensures left { self.new ≡ from_byte stop (drop (length before.now) self.old) }
    {
        u32::try_from(self.number(before, stop)).unwrap_or(0)
    }

    /// Skips as many bytes as `before` has, and reads the text up to the next byte `stop`, which is left. It answers an empty text if the
    /// bytes aren't UTF-8.
    pub(crate) fn text(&mut self, alloc: Global, before: &str, stop: u8) -> Result<Text, AllocError>
        ensures item { IfOk result (λ t. (item rest : List ℕ) → IsAscii item → IsTrue (lacks stop item) → IsTrue (begins_with stop rest)
            → self.old ≡ before.now ++ (item ++ rest) → (t ≡ item) × (self.new ≡ rest)) }
        ensures left { self.new ≡ from_byte stop (drop (length before.now) self.old) }
    {
        text_of(alloc, self.until(before, stop))
    }

    fn digit(&mut self) -> u8
        ensures value { (d : ℕ) (rest : List ℕ) → d < 16 → self.old ≡ digit_glyph false d ∷ rest → (result ≡ d) × (self.new ≡ rest) }
        ensures left { self.new ≡ drop 1 self.old }
        ensures small { result < 16 }
    {
        let digit = value_of(self.byte_at(0));
        self.skip(1);
        digit
    }

    /// Skips as many bytes as `before` has, and reads a byte of two hexadecimal digits.
    pub(crate) fn hex(&mut self, before: &str) -> u8
        ensures item { (n : ℕ) (rest : List ℕ) → n < 256
            → self.old ≡ before.now ++ digit_glyph false (n / 16) ∷ digit_glyph false (n % 16) ∷ rest → (result ≡ n) × (self.new ≡ rest) }
        ensures left { self.new ≡ drop 2 (drop (length before.now) self.old) }
    {
        self.pass(before);
        let high = self.digit();
        let low = self.digit();
        high * 16 + low
    }

    fn bit(&mut self) -> u8
        ensures value { (d : ℕ) (rest : List ℕ) → d < 2 → self.old ≡ digit_glyph false d ∷ rest → (result ≡ d) × (self.new ≡ rest) }
        ensures left { self.new ≡ drop 1 self.old }
        ensures small { result < 2 }
    {
        self.digit() % 2
    }

    fn four_bits(&mut self) -> u8
        ensures value { (a b c d : ℕ) (rest : List ℕ) → a < 2 → b < 2 → c < 2 → d < 2
            → self.old ≡ digit_glyph false a ∷ digit_glyph false b ∷ digit_glyph false c ∷ digit_glyph false d ∷ rest
            → (result ≡ 8 * a + 4 * b + 2 * c + d) × (self.new ≡ rest) }
        ensures left { self.new ≡ drop 4 self.old }
        ensures small { result < 16 }
    {
        let eight = self.bit();
        let four = self.bit();
        let two = self.bit();
        let one = self.bit();
        8 * eight + 4 * four + 2 * two + one
    }

    /// Skips as many bytes as `before` has, and reads a byte of eight binary digits.
    pub(crate) fn binary(&mut self, before: &str) -> u8
        ensures item { (n : ℕ) (rest : List ℕ) → n < 256
            → self.old ≡ before.now ++ (map (λ place. digit_glyph false (n / place % 2)) (128 ∷ 64 ∷ 32 ∷ 16 ∷ 8 ∷ 4 ∷ 2 ∷ 1 ∷ []) ++ rest)
            → (result ≡ n) × (self.new ≡ rest) }
        ensures left { self.new ≡ drop 8 (drop (length before.now) self.old) }
    {
        self.pass(before);
        let high = self.four_bits();
        let low = self.four_bits();
        16 * high + low
    }

    /// Skips the next line, including its LF.
    pub(crate) fn skip_line(&mut self)
        ensures item { (line rest : List ℕ) → IsTrue (is_line line) → self.old ≡ line ++ rest → self.new ≡ rest }
        ensures left { self.new ≡ after_line self.old }
    {
        let end = end_of(self.left, b'\n');
        self.skip(end);
        self.skip(1);
    }

    /// Skips `count` lines, including their LFs, or all if fewer are left.
    pub(crate) fn skip_lines(&mut self, count: usize)
        ensures item { (lines : List (List ℕ)) (rest : List ℕ) → All (λ line. IsTrue (is_line line)) lines → count ≡ length lines
            → self.old ≡ flat_map (λ line. line) lines ++ rest → self.new ≡ rest }
        ensures left { self.new ≡ after_lines count self.old }
    {
        for _ in 0..self.len().min(count) {
            self.skip_line();
        }
    }
}
