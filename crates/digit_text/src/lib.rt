// Digit texts: a round-bit word written out in its signed digits, and read back.
//
// Digit i is digit i - 1 of the number less its digit i, with the round bit below the lowest. So it is 1, 0
// or -1, written `+`, `0`, `-`, and the nonzero ones alternate in sign. Rounding is then cutting digits off, a
// sign change is turning every digit over, and widening is appending zeros: the text shows all three.
//
// Writing touches only the bytes of the text, and none where it refuses. Reading looks for a byte that is
// none of the three, then for a sign that repeats the one before it, and tells the place of the leftmost;
// only a text without either makes a word.
#![tactic(auto)]

ghost use Rattle.std.specs.Prelude.{◌≡◌, not, ◌&&◌, ◌≤◌, eqb, unwrap_or, pos, ◌+ℤ◌, ◌-ℤ◌, ◌*ℤ◌, length, find, reverse};
ghost use Rattle.integers.specs.Numbers.{digit};
ghost use Rattle.integers.specs.Lists.{over};
ghost use Rattle.words.specs.Words.{most_width};
ghost use Rattle.words.specs.Outcomes.{Done, given};
ghost use Rattle.words.specs.Refusals.{format_check};
ghost use Rattle.words.specs.Formats.{format};
ghost use Rattle.words.specs.RoundBit.{round_bit_check};
ghost use Rattle.digit_text.specs.Digits.{none, byte_of, digit_of, byte_at, text_value, write_check, write_of, buffer_of};
ghost use Rattle.digit_text.specs.Reading.{strange, strange_place, repeat_place, if_found, fault_at, telling};
ghost use Rattle.digit_text.specs.Reading.{fault_check, read_check, read_round, read_word, answer_of, read_of};

use words::{Cause, Format, Outcome, RoundBit, RoundBitWord, Word, WriteAnswer, refuse_for};

// The answer of a reading. The place is of the byte that a 13 or a 9 is for, counted from 0 at the most
// significant end; it is 0 with every other answer.
#[derive(Clone, Copy)]
pub struct ReadAnswer {
    pub outcome: Outcome,
    pub word: RoundBitWord,
    pub place: u32,
}

// A text is written by the picture of document 000, section 3.1, equation (1), with the round bit of its
// Definition 6. On top stands the word doubled, with the round bit in the free place on the right; below it the
// word; each digit is the top one less the bottom one. P6, -718 at width 11, is `-+-0+0-0+-0`:
//
//     (-718,0), width 11
//     top row, 2a + r    0 1 0 0 1 1 0 0 1 0 0
//     bottom row, a      1 0 1 0 0 1 1 0 0 1 0
//     top less bottom    - + - 0 + 0 - 0 + - 0
//
// docs/DIGITS.md draws two words more, and says what the picture shows of cuts and sign changes. The top row's
// sign is not drawn; with it the top row of a word of 63 digits just fits an i64.

// The top row: 2a + r.
fn doubled(w: RoundBitWord) -> i64
    requires { round_bit_check w ≡ Done }
    ensures { result ≡ (pos 2 *ℤ w.number.0) +ℤ pos w.number.1 }
{
    let r: u8 = w.number.1;
    2 * w.number.0 + i64::from(r)
}

// The digit in the rightmost column of the two rows: the top one less the bottom one.
fn top_less_bottom(top: i64, bottom: i64) -> i64
    ensures { result ≡ pos (digit top 0) -ℤ pos (digit bottom 0) }
{
    i64::from(integers::digit(top, 0)) - i64::from(integers::digit(bottom, 0))
}

// The byte of a digit.
#[tactic(auto, unfolding(crate::specs::Digits::byte_of))]
fn byte_of(d: i64) -> u8
    ensures { result ≡ byte_of d }
{
    match d.signum() {
        1 => b'+',
        -1 => b'-',
        _ => b'0',
    }
}

// Fills the first n bytes; the most significant digit stands in the first. The picture is taken column by column
// from the right, and each is then struck off both rows.
fn put_text(w: RoundBitWord, n: usize, text: &mut [u8])
    requires { (round_bit_check w ≡ Done) × (n ≡ w.format.width) × (n ≤ length text.old) }
    ensures { text.new ≡ over n (byte_at w) text.old }
{
    let mut top_row = doubled(w);
    let mut bottom_row = w.number.0;
    for k in (0..n).rev() {
        text[k] = byte_of(top_less_bottom(top_row, bottom_row));
        top_row = integers::floor_by(top_row, 1);
        bottom_row = integers::floor_by(bottom_row, 1);
    }
}

// The bytes that were written: none before 1, 2, 3 and 10 are behind it.
#[tactic(auto, using(crate::proofs::Scan::buffer_is), unfolding(crate::specs::Digits::write_check))]
fn written(w: RoundBitWord, text: &mut [u8]) -> Result<usize, Cause>
    ensures { (result ≡ given (write_check w (length text.old)) w.format.width) × (text.new ≡ buffer_of w text.old) }
{
    w.check()?;
    let n = w.format.width as usize;
    refuse_for(Cause::Buffer, text.len() < n)?;
    put_text(w, n, text);
    Ok(n)
}

// Writes the word's digits into the front of the buffer.
#[tactic(auto, unfolding(crate::specs::Digits::write_of, words::specs::Refusals::write_answer))]
pub fn write(w: RoundBitWord, text: &mut [u8]) -> WriteAnswer
    ensures { (result ≡ write_of w (length text.old)) × (text.new ≡ buffer_of w text.old) }
{
    written(w, text).into()
}

// Is it none of the three bytes?
fn strange(b: u8) -> bool
    ensures { result ≡ strange b }
{
    !matches!(b, b'+' | b'0' | b'-')
}

// The place of the leftmost byte that is none of the three.
fn strange_place(text: &[u8]) -> Option<usize>
    ensures { result ≡ if_found (strange_place text.now) text.now }
{
    text.iter().position(|b| strange(*b))
}

// Does a byte of the three stand for 1 or -1?
fn is_sign(b: u8) -> bool
    ensures { result ≡ not (eqb b none) }
{
    b != b'0'
}

// Is b a sign, and the sign before it again?
fn repeats(b: u8, before: u8) -> bool
    ensures { result ≡ (not (eqb b none) && eqb b before) }
{
    is_sign(b) && b == before
}

// The place of the leftmost sign that repeats the sign before it. `before` is that sign, with its place, and
// a `0` while there is none.
fn repeat_place(text: &[u8]) -> Option<usize>
    ensures { result ≡ if_found (repeat_place text.now) text.now }
{
    let mut before = (0, b'0');
    for (k, &b) in text.iter().enumerate() {
        if repeats(b, before.1) {
            return Some(k);
        }
        if is_sign(b) {
            before = (k, b);
        }
    }
    None
}

// Why a text is refused, and the place that this tells, 0 where it tells none.
#[derive(Clone, Copy)]
struct Fault {
    cause: Cause,
    place: u32,
}

// The fault at the place that was found, where one was.
fn fault_at(cause: Cause, found: Option<usize>) -> Result<(), Fault>
    requires { unwrap_or found 0 ≤ most_width }
    ensures { result ≡ fault_at cause found }
{
    match found {
        Some(place) => Err(Fault {
            cause,
            place: place as u32,
        }),
        None => Ok(()),
    }
}

// 13, then 9.
fn fault_check(text: &[u8]) -> Result<(), Fault>
    requires { length text.now ≤ most_width }
    ensures { result ≡ telling text.now (fault_check text.now) tt }
{
    fault_at(Cause::Byte, strange_place(text))?;
    fault_at(Cause::DigitText, repeat_place(text))
}

// The format of a text, whose width is its length, or 1 or 2. No length past a u32 is a width, and nor is the greatest u32.
#[tactic(auto, using(crate::proofs::Places::format_told), unfolding(words::specs::Refusals::format_check))]
fn format_of(text: &[u8], unit: i32) -> Result<Format, Fault>
    ensures { let f = format (length text.now) unit in result ≡ telling text.now (format_check f) f }
{
    let width = u32::try_from(text.len()).unwrap_or(u32::MAX);
    let format = Format { width, unit };
    format.check().map_err(|cause| Fault { cause, place: 0 })?;
    Ok(format)
}

// 1, -1 or 0.
#[tactic(auto, unfolding(crate::specs::Digits::digit_of))]
fn digit_of(b: u8) -> i64
    ensures { result ≡ digit_of b }
{
    match b {
        b'+' => 1,
        b'-' => -1,
        _ => 0,
    }
}

// What the text is worth.
fn text_value(text: &[u8]) -> i64
    requires { length text.now ≤ most_width }
    ensures { result ≡ text_value text.now }
{
    let mut value = 0;
    for &b in text {
        value = 2 * value + digit_of(b);
    }
    value
}

// The lowest nonzero digit.
fn lowest_sign(text: &[u8]) -> Option<u8>
    ensures { result ≡ find (λ b. not (eqb b none)) (reverse text.now) }
{
    text.iter().rev().copied().find(|b| is_sign(*b))
}

// 1 where the lowest nonzero digit is `+`.
fn read_round(text: &[u8]) -> u8
    ensures { result ≡ read_round text.now }
{
    u8::from(lowest_sign(text) == Some(b'+'))
}

// The word of a text.
fn read_word(text: &[u8], unit: i32) -> Result<RoundBitWord, Fault>
    ensures { result ≡ telling text.now (read_check text.now unit) (read_word text.now unit) }
{
    let format = format_of(text, unit)?;
    fault_check(text)?;
    let round = read_round(text);
    let number = text_value(text) - i64::from(round);
    Ok(Word {
        number: RoundBit(number, round),
        format,
    })
}

impl From<Result<RoundBitWord, Fault>> for ReadAnswer {
    ghost from_gives = { λ r a. a ≡ answer_of r };

    fn from(read: Result<RoundBitWord, Fault>) -> ReadAnswer {
        match read {
            Ok(word) => ReadAnswer {
                outcome: Ok(()),
                word,
                place: 0,
            },
            Err(fault) => ReadAnswer {
                outcome: Err(fault.cause),
                word: Word::blank(),
                place: fault.place,
            },
        }
    }
}

// Reads a text back: its length is the width.
#[tactic(auto, using(crate::proofs::Places::answer_told), unfolding(crate::specs::Reading::read_of))]
pub fn read(text: &[u8], unit: i32) -> ReadAnswer
    ensures { result ≡ read_of text.now unit }
{
    read_word(text, unit).into()
}
