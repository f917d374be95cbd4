// The bank of an eight-tap board: four channels of eight taps, a window of eight samples, and one
// channel's output, which is the sum of tap times sample, cut by 11.
//
// Taps have width 12, samples width 16. Their products have width 27 and are added in width 31, which
// eight of them never leave; the cut, round_bit's own, leaves width 20. A product and a sum are what
// round_bit defines, made here of numbers that have been checked, since its own functions would check
// each of them again.
//
// The definitions are in specs/Bank.antt, what is claimed of an output in specs/Claims.antt.
#![tactic(auto)]

ghost use Rattle.std.specs.Prelude.{◌≡◌, ◌^◌, ◌<◌, ◌≤◌, ltb, pos, ◌+ℤ◌};
ghost use Rattle.std.specs.Int.Signed.{mag};
ghost use Rattle.words.specs.Words.{bad_unit};
ghost use Rattle.words.specs.Refusals.{refuse, ◌or_else◌};
ghost use Rattle.words.specs.Outcomes.{Done, given};
ghost use Rattle.words.specs.Formats.{format};
ghost use Rattle.round_bit.specs.Arithmetic.{added, magnitude, multiplied};
ghost use Rattle.filter_bank.specs.Bank.{most_channel, sum_width, cut_depth, products, word_at, total, any_differ, unlike, products_unit, words_check, row_check, channel_output_of, output_of};

use round_bit::RightNumber;
use words::{Cause, CutAnswer, Format, Outcome, RoundBit, RoundBitWord, Word, refuse_for};

pub const CHANNELS: u32 = 4;

const MOST_CHANNEL: u32 = CHANNELS - 1;

const TAPS: usize = 8;

const TAP_WIDTH: u32 = 12;

const SAMPLE_WIDTH: u32 = 16;

const SUM_WIDTH: u64 = 31;

const CUT_DEPTH: u64 = 11;

// The taps of a channel, and the samples that they are for.
#[derive(Clone, Copy)]
struct Row {
    taps: [RoundBitWord; TAPS],
    window: [RoundBitWord; TAPS],
}

// Has any of eight words another format?
fn any_differ(f: Format, w: &[RoundBitWord; TAPS]) -> bool
    ensures { result ≡ any_differ f w.now }
{
    w.iter().any(|x| x.format != f)
}

// This width, with the unit of a word.
fn in_width(width: u32, w: RoundBitWord) -> Format
    ensures { result ≡ format width w.format.unit }
{
    Format {
        width,
        unit: w.format.unit,
    }
}

// Has any of eight words another width, or not the unit of the first?
fn unlike(width: u32, w: &[RoundBitWord; TAPS]) -> bool
    ensures { result ≡ unlike width w.now }
{
    let f = in_width(width, w[0]);
    any_differ(f, w)
}

// 1, 2, 3 of eight words, word by word. It is inlined, since calls of one loop for both rows take longer.
#[inline(always)]
fn words_check(w: &[RoundBitWord; TAPS]) -> Outcome
    ensures { result ≡ words_check w.now }
{
    for x in w {
        x.check()?;
    }
    Ok(())
}

// The round bit of a number's magnitude: turned over where the number is negative.
fn magnitude_bit(n: RightNumber) -> u8
    ensures { result ≡ (magnitude n.number).1 }
{
    n.number.1 ^ u8::from(n.number.0 < 0)
}

// The round bit of a product: of the magnitudes, turned over if exactly one number was negative.
fn product_bit(t: RightNumber, s: RightNumber) -> u8
    ensures { result ≡ (multiplied t.number s.number).1 }
{
    let exactly_one = (t.number.0 < 0) ^ (s.number.0 < 0);
    (magnitude_bit(t) & magnitude_bit(s)) ^ u8::from(exactly_one)
}

// What a number and its round bit are worth.
fn worth(n: RoundBit) -> i64
    requires { mag n.0 < 2 ^ 15 }
    ensures { result ≡ n.0 +ℤ pos n.1 }
{
    n.0 + i64::from(n.1)
}

// A tap times its sample: it is worth what they are worth, multiplied.
fn tap_product(t: RightNumber, s: RightNumber) -> RoundBit
    requires { (mag t.number.0 < 2 ^ 11) × (mag s.number.0 < 2 ^ 15) }
    ensures { result ≡ multiplied t.number s.number }
{
    let bit = product_bit(t, s);
    RoundBit(worth(t.number) * worth(s.number) - i64::from(bit), bit)
}

// A sum and one more product.
fn summed(m: RoundBit, n: RoundBit) -> RoundBit
    requires { (mag m.0 < 2 ^ 29) × (mag n.0 < 2 ^ 29) }
    ensures { result ≡ added m n }
{
    RoundBit(m.0 + n.0 + i64::from(m.1 & n.1), m.1 | n.1)
}

impl Row {
    // 1, 2, 3 of the taps, tap by tap, then of the samples, then 4.
    fn check(&self) -> Outcome
        ensures { result ≡ row_check self.now.taps self.now.window }
    {
        words_check(&self.taps)?;
        words_check(&self.window)?;
        let unlike = unlike(TAP_WIDTH, &self.taps) | unlike(SAMPLE_WIDTH, &self.window);
        refuse_for(Cause::Mismatch, unlike)
    }

    // The format of the sum; the 7 of the output comes with the cut.
    fn sum_format(&self) -> Result<Format, Cause>
        ensures { result ≡ given (row_check self.now.taps self.now.window or_else refuse 7 (bad_unit (products_unit self.now.taps self.now.window))) (format sum_width (products_unit self.now.taps self.now.window)) }
    {
        self.check()?;
        Format::formed(
            SUM_WIDTH,
            self.taps[0].format.units_multiplied(self.window[0].format),
        )
    }

    // Tap i times its sample.
    #[tactic(auto, using(crate::proofs::Summing::tap_small, crate::proofs::Summing::sample_small, crate::proofs::Summing::tap_bit, crate::proofs::Summing::sample_bit))]
    fn product(&self, i: usize) -> RoundBit
        requires { (row_check self.now.taps self.now.window ≡ Done) × (i < 8) }
        ensures { result ≡ multiplied (word_at self.now.taps i).number (word_at self.now.window i).number }
    {
        let t = RightNumber {
            number: self.taps[i].number,
        };
        let s = RightNumber {
            number: self.window[i].number,
        };
        tap_product(t, s)
    }

    // The products, added from tap 0 up.
    fn total(&self) -> RoundBit
        requires { row_check self.now.taps self.now.window ≡ Done }
        ensures { result ≡ (total (products self.now.taps self.now.window)).number }
    {
        let mut sum = self.product(0);
        for i in 1..TAPS {
            sum = summed(sum, self.product(i));
        }
        sum
    }

    fn sum_word(&self) -> Result<RoundBitWord, Cause>
        ensures { result ≡ given (row_check self.now.taps self.now.window or_else refuse 7 (bad_unit (products_unit self.now.taps self.now.window))) (total (products self.now.taps self.now.window)) }
    {
        let format = self.sum_format()?;
        Ok(Word {
            number: self.total(),
            format,
        })
    }
}

fn sum_of_channel(row: &Row, channel: u32) -> Result<RoundBitWord, Cause>
    ensures { result ≡ given (refuse 17 (ltb most_channel channel) or_else row_check row.now.taps row.now.window or_else refuse 7 (bad_unit (products_unit row.now.taps row.now.window))) (total (products row.now.taps row.now.window)) }
{
    refuse_for(Cause::Channel, MOST_CHANNEL < channel)?;
    row.sum_word()
}

// The output of a channel that has these taps: the sum, cut; 7 where the cut has no unit.
pub fn channel_output(
    taps: [RoundBitWord; 8],
    window: [RoundBitWord; 8],
    channel: u32,
) -> CutAnswer<RoundBit>
    ensures { result ≡ channel_output_of taps window channel }
{
    match sum_of_channel(&Row { taps, window }, channel) {
        Ok(sum) => round_bit::cut(sum, CUT_DEPTH),
        Err(cause) => CutAnswer::from(Err(cause)),
    }
}

// One channel's output. A channel that the bank has not is refused before its taps are looked at, so
// any row may stand for them.
pub fn output(
    bank: [[RoundBitWord; 8]; 4],
    window: [RoundBitWord; 8],
    channel: u32,
) -> CutAnswer<RoundBit>
    ensures { result ≡ output_of bank window channel }
{
    let c = (channel % CHANNELS) as usize;
    channel_output(bank[c], window, channel)
}
