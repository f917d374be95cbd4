// The boundary: every operation as C sees it. Nothing is decided here.
//
// A word is a flat struct by value, an outcome its number in the table of refusals. Two kinds of word are
// two structs, also where their fields are alike. A C caller is never checked, so no function here asks
// anything of what it is handed; a lent buffer is a pointer and a length. include/frostuldi.h declares
// all of it and says what no proof covers.
//
// The definitions are in specs/Boundary.antt: how a flat word is read and how an answer is laid flat.
#![tactic(auto)]

ghost use Rattle.std.specs.Prelude.{◌≡◌, map, ◌<◌, pos, length};
ghost use Rattle.words.specs.Formats.{format};
ghost use Rattle.round_bit.specs.Cuts.{sign_change_of, cut_of, rest_of, even_cut_of, widen_of};
ghost use Rattle.round_bit.specs.Arithmetic.{sum_of, difference_of, product_of, to_plain_of, from_plain_of};
ghost use Rattle.half_unit.specs.Cuts.{sign_change_of as half_sign_change_of, cut_of as half_cut_of};
ghost use Rattle.half_unit.specs.Conversions.{from_plain_up_of, from_plain_even_of, to_plain_of as half_to_plain_of, to_round_bit_of, from_round_bit_of};
ghost use Rattle.half_unit.specs.Arithmetic.{sum_up_of, sum_even_of, product_of as half_product_of};
ghost use Rattle.binary64.specs.Import.{to_plain_of as import_plain_of, to_round_bit_of as import_round_bit_of, to_half_unit_of as import_half_unit_of};
ghost use Rattle.filter_bank.specs.Bank.{row_of, output_of};
ghost use Rattle.running_sum.specs.Steps.{blank, open_of, put, hand_out, empty, step_of};
ghost use Rattle.digit_text.specs.Digits.{write_of as text_write_of, buffer_of};
ghost use Rattle.digit_text.specs.Reading.{read_of as text_read_of};
ghost use Rattle.block_file.specs.Layout.{block};
ghost use Rattle.block_file.specs.Reading.{read_of as file_read_of, numbers_after, rounds_after};
ghost use Rattle.block_file.specs.Writing.{write_of as file_write_of, file_after};
ghost use Rattle.reading.specs.Readings.{reading_of_run};
ghost use Rattle.block_sum.specs.Sums.{block_sum_of};
ghost use Rattle.listing_text.specs.Listing.{list_of, text_after};
ghost use Rattle.frostuldi.specs.Boundary.{version, plain_in, half_unit_in, round_bit_in, sum_in, window_in, bank_in, flat_plain, flat_half_unit, flat_round_bit, flat_sum, plain_out, half_unit_out, round_bit_out, sum_out, text_out, head_out, written_out, flat_reading, reading_out, block_sum_out};

use block_file::ReadAnswer;
use block_sum::BlockSumAnswer;
use digit_text::ReadAnswer as TextAnswer;
use reading::{Reading, ReadingAnswer};
use running_sum::{HandedAnswer, RunningSum, SumAnswer};
use words::{
    CutAnswer, Format, HalfUnit, HalfUnitAnswer, HalfUnitWord, Plain, PlainAnswer, PlainWord,
    RoundBit, RoundBitAnswer, RoundBitWord, Word, WriteAnswer,
};

#[repr(C)]
#[derive(Clone, Copy)]
pub struct FrostPlain {
    pub number: i64,
    pub width: u32,
    pub unit: i32,
}

#[repr(C)]
#[derive(Clone, Copy)]
pub struct FrostHalfUnit {
    pub number: i64,
    pub width: u32,
    pub unit: i32,
}

#[repr(C)]
#[derive(Clone, Copy)]
pub struct FrostRoundBit {
    pub number: i64,
    pub width: u32,
    pub unit: i32,
    pub round: u8,
}

#[repr(C)]
#[derive(Clone, Copy)]
pub struct FrostPlainAnswer {
    pub word: FrostPlain,
    pub refusal: u32,
}

#[repr(C)]
#[derive(Clone, Copy)]
pub struct FrostHalfUnitAnswer {
    pub word: FrostHalfUnit,
    pub refusal: u32,
}

#[repr(C)]
#[derive(Clone, Copy)]
pub struct FrostRoundBitAnswer {
    pub word: FrostRoundBit,
    pub refusal: u32,
}

#[repr(C)]
#[derive(Clone, Copy)]
pub struct FrostRunningSum {
    pub kept: FrostRoundBit,
    pub depth: u64,
}

// An opening and a put hand back no word: theirs is the blank one.
#[repr(C)]
#[derive(Clone, Copy)]
pub struct FrostSumAnswer {
    pub sum: FrostRunningSum,
    pub word: FrostRoundBit,
    pub refusal: u32,
}

// Eight words, one behind the other: a struct of rows has the bytes of an array of arrays.
#[repr(C)]
#[derive(Clone, Copy)]
pub struct FrostTaps {
    pub taps: [FrostRoundBit; 8],
}

#[repr(C)]
#[derive(Clone, Copy)]
pub struct FrostBank {
    pub channels: [FrostTaps; 4],
}

#[repr(C)]
#[derive(Clone, Copy)]
pub struct FrostWindow {
    pub samples: [FrostRoundBit; 8],
}

#[repr(C)]
#[derive(Clone, Copy)]
pub struct FrostTextAnswer {
    pub word: FrostRoundBit,
    pub refusal: u32,
    pub place: u32,
}

#[repr(C)]
#[derive(Clone, Copy)]
pub struct FrostFileHead {
    pub refusal: u32,
    pub kind: u32,
    pub width: u32,
    pub unit: i32,
    pub count: u32,
}

#[repr(C)]
#[derive(Clone, Copy)]
pub struct FrostWritten {
    pub bytes: u64,
    pub refusal: u32,
}

#[repr(C)]
#[derive(Clone, Copy)]
pub struct FrostReading {
    pub lowest: f32,
    pub highest: f32,
    pub first: f32,
}

#[repr(C)]
#[derive(Clone, Copy)]
pub struct FrostReadingAnswer {
    pub reading: FrostReading,
    pub refusal: u32,
}

#[repr(C)]
#[derive(Clone, Copy)]
pub struct FrostBlockSumAnswer {
    pub word: FrostRoundBit,
    pub index: u64,
    pub refusal: u32,
}

// What comes in.

impl From<FrostPlain> for PlainWord {
    ghost from_gives = { λ w r. r ≡ plain_in w };

    fn from(w: FrostPlain) -> PlainWord {
        Word {
            number: Plain(w.number),
            format: Format {
                width: w.width,
                unit: w.unit,
            },
        }
    }
}

impl From<FrostHalfUnit> for HalfUnitWord {
    ghost from_gives = { λ w r. r ≡ half_unit_in w };

    fn from(w: FrostHalfUnit) -> HalfUnitWord {
        Word {
            number: HalfUnit(w.number),
            format: Format {
                width: w.width,
                unit: w.unit,
            },
        }
    }
}

impl From<FrostRoundBit> for RoundBitWord {
    ghost from_gives = { λ w r. r ≡ round_bit_in w };

    fn from(w: FrostRoundBit) -> RoundBitWord {
        Word {
            number: RoundBit(w.number, w.round),
            format: Format {
                width: w.width,
                unit: w.unit,
            },
        }
    }
}

impl From<FrostRunningSum> for RunningSum {
    ghost from_gives = { λ s r. r ≡ sum_in s };

    fn from(s: FrostRunningSum) -> RunningSum {
        RunningSum {
            kept: s.kept.into(),
            depth: s.depth,
        }
    }
}

fn eight_in(w: [FrostRoundBit; 8]) -> [RoundBitWord; 8]
    ensures { result ≡ map round_bit_in w }
{
    w.map(|x| RoundBitWord::from(x))
}

// The taps of a channel, one of four. Each is read at its own place: at a place that is found the whole bank would be
// copied first.
fn row_in(bank: FrostBank, channel: u32) -> [RoundBitWord; 8]
    requires { channel < 4 }
    ensures { result ≡ row_of (bank_in bank) channel }
{
    match channel {
        0 => eight_in(bank.channels[0].taps),
        1 => eight_in(bank.channels[1].taps),
        2 => eight_in(bank.channels[2].taps),
        _ => eight_in(bank.channels[3].taps),
    }
}

// What goes out.

impl From<PlainWord> for FrostPlain {
    ghost from_gives = { λ w r. r ≡ flat_plain w };

    fn from(w: PlainWord) -> FrostPlain {
        FrostPlain {
            number: w.number.0,
            width: w.format.width,
            unit: w.format.unit,
        }
    }
}

impl From<HalfUnitWord> for FrostHalfUnit {
    ghost from_gives = { λ w r. r ≡ flat_half_unit w };

    fn from(w: HalfUnitWord) -> FrostHalfUnit {
        FrostHalfUnit {
            number: w.number.0,
            width: w.format.width,
            unit: w.format.unit,
        }
    }
}

impl From<RoundBitWord> for FrostRoundBit {
    ghost from_gives = { λ w r. r ≡ flat_round_bit w };

    fn from(w: RoundBitWord) -> FrostRoundBit {
        FrostRoundBit {
            number: w.number.0,
            width: w.format.width,
            unit: w.format.unit,
            round: w.number.1,
        }
    }
}

impl From<RunningSum> for FrostRunningSum {
    ghost from_gives = { λ s r. r ≡ flat_sum s };

    fn from(s: RunningSum) -> FrostRunningSum {
        FrostRunningSum {
            kept: s.kept.into(),
            depth: s.depth,
        }
    }
}

impl From<PlainAnswer> for FrostPlainAnswer {
    ghost from_gives = { λ a r. r ≡ plain_out a.outcome a.word };

    fn from(a: PlainAnswer) -> FrostPlainAnswer {
        FrostPlainAnswer {
            word: a.word.into(),
            refusal: words::number_of(a.outcome),
        }
    }
}

impl From<HalfUnitAnswer> for FrostHalfUnitAnswer {
    ghost from_gives = { λ a r. r ≡ half_unit_out a.outcome a.word };

    fn from(a: HalfUnitAnswer) -> FrostHalfUnitAnswer {
        FrostHalfUnitAnswer {
            word: a.word.into(),
            refusal: words::number_of(a.outcome),
        }
    }
}

impl From<CutAnswer<HalfUnit>> for FrostHalfUnitAnswer {
    ghost from_gives = { λ a r. r ≡ half_unit_out a.outcome a.word };

    fn from(a: CutAnswer<HalfUnit>) -> FrostHalfUnitAnswer {
        FrostHalfUnitAnswer {
            word: a.word.into(),
            refusal: words::number_of(a.outcome),
        }
    }
}

impl From<RoundBitAnswer> for FrostRoundBitAnswer {
    ghost from_gives = { λ a r. r ≡ round_bit_out a.outcome a.word };

    fn from(a: RoundBitAnswer) -> FrostRoundBitAnswer {
        FrostRoundBitAnswer {
            word: a.word.into(),
            refusal: words::number_of(a.outcome),
        }
    }
}

impl From<CutAnswer<RoundBit>> for FrostRoundBitAnswer {
    ghost from_gives = { λ a r. r ≡ round_bit_out a.outcome a.word };

    fn from(a: CutAnswer<RoundBit>) -> FrostRoundBitAnswer {
        FrostRoundBitAnswer {
            word: a.word.into(),
            refusal: words::number_of(a.outcome),
        }
    }
}

impl From<SumAnswer> for FrostSumAnswer {
    ghost from_gives = { λ a r. r ≡ sum_out a.outcome blank a.sum };

    fn from(a: SumAnswer) -> FrostSumAnswer {
        FrostSumAnswer {
            sum: a.sum.into(),
            word: RoundBitWord::blank().into(),
            refusal: words::number_of(a.outcome),
        }
    }
}

impl From<HandedAnswer> for FrostSumAnswer {
    ghost from_gives = { λ a r. r ≡ sum_out a.outcome a.word a.sum };

    fn from(a: HandedAnswer) -> FrostSumAnswer {
        FrostSumAnswer {
            sum: a.sum.into(),
            word: a.word.into(),
            refusal: words::number_of(a.outcome),
        }
    }
}

impl From<TextAnswer> for FrostTextAnswer {
    ghost from_gives = { λ a r. r ≡ text_out a };

    fn from(a: TextAnswer) -> FrostTextAnswer {
        FrostTextAnswer {
            word: a.word.into(),
            refusal: words::number_of(a.outcome),
            place: a.place,
        }
    }
}

impl From<Reading> for FrostReading {
    ghost from_gives = { λ n r. r ≡ flat_reading n };

    fn from(n: Reading) -> FrostReading {
        FrostReading {
            lowest: n.lowest,
            highest: n.highest,
            first: n.first,
        }
    }
}

impl From<ReadingAnswer> for FrostReadingAnswer {
    ghost from_gives = { λ a r. r ≡ reading_out a };

    fn from(a: ReadingAnswer) -> FrostReadingAnswer {
        FrostReadingAnswer {
            reading: a.reading.into(),
            refusal: words::number_of(a.outcome),
        }
    }
}

impl From<BlockSumAnswer> for FrostBlockSumAnswer {
    ghost from_gives = { λ a r. r ≡ block_sum_out a };

    fn from(a: BlockSumAnswer) -> FrostBlockSumAnswer {
        FrostBlockSumAnswer {
            word: a.word.into(),
            index: a.index,
            refusal: words::number_of(a.outcome),
        }
    }
}

impl From<ReadAnswer> for FrostFileHead {
    ghost from_gives = { λ a r. r ≡ head_out a };

    fn from(a: ReadAnswer) -> FrostFileHead {
        FrostFileHead {
            refusal: words::number_of(a.outcome),
            kind: a.head.kind,
            width: a.head.format.width,
            unit: a.head.format.unit,
            count: a.head.count,
        }
    }
}

impl From<WriteAnswer> for FrostWritten {
    ghost from_gives = { λ a r. r ≡ written_out a };

    fn from(a: WriteAnswer) -> FrostWritten {
        FrostWritten {
            bytes: a.count as u64,
            refusal: words::number_of(a.outcome),
        }
    }
}

// Round-bit words.

#[unsafe(no_mangle)]
pub extern "C" fn frost_round_bit_sign_change(w: FrostRoundBit) -> FrostRoundBitAnswer
    ensures { result ≡ round_bit_out (sign_change_of (round_bit_in w)).outcome (sign_change_of (round_bit_in w)).word }
{
    round_bit::sign_change(w.into()).into()
}

#[unsafe(no_mangle)]
pub extern "C" fn frost_round_bit_cut(w: FrostRoundBit, depth: u64) -> FrostRoundBitAnswer
    ensures { result ≡ round_bit_out (cut_of (round_bit_in w) depth).outcome (cut_of (round_bit_in w) depth).word }
{
    round_bit::cut(w.into(), depth).into()
}

#[unsafe(no_mangle)]
pub extern "C" fn frost_round_bit_even_cut(w: FrostRoundBit, depth: u64) -> FrostRoundBitAnswer
    ensures { result ≡ round_bit_out (even_cut_of (round_bit_in w) depth).outcome (even_cut_of (round_bit_in w) depth).word }
{
    round_bit::even_cut(w.into(), depth).into()
}

#[unsafe(no_mangle)]
pub extern "C" fn frost_round_bit_rest(w: FrostRoundBit, depth: u64) -> FrostRoundBitAnswer
    ensures { result ≡ round_bit_out (rest_of (round_bit_in w) depth).outcome (rest_of (round_bit_in w) depth).word }
{
    round_bit::rest(w.into(), depth).into()
}

#[unsafe(no_mangle)]
pub extern "C" fn frost_round_bit_widen(w: FrostRoundBit, depth: u64) -> FrostRoundBitAnswer
    ensures { result ≡ round_bit_out (widen_of (round_bit_in w) depth).outcome (widen_of (round_bit_in w) depth).word }
{
    round_bit::widen(w.into(), depth).into()
}

#[unsafe(no_mangle)]
pub extern "C" fn frost_round_bit_sum(x: FrostRoundBit, y: FrostRoundBit) -> FrostRoundBitAnswer
    ensures { result ≡ round_bit_out (sum_of (round_bit_in x) (round_bit_in y)).outcome (sum_of (round_bit_in x) (round_bit_in y)).word }
{
    round_bit::sum(x.into(), y.into()).into()
}

#[unsafe(no_mangle)]
pub extern "C" fn frost_round_bit_difference(
    x: FrostRoundBit,
    y: FrostRoundBit,
) -> FrostRoundBitAnswer
    ensures { result ≡ round_bit_out (difference_of (round_bit_in x) (round_bit_in y)).outcome (difference_of (round_bit_in x) (round_bit_in y)).word }
{
    round_bit::difference(x.into(), y.into()).into()
}

#[unsafe(no_mangle)]
pub extern "C" fn frost_round_bit_product(x: FrostRoundBit, y: FrostRoundBit) -> FrostRoundBitAnswer
    ensures { result ≡ round_bit_out (product_of (round_bit_in x) (round_bit_in y)).outcome (product_of (round_bit_in x) (round_bit_in y)).word }
{
    round_bit::product(x.into(), y.into()).into()
}

#[unsafe(no_mangle)]
pub extern "C" fn frost_round_bit_to_plain(w: FrostRoundBit) -> FrostPlainAnswer
    ensures { result ≡ plain_out (to_plain_of (round_bit_in w)).outcome (to_plain_of (round_bit_in w)).word }
{
    round_bit::to_plain(w.into()).into()
}

#[unsafe(no_mangle)]
pub extern "C" fn frost_round_bit_from_plain(w: FrostPlain) -> FrostRoundBitAnswer
    ensures { result ≡ round_bit_out (from_plain_of (plain_in w)).outcome (from_plain_of (plain_in w)).word }
{
    round_bit::from_plain(w.into()).into()
}

// Half-unit words.

#[unsafe(no_mangle)]
pub extern "C" fn frost_half_unit_sign_change(w: FrostHalfUnit) -> FrostHalfUnitAnswer
    ensures { result ≡ half_unit_out (half_sign_change_of (half_unit_in w)).outcome (half_sign_change_of (half_unit_in w)).word }
{
    half_unit::sign_change(w.into()).into()
}

#[unsafe(no_mangle)]
pub extern "C" fn frost_half_unit_cut(w: FrostHalfUnit, depth: u64) -> FrostHalfUnitAnswer
    ensures { result ≡ half_unit_out (half_cut_of (half_unit_in w) depth).outcome (half_cut_of (half_unit_in w) depth).word }
{
    half_unit::cut(w.into(), depth).into()
}

#[unsafe(no_mangle)]
pub extern "C" fn frost_half_unit_from_plain_up(w: FrostPlain, depth: u64) -> FrostHalfUnitAnswer
    ensures { result ≡ half_unit_out (from_plain_up_of (plain_in w) depth).outcome (from_plain_up_of (plain_in w) depth).word }
{
    half_unit::from_plain_up(w.into(), depth).into()
}

#[unsafe(no_mangle)]
pub extern "C" fn frost_half_unit_from_plain_even(w: FrostPlain, depth: u64) -> FrostHalfUnitAnswer
    ensures { result ≡ half_unit_out (from_plain_even_of (plain_in w) depth).outcome (from_plain_even_of (plain_in w) depth).word }
{
    half_unit::from_plain_even(w.into(), depth).into()
}

#[unsafe(no_mangle)]
pub extern "C" fn frost_half_unit_to_plain(w: FrostHalfUnit) -> FrostPlainAnswer
    ensures { result ≡ plain_out (half_to_plain_of (half_unit_in w)).outcome (half_to_plain_of (half_unit_in w)).word }
{
    half_unit::to_plain(w.into()).into()
}

#[unsafe(no_mangle)]
pub extern "C" fn frost_half_unit_to_round_bit(w: FrostHalfUnit) -> FrostRoundBitAnswer
    ensures { result ≡ round_bit_out (to_round_bit_of (half_unit_in w)).outcome (to_round_bit_of (half_unit_in w)).word }
{
    half_unit::to_round_bit(w.into()).into()
}

#[unsafe(no_mangle)]
pub extern "C" fn frost_half_unit_from_round_bit(w: FrostRoundBit) -> FrostHalfUnitAnswer
    ensures { result ≡ half_unit_out (from_round_bit_of (round_bit_in w)).outcome (from_round_bit_of (round_bit_in w)).word }
{
    half_unit::from_round_bit(w.into()).into()
}

#[unsafe(no_mangle)]
pub extern "C" fn frost_half_unit_sum_up(x: FrostHalfUnit, y: FrostHalfUnit) -> FrostHalfUnitAnswer
    ensures { result ≡ half_unit_out (sum_up_of (half_unit_in x) (half_unit_in y)).outcome (sum_up_of (half_unit_in x) (half_unit_in y)).word }
{
    half_unit::sum_up(x.into(), y.into()).into()
}

#[unsafe(no_mangle)]
pub extern "C" fn frost_half_unit_sum_even(
    x: FrostHalfUnit,
    y: FrostHalfUnit,
) -> FrostHalfUnitAnswer
    ensures { result ≡ half_unit_out (sum_even_of (half_unit_in x) (half_unit_in y)).outcome (sum_even_of (half_unit_in x) (half_unit_in y)).word }
{
    half_unit::sum_even(x.into(), y.into()).into()
}

#[unsafe(no_mangle)]
pub extern "C" fn frost_half_unit_product(x: FrostHalfUnit, y: FrostHalfUnit) -> FrostHalfUnitAnswer
    ensures { result ≡ half_unit_out (half_product_of (half_unit_in x) (half_unit_in y)).outcome (half_product_of (half_unit_in x) (half_unit_in y)).word }
{
    half_unit::product(x.into(), y.into()).into()
}

// Samples of a digitiser, by their bits.

#[unsafe(no_mangle)]
pub extern "C" fn frost_plain_from_binary64(bits: u64, width: u32, unit: i32) -> FrostPlainAnswer
    ensures { result ≡ plain_out (import_plain_of bits (format width unit)).outcome (import_plain_of bits (format width unit)).word }
{
    binary64::to_plain(bits, width, unit).into()
}

#[unsafe(no_mangle)]
pub extern "C" fn frost_round_bit_from_binary64(
    bits: u64,
    width: u32,
    unit: i32,
) -> FrostRoundBitAnswer
    ensures { result ≡ round_bit_out (import_round_bit_of bits (format width unit)).outcome (import_round_bit_of bits (format width unit)).word }
{
    binary64::to_round_bit(bits, width, unit).into()
}

#[unsafe(no_mangle)]
pub extern "C" fn frost_half_unit_from_binary64(
    bits: u64,
    width: u32,
    unit: i32,
) -> FrostHalfUnitAnswer
    ensures { result ≡ half_unit_out (import_half_unit_of bits (format width unit)).outcome (import_half_unit_of bits (format width unit)).word }
{
    binary64::to_half_unit(bits, width, unit).into()
}

// The filter bank. Only the channel's own row is read; of a channel that the bank has not, which is refused, any row.

#[unsafe(no_mangle)]
pub extern "C" fn frost_bank_output(
    bank: FrostBank,
    window: FrostWindow,
    channel: u32,
) -> FrostRoundBitAnswer
    ensures { result ≡ round_bit_out (output_of (bank_in bank) (window_in window) channel).outcome (output_of (bank_in bank) (window_in window) channel).word }
{
    let taps = row_in(bank, channel % filter_bank::CHANNELS);
    filter_bank::channel_output(taps, eight_in(window.samples), channel).into()
}

// The running sum.

#[unsafe(no_mangle)]
pub extern "C" fn frost_running_sum_open(width: u32, unit: i32, depth: u64) -> FrostSumAnswer
    ensures { result ≡ sum_out (open_of width unit depth).outcome blank (open_of width unit depth).sum }
{
    running_sum::open(width, unit, depth).into()
}

#[unsafe(no_mangle)]
pub extern "C" fn frost_running_sum_put(s: FrostRunningSum, w: FrostRoundBit) -> FrostSumAnswer
    ensures { result ≡ sum_out (step_of (sum_in s) (put (round_bit_in w))).outcome blank (step_of (sum_in s) (put (round_bit_in w))).sum }
{
    RunningSum::from(s).put(w.into()).into()
}

#[unsafe(no_mangle)]
pub extern "C" fn frost_running_sum_hand_out(s: FrostRunningSum) -> FrostSumAnswer
    ensures { result ≡ sum_out (step_of (sum_in s) hand_out).outcome (step_of (sum_in s) hand_out).word (step_of (sum_in s) hand_out).sum }
{
    RunningSum::from(s).hand_out().into()
}

#[unsafe(no_mangle)]
pub extern "C" fn frost_running_sum_empty(s: FrostRunningSum) -> FrostSumAnswer
    ensures { result ≡ sum_out (step_of (sum_in s) empty).outcome (step_of (sum_in s) empty).word (step_of (sum_in s) empty).sum }
{
    RunningSum::from(s).empty().into()
}

// Which library this is: 10000 * major + 100 * minor + patch.
#[unsafe(no_mangle)]
pub extern "C" fn frost_version() -> u32
    ensures { result ≡ version }
{
    30100
}

// Digit texts, block files, readings, block sums and listings.

#[unsafe(no_mangle)]
pub extern "C" fn frost_digit_text_write(w: FrostRoundBit, text: &mut [u8]) -> FrostWritten
    ensures value { result ≡ written_out (text_write_of (round_bit_in w) (length text.old)) }
    ensures text_new { text.new ≡ buffer_of (round_bit_in w) text.old }
{
    digit_text::write(w.into(), text).into()
}

#[unsafe(no_mangle)]
pub extern "C" fn frost_digit_text_read(text: &[u8], unit: i32) -> FrostTextAnswer
    ensures { result ≡ text_out (text_read_of text.now unit) }
{
    digit_text::read(text, unit).into()
}

#[unsafe(no_mangle)]
pub extern "C" fn frost_file_read(
    file: &[u8],
    numbers: &mut [i64],
    rounds: &mut [u8],
) -> FrostFileHead
    ensures value { result ≡ head_out (file_read_of file.now (length numbers.old) (length rounds.old)) }
    ensures numbers_new { numbers.new ≡ numbers_after file.now numbers.old rounds.old }
    ensures rounds_new { rounds.new ≡ rounds_after file.now numbers.old rounds.old }
{
    block_file::read(file, numbers, rounds).into()
}

#[unsafe(no_mangle)]
pub extern "C" fn frost_file_write(
    kind: u32,
    width: u32,
    unit: i32,
    numbers: &[i64],
    rounds: &[u8],
    file: &mut [u8],
) -> FrostWritten
    ensures value { result ≡ written_out (file_write_of (block kind (format width unit) numbers.now rounds.now) (length file.old)) }
    ensures file_new { file.new ≡ file_after (block kind (format width unit) numbers.now rounds.now) file.old }
{
    block_file::write(kind, Format { width, unit }, numbers, rounds, file).into()
}

#[unsafe(no_mangle)]
pub extern "C" fn frost_reading_of_run(
    kind: u32,
    width: u32,
    numbers: &[i64],
    rounds: &[u8],
    first: usize,
    length: usize,
) -> FrostReadingAnswer
    ensures { result ≡ reading_out (reading_of_run (block kind (format width (pos 0)) numbers.now rounds.now) first length) }
{
    reading::of_run(kind, width, numbers, rounds, first, length).into()
}

#[unsafe(no_mangle)]
pub extern "C" fn frost_block_sum(
    width: u32,
    unit: i32,
    numbers: &[i64],
    rounds: &[u8],
) -> FrostBlockSumAnswer
    ensures { result ≡ block_sum_out (block_sum_of (format width unit) numbers.now rounds.now) }
{
    block_sum::block_sum(width, unit, numbers, rounds).into()
}

#[unsafe(no_mangle)]
pub extern "C" fn frost_listing_text(file: &[u8], text: &mut [u8]) -> FrostWritten
    ensures value { result ≡ written_out (list_of file.now (length text.old)) }
    ensures text_new { text.new ≡ text_after file.now text.old }
{
    listing_text::list(file, text).into()
}
