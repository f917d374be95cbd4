// Samples of a digitiser that delivers IEEE 754 binary64: each imported to a plain, round-bit or
// half-unit word of a wanted width and unit.
//
// No float takes part: the work is on the bits. Every finite binary64 number is a whole count of the
// smallest above zero, 2^-1074, and a unit 2^e is 2^(1074 + e) of these. So in units of 2^e a sample is
// its significand, shifted: of the quotient the code keeps the whole part, the first binary digit behind
// the point, and whether any digit behind that one is 1. These settle every tie, and only then the
// width is tested.
//
// The definitions are in specs/: Import has the counts and the answers, Claims what is claimed of them,
// Parts the quotient as the code keeps it.
#![tactic(auto)]

ghost use Rattle.std.specs.Prelude.{◌≡◌, true, ◌+◌, ◌*◌, ◌/◌, ◌%◌, ◌^◌, ◌<◌, ◌≤◌, pos, neg_ℤ, ◌+ℤ◌, ◌≤ℤ◌};
ghost use Rattle.std.specs.Int.Bits.{bit_and, bit_or};
ghost use Rattle.std.specs.Float.{binary64};
ghost use Rattle.std.specs.Float.Ieee.{low, hid, top};
ghost use Rattle.std.specs.Float.Ieee.Exact.{HasValue};
ghost use Rattle.std.specs.Float.Ieee.Scale.{finite};
ghost use Rattle.words.specs.Outcomes.{given, ◌then◌};
ghost use Rattle.words.specs.Words.{most_unit, outside};
ghost use Rattle.words.specs.Refusals.{refuse};
ghost use Rattle.words.specs.Formats.{format};
ghost use Rattle.words.specs.Plain.{plain_word};
ghost use Rattle.words.specs.RoundBit.{round_bit_word};
ghost use Rattle.words.specs.HalfUnit.{half_unit_word};
ghost use Rattle.binary64.specs.Import.{sample, signed, quotient, in_units, whole_count, half_odd_count, import_check, to_plain_of, to_round_bit_of, to_half_unit_of};

use words::{
    Cause, Format, HalfUnit, HalfUnitAnswer, HalfUnitWord, Outcome, Plain, PlainAnswer, PlainWord,
    RoundBit, RoundBitAnswer, RoundBitWord, Word,
};

// The bits from the right: 52 digits of the significand, 11 of the exponent's field, the sign.
const SIGN: u64 = 1 << 63;

const LEAD: u64 = 1 << 52;

// The field of an infinity or a not-a-number.
const ONES: u64 = (1 << 11) - 1;

// The smallest number above zero is 2^-SMALLEST.
const SMALLEST: i64 = 1074;

// More units than any word holds, with either sign.
const TOO_MANY: u64 = i64::MAX as u64;

// The exponent's field.
fn field(bits: u64) -> u64
    ensures { result ≡ bits % top binary64 / hid binary64 }
{
    bits % SIGN / LEAD
}

fn is_finite(bits: u64) -> bool
    ensures { result ≡ finite (sample bits) }
{
    field(bits) != ONES
}

// A finite number: significand * 2^places of the smallest. Only a number without places may lack its leading
// digit.
#[derive(Clone, Copy)]
struct Scaled {
    negative: bool,
    significand: u64,
    places: u64,
    ghost short: { significand < 2 ^ 53 },
    ghost led: { 0 < places → 2 ^ 52 ≤ significand },
}

impl Scaled {
    ghost use Rattle.binary64.specs.Parts.{parts_of};

    // A field of 0 has no leading digit, and the places of a field of 1.
    fn decoded(bits: u64) -> Scaled
        requires { finite (sample bits) ≡ true }
        ensures { HasValue (sample bits) result.negative (result.significand * 2 ^ result.places) (2 ^ low binary64) }
    {
        let field = field(bits);
        let (lead, places) = if field == 0 {
            (0, 0)
        } else {
            (LEAD, field - 1)
        };
        Scaled {
            negative: SIGN <= bits,
            significand: lead + bits % LEAD,
            places,
        }
    }

    // significand / 2^d, d at least 1.
    fn cut(self, d: u64) -> Parts
        requires { 0 < d }
        ensures { (result ≡ parts_of (quotient self.negative self.significand (2 ^ d))) × (result.whole < 2 ^ 53) }
    {
        let x = self.significand as i64;
        Parts {
            negative: self.negative,
            whole: integers::floor_by(x, d) as u64,
            half: integers::digit(x, d - 1),
            more: integers::any_below(x, d - 1),
        }
    }

    // significand * 2^l. Shifted by 10 places it is below 2^63; by 11 it is more than any word holds, if it has its
    // leading digit.
    fn raised(self, l: u64) -> Parts
        requires { 2 ^ 52 ≤ self.significand }
        ensures { result ≡ parts_of (quotient self.negative (self.significand * 2 ^ l) 1) }
    {
        let whole = if 10 < l {
            TOO_MANY
        } else {
            self.significand << l
        };
        Parts {
            negative: self.negative,
            whole,
            half: 0,
            more: 0,
        }
    }
}

// The unit 2^unit is 2^depth of the smallest number.
fn depth(unit: i32) -> u64
    requires { neg_ℤ most_unit ≤ℤ unit }
    ensures { pos result ≡ pos (low binary64) +ℤ unit }
{
    (SMALLEST + i64::from(unit)) as u64
}

// Does the nearest whole count lie above the whole part? Past the half, and at the half where the whole
// part is odd: (T or b) and h of document 001's equation 11.
fn goes_up(odd: u8, half: u8, more: u8) -> u8
    ensures { result ≡ bit_and (bit_or more odd) half }
{
    (more | odd) & half
}

// A count of units that need not be whole: in binary, its whole part, the first digit behind the point,
// and 1 if any digit behind that one is 1.
#[derive(Clone, Copy)]
struct Parts {
    negative: bool,
    whole: u64,
    half: u8,
    more: u8,
}

impl Parts {
    ghost use Rattle.binary64.specs.Parts.{parts_of, nearest_of, half_odd_of};

    // The sample in units of 2^unit.
    fn in_units(bits: u64, unit: i32) -> Parts
        requires { (finite (sample bits) ≡ true) × (neg_ℤ most_unit ≤ℤ unit) }
        ensures { (result ≡ parts_of (in_units (sample bits) unit)) × (result.whole + result.half < 2 ^ 63) }
    {
        let x = Scaled::decoded(bits);
        let d = depth(unit);
        if x.places < d {
            x.cut(d - x.places)
        } else {
            x.raised(x.places - d)
        }
    }

    fn nearest(self) -> u64
        requires { self.whole + self.half < 2 ^ 63 }
        ensures { result ≡ nearest_of self }
    {
        let odd = (self.whole % 2) as u8;
        self.whole + u64::from(goes_up(odd, self.half, self.more))
    }

    // A count with this one's sign.
    fn signed(self, n: u64) -> i64
        requires { n < 2 ^ 63 }
        ensures { result ≡ signed self.negative n }
    {
        if self.negative { -(n as i64) } else { n as i64 }
    }

    // The number of the nearest half-odd count: the floor, or of a whole count that with its lowest digit
    // cleared.
    fn half_odd(self) -> i64
        requires { self.whole < 2 ^ 63 }
        ensures { result ≡ half_odd_of self }
    {
        let behind: u8 = self.half | self.more;
        if behind == 0 {
            integers::cleared(self.signed(self.whole))
        } else if self.negative {
            !(self.whole as i64)
        } else {
            self.whole as i64
        }
    }
}

#[tactic(auto, unfolding(crate::specs::Import::import_check))]
fn import_check(bits: u64, f: Format) -> Outcome
    ensures { result ≡ import_check bits f }
{
    f.check()?;
    words::refuse_for(Cause::NotFinite, !is_finite(bits))
}

// The sign is given twice, so that a test of another number than the answer's can be tried in place.
fn plain_counted(bits: u64, f: Format) -> Result<PlainWord, Cause>
    ensures { result ≡ (import_check bits f then given (refuse 8 (outside f (whole_count bits f.unit))) (plain_word (whole_count bits f.unit) f)) }
{
    import_check(bits, f)?;
    let p = Parts::in_units(bits, f.unit);
    let count = p.nearest();
    let past = f.outside(p.signed(count));
    words::refuse_for(Cause::NumberPast, past)?;
    Ok(Word {
        number: Plain(p.signed(count)),
        format: f,
    })
}

#[tactic(auto, unfolding(words::specs::Plain::plain_fitted), using(words::proofs::Given::answer_fitted))]
pub fn to_plain(bits: u64, width: u32, unit: i32) -> PlainAnswer
    ensures { result ≡ to_plain_of bits (format width unit) }
{
    plain_counted(bits, Format { width, unit }).into()
}

// The plain word with round bit 0.
fn round_bit_counted(bits: u64, f: Format) -> Result<RoundBitWord, Cause>
    ensures { result ≡ (import_check bits f then given (refuse 8 (outside f (whole_count bits f.unit))) (round_bit_word (whole_count bits f.unit) 0 f)) }
{
    let plain = plain_counted(bits, f)?;
    Ok(Word {
        number: RoundBit(plain.number.0, 0),
        format: plain.format,
    })
}

#[tactic(auto, unfolding(words::specs::RoundBit::round_bit_fitted), using(words::proofs::Given::answer_fitted))]
pub fn to_round_bit(bits: u64, width: u32, unit: i32) -> RoundBitAnswer
    ensures { result ≡ to_round_bit_of bits (format width unit) }
{
    round_bit_counted(bits, Format { width, unit }).into()
}

fn half_unit_counted(bits: u64, f: Format) -> Result<HalfUnitWord, Cause>
    ensures { result ≡ (import_check bits f then given (refuse 8 (outside f (half_odd_count bits f.unit))) (half_unit_word (half_odd_count bits f.unit) f)) }
{
    import_check(bits, f)?;
    Word {
        number: HalfUnit(Parts::in_units(bits, f.unit).half_odd()),
        format: f,
    }
    .fitted()
}

#[tactic(auto, unfolding(words::specs::HalfUnit::half_unit_fitted), using(words::proofs::Given::answer_fitted))]
pub fn to_half_unit(bits: u64, width: u32, unit: i32) -> HalfUnitAnswer
    ensures { result ≡ to_half_unit_of bits (format width unit) }
{
    half_unit_counted(bits, Format { width, unit }).into()
}
