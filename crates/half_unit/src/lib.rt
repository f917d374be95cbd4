// Half-unit words: sign change, cut, the two sums, product, and the way from and to plain and
// round-bit words.
//
// A half-unit word w is worth w + 1/2: it always ends in a half that is not stored. So a sign change
// turns every digit over, a cut only drops digits, and no value lies on a tie. Where a plain number
// comes in, its digits are cut to the half-odd value next to it: the up rule goes up at a tie, the
// even rule to the neighbour whose lowest digit is clear.
//
// An operation first looks for a cause to refuse, the first of its list, and then works out its word.
// Every public function takes any words and any depth.
#![tactic(auto)]

ghost use Rattle.std.specs.Prelude.{◌≡◌, ◌+◌, ◌*◌, ◌^◌, ◌<◌, ◌≤◌, pos, ◌+ℤ◌, ◌*ℤ◌};
ghost use Rattle.std.specs.Int.Signed.{mag};
ghost use Rattle.words.specs.Outcomes.{given};
ghost use Rattle.words.specs.Refusals.{word_check, ◌or_else◌};
ghost use Rattle.words.specs.Formats.{narrower, narrower_check, answer_check};
ghost use Rattle.words.specs.HalfUnit.{half_unit_check};
ghost use Rattle.half_unit.specs.Rules.{MadeBy, word_in, fitted_in};
ghost use Rattle.half_unit.specs.Cuts.{sign_change_word, sign_change_of, cut_of};
ghost use Rattle.half_unit.specs.Conversions.{from_plain_up_of, even_floor, from_plain_even_of, to_plain_word, to_plain_check, to_plain_of, to_round_bit_word, to_round_bit_of, from_round_bit_word, from_round_bit_check, from_round_bit_of};
ghost use Rattle.half_unit.specs.Arithmetic.{sum_check, sum_up_of, sum_even_of, multiplied, product_format, product_word, product_check, product_of};

use std::convert::identity;
use words::{
    Cause, CutAnswer, Digits, Format, HalfUnit, HalfUnitAnswer, HalfUnitWord, Plain, PlainAnswer,
    PlainWord, RoundBit, RoundBitAnswer, RoundBitWord, Word,
};

// Sign change: -1-w.
#[tactic(auto, unfolding(crate::specs::Cuts::sign_change_word), using(integers::proofs::Machine::turned_machine))]
fn sign_change_word(w: HalfUnitWord) -> Result<HalfUnitWord, Cause>
    ensures { result ≡ given (half_unit_check w) (sign_change_word w) }
{
    w.check()?;
    Ok(Word {
        number: HalfUnit(!w.number.0),
        format: w.format,
    })
}

pub fn sign_change(w: HalfUnitWord) -> HalfUnitAnswer
    ensures { result ≡ sign_change_of w }
{
    sign_change_word(w).into()
}

// A half-unit word with d digits fewer than w, whose number a rule makes of w's.
fn cut_by<N: Digits, F: Fn(i64, u64) -> i64>(
    w: Word<N>,
    d: u64,
    rule: F,
) -> Result<HalfUnitWord, Cause>
    requires { F.IsAlwaysCallable rule }
    ensures { MadeBy (F.post rule (N.number w.number) d) (word_check w.format (N.number w.number) (N.round w.number) or_else narrower_check w.format d) (word_in (narrower w.format d)) result }
{
    let format = w.cut_format(d)?;
    let floor = rule(w.number.number(), d);
    Ok(Word {
        number: HalfUnit(floor),
        format,
    })
}

// Cut by d: the floor.
#[tactic(auto, unfolding(crate::specs::Cuts::cut_word), using(crate::proofs::Rules::cut_by_rule))]
pub fn cut(w: HalfUnitWord, d: u64) -> CutAnswer<HalfUnit>
    ensures { result ≡ cut_of w d }
{
    cut_by(w, d, integers::floor_by).into()
}

// From plain with a depth, by the up rule: the floor.
#[tactic(auto, unfolding(crate::specs::Conversions::from_plain_up_word), using(crate::proofs::Rules::cut_by_rule))]
pub fn from_plain_up(w: PlainWord, d: u64) -> HalfUnitAnswer
    ensures { result ≡ from_plain_up_of w d }
{
    cut_by(w, d, integers::floor_by).into()
}

// By the even rule the lowest digit is cleared if all dropped digits are 0.
#[tactic(auto, unfolding(crate::specs::Conversions::even_floor))]
fn even_floor(x: i64, d: u64) -> i64
    ensures { result ≡ even_floor x d }
{
    let floor = integers::floor_by(x, d);
    let dropped = integers::any_below(x, d);
    if dropped == 0 {
        integers::cleared(floor)
    } else {
        floor
    }
}

#[tactic(auto, unfolding(crate::specs::Conversions::from_plain_even_word), using(crate::proofs::Rules::cut_by_rule))]
pub fn from_plain_even(w: PlainWord, d: u64) -> HalfUnitAnswer
    ensures { result ≡ from_plain_even_of w d }
{
    cut_by(w, d, even_floor).into()
}

// 2x + r, for a number of at most 62 digits and a bit.
fn doubled(x: i64, r: u8) -> i64
    requires { (mag x < 2 ^ 62) × (r ≤ 1) }
    ensures { result ≡ (pos 2 *ℤ x) +ℤ pos r }
{
    2 * x + i64::from(r)
}

// To plain: 2w+1, one digit more.
#[tactic(auto, unfolding(crate::specs::Conversions::to_plain_word))]
fn to_plain_word(w: HalfUnitWord) -> Result<PlainWord, Cause>
    ensures { result ≡ given (to_plain_check w) (to_plain_word w) }
{
    let format = w.widened_format(1)?;
    Ok(Word {
        number: Plain(doubled(w.number.0, 1)),
        format,
    })
}

pub fn to_plain(w: HalfUnitWord) -> PlainAnswer
    ensures { result ≡ to_plain_of w }
{
    to_plain_word(w).into()
}

// To round-bit: the plain word with round bit 0.
#[tactic(auto, unfolding(crate::specs::Conversions::to_plain_word, crate::specs::Conversions::to_round_bit_word))]
fn to_round_bit_word(w: HalfUnitWord) -> Result<RoundBitWord, Cause>
    ensures { result ≡ given (to_plain_check w) (to_round_bit_word w) }
{
    let plain = to_plain_word(w)?;
    Ok(Word {
        number: RoundBit(plain.number.0, 0),
        format: plain.format,
    })
}

pub fn to_round_bit(w: HalfUnitWord) -> RoundBitAnswer
    ensures { result ≡ to_round_bit_of w }
{
    to_round_bit_word(w).into()
}

// From round-bit: 2a+r, the middle of the word's interval.
#[tactic(auto, unfolding(crate::specs::Conversions::from_round_bit_word))]
fn from_round_bit_word(w: RoundBitWord) -> Result<HalfUnitWord, Cause>
    ensures { result ≡ given (from_round_bit_check w) (from_round_bit_word w) }
{
    let format = w.widened_format(1)?;
    Ok(Word {
        number: HalfUnit(doubled(w.number.0, w.number.1)),
        format,
    })
}

pub fn from_round_bit(w: RoundBitWord) -> HalfUnitAnswer
    ensures { result ≡ from_round_bit_of w }
{
    from_round_bit_word(w).into()
}

// The sum of two words of one format, whose number a rule makes of x+y+1.
fn sum_by<F: Fn(i64) -> i64>(
    x: HalfUnitWord,
    y: HalfUnitWord,
    rule: F,
) -> Result<HalfUnitWord, Cause>
    requires { F.IsAlwaysCallable rule }
    ensures { MadeBy (F.post rule ((x.number.0 +ℤ y.number.0) +ℤ pos 1)) (sum_check x y) (fitted_in x.format) result }
{
    x.sum_check(y)?;
    let number = rule(x.number.0 + y.number.0 + 1);
    Word {
        number: HalfUnit(number),
        format: x.format,
    }
    .fitted()
}

// Sum by the up rule: x+y+1.
#[tactic(auto, unfolding(crate::specs::Arithmetic::sum_up_word), using(crate::proofs::Rules::sum_by_rule))]
pub fn sum_up(x: HalfUnitWord, y: HalfUnitWord) -> HalfUnitAnswer
    ensures { result ≡ sum_up_of x y }
{
    sum_by(x, y, identity).into()
}

// Sum by the even rule: the same with its lowest digit cleared.
#[tactic(auto, unfolding(crate::specs::Arithmetic::sum_up_word, crate::specs::Arithmetic::sum_even_word), using(crate::proofs::Rules::sum_by_rule))]
pub fn sum_even(x: HalfUnitWord, y: HalfUnitWord) -> HalfUnitAnswer
    ensures { result ≡ sum_even_of x y }
{
    sum_by(x, y, integers::cleared).into()
}

// ((2x+1)(2y+1) - 1) / 2, which is 2xy + x + y.
fn multiplied(x: i64, y: i64) -> i64
    requires { (mag x + 1) * (mag y + 1) ≤ 2 ^ 61 }
    ensures { result ≡ multiplied x y }
{
    2 * (x * y) + x + y
}

// The two widths and the two units added, and of these 1 less.
fn product_format(f: Format, g: Format) -> Result<Format, Cause>
    ensures { result ≡ given (answer_check (product_format f g)) (product_format f g) }
{
    Format::formed(
        u64::from(f.width) + u64::from(g.width),
        f.units_multiplied(g) - 1,
    )
}

// Product.
#[tactic(auto, unfolding(crate::specs::Arithmetic::product_word))]
fn product_word(x: HalfUnitWord, y: HalfUnitWord) -> Result<HalfUnitWord, Cause>
    ensures { result ≡ given (product_check x y) (product_word x y) }
{
    x.check()?;
    y.check()?;
    let format = product_format(x.format, y.format)?;
    Ok(Word {
        number: HalfUnit(multiplied(x.number.0, y.number.0)),
        format,
    })
}

pub fn product(x: HalfUnitWord, y: HalfUnitWord) -> HalfUnitAnswer
    ensures { result ≡ product_of x y }
{
    product_word(x, y).into()
}
