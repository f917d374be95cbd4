// Round-bit words: sign change, cut, rest, even cut, widening, sum, difference, product, and the
// way to and from plain words.
//
// A round-bit word (a, r) is worth a + r. Rounding it is cutting digits off: the highest digit that
// goes becomes the round bit. A sign change turns every digit over. Nothing is lost on the way but
// what a cut drops, and the rest of a cut is exactly that.
//
// An operation is a check, which finds the first cause to refuse, its arithmetic on words that
// passed, and the two put together. Every public function takes any words and any depth.
#![tactic(auto)]

ghost use Rattle.std.specs.Prelude.{◌≡◌, ◌+◌, ◌-◌, ◌*◌, ◌^◌, ◌<◌, ◌≤◌, pos, ◌+ℤ◌, ◌*ℤ◌, ◌≤ℤ◌};
ghost use Rattle.std.specs.Int.Signed.{mag};
ghost use Rattle.integers.specs.Numbers.{floor_by};
ghost use Rattle.words.specs.Outcomes.{Done, given, ◌then◌};
ghost use Rattle.words.specs.Words.{outside};
ghost use Rattle.words.specs.Refusals.{refuse};
ghost use Rattle.words.specs.Formats.{answer_check};
ghost use Rattle.words.specs.RoundBit.{round_bit_check};
ghost use Rattle.words.specs.Plain.{plain_check};
ghost use Rattle.round_bit.specs.Cuts.{sign_changed, sign_change_word, sign_change_of, cut_check, cut_word, cut_of, rest_word, rest_of, cut_in_two_of, two_answered, cut_and_rest_of, even_round_bit, even_cut_word, even_cut_of, widen_check, widen_word, widen_of};
ghost use Rattle.round_bit.specs.Arithmetic.{added, sum_check, sum_word, sum_of, difference_of, magnitude_product, sign_changed_if, magnitude, multiplied, product_format, product_check, product_word, product_of, to_plain_word, to_plain_of, from_plain_word, from_plain_of};

use words::{
    Cause, CutAnswer, Format, Outcome, Plain, PlainAnswer, PlainWord, RoundBit, RoundBitAnswer,
    RoundBitWord, Word,
};

// A cut and its rest, which together lose nothing.
#[derive(Clone, Copy)]
pub struct CutAndRest {
    pub word: RoundBitWord,
    pub rest: RoundBitWord,
}

// The answer of both: two blank words where it refused.
#[derive(Clone, Copy)]
pub struct CutAndRestAnswer {
    pub outcome: Outcome,
    pub word: RoundBitWord,
    pub rest: RoundBitWord,
}

// A number whose round bit is 0 or 1, as that of every word that passed its check.
#[derive(Clone, Copy)]
pub struct RightNumber {
    pub number: RoundBit,
    pub ghost bit: { number.1 ≤ 1 },
}

impl RightNumber {
    // Sign change: (-1-a, 1-r).
    fn sign_changed(self) -> RightNumber
        ensures { result.number ≡ sign_changed self.number }
    {
        let RoundBit(a, r) = self.number;
        RightNumber {
            number: RoundBit(!a, 1 - r),
        }
    }

    fn sign_changed_if(self, test: bool) -> RightNumber
        ensures { result.number ≡ sign_changed_if test self.number }
    {
        if test { self.sign_changed() } else { self }
    }

    fn magnitude(self) -> RightNumber
        ensures { result.number ≡ magnitude self.number }
    {
        self.sign_changed_if(self.number.0 < 0)
    }
}

#[tactic(auto, unfolding(crate::specs::Cuts::sign_change_word), using(words::proofs::Laws::Rights::right))]
fn sign_change_word(w: RoundBitWord) -> Result<RoundBitWord, Cause>
    ensures { result ≡ given (round_bit_check w) (sign_change_word w) }
{
    w.check()?;
    let n = RightNumber { number: w.number };
    Ok(Word {
        number: n.sign_changed().number,
        format: w.format,
    })
}

pub fn sign_change(w: RoundBitWord) -> RoundBitAnswer
    ensures { result ≡ sign_change_of w }
{
    sign_change_word(w).into()
}

// Cut by d: the floor, and the highest digit that goes as the round bit.
#[tactic(auto, unfolding(crate::specs::Cuts::cut_by), using(crate::proofs::Checks::cut_bit))]
fn cut_round_bit(w: RoundBitWord, d: u64) -> u8
    ensures { result ≡ (cut_word w d).number.1 }
{
    if d == 0 {
        w.number.1
    } else {
        integers::digit(w.number.0, d - 1)
    }
}

#[tactic(auto, using(words::proofs::Given::ok_given, crate::proofs::Checks::cut_made))]
fn cut_word(w: RoundBitWord, d: u64) -> Result<RoundBitWord, Cause>
    ensures { result ≡ given (cut_check w d) (cut_word w d) }
{
    let format = w.cut_format(d)?;
    let floor = integers::floor_by(w.number.0, d);
    let high = cut_round_bit(w, d);
    Ok(Word {
        number: RoundBit(floor, high),
        format,
    })
}

pub fn cut(w: RoundBitWord, d: u64) -> CutAnswer<RoundBit>
    ensures { result ≡ cut_of w d }
{
    cut_word(w, d).into()
}

// Rest of a cut: the low digits, and the old round bit, which the cut dropped.
#[tactic(auto, unfolding(crate::specs::Cuts::rest_word), using(crate::proofs::Checks::rest_bit))]
fn rest_round_bit(w: RoundBitWord, d: u64) -> u8
    ensures { result ≡ (rest_word w d).number.1 }
{
    if d == 0 { 0 } else { w.number.1 }
}

#[tactic(auto, using(crate::proofs::Checks::rest_made))]
fn rest_word(w: RoundBitWord, d: u64) -> RoundBitWord
    ensures { result ≡ rest_word w d }
{
    let number = integers::low_digits(w.number.0, d);
    let dropped = rest_round_bit(w, d);
    Word {
        number: RoundBit(number, dropped),
        ..w
    }
}

// Both of one check.
pub fn cut_in_two(w: RoundBitWord, d: u64) -> Result<CutAndRest, Cause>
    ensures { result ≡ cut_in_two_of w d }
{
    let word = cut_word(w, d)?;
    Ok(CutAndRest {
        word,
        rest: rest_word(w, d),
    })
}

impl From<Result<CutAndRest, Cause>> for CutAndRestAnswer {
    ghost from_gives = { λ r a. a ≡ two_answered r };

    fn from(two: Result<CutAndRest, Cause>) -> CutAndRestAnswer {
        match two {
            Ok(CutAndRest { word, rest }) => CutAndRestAnswer {
                outcome: Ok(()),
                word,
                rest,
            },
            Err(cause) => {
                let blank = Word::blank();
                CutAndRestAnswer {
                    outcome: Err(cause),
                    word: blank,
                    rest: blank,
                }
            }
        }
    }
}

// Both in one answer.
#[tactic(auto, using(crate::proofs::Checks::two_given))]
pub fn cut_and_rest(w: RoundBitWord, d: u64) -> CutAndRestAnswer
    ensures { result ≡ cut_and_rest_of w d }
{
    cut_in_two(w, d).into()
}

fn left(w: RoundBitWord, d: u64) -> Result<RoundBitWord, Cause>
    ensures { result ≡ given (cut_check w d) (rest_word w d) }
{
    w.cut_format(d)?;
    Ok(rest_word(w, d))
}

pub fn rest(w: RoundBitWord, d: u64) -> RoundBitAnswer
    ensures { result ≡ rest_of w d }
{
    left(w, d).into()
}

// Even cut: as the cut, but by the value a + r, and a tie goes to the even neighbour.

// Half a new unit above q new units, for a depth of k + 1.
fn middle(q: i64, k: u64) -> i64
    requires { (k ≤ 60) × (mag q < 2 ^ (61 - k)) }
    ensures { result ≡ (q *ℤ pos (2 ^ (k + 1))) +ℤ pos (2 ^ k) }
{
    (q << (k + 1)) + (1 << k)
}

impl RightNumber {
    // The rule stands here alone: up from the floor q past the middle, and in the middle where q is odd.
    fn even_round_bit(self, q: i64, k: u64) -> u8
        requires { (k ≤ 60) × (mag self.number.0 < 2 ^ 62) × (q ≡ floor_by self.number.0 (k + 1)) }
        ensures { result ≡ even_round_bit self.number.1 self.number.0 k }
    {
        let RoundBit(a, round) = self.number;
        let value = a + round as i64;
        let odd = q & 1;
        let even = 1 - odd;
        let least = middle(q, k) + even;
        let up = least <= value;
        u8::from(up)
    }
}

fn even_cut_word(w: RoundBitWord, d: u64) -> Result<RoundBitWord, Cause>
    ensures { result ≡ given (cut_check w d) (even_cut_word w d) }
{
    let format = w.cut_format(d)?;
    let q = integers::floor_by(w.number.0, d);
    let n = RightNumber { number: w.number };
    let even = if d == 0 {
        w.number.1
    } else {
        n.even_round_bit(q, d - 1)
    };
    Ok(Word {
        number: RoundBit(q, even),
        format,
    })
}

pub fn even_cut(w: RoundBitWord, d: u64) -> CutAnswer<RoundBit>
    ensures { result ≡ even_cut_of w d }
{
    even_cut_word(w, d).into()
}

// Widen on the right by d: zero digits are appended in the signed-digit reading.

impl RightNumber {
    // a * 2^d + r * (2^d - 1), which is (a + r) * 2^d - r.
    fn widened(self, d: u64) -> i64
        requires { (d ≤ 61) × (mag self.number.0 < 2 ^ (62 - d)) }
        ensures { result ≡ (self.number.0 *ℤ pos (2 ^ d)) +ℤ pos (self.number.1 * (2 ^ d - 1)) }
    {
        let a = self.number.0;
        let r = self.number.1 as i64;
        ((a + r) << d) - r
    }
}

#[tactic(auto, unfolding(crate::specs::Cuts::widen_word), using(words::proofs::Given::ok_given, crate::proofs::Checks::widen_right, crate::proofs::Checks::widen_room))]
fn widen_word(w: RoundBitWord, d: u64) -> Result<RoundBitWord, Cause>
    ensures { result ≡ given (widen_check w d) (widen_word w d) }
{
    let format = w.widened_format(d)?;
    let n = RightNumber { number: w.number };
    Ok(Word {
        number: RoundBit(n.widened(d), w.number.1),
        format,
    })
}

pub fn widen(w: RoundBitWord, d: u64) -> RoundBitAnswer
    ensures { result ≡ widen_of w d }
{
    widen_word(w, d).into()
}

impl RightNumber {
    // Sum: (a + b + (ra and rb), ra or rb).
    fn added(self, other: RightNumber) -> RoundBit
        requires { (mag self.number.0 < 2 ^ 62) × (mag other.number.0 < 2 ^ 62) }
        ensures { result ≡ added self.number other.number }
    {
        let RoundBit(a, ra) = self.number;
        let RoundBit(b, rb) = other.number;
        RoundBit(a + b + (ra & rb) as i64, ra | rb)
    }
}

// 8 tests the number of the sum, not its value.
#[tactic(auto, unfolding(crate::specs::Arithmetic::sum_word), using(crate::proofs::Checks::sum_right, crate::proofs::Checks::sum_room))]
fn sum_word(x: RoundBitWord, y: RoundBitWord) -> Result<RoundBitWord, Cause>
    ensures { let z = sum_word x y in result ≡ (sum_check x y then given (refuse 8 (outside z.format z.number.0)) z) }
{
    x.sum_check(y)?;
    let m = RightNumber { number: x.number };
    let n = RightNumber { number: y.number };
    let sum = Word {
        number: m.added(n),
        format: x.format,
    };
    sum.fitted()
}

#[tactic(auto, using(words::proofs::Given::answer_fitted), unfolding(words::specs::RoundBit::round_bit_fitted))]
pub fn sum(x: RoundBitWord, y: RoundBitWord) -> RoundBitAnswer
    ensures { result ≡ sum_of x y }
{
    sum_word(x, y).into()
}

// Difference: the sum with the second operand's sign changed.
#[tactic(auto, unfolding(crate::specs::Arithmetic::sum_word, crate::specs::Cuts::sign_change_word), using(crate::proofs::Checks::sum_right, crate::proofs::Checks::sum_room, integers::proofs::Floor::turned_size))]
fn difference_word(x: RoundBitWord, y: RoundBitWord) -> Result<RoundBitWord, Cause>
    ensures { let z = sum_word x (sign_change_word y) in result ≡ (sum_check x y then given (refuse 8 (outside z.format z.number.0)) z) }
{
    x.sum_check(y)?;
    let m = RightNumber { number: x.number };
    let n = RightNumber { number: y.number };
    let difference = Word {
        number: m.added(n.sign_changed()),
        format: x.format,
    };
    difference.fitted()
}

#[tactic(auto, using(words::proofs::Given::answer_fitted), unfolding(words::specs::RoundBit::round_bit_fitted))]
pub fn difference(x: RoundBitWord, y: RoundBitWord) -> RoundBitAnswer
    ensures { result ≡ difference_of x y }
{
    difference_word(x, y).into()
}

// Product of numbers that are not negative: (ab + a rb + b ra, ra rb).
fn cross_product(a: u64, ra: u64, b: u64, rb: u64) -> u64
    requires { (ra ≤ 1) × (rb ≤ 1) × ((a + 1) * (b + 1) ≤ 2 ^ 62) }
    ensures { result ≡ a * b + a * rb + b * ra }
{
    a * b + a * rb + b * ra
}

impl RightNumber {
    fn magnitude_product(self, other: RightNumber) -> RightNumber
        requires { (pos 0 ≤ℤ self.number.0) × (pos 0 ≤ℤ other.number.0) × ((mag self.number.0 + 1) * (mag other.number.0 + 1) ≤ 2 ^ 62) }
        ensures { result.number ≡ magnitude_product self.number other.number }
    {
        let RoundBit(a, ra) = self.number;
        let RoundBit(b, rb) = other.number;
        let p = cross_product(a as u64, ra as u64, b as u64, rb as u64);
        RightNumber {
            number: RoundBit(p as i64, ra & rb),
        }
    }

    // Product: of the magnitudes, sign-changed if exactly one number was negative.
    #[tactic(auto, unfolding(crate::specs::Arithmetic::multiplied), using(integers::proofs::ExactlyOne::exactly_one_lem, crate::proofs::Magnitudes::magnitude_right))]
    fn multiplied(self, other: RightNumber) -> RightNumber
        requires { (mag self.number.0 + 1) * (mag other.number.0 + 1) ≤ 2 ^ 62 }
        ensures { result.number ≡ multiplied self.number other.number }
    {
        let exactly_one = (self.number.0 < 0) ^ (other.number.0 < 0);
        let z = self.magnitude().magnitude_product(other.magnitude());
        z.sign_changed_if(exactly_one)
    }
}

fn formats_multiplied(f: Format, g: Format) -> Result<Format, Cause>
    requires { 2 ≤ f.width }
    ensures { result ≡ given (answer_check (product_format f g)) (product_format f g) }
{
    Format::formed(
        u64::from(f.width) + u64::from(g.width) - 1,
        f.units_multiplied(g),
    )
}

#[tactic(auto, unfolding(crate::specs::Arithmetic::product_word), using(words::proofs::Given::ok_given, words::proofs::Laws::Rights::right, crate::proofs::Magnitudes::product_room))]
fn product_word(x: RoundBitWord, y: RoundBitWord) -> Result<RoundBitWord, Cause>
    ensures { result ≡ given (product_check x y) (product_word x y) }
{
    x.check()?;
    y.check()?;
    let format = formats_multiplied(x.format, y.format)?;
    let m = RightNumber { number: x.number };
    let n = RightNumber { number: y.number };
    Ok(Word {
        number: m.multiplied(n).number,
        format,
    })
}

pub fn product(x: RoundBitWord, y: RoundBitWord) -> RoundBitAnswer
    ensures { result ≡ product_of x y }
{
    product_word(x, y).into()
}

// To plain: a + r; 8 if that is 2^(n-1).
fn to_plain_word(w: RoundBitWord) -> Result<PlainWord, Cause>
    ensures { let p = to_plain_word w in result ≡ (round_bit_check w then given (refuse 8 (outside p.format p.number.0)) p) }
{
    w.check()?;
    let word = Word {
        number: Plain(w.number.0 + i64::from(w.number.1)),
        format: w.format,
    };
    word.fitted()
}

#[tactic(auto, using(words::proofs::Given::answer_fitted), unfolding(words::specs::Plain::plain_fitted))]
pub fn to_plain(w: RoundBitWord) -> PlainAnswer
    ensures { result ≡ to_plain_of w }
{
    to_plain_word(w).into()
}

// From plain: (x, 0).
#[tactic(auto, unfolding(crate::specs::Arithmetic::from_plain_word))]
fn from_plain_word(w: PlainWord) -> Result<RoundBitWord, Cause>
    ensures { result ≡ given (plain_check w) (from_plain_word w) }
{
    w.check()?;
    Ok(Word {
        number: RoundBit(w.number.0, 0),
        format: w.format,
    })
}

pub fn from_plain(w: PlainWord) -> RoundBitAnswer
    ensures { result ≡ from_plain_of w }
{
    from_plain_word(w).into()
}
