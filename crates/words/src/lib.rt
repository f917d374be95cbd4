// The three kinds of word, and how a call says whether it was done.
//
// A word is a number in a format: a width of 2 to 63 digits and a unit 2^e, e from -127 to 127. The
// same digits mean three amounts, 5, (5,1) = 6 and 5.5, so each kind of number is a type of its own
// and none is taken for another. What a kind's number has is a trait, and what is so of a word of any
// kind is said once. A call answers an outcome, done or refused for one cause of the table of refusals,
// and a word: the blank one where it refused. Inside, what can refuse is a `Result`.
//
// Every function here takes any value of these types. The definitions are in specs/, in document
// 01's order; what a passed check tells is in proofs/Laws.antt.
#![tactic(auto)]

ghost use Rattle.std.specs.Prelude.{◌≡◌, ◌-◌, ◌^◌, ◌<◌, ℕ, ℤ, pos};
ghost use Rattle.words.specs.Outcomes.{given, Refused};
ghost use Rattle.words.specs.Words.{bad_width, bad_unit, outside, bad_round_bit};
ghost use Rattle.words.specs.Refusals.{cause_number, number_of, refuse_for, format_check, word_check, differ, refuse, ◌or_else◌, blank_format, write_answer_of};
ghost use Rattle.words.specs.Formats.{format, narrower, narrower_check, wider, units_multiplied, answer_check, format_answer, format_answer_of};
ghost use Rattle.words.specs.Answers.{blank_of, answer_of, cut_answer};
ghost use Rattle.words.specs.Plain.{plain_fitted};
ghost use Rattle.words.specs.RoundBit.{round_bit_fitted};
ghost use Rattle.words.specs.HalfUnit.{half_unit_fitted};

// Why a call refuses, in the table's order and with the table's numbers.
#[derive(Clone, Copy, Debug, PartialEq, Eq)]
pub enum Cause {
    Width = 1,
    Unit = 2,
    Number = 3,
    Mismatch = 4,
    Depth = 5,
    WidthPast = 6,
    UnitPast = 7,
    NumberPast = 8,
    DigitText = 9,
    Buffer = 10,
    Mark = 11,
    Form = 12,
    Byte = 13,
    Run = 14,
    NotFinite = 15,
    Channel = 17,
}

// Done, or refused for a cause.
pub type Outcome = Result<(), Cause>;

// x
#[derive(Clone, Copy, Debug, PartialEq, Eq)]
pub struct Plain(pub i64);

// (a, r)
#[derive(Clone, Copy, Debug, PartialEq, Eq)]
pub struct RoundBit(pub i64, pub u8);

// w
#[derive(Clone, Copy, Debug, PartialEq, Eq)]
pub struct HalfUnit(pub i64);

// What the number of every kind has: its digits, and a round bit, which is 0 where the kind has none.
pub trait Digits: Copy {
    ghost number: { Self → ℤ };

    ghost round: { Self → ℕ };

    ghost zero: { Self };

    fn number(self) -> i64
        ensures { result ≡ number self };

    fn round(self) -> u8
        ensures { result ≡ round self };

    // That of the blank word.
    fn zero() -> Self
        ensures { result ≡ zero };
}

impl Digits for Plain {
    ghost number = { λ n. n.0 };

    ghost round = { λ n. 0 };

    ghost zero = { record { 0 = pos 0 } };

    fn number(self) -> i64 {
        self.0
    }

    fn round(self) -> u8 {
        0
    }

    fn zero() -> Plain {
        Plain(0)
    }
}

impl Digits for RoundBit {
    ghost number = { λ n. n.0 };

    ghost round = { λ n. n.1 };

    ghost zero = { record { 0 = pos 0; 1 = 0 } };

    fn number(self) -> i64 {
        self.0
    }

    fn round(self) -> u8 {
        self.1
    }

    fn zero() -> RoundBit {
        RoundBit(0, 0)
    }
}

impl Digits for HalfUnit {
    ghost number = { λ n. n.0 };

    ghost round = { λ n. 0 };

    ghost zero = { record { 0 = pos 0 } };

    fn number(self) -> i64 {
        self.0
    }

    fn round(self) -> u8 {
        0
    }

    fn zero() -> HalfUnit {
        HalfUnit(0)
    }
}

#[derive(Clone, Copy, Debug, PartialEq, Eq)]
pub struct Format {
    pub width: u32,
    pub unit: i32,
}

#[derive(Clone, Copy)]
pub struct Word<N> {
    pub number: N,
    pub format: Format,
}

pub type PlainWord = Word<Plain>;

pub type RoundBitWord = Word<RoundBit>;

pub type HalfUnitWord = Word<HalfUnit>;

#[derive(Clone, Copy)]
pub struct Answer<N> {
    pub outcome: Outcome,
    pub word: Word<N>,
}

pub type PlainAnswer = Answer<Plain>;

pub type RoundBitAnswer = Answer<RoundBit>;

pub type HalfUnitAnswer = Answer<HalfUnit>;

// The answer of a cut, of an even cut and of a bank's output.
#[derive(Clone, Copy)]
pub struct CutAnswer<N> {
    pub outcome: Outcome,
    pub word: Word<N>,
}

// The format of an answer, or a refusal with the blank one.
#[derive(Clone, Copy)]
pub struct FormatAnswer {
    pub outcome: Outcome,
    pub format: Format,
}

// The answer of a writing into a lent buffer: the count of bytes written, 0 when refused.
#[derive(Clone, Copy)]
pub struct WriteAnswer {
    pub outcome: Outcome,
    pub count: usize,
}

impl<N: Digits> From<Result<Word<N>, Cause>> for Answer<N> {
    ghost from_gives = { λ r a. a ≡ answer_of N.zero r };

    fn from(made: Result<Word<N>, Cause>) -> Answer<N> {
        match made {
            Ok(word) => Answer {
                outcome: Ok(()),
                word,
            },
            Err(cause) => Answer {
                outcome: Err(cause),
                word: Word::blank(),
            },
        }
    }
}

impl<N: Digits> From<Result<Word<N>, Cause>> for CutAnswer<N> {
    ghost from_gives = { λ r a. a ≡ cut_answer (answer_of N.zero r) };

    fn from(made: Result<Word<N>, Cause>) -> CutAnswer<N> {
        match made {
            Ok(word) => CutAnswer {
                outcome: Ok(()),
                word,
            },
            Err(cause) => {
                let (outcome, word) = (Err(cause), Word::blank());
                CutAnswer { outcome, word }
            }
        }
    }
}

impl From<Result<Format, Cause>> for FormatAnswer {
    ghost from_gives = { λ r a. a ≡ format_answer_of r };

    #[tactic(auto, unfolding(crate::specs::Formats::format_answer))]
    fn from(made: Result<Format, Cause>) -> FormatAnswer {
        match made {
            Ok(format) => FormatAnswer {
                outcome: Ok(()),
                format,
            },
            Err(cause) => format_refused(cause),
        }
    }
}

impl From<Result<usize, Cause>> for WriteAnswer {
    ghost from_gives = { λ r a. a ≡ write_answer_of r };

    #[tactic(auto, unfolding(crate::specs::Refusals::write_answer))]
    fn from(written: Result<usize, Cause>) -> WriteAnswer {
        match written {
            Ok(count) => WriteAnswer {
                outcome: Ok(()),
                count,
            },
            Err(cause) => WriteAnswer {
                outcome: Err(cause),
                count: 0,
            },
        }
    }
}

// The table's number of a cause.
impl From<Cause> for u32 {
    ghost from_gives = { λ c n. n ≡ cause_number c };

    fn from(cause: Cause) -> u32 {
        cause as u32
    }
}

// The number of an outcome: 0 for done, else the table's.
pub fn number_of(outcome: Outcome) -> u32
    ensures { result ≡ number_of outcome }
{
    match outcome {
        Ok(()) => 0,
        Err(cause) => cause.into(),
    }
}

// The cause, where its test holds.
pub fn refuse_for(cause: Cause, test: bool) -> Outcome
    ensures { result ≡ refuse_for cause test }
{
    if test { Err(cause) } else { Ok(()) }
}

pub const LEAST_WIDTH: u32 = 2;

pub const MOST_WIDTH: u32 = 63;

pub const MOST_UNIT: i32 = 127;

pub const LEAST_UNIT: i32 = -MOST_UNIT;

fn bad_round_bit(round: u8) -> bool
    ensures { result ≡ bad_round_bit round }
{
    !(round <= 1)
}

impl Format {
    // Of the blank word.
    pub const BLANK: Format = Format {
        width: LEAST_WIDTH,
        unit: 0,
    };

    fn bad_width(self) -> bool
        ensures { result ≡ bad_width self.width }
    {
        !(LEAST_WIDTH..=MOST_WIDTH).contains(&self.width)
    }

    // Is the unit exponent outside -127 to 127?
    pub fn bad_unit(self) -> bool
        ensures { result ≡ bad_unit self.unit }
    {
        !(LEAST_UNIT..=MOST_UNIT).contains(&self.unit)
    }

    // Does a number lie outside the format's width?
    pub fn outside(self, x: i64) -> bool
        ensures { result ≡ outside self x }
    {
        !integers::fits_width(x, self.width)
    }

    // The first of the causes 1 and 2.
    #[tactic(auto, unfolding(crate::specs::Refusals::format_check))]
    pub fn check(self) -> Outcome
        ensures { result ≡ format_check self }
    {
        let width = self.bad_width();
        let unit = self.bad_unit();
        refuse_for(Cause::Width, width)?;
        refuse_for(Cause::Unit, unit)
    }

    // The format of this width and unit, or 7.
    fn placed(width: u64, unit: i64) -> Result<Format, Cause>
        requires { width < 2 ^ 32 }
        ensures { result ≡ given (refuse 7 (bad_unit unit)) (format width unit) }
    {
        if (i64::from(LEAST_UNIT)..=i64::from(MOST_UNIT)).contains(&unit) {
            Ok(Format {
                width: width as u32,
                unit: unit as i32,
            })
        } else {
            Err(Cause::UnitPast)
        }
    }

    // The format of this width and unit, or 6, or 7.
    #[tactic(auto, unfolding(crate::specs::Formats::answer_check))]
    pub fn formed(width: u64, unit: i64) -> Result<Format, Cause>
        ensures { result ≡ given (answer_check (format width unit)) (format width unit) }
    {
        refuse_for(Cause::WidthPast, u64::from(MOST_WIDTH) < width)?;
        Format::placed(width, unit)
    }

    // The unit of a product; an i32 might not hold it.
    pub fn units_multiplied(self, other: Format) -> i64
        ensures { result ≡ units_multiplied self other }
    {
        i64::from(self.unit) + i64::from(other.unit)
    }

    // d digits more on the right: the unit is finer by 2^d.
    #[tactic(auto, unfolding(crate::specs::Formats::answer_check))]
    pub fn wider(self, d: u64) -> Result<Format, Cause>
        ensures { result ≡ given (answer_check (wider self d)) (wider self d) }
    {
        refuse_for(Cause::WidthPast, u64::from(MOST_WIDTH) < d)?;
        Format::formed(u64::from(self.width) + d, i64::from(self.unit) - d as i64)
    }

    // d digits fewer on the right: the unit is coarser by 2^d.
    #[tactic(auto, unfolding(crate::specs::Formats::narrower_check))]
    pub fn narrower(self, d: u64) -> Result<Format, Cause>
        ensures { result ≡ given (narrower_check self d) (narrower self d) }
    {
        let width = u64::from(self.width);
        refuse_for(Cause::Depth, width < 2)?;
        // From this the compiler knows that d is no longer than the word, and shifts without a guard.
        refuse_for(Cause::Depth, width - 2 < d)?;
        Format::placed(width - d, i64::from(self.unit) + d as i64)
    }
}

// The same of a format as answers, for one who wants the blank one where it is refused.

// A refusal, with the blank format.
#[tactic(auto, unfolding(crate::specs::Formats::format_answer))]
pub fn format_refused(cause: Cause) -> FormatAnswer
    ensures { result ≡ format_answer (Refused cause) blank_format }
{
    let format = Format::BLANK;
    FormatAnswer {
        outcome: Err(cause),
        format,
    }
}

#[tactic(auto, using(crate::proofs::Given::format_given))]
pub fn formed(width: u64, unit: i64) -> FormatAnswer
    ensures { result ≡ format_answer (answer_check (format width unit)) (format width unit) }
{
    Format::formed(width, unit).into()
}

#[tactic(auto, using(crate::proofs::Given::format_given))]
pub fn wider(f: Format, d: u64) -> FormatAnswer
    ensures { result ≡ format_answer (answer_check (wider f d)) (wider f d) }
{
    f.wider(d).into()
}

#[tactic(auto, using(crate::proofs::Given::format_given))]
pub fn narrower(f: Format, d: u64) -> FormatAnswer
    ensures { result ≡ format_answer (narrower_check f d) (narrower f d) }
{
    f.narrower(d).into()
}

impl<N: Digits> Word<N> {
    // What a refusal hands back.
    pub fn blank() -> Word<N>
        ensures { result ≡ blank_of N.zero }
    {
        Word {
            number: N::zero(),
            format: Format::BLANK,
        }
    }

    // The first of the causes 1, 2 and 3.
    #[tactic(auto, unfolding(crate::specs::Refusals::word_check))]
    pub fn check(self) -> Outcome
        ensures { result ≡ word_check self.format (N.number self.number) (N.round self.number) }
    {
        self.format.check()?;
        let outside = self.format.outside(self.number.number());
        refuse_for(Cause::Number, outside | bad_round_bit(self.number.round()))
    }

    // The word, or 8 where its number, and not its value, does not fit its width.
    pub fn fitted(self) -> Result<Word<N>, Cause>
        ensures { result ≡ given (refuse 8 (outside self.format (N.number self.number))) self }
    {
        refuse_for(Cause::NumberPast, self.format.outside(self.number.number()))?;
        Ok(self)
    }

    // The format of a word that is cut by d: 1, 2 and 3, then 5 and 7.
    pub fn cut_format(self, d: u64) -> Result<Format, Cause>
        ensures { result ≡ given (word_check self.format (N.number self.number) (N.round self.number) or_else narrower_check self.format d) (narrower self.format d) }
    {
        self.check()?;
        self.format.narrower(d)
    }

    // The format of a word that gets d digits more on the right: 1, 2 and 3, then 6 and 7.
    pub fn widened_format(self, d: u64) -> Result<Format, Cause>
        ensures { result ≡ given (word_check self.format (N.number self.number) (N.round self.number) or_else answer_check (wider self.format d)) (wider self.format d) }
    {
        self.check()?;
        self.format.wider(d)
    }

    // 1, 2 and 3 of two operands of a sum, then 4.
    pub fn sum_check(self, other: Word<N>) -> Outcome
        ensures { result ≡ (word_check self.format (N.number self.number) (N.round self.number) or_else word_check other.format (N.number other.number) (N.round other.number) or_else refuse 4 (differ self.format other.format)) }
    {
        self.check()?;
        other.check()?;
        refuse_for(Cause::Mismatch, self.format != other.format)
    }
}

// The word, or 8 with the blank one, of each kind.

#[tactic(auto, unfolding(crate::specs::Plain::plain_fitted), using(crate::proofs::Given::answer_given))]
pub fn plain_fitted(w: PlainWord) -> PlainAnswer
    ensures { result ≡ plain_fitted w }
{
    w.fitted().into()
}

#[tactic(auto, unfolding(crate::specs::RoundBit::round_bit_fitted), using(crate::proofs::Given::answer_given))]
pub fn round_bit_fitted(w: RoundBitWord) -> RoundBitAnswer
    ensures { result ≡ round_bit_fitted w }
{
    w.fitted().into()
}

#[tactic(auto, unfolding(crate::specs::HalfUnit::half_unit_fitted), using(crate::proofs::Given::answer_given))]
pub fn half_unit_fitted(w: HalfUnitWord) -> HalfUnitAnswer
    ensures { result ≡ half_unit_fitted w }
{
    w.fitted().into()
}
