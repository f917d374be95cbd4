// Runs every example of document 01's bench sheet, and those of later requests that are about the same
// operations, through the code and prints what it answers.
//
// A line is the example's name, the number of the outcome, and then the word: number, round bit, width
// and unit. A running sum's line ends with what is kept, that of a digit text which is read with the place;
// a file's line has kind, width, unit and count.
// The expected output was written by hand from the documents. The tables are in specs/Bench.antt, what they
// say of the code in specs/Met.antt, and the proof of both in proofs/Bench.antt.
#![tactic(auto)]

ghost use Rattle.std.specs.Prelude.{◌≤◌};

use std::{fmt, io};
use words::{
    Answer, CutAnswer, Digits, Format, HalfUnit, HalfUnitWord, Outcome, Plain, PlainWord, RoundBit,
    RoundBitWord, Word,
};

// A word, as a line shows it.
#[derive(Drop)]
struct Shown {
    number: i64,
    round: u8,
    format: Format,
}

// A word of a kind that has no round bit has a 0 in its place.
impl<N: Digits> From<Word<N>> for Shown {
    fn from(w: Word<N>) -> Shown {
        Shown {
            number: w.number.number(),
            round: w.number.round(),
            format: w.format,
        }
    }
}

impl fmt::Display for Shown {
    fn fmt<W: fmt::Write>(&self, f: &mut fmt::Formatter<W>) -> fmt::Result {
        let Format { width, unit } = self.format;
        write!(f, "{} {} {width} {unit}", self.number, self.round)
    }
}

// An outcome and a word.
#[derive(Drop)]
struct Answered {
    outcome: Outcome,
    word: Shown,
}

impl<N: Digits> From<Answer<N>> for Answered {
    fn from(a: Answer<N>) -> Answered {
        Answered {
            outcome: a.outcome,
            word: a.word.into(),
        }
    }
}

impl<N: Digits> From<CutAnswer<N>> for Answered {
    fn from(a: CutAnswer<N>) -> Answered {
        Answered {
            outcome: a.outcome,
            word: a.word.into(),
        }
    }
}

impl fmt::Display for Answered {
    fn fmt<W: fmt::Write>(&self, f: &mut fmt::Formatter<W>) -> fmt::Result {
        write!(f, "{} {}", words::number_of(self.outcome), self.word)
    }
}

fn print_line(rt: &impl Print, name: &str, a: impl Into<Answered>) -> io::Result<()> {
    println!(rt; "{name} {}", a.into())
}

fn round_bit(width: u32, a: i64, r: u8) -> RoundBitWord {
    RoundBitWord {
        number: RoundBit(a, r),
        format: Format { width, unit: 0 },
    }
}

fn plain(width: u32, x: i64) -> PlainWord {
    PlainWord {
        number: Plain(x),
        format: Format { width, unit: 0 },
    }
}

fn half_unit(width: u32, w: i64) -> HalfUnitWord {
    HalfUnitWord {
        number: HalfUnit(w),
        format: Format { width, unit: 0 },
    }
}

fn sums(rt: &impl Print) -> io::Result<()> {
    let p1 = round_bit::sum(round_bit(5, 3, 1), round_bit(5, 4, 1));
    let p2 = round_bit::sum(round_bit(5, 15, 0), round_bit(5, 0, 1));
    let p3 = round_bit::sum(round_bit(5, 15, 0), round_bit(5, 1, 0));
    let p4 = round_bit::sum(round_bit(5, -16, 0), round_bit(5, -1, 1));
    let p5 = round_bit::difference(round_bit(5, 5, 0), round_bit(5, 5, 0));
    print_line(rt, "P1", p1)?;
    print_line(rt, "P2", p2)?;
    print_line(rt, "P3", p3)?;
    print_line(rt, "P4", p4)?;
    print_line(rt, "P5", p5)
}

fn print_digit_text(rt: &impl Print, name: &str, w: RoundBitWord) -> io::Result<()> {
    let mut text = [b'?'; 12];
    let a = digit_text::write(w, &mut text);
    print!(rt; "{name} {} {} ", words::number_of(a.outcome), a.count)?;
    rt.write_all(&text)?;
    println!(rt)
}

fn cuts(rt: &impl Print) -> io::Result<()> {
    print_line(rt, "P6 cut", round_bit::cut(round_bit(11, -718, 0), 2))?;
    print_line(rt, "P6 rest", round_bit::rest(round_bit(11, -718, 0), 2))?;
    print_digit_text(rt, "P6 text", round_bit(11, -718, 0))?;
    print_line(rt, "P7 by 1", round_bit::cut(round_bit(3, 0, 0), 1))?;
    print_line(rt, "P7 by 2", round_bit::cut(round_bit(3, 0, 0), 2))?;
    print_line(rt, "P8", round_bit::widen(round_bit(4, 5, 1), 2))
}

fn products(rt: &impl Print) -> io::Result<()> {
    for (a, r) in [(11, 1), (-12, 0), (-1, 1)] {
        let product = round_bit::product(round_bit(5, a, r), round_bit(5, 9, 1));
        print_line(rt, "P9", product)?;
    }
    Ok(())
}

fn half_units(rt: &impl Print) -> io::Result<()> {
    for x in [6, 7] {
        print_line(rt, "P10 up", half_unit::from_plain_up(plain(5, x), 1))?;
        print_line(rt, "P10 even", half_unit::from_plain_even(plain(5, x), 1))?;
    }
    let five = half_unit(5, 5);
    print_line(rt, "P11 up", half_unit::sum_up(five, half_unit(5, 3)))?;
    print_line(rt, "P11 even", half_unit::sum_even(five, half_unit(5, 3)))?;
    print_line(rt, "P12", half_unit::product(five, half_unit(5, 2)))?;
    print_line(rt, "P13", round_bit::even_cut(round_bit(5, 6, 0), 2))?;
    print_line(rt, "P13", round_bit::even_cut(round_bit(5, 2, 0), 2))
}

// P14: an opening, and puts of (a, r), each with a hand-out after it.
fn running_sum(rt: &impl Print) -> io::Result<()> {
    let opened = running_sum::open(8, 0, 2);
    let mut sum = opened.sum;
    println!(rt;
        "P14 open {} kept {}",
        words::number_of(opened.outcome),
        Shown::from(sum.kept)
    )?;
    for (a, r) in [(3, 0), (3, 0), (0, 1)] {
        let put = sum.put(round_bit(8, a, r));
        println!(rt;
            "P14 put {} kept {}",
            words::number_of(put.outcome),
            Shown::from(put.sum.kept)
        )?;
        let out = put.sum.hand_out();
        println!(rt;
            "P14 hand out {} {} kept {}",
            words::number_of(out.outcome),
            Shown::from(out.word),
            Shown::from(out.sum.kept)
        )?;
        sum = out.sum;
    }
    Ok(())
}

fn widths(rt: &impl Print) -> io::Result<()> {
    print_line(
        rt,
        "widths 32 and 32, round-bit product",
        round_bit::product(round_bit(32, 1, 0), round_bit(32, 1, 0)),
    )?;
    print_line(
        rt,
        "widths 32 and 32, half-unit product",
        half_unit::product(half_unit(32, 1), half_unit(32, 1)),
    )?;
    print_line(
        rt,
        "widths 32 and 31, half-unit product",
        half_unit::product(half_unit(32, 1), half_unit(31, 1)),
    )?;
    let a = round_bit::to_plain(round_bit(5, 15, 1));
    let Format { width, unit } = a.word.format;
    println!(rt;
        "(15,1) to plain {} {} {width} {unit}",
        words::number_of(a.outcome),
        a.word.number.0
    )
}

// A file of so many bytes: the front of one of plain words, and zeros. One buffer holds a file of any length, so
// that the program has one large frame and not one within another.
fn print_file(
    rt: &impl Print,
    name: &str,
    length: usize,
    width: u8,
    unit: u8,
    count: u16,
) -> io::Result<()>
    requires within { length ≤ 40017 }
{
    let mut file = [0; 40017];
    file[..4].copy_from_slice(b"RNB\x01");
    file[6] = width;
    file[7] = unit;
    file[8..10].copy_from_slice(&count.to_le_bytes());
    let a = block_file::read(&file[..length], &mut [0; 8001], &mut [0; 8001]);
    let Format { width, unit } = a.head.format;
    println!(rt;
        "{name} {} {} {width} {unit} {}",
        words::number_of(a.outcome),
        a.head.kind,
        a.head.count
    )
}

fn files(rt: &impl Print) -> io::Result<()> {
    print_file(rt, "count 8,000", 40012, 5, 0, 8000)?;
    print_file(rt, "count 8,001", 40017, 5, 0, 8001)?;
    print_file(rt, "width 32", 17, 32, 0, 1)?;
    print_file(rt, "width 33", 17, 33, 0, 1)?;
    print_file(rt, "unit byte 80", 17, 5, 0x80, 1)
}

fn print_reading(rt: &impl Print, name: &str, text: &[u8]) -> io::Result<()> {
    let a = digit_text::read(text, 0);
    println!(rt;
        "{name} {} {} {}",
        words::number_of(a.outcome),
        Shown::from(a.word),
        a.place
    )
}

fn requested(rt: &impl Print) -> io::Result<()> {
    for a in [1, 0, 2] {
        print_line(rt, "Ask 2", round_bit::even_cut(round_bit(5, a, 1), 1))?;
    }
    for text in ["+ +", "++-", "+0+", "+0-0-+?", "+-"] {
        print_reading(rt, "Ask 3", text.as_bytes())?;
    }
    print_reading(rt, "Ask 3", &[b'x'; 64])
}

fn main(rt: HostRuntime) -> io::Result<()> {
    sums(&rt)?;
    cuts(&rt)?;
    products(&rt)?;
    half_units(&rt)?;
    running_sum(&rt)?;
    widths(&rt)?;
    files(&rt)?;
    for text in ["+0+", "+-"] {
        print_reading(&rt, text, text.as_bytes())?;
    }
    requested(&rt)
}
