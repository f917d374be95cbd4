// Runs the checks of all three kinds of word at the edges of widths, units, numbers and round bits.
//
// A line for each: width, unit, number, then the number of the outcome for the plain word, the
// half-unit word, and the round-bit words with round bits 0, 1, 2 and 255. What it must print comes
// from second/check_edges.py, which was written from document 01 alone.
#![tactic(auto)]

use std::io;
use words::{Format, HalfUnit, HalfUnitWord, Plain, PlainWord, RoundBit, RoundBitWord, number_of};

const WIDTHS: [u32; 6] = [0, 1, 2, 63, 64, u32::MAX];

const UNITS: [i32; 5] = [i32::MIN, -128, -127, 127, 128];

// The least and the greatest number of 63 digits.
const LEAST: i64 = i64::MIN / 2;

const MOST: i64 = i64::MAX / 2;

const NUMBERS: [i64; 12] = [
    i64::MIN,
    LEAST - 1,
    LEAST,
    -3,
    -2,
    -1,
    0,
    1,
    2,
    MOST,
    MOST + 1,
    i64::MAX,
];

const ROUND_BITS: [u8; 4] = [0, 1, 2, 255];

fn line(rt: &impl Print, format: Format, x: i64) -> io::Result<()> {
    let plain = PlainWord {
        number: Plain(x),
        format,
    };
    let half_unit = HalfUnitWord {
        number: HalfUnit(x),
        format,
    };
    print!(rt; "{} {} {x}", format.width, format.unit)?;
    print!(rt;
        " {} {}",
        number_of(plain.check()),
        number_of(half_unit.check())
    )?;
    for r in ROUND_BITS {
        let round_bit = RoundBitWord {
            number: RoundBit(x, r),
            format,
        };
        print!(rt; " {}", number_of(round_bit.check()))?;
    }
    println!(rt)
}

// The number changes fastest and the width slowest.
fn main(rt: HostRuntime) -> io::Result<()> {
    for width in WIDTHS {
        for unit in UNITS {
            for x in NUMBERS {
                line(&rt, Format { width, unit }, x)?;
            }
        }
    }
    Ok(())
}
