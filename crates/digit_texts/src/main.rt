// Writes every word of widths 2 to 6 as a digit text, and reads every text of up to four bytes over the
// three and an x, and texts that Ask 3 speaks of, with the place of what is wrong.
//
// Buffers begin as question marks, so that it shows which bytes were written. What it must print comes
// from second/digit_texts.py, which was written from the documents alone.
#![tactic(auto)]

ghost use Rattle.std.specs.Prelude.{◌^◌, ◌<◌, ◌≤◌};

use std::io;
use words::{Format, RoundBit, RoundBitWord};

const BYTES: [u8; 4] = *b"+0-x";

// Writes a word of unit 0 into a buffer of N bytes.
fn write<const N: usize>(rt: &impl Print, width: u32, x: i64, r: u8) -> io::Result<()>
    requires { N < 2 ^ 63 }
{
    let mut buffer = [b'?'; N];
    let a = digit_text::write(
        RoundBitWord {
            number: RoundBit(x, r),
            format: Format { width, unit: 0 },
        },
        &mut buffer,
    );
    print!(rt;
        "write {width} {x} {r} {} {} ",
        words::number_of(a.outcome),
        a.count
    )?;
    rt.write_all(&buffer)?;
    println!(rt)
}

fn writings(rt: &impl Print) -> io::Result<()> {
    for width in 2..=6 {
        let half = 1i64 << (width - 1);
        for x in -half..half {
            // The last is no round bit.
            for r in 0..=2 {
                write::<8>(rt, width, x, r)?;
            }
        }
    }
    write::<8>(rt, 11, -718, 0)?;
    write::<12>(rt, 11, -718, 0)?;
    write::<3>(rt, 4, 5, 1)?;
    write::<4>(rt, 4, 5, 1)
}

fn read(rt: &impl Print, text: &[u8], unit: i32) -> io::Result<()> {
    let a = digit_text::read(text, unit);
    rt.write_all(b"read ")?;
    rt.write_all(text)?;
    print!(rt; " {} {}", words::number_of(a.outcome), a.word.number.0)?;
    print!(rt; " {} {}", a.word.number.1, a.word.format.width)?;
    println!(rt; " {} {}", a.word.format.unit, a.place)
}

// Reads every text of n bytes, the last byte changing fastest.
fn read_length(rt: &impl Print, n: usize) -> io::Result<()>
    requires { n ≤ 4 }
{
    for i in 0..1usize << (2 * n) {
        let mut text = [0; 4];
        let mut rest = i;
        for byte in text[..n].iter_mut().rev() {
            *byte = BYTES[rest % 4];
            rest /= 4;
        }
        read(rt, &text[..n], 0)?;
    }
    Ok(())
}

fn readings(rt: &impl Print) -> io::Result<()> {
    for n in 0..=4 {
        read_length(rt, n)?;
    }
    for unit in [-128, -127, 0, 127, 128] {
        read(rt, b"+-", unit)?;
    }
    for text in ["+ +", "+0+", "++-", "+0-0-+?"] {
        read(rt, text.as_bytes(), 0)?;
    }
    read(rt, &[b'x'; 64], 0)
}

fn main(rt: HostRuntime) -> io::Result<()> {
    writings(&rt)?;
    readings(&rt)
}
