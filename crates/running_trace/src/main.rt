// Runs the running sum: P14 of the bench sheet, then ten thousand puts of a fixed pseudo-random signal.
//
// Every thousand puts it prints what was accepted, what was handed out and what is kept, in half units
// of the sum's unit, and beside them the same of a faulty sum to which the same calls are made, but
// which drops the rest's round bit at each hand-out: how far that trace has crept. What it must print
// comes from second/running_trace.py, which was written from document 01 alone.
#![tactic(auto)]

use running_sum::RunningSum;
use std::{fmt, io};
use words::{Format, Outcome, RoundBit, RoundBitWord};

// A number and its round bit.
#[derive(Drop)]
struct Shown(RoundBitWord);

impl fmt::Display for Shown {
    fn fmt<W: fmt::Write>(&self, f: &mut fmt::Formatter<W>) -> fmt::Result {
        let RoundBit(a, r) = self.0.number;
        write!(f, "{a} {r}")
    }
}

fn word(a: i64, r: u8, width: u32, unit: i32) -> RoundBitWord {
    RoundBitWord {
        number: RoundBit(a, r),
        format: Format { width, unit },
    }
}

// The value of a word in half units of its own unit.
fn value(w: RoundBitWord) -> i64 {
    let RoundBit(a, r) = w.number;
    a.wrapping_add(i64::from(r)).wrapping_mul(2)
}

// A sum, the outcome and the word of the last call on it, and the values of the words that went in and
// out. These stay far below 2^63, so they never wrap.
#[derive(Clone, Copy)]
struct Trace {
    sum: RunningSum,
    outcome: u32,
    word: RoundBitWord,
    accepted: i64,
    handed_out: i64,
}

impl Trace {
    fn open(width: u32, unit: i32, depth: u64) -> Trace {
        let a = running_sum::open(width, unit, depth);
        Trace {
            sum: a.sum,
            outcome: words::number_of(a.outcome),
            word: a.sum.kept,
            accepted: 0,
            handed_out: 0,
        }
    }

    // Notes what a call answered, and gives the value of its word: 0 where it was refused.
    fn note(&mut self, outcome: Outcome, word: RoundBitWord, sum: RunningSum) -> i64 {
        self.outcome = words::number_of(outcome);
        self.word = word;
        self.sum = sum;
        if self.outcome == 0 { value(word) } else { 0 }
    }

    fn put(&mut self, word: RoundBitWord) {
        let a = self.sum.put(word);
        let amount = self.note(a.outcome, word, a.sum);
        self.accepted = self.accepted.wrapping_add(amount);
    }

    // The sum of the signal has depth 8: a word that it hands out counts 256 times.
    fn hand_out(&mut self) {
        let a = self.sum.hand_out();
        let amount = self.note(a.outcome, a.word, a.sum).wrapping_mul(256);
        self.handed_out = self.handed_out.wrapping_add(amount);
    }

    fn empty(&mut self) {
        let a = self.sum.empty();
        let amount = self.note(a.outcome, a.word, a.sum);
        self.handed_out = self.handed_out.wrapping_add(amount);
    }

    // The fault.
    fn drop_round_bit(&mut self) {
        self.sum.kept.number.1 = 0;
    }

    // What went in less what came out and what is kept.
    fn crept(&self) -> i64 {
        self.accepted
            .wrapping_sub(self.handed_out)
            .wrapping_sub(value(self.sum.kept))
    }
}

impl fmt::Display for Trace {
    fn fmt<W: fmt::Write>(&self, f: &mut fmt::Formatter<W>) -> fmt::Result {
        let kept = value(self.sum.kept);
        write!(
            f,
            "in {} out {} kept {kept}",
            self.accepted, self.handed_out
        )
    }
}

// P14: a put and a hand-out, and what each leaves.
fn bench_sheet(rt: &impl Print) -> io::Result<()> {
    let mut t = Trace::open(8, 0, 2);
    for (a, r) in [(3, 0), (3, 0), (0, 1)] {
        t.put(word(a, r, 8, 0));
        println!(rt; "put {} kept {}", t.outcome, Shown(t.sum.kept))?;
        t.hand_out();
        print!(rt; "hand out {} word {}", t.outcome, Shown(t.word))?;
        println!(rt; " kept {}", Shown(t.sum.kept))?;
    }
    Ok(())
}

fn next(x: u32) -> u32 {
    ((75 * u64::from(x) + 74) % 65537) as u32
}

fn fine(a: i64, r: u8) -> RoundBitWord {
    word(a, r, 24, -8)
}

fn signal_word(x: u32) -> RoundBitWord {
    fine(i64::from(x % 401) - 200, (x / 401 % 2) as u8)
}

// The sum, and the faulty one.
#[derive(Drop)]
struct Run {
    sum: Trace,
    faulty: Trace,
}

impl Run {
    fn both<F: Fn(&mut Trace)>(&mut self, step: F)
        requires { F.IsAlwaysCallable step }
    {
        step(&mut self.sum);
        step(&mut self.faulty);
    }

    fn put(&mut self, word: RoundBitWord) {
        self.both(|t| t.put(word));
    }

    fn hand_out(&mut self) {
        self.both(Trace::hand_out);
        self.faulty.drop_round_bit();
    }

    fn empty(&mut self) {
        self.both(Trace::empty);
    }

    // Two hand-outs in a row; a great word, the same again, which does not fit, and its opposite; a word of
    // another unit.
    fn six_calls(&mut self, rt: &impl Print) -> io::Result<()> {
        print!(rt; "calls")?;
        for _ in 0..2 {
            self.hand_out();
            print!(rt; " {}", self.sum.outcome)?;
        }
        let great = fine(8000000, 0);
        for w in [great, great, fine(-8000000, 0), word(1, 1, 24, -7)] {
            self.put(w);
            print!(rt; " {}", self.sum.outcome)?;
        }
        println!(rt)
    }

    fn thousandth(&mut self, rt: &impl Print, k: u32) -> io::Result<()> {
        self.six_calls(rt)?;
        if k % 5000 == 0 {
            self.empty();
            println!(rt; "empty {} word {}", self.sum.outcome, Shown(self.sum.word))?;
        }
        println!(rt;
            "{k} {} crept {} by {}",
            self.sum,
            self.faulty,
            self.faulty.crept()
        )
    }
}

fn main(rt: HostRuntime) -> io::Result<()> {
    bench_sheet(&rt)?;
    let mut run = Run {
        sum: Trace::open(24, -8, 8),
        faulty: Trace::open(24, -8, 8),
    };
    let mut signal = 1;
    for k in 1..=10000 {
        signal = next(signal);
        run.put(signal_word(signal));
        if k % 16 == 0 {
            run.hand_out();
        }
        if k % 1000 == 0 {
            run.thousandth(&rt, k)?;
        }
    }
    Ok(())
}
