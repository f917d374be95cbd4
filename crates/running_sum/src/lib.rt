// The running sum: words go in, coarse words come out, and nothing is lost on the way.
//
// It keeps one round-bit word. A put adds to it; a hand-out cuts it to the coarse unit, and what the
// cut dropped stays kept, its round bit too; emptying hands out all. So the words accepted are always
// the words handed out plus what is kept, however long it runs: specs/Demand3.antt says it, and
// `demand_3` in proofs/Demand3.antt and, of this code, proofs/Links.antt prove it.
//
// A sum goes in by value and comes back by value. Every call takes any sum, also one that no opening
// made, and a refused call leaves the sum as it was, digit for digit.
#![tactic(auto)]

ghost use Rattle.std.specs.Prelude.{◌≡◌};
ghost use Rattle.words.specs.Outcomes.{Refused, given};
ghost use Rattle.words.specs.Refusals.{◌or_else◌};
ghost use Rattle.round_bit.specs.Cuts.{cut_of, rest_of};
ghost use Rattle.round_bit.specs.Arithmetic.{sum_of};
ghost use Rattle.running_sum.specs.Steps.{blank, depth_check, open_check, open_of, opened, put, hand_out, empty, step_of, running_sum_check, put_check, keeping, put_answer, hand_out_answer, empty_answer};

use round_bit::CutAndRest;
use words::{Cause, Format, Outcome, RoundBit, RoundBitWord, Word, refuse_for};

#[derive(Clone, Copy)]
pub struct RunningSum {
    pub kept: RoundBitWord,
    pub depth: u64,
}

// The answer of an opening, where a refused one keeps the blank word at depth 0, and of a put, which hands
// back no word.
#[derive(Clone, Copy)]
pub struct SumAnswer {
    pub outcome: Outcome,
    pub sum: RunningSum,
}

// The answer of a hand-out and of an emptying.
#[derive(Clone, Copy)]
pub struct HandedAnswer {
    pub outcome: Outcome,
    pub word: RoundBitWord,
    pub sum: RunningSum,
}

// 5, then 7. A depth that is not 0 leaves at least 2 digits exactly where a cut by it does.
fn depth_check(format: Format, depth: u64) -> Outcome
    ensures { result ≡ depth_check format depth }
{
    refuse_for(Cause::Depth, depth == 0)?;
    format.narrower(depth).and(Ok(()))
}

// A running sum is made here, and by `keeping` from another.
fn opened(format: Format, depth: u64) -> Result<RunningSum, Cause>
    ensures { result ≡ given (open_check format depth) (opened format depth) }
{
    format.check()?;
    depth_check(format, depth)?;
    let kept = Word {
        number: RoundBit(0, 0),
        format,
    };
    Ok(RunningSum { kept, depth })
}

fn keeping(s: RunningSum, w: RoundBitWord) -> RunningSum
    ensures { result ≡ keeping s w }
{
    let depth = s.depth;
    RunningSum {
        kept: w,
        depth: depth,
    }
}

// Opens a sum of this width, unit and depth.
pub fn open(width: u32, unit: i32, depth: u64) -> SumAnswer
    ensures { result ≡ open_of width unit depth }
{
    match opened(Format { width, unit }, depth) {
        Ok(sum) => SumAnswer {
            outcome: Ok(()),
            sum,
        },
        Err(cause) => SumAnswer {
            outcome: Err(cause),
            sum: RunningSum {
                kept: Word::blank(),
                depth: 0,
            },
        },
    }
}

impl RunningSum {
    // What every call asks of the sum: 1, 2, 3 of its kept word, then 5 and 7 of its depth.
    fn check(self) -> Outcome
        ensures { result ≡ running_sum_check self }
    {
        self.kept.check()?;
        depth_check(self.kept.format, self.depth)
    }

    // What a put keeps. The lowest of 4, 5 and 7 comes after both words' 1, 2, 3, and 8 last.
    fn sum_with(self, word: RoundBitWord) -> Result<RoundBitWord, Cause>
        ensures { let a = sum_of self.kept word in result ≡ given (put_check self word or_else a.outcome) a.word }
    {
        self.kept.sum_check(word)?;
        depth_check(self.kept.format, self.depth)?;
        let answer = round_bit::sum(self.kept, word);
        answer.outcome?;
        Ok(answer.word)
    }

    // What a hand-out hands out and keeps.
    fn cut(self) -> Result<CutAndRest, Cause>
        ensures { result ≡ given (running_sum_check self) (record { word = (cut_of self.kept self.depth).word; rest = (rest_of self.kept self.depth).word }) }
    {
        self.kept.check()?;
        refuse_for(Cause::Depth, self.depth == 0)?;
        round_bit::cut_in_two(self.kept, self.depth)
    }

    // A call that hands out and is refused leaves the sum as it was.
    fn refused(self, cause: Cause) -> HandedAnswer
        ensures { result ≡ record { outcome = Refused cause; word = blank; sum = self } }
    {
        HandedAnswer {
            outcome: Err(cause),
            word: Word::blank(),
            sum: self,
        }
    }

    // Put: kept becomes the sum of kept and the word.
    pub fn put(mut self, word: RoundBitWord) -> SumAnswer
        ensures { result ≡ put_answer (step_of self (put word)) }
    {
        let sum = self.sum_with(word);
        if let Ok(total) = sum {
            self = keeping(self, total);
        }
        SumAnswer {
            outcome: sum.and(Ok(())),
            sum: self,
        }
    }

    // Hand out: the cut of kept by the depth; kept becomes the rest.
    pub fn hand_out(mut self) -> HandedAnswer
        ensures { result ≡ hand_out_answer (step_of self hand_out) }
    {
        match self.cut() {
            Err(cause) => self.refused(cause),
            Ok(CutAndRest { word, rest }) => {
                // The round bit too: without it the trace creeps.
                let kept = Word {
                    number: RoundBit(rest.number.0, rest.number.1),
                    format: rest.format,
                };
                self = keeping(self, kept);
                HandedAnswer {
                    outcome: Ok(()),
                    word,
                    sum: self,
                }
            }
        }
    }

    // Empty: the kept word whole; kept becomes (0,0).
    pub fn empty(mut self) -> HandedAnswer
        ensures { result ≡ empty_answer (step_of self empty) }
    {
        if let Err(cause) = self.check() {
            return self.refused(cause);
        }
        let word = self.kept;
        let zero = RoundBit(0, 0);
        let nothing = Word {
            number: zero,
            format: word.format,
        };
        self = keeping(self, nothing);
        HandedAnswer {
            outcome: Ok(()),
            word,
            sum: self,
        }
    }
}
