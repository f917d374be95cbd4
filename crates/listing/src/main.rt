// The listing program: one block file on standard input, its listing on standard output.
//
// It only reads and writes. One byte more than the longest good file is enough of the input to see
// that it is longer, and no listing is longer than the buffer for the text. What cannot be read or
// written is said on standard error, and a file that was not read has no listing.
#![tactic(auto)]

mod whole_io;

ghost use Rattle.std.specs.Prelude.{◌≡◌, ◌≤◌, IfSome, length, take, false};
ghost use Rattle.io.specs.Counts.{IsPrefixLen};
ghost use Rattle.words.specs.Outcomes.{Done};
ghost use Rattle.listing_text.specs.Listing.{listing, list_check};
ghost use Rattle.listing.specs.Endings.{LeavesListing, read_of};

use listing_text::LONGEST;
use std::env::Env;
use std::io::{Error, Read, Write};
use whole_io::End;

const ROOM: usize = block_file::LONGEST_FILE + 1;

// More than any error's text: std keeps 256 bytes of what the system says, and puts the number behind.
const ERROR_ROOM: usize = 300;

fn main(rt: HostRuntime) {
    let ended = list_file(&mut rt.stdin(), &mut rt.stdout());
    tell(&rt, &mut rt.stderr(), ended);
}

// How a run ended.
#[derive(Clone, Copy)]
enum Ended {
    Listed,
    Refused,
    NotRead(End),
    NotWritten(End),
}

impl Ended {
    // What one who asks for the outcome is told.
    fn line(&self) -> &'static str {
        match self {
            Ended::Listed => "listed\n",
            Ended::Refused => "refused\n",
            Ended::NotRead(_) => "not read\n",
            Ended::NotWritten(_) => "not written\n",
        }
    }
}

// Over any input and output, so that the contract can name their bytes where they say which they have.
fn list_file<R: Read, W: Write>(input: &mut R, out: &mut W) -> Ended
    ensures { IfSome (R.remaining input.old)
        (λ xs. LeavesListing result (read_of xs) (W.contents out.old) (W.contents out.new)) }
{
    let mut file = [0u8; ROOM];
    let run = whole_io::read_to_end(input, &mut file);
    match run.end {
        End::Whole => write_listing(&file[..run.count], out),
        end => Ended::NotRead(end),
    }
}

fn write_listing<W: Write>(file: &[u8], out: &mut W) -> Ended
    ensures { LeavesListing result file.now (W.contents out.old) (W.contents out.new) }
{
    let mut text = [0u8; LONGEST];
    let listed = list_into(file, &mut text);
    let run = whole_io::write_whole(out, &text[..listed.count]);
    match run.end {
        End::Whole if listed.refused => Ended::Refused,
        End::Whole => Ended::Listed,
        end => Ended::NotWritten(end),
    }
}

#[derive(Clone, Copy)]
struct Listed {
    count: usize,
    refused: bool,
}

fn list_into(file: &[u8], text: &mut [u8; LONGEST]) -> Listed
    ensures prefix_len { IsPrefixLen result.count text.new }
    ensures text_new { take result.count text.new ≡ listing file.now }
    ensures file_value { result.refused ≡ false → list_check file.now ≡ Done }
    ensures refused_value { list_check file.now ≡ Done → result.refused ≡ false }
{
    let a = listing_text::list(file, text);
    // A listing begins with a kind's name, so the first byte tells a refusal from it.
    Listed {
        count: a.count,
        refused: text[0] == b'r',
    }
}

// Says what went wrong, and how it ended to one who asks. The exit status is 0 however it ends, so the outcome is
// the last line of standard error.
fn tell(env: &impl Env, err: &mut impl Write, ended: Ended) {
    match ended {
        Ended::Listed | Ended::Refused => {}
        Ended::NotRead(end) => stopped(err, "listing: standard input", end),
        Ended::NotWritten(end) => stopped(err, "listing: standard output", end),
    }
    if is_asked(env) {
        say(err, ended.line());
    }
}

fn is_asked(env: &impl Env) -> bool {
    let mut word = [0u8; 8];
    matches!(env.arg(1, &mut word), Ok(n) if word[..n] == b"outcome"[..])
}

fn say(err: &mut impl Write, text: &str) {
    whole_io::write_whole(err, text.as_bytes());
}

// A line of what failed, a colon and what the system says.
fn stopped(err: &mut impl Write, what: &str, end: End) {
    say(err, what);
    say(err, ": ");
    match end {
        End::Failed(error) => {
            let mut room = [0u8; ERROR_ROOM];
            whole_io::write_whole(err, without_number(text_of(error, &mut room)));
        }
        End::Whole | End::Stuck => say(err, "takes no more bytes"),
    }
    say(err, "\n");
}

// An error's text, put at the front of the buffer.
fn text_of(error: Error, room: &mut [u8; ERROR_ROOM]) -> &[u8]
    ensures { length result.now ≤ 300 }
{
    let mut rest: &mut [u8] = &mut room[..];
    let _ = write!(rest, "{error}");
    let count = ERROR_ROOM.saturating_sub(rest.len());
    &room[..count]
}

// std puts an error's number behind what the system says, in brackets.
fn without_number(text: &[u8]) -> &[u8] {
    match text.iter().rposition(|&b| b == b'(') {
        Some(i) if 0 < i => &text[..i - 1],
        _ => text,
    }
}
