// Reading a file to its end and writing a text whole, over a reader's `read` and a writer's `write`.
//
// A call that fails is not the end of a file, nor a text that was written. `std`'s loops tell these apart, but not
// how much was moved before a failure, and they make an interrupted call again for as good as ever. What is said is
// which bytes are moved, of a reader and a writer that say which they have, and how many: never more than there is
// room for, and `Whole` of a text only once all of it was taken. No contract can say which bytes the streams of the
// process have.
ghost use Rattle.std.specs.Prelude.{◌≡◌, ◌≢◌, ◌<◌, ◌≤◌, length, take};
ghost use Rattle.io.specs.Counts.{IsPrefixLen};
ghost use Rattle.std.specs.Io.{ReadsAtMost, WritesAtMost};
ghost use Rattle.std.specs.Io.KnownBytes.{Appends, Consumes, IsAtEnd, ReadConsumes, WriteAppends};

use std::io::{Error, ErrorKind, Read, Result, Write};

// A call that a signal interrupts is made again, but a loop has to end: so many in a row are an error.
const MOST_INTERRUPTED: u32 = 1000;

#[derive(Clone, Copy)]
pub(crate) enum End {
    Whole,
    // The error says why.
    Failed(Error),
    // A write took nothing, and did not fail.
    Stuck,
}

// How many bytes were moved, and how that ended.
#[derive(Clone, Copy)]
pub(crate) struct Run {
    pub(crate) count: usize,
    pub(crate) end: End,
}

fn read_once<R: Read>(reader: &mut R, buf: &mut [u8]) -> Result<usize>
    ensures bound { ReadsAtMost result buf.new }
    ensures bytes { ReadConsumes (R.remaining reader.old) (R.remaining reader.new) result buf.new }
{
    for _ in 1..MOST_INTERRUPTED {
        match reader.read(buf) {
            Err(e) if e.kind() == ErrorKind::Interrupted => {}
            read => return read,
        }
    }
    reader.read(buf)
}

fn write_once<W: Write>(writer: &mut W, buf: &[u8]) -> Result<usize>
    ensures bound { WritesAtMost result buf.now }
    ensures bytes { WriteAppends (W.contents writer.old) (W.contents writer.new) result buf.now }
{
    for _ in 1..MOST_INTERRUPTED {
        match writer.write(buf) {
            Err(e) if e.kind() == ErrorKind::Interrupted => {}
            written => return written,
        }
    }
    writer.write(buf)
}

// Reads until the file ends or the buffer is full.
pub(crate) fn read_to_end<R: Read>(reader: &mut R, buf: &mut [u8]) -> Run
    ensures prefix_len { IsPrefixLen result.count buf.new }
    ensures end_value { result.count ≡ length buf.new → result.end ≡ End.Whole }
    ensures never_stuck { result.end ≢ End.Stuck }
    ensures bytes { Consumes (R.remaining reader.old) (R.remaining reader.new) (take result.count buf.new) }
    ensures file_end { result.end ≡ End.Whole → result.count < length buf.new → IsAtEnd (R.remaining reader.new) }
{
    let mut count = 0;
    while count < buf.len() {
        match read_once(reader, &mut buf[count..]) {
            Ok(0) => break,
            Ok(n) => count += n,
            Err(e) => {
                return Run {
                    count,
                    end: End::Failed(e),
                };
            }
        }
    }
    Run {
        count,
        end: End::Whole,
    }
}

// Writes all of a text.
pub(crate) fn write_whole<W: Write>(writer: &mut W, text: &[u8]) -> Run
    ensures count_in_bounds { result.count ≤ length text.now }
    ensures count_value { result.end ≡ End.Whole → result.count ≡ length text.now }
    ensures end_value { result.count ≡ length text.now → result.end ≡ End.Whole }
    ensures bytes { Appends (W.contents writer.old) (W.contents writer.new) (take result.count text.now) }
{
    let mut count = 0;
    while count < text.len() {
        match write_once(writer, &text[count..]) {
            Ok(0) => {
                return Run {
                    count,
                    end: End::Stuck,
                };
            }
            Ok(n) => count += n,
            Err(e) => {
                return Run {
                    count,
                    end: End::Failed(e),
                };
            }
        }
    }
    Run {
        count,
        end: End::Whole,
    }
}
