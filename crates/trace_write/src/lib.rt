// What the trace program writes: the bytes of an answer, or of a line that does not read. Each
// function writes into a lent buffer from a place on and answers the place after the last byte.
// Not a cursor: the program holds the buffer from line to line, and what waits in it is before the place.
#![tactic(auto)]

ghost use Rattle.std.specs.Prelude.{◌+◌, ◌*◌, ◌≤◌, ◌<◌, length};
ghost use Rattle.trace_write.specs.Text.{decimal, spaced, longest_spaced, line_text};
ghost use Rattle.trace_write.specs.Text.{answer_text, bad_text, longest_answer, Wrote};

use model::Answer;

// No output line is longer.
pub const LONGEST: usize = 66;

// The digits of n, without a leading zero.
// Not by Display: write! may fail, and promises its bytes of an Ok alone.
#[tactic(auto, using(crate::proofs::Bytes::digit_by_digit))]
fn write_decimal(out: &mut [u8], at: usize, n: u64) -> usize
    requires { at + length (decimal n) ≤ length out.old }
    ensures { Wrote (decimal n) at out.old out.new result }
{
    if n < 10 {
        out[at] = b'0' + n as u8;
        return at + 1;
    }
    let e = write_decimal(out, at, n / 10);
    out[e] = b'0' + (n % 10) as u8;
    e + 1
}

// A space and the digits of n.
fn write_spaced(out: &mut [u8], at: usize, n: u64) -> usize
    requires { at + longest_spaced ≤ length out.old }
    ensures { Wrote (spaced n) at out.old out.new result }
{
    out[at] = b' ';
    write_decimal(out, at + 1, n)
}

// Bytes as they are.
fn write_bytes(out: &mut [u8], at: usize, bytes: &[u8]) -> usize
    requires { at + length bytes.now ≤ length out.old }
    ensures { Wrote bytes.now at out.old out.new result }
{
    let end = at + bytes.len();
    out[at..end].copy_from_slice(bytes);
    end
}

// A line: a word, and numbers with a space before each.
#[tactic(auto, using(crate::proofs::Bytes::run_by_run))]
fn write_line(out: &mut [u8], at: usize, word: &[u8], numbers: &[u64]) -> usize
    requires { at + length word.now + longest_spaced * length numbers.now < length out.old }
    ensures { Wrote (line_text word.now numbers.now) at out.old out.new result }
{
    let mut end = write_bytes(out, at, word);
    for n in numbers {
        end = write_spaced(out, end, *n);
    }
    write_bytes(out, end, b"\n")
}

// The line that answers a call.
pub fn write_answer(out: &mut [u8], at: usize, answer: Answer) -> usize
    requires { at + longest_answer ≤ length out.old }
    ensures { Wrote (answer_text answer) at out.old out.new result }
{
    match answer {
        Answer::Refused(n) => write_line(out, at, b"no", &[n]),
        Answer::Done => write_line(out, at, b"ok", &[]),
        Answer::Value(v) => write_line(out, at, b"ok", &[v]),
        Answer::Swept(start, freed, returned) => write_line(
            out,
            at,
            b"ok",
            &[start, freed, returned],
        ),
    }
}

// The line for a line that does not read, by its number.
pub fn write_bad(out: &mut [u8], at: usize, number: u64) -> usize
    requires { at + longest_answer ≤ length out.old }
    ensures { Wrote (bad_text number) at out.old out.new result }
{
    write_line(out, at, b"bad", &[number])
}
