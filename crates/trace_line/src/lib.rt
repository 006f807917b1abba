// The work of one line of a trace. The state between lines is P, the four buffers and the line
// number; a line's bytes come in, its answer's bytes go out into a lent buffer.
#![tactic(auto)]

ghost use Rattle.std.specs.Prelude.{◌≡◌, ◌+◌, ◌≤◌, IfSome, length};
ghost use Rattle.model.specs.Answers.{accepted};
ghost use Rattle.trace_read.specs.Lines.{read_line};
ghost use Rattle.trace_write.specs.Text.{longest_answer};
ghost use Rattle.trace_line.specs.Play.{most_pages, in_reach, played_setup, first, later, pages_of, PlaysLine};
ghost use Rattle.heap.specs.Buffers.{on_buffers, SameLoans};
ghost use Rattle.model.specs.Promises.{exclusive};

use heap::Buffers;
use model::{Answer, Call, Refusal};
use trace_read::Line;

// What the work of a line leaves: the place after what it wrote, and whether the run goes on.
// Not a ControlFlow: both ways have the place, and callers take it alike.
#[derive(Clone, Copy)]
pub struct LineResult {
    pub at: usize,
    pub more: bool,
}

// The trace program has memory for so many pages.
pub const MOST_PAGES: u64 = 8;

fn in_reach(p: u64) -> bool
    ensures { result ≡ in_reach p }
{
    (1..=MOST_PAGES).contains(&p)
}

// How many pages the first line asks for, if it asks for some that can be had.
pub fn pages(line: &[u8]) -> Option<u64>
    ensures asked { result ≡ pages_of (read_line line.now) }
    ensures within { IfSome result (λ p. p ≤ most_pages) }
{
    match trace_read::read(line)? {
        Line::Setup(p) if in_reach(p) => Some(p),
        _ => None,
    }
}

fn is_accepted(answer: Answer) -> bool
    ensures { result ≡ accepted answer }
{
    !matches!(answer, Answer::Refused(1..))
}

// `H p`, as the first line.
fn set_up(p: u64, buffers: &mut Buffers, out: &mut [u8], at: usize) -> LineResult
    requires { at + longest_answer ≤ length out.old }
    ensures plays { on_buffers (PlaysLine (played_setup p) 0) buffers.old buffers.new (exclusive out) at result }
    ensures same { SameLoans buffers.old buffers.new }
{
    if !in_reach(p) {
        let e = trace_write::write_answer(out, at, Answer::from(Err(Refusal::BadBuffers)));
        return LineResult { at: e, more: false };
    }
    let answer = buffers.make(p, Call::Setup);
    let more = is_accepted(answer);
    let e = trace_write::write_answer(out, at, answer);
    LineResult { at: e, more }
}

// The first line of a trace. The buffers are those of the pages that `pages` tells, of none
// where it tells none.
pub fn first_line(buffers: &mut Buffers, line: &[u8], out: &mut [u8], at: usize) -> LineResult
    requires { at + longest_answer ≤ length out.old }
    ensures plays { on_buffers (PlaysLine (first (read_line line.now)) 0) buffers.old buffers.new
        (exclusive out) at result }
    ensures same { SameLoans buffers.old buffers.new }
{
    let Some(Line::Setup(p)) = trace_read::read(line) else {
        let e = trace_write::write_bad(out, at, 1);
        return LineResult { at: e, more: false };
    };
    set_up(p, buffers, out, at)
}

// A later line of a trace, by its number from 1, on a heap of p pages.
pub fn later_line(
    p: u64,
    buffers: &mut Buffers,
    number: u64,
    line: &[u8],
    out: &mut [u8],
    at: usize,
) -> LineResult
    requires { at + longest_answer ≤ length out.old }
    ensures plays { on_buffers (PlaysLine (later (read_line line.now) number) p) buffers.old buffers.new
        (exclusive out) at result }
    ensures same { SameLoans buffers.old buffers.new }
{
    let Some(Line::Call(call)) = trace_read::read(line) else {
        let e = trace_write::write_bad(out, at, number);
        return LineResult { at: e, more: false };
    };
    let answer = buffers.make(p, call);
    let e = trace_write::write_answer(out, at, answer);
    LineResult { at: e, more: true }
}
