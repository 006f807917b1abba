// Plays a trace: standard input in blocks, the work of each line by the library `trace_line`, standard
// output in blocks. Memory is fixed: a line that is too long ends the run as soon as that shows.
#![tactic(auto)]

ghost use Rattle.std.specs.Prelude.{◌≡◌, ◌+◌, ◌≤◌, length};
ghost use Rattle.trace_read.specs.Lines.{longest_line};
ghost use Rattle.trace_split.specs.Split.{Short};
ghost use Rattle.trace_write.specs.Text.{longest_answer};
ghost use Rattle.trace_line.specs.Play.{most_pages};
ghost use Rattle.play.specs.Run.{block_bytes, LentMemory, InRange};

use heap::Buffers;
use std::io::{Read, Stdin, Stdout, Write};
use trace_split::Taken;

// So many bytes are read at once, and so many wait at most before they are written.
const BLOCK_BYTES: usize = 65536;

// The memory of the most pages that a trace may ask for.
const PAGES: usize = trace_line::MOST_PAGES as usize;

const ARENA_WORDS: usize = units::PAGE_WORDS * PAGES;

const TABLE_NUMBERS: usize = units::ENTRY_NUMBERS * PAGES;

const BITMAP_WORDS: usize = units::BITMAP_WORDS * PAGES;

// How far the run is: P (0 before the first line, which `lines` tells), the lines played, the bytes of
// the line under way, the bytes of output that wait, and whether the run goes on: a flag and no enum,
// since the rest is there in both cases. That it is in range (`InRange`) is no ghost field: a value that
// has one cannot be written by update, as `..run` is.
#[derive(Clone, Copy)]
pub struct Progress {
    // 0 and no Option before the first line: so long are the parts of the buffers then
    pub pages: u64,
    pub lines: u64,
    pub used: usize,
    pub at: usize,
    pub more: bool,
}

// The bytes go to standard output. What a write that fails leaves unwritten is lost, and the run goes
// on.
fn write_out(mut stdout: Stdout, bytes: &[u8]) {
    let _ = stdout.write_all(bytes);
}

// The next bytes of standard input, at the start of the block. There are none at its end, nor where
// a read fails.
fn read_block(mut stdin: Stdin, block: &mut [u8]) -> usize
    ensures { result ≤ length block.new }
{
    stdin.read(block).unwrap_or(0)
}

// Room for one more line of output: what waits is written where it has to be.
fn room(stdout: Stdout, out: &[u8], at: usize) -> usize
    requires { (at ≤ block_bytes) × (length out.now ≡ block_bytes) }
    ensures { result + longest_answer ≤ block_bytes }
{
    if at + trace_write::LONGEST <= out.len() {
        return at;
    }
    write_out(stdout, &out[..at]);
    0
}

// A line that was read to its end, on the part of each buffer that the run's pages take: those that
// the first line asks for, if it asks for some. The memory itself is lent as four slices and not as one
// value: that a slice keeps its length is known, and of a value each contract would have to say it.
fn play_line(
    stdout: Stdout,
    arena: &mut [u64],
    table: &mut [u32],
    bits: &mut [u64],
    roots: &mut [u64],
    out: &mut [u8],
    line: &[u8],
    run: Progress,
) -> Progress
    requires lent_memory { LentMemory arena.old table.old bits.old roots.old out.old }
    requires in_range { InRange run }
    ensures { InRange result }
{
    let at = room(stdout, out, run.at);
    let is_first = run.lines == 0;
    let pages = if is_first {
        trace_line::pages(line).unwrap_or(0)
    } else {
        run.pages
    };
    let lines = run.lines.wrapping_add(1);
    let n = pages as usize;
    let mut buffers = Buffers {
        arena: &mut arena[..units::PAGE_WORDS * n],
        table: &mut table[..units::ENTRY_NUMBERS * n],
        bits: &mut bits[..units::BITMAP_WORDS * n],
        roots,
    };
    let step = if is_first {
        trace_line::first_line(&mut buffers, line, out, at)
    } else {
        trace_line::later_line(pages, &mut buffers, lines, line, out, at)
    };
    Progress {
        pages,
        lines,
        used: 0,
        at: step.at,
        more: step.more,
    }
}

// Before the first line.
fn begun() -> Progress
    ensures { InRange result }
{
    Progress {
        pages: 0,
        lines: 0,
        used: 0,
        at: 0,
        more: true,
    }
}

// What is left of a block behind its last line: the line under way, or one that is too long, which
// ends the run.
fn left_over(run: Progress, taken: Taken) -> Progress
    requires { InRange run × Short taken }
    ensures { InRange result }
{
    match taken {
        Taken::Line(_, _) => run,
        Taken::Part(used) => Progress {
            used,
            more: true,
            ..run
        },
        Taken::TooLong => Progress {
            used: trace_read::LONGEST,
            more: false,
            ..run
        },
    }
}

// The lines of a block, one after the other.
fn feed(
    stdout: Stdout,
    arena: &mut [u64],
    table: &mut [u32],
    bits: &mut [u64],
    roots: &mut [u64],
    out: &mut [u8],
    line: &mut [u8],
    block: &[u8],
    from: Progress,
) -> Progress
    requires lent_memory { LentMemory arena.old table.old bits.old roots.old out.old }
    requires in_range { InRange from × (length line.old ≡ longest_line) }
    ensures { InRange result }
{
    let mut run = from;
    let mut i = 0;
    // Not a for: a turn passes a whole line.
    while run.more {
        let taken = trace_split::take(line, run.used, block, i);
        let Taken::Line(n, next) = taken else {
            return left_over(run, taken);
        };
        run = play_line(stdout, arena, table, bits, roots, out, &line[..n], run);
        i = next;
    }
    run
}

// What waits is written.
fn flushed(stdout: Stdout, out: &[u8], run: Progress) -> Progress
    requires { InRange run × (length out.now ≡ block_bytes) }
    ensures { InRange result }
{
    write_out(stdout, &out[..run.at]);
    Progress { at: 0, ..run }
}

// The end of the run: what waits is written. A line under way does not read, nor does an input with
// no line at all.
fn end(stdout: Stdout, out: &mut [u8], run: Progress)
    requires { InRange run × (length out.old ≡ block_bytes) }
{
    write_out(stdout, &out[..run.at]);
    if run.used == 0 && run.lines != 0 {
        return;
    }
    let number = run.lines.wrapping_add(1);
    let n = trace_write::write_bad(out, 0, number);
    write_out(stdout, &out[..n]);
}

fn main(rt: HostRuntime) {
    let stdin = rt.stdin();
    let stdout = rt.stdout();
    let mut arena = [0u64; ARENA_WORDS];
    let mut table = [0u32; TABLE_NUMBERS];
    let mut bits = [0u64; BITMAP_WORDS];
    let mut roots = [0u64; units::ROOT_WORDS];
    let mut line = [0u8; trace_read::LONGEST];
    let mut block = [0u8; BLOCK_BYTES];
    let mut out = [0u8; BLOCK_BYTES];
    let mut run = begun();
    // Without end: a loop that only its input ends is written by a count.
    for _ in 0..u64::MAX {
        let n = read_block(stdin, &mut block);
        if n == 0 {
            return end(stdout, &mut out, run);
        }
        run = feed(
            stdout,
            &mut arena,
            &mut table,
            &mut bits,
            &mut roots,
            &mut out,
            &mut line,
            &block[..n],
            run,
        );
        if !run.more {
            return end(stdout, &mut out, run);
        }
        run = flushed(stdout, &out, run);
    }
}
