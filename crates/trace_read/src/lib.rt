// A line of a trace, read: one letter, then numbers, one space before each. `read` takes the bytes
// of a line without its line feed and tells what it asks for, or that it does not read.
#![tactic(auto)]

ghost use Rattle.std.specs.Prelude.{◌≡◌, ◌+◌, ◌*◌, ◌^◌, ◌≤◌, ◌<◌, [], ◌∷◌, ◌++◌, length, take};
ghost use Rattle.std.specs.Prelude.{SomeIff, IfSome, MatchOption};
ghost use Rattle.trace_read.specs.Lines.{digit_of, digits, numbers_of, unread, Reads};
ghost use Rattle.trace_read.specs.Lines.{most_numbers, line_of, read_line};

use model::Call;

// What a line asks for: `H` a heap of so many pages, any other letter a call on it.
#[derive(Clone, Copy)]
pub enum Line {
    Setup(u64),
    Call(Call),
}

// A line has at most so many bytes before its line feed.
pub const LONGEST: usize = 80;

// No letter takes more numbers.
const MOST_NUMBERS: usize = 4;

// The numbers of a line: the first `count` of these. Not a Vec: the program has no heap.
#[derive(Clone, Copy)]
struct Numbers {
    pub values: [u64; MOST_NUMBERS],
    pub count: usize,
    ghost few: { count ≤ most_numbers },
}

impl Numbers {
    fn as_slice(&self) -> &[u64]
        ensures { result.now ≡ take self.now.count self.now.values }
    {
        &self.values[..self.count]
    }

    // One number more, if a letter takes as many.
    fn push(&mut self, v: u64) -> Option<()>
        ensures { MatchOption result (length (take self.old.count self.old.values) ≡ most_numbers)
            (λ _. take self.new.count self.new.values ≡ take self.old.count self.old.values ++ (v ∷ [])) }
    {
        if self.count < MOST_NUMBERS {
            self.values[self.count] = v;
            self.count += 1;
            Some(())
        } else {
            None
        }
    }
}

fn digit(b: u8) -> Option<u64>
    ensures { result ≡ digit_of b }
{
    match b {
        b'0'..=b'9' => Some(u64::from(b - b'0')),
        _ => None,
    }
}

// The number v with the digit d behind it, if that fits.
fn with_digit(v: u64, d: u64) -> Option<u64>
    ensures { SomeIff result (v * 10 + d < 2 ^ 64) (v * 10 + d) }
{
    v.checked_mul(10)?.checked_add(d)
}

// The digits after the ones that come to `first`: the number, and the bytes after it.
#[tactic(auto, using(crate::proofs::Digits::digit_by_digit))]
fn digits_from(first: u64, bytes: &[u8]) -> Option<(u64, &[u8])>
    ensures reads { Reads (digits first bytes.now) result }
    ensures shorter { IfSome result (λ p. length p.1.now ≤ length bytes.now) }
{
    let mut v = first;
    for (i, b) in bytes.iter().enumerate() {
        let Some(d) = digit(*b) else {
            return Some((v, &bytes[i..]));
        };
        if v == 0 {
            return None;
        }
        v = with_digit(v, d)?;
    }
    Some((v, &[]))
}

// The number at the start of the bytes, behind its space, and the bytes after it.
#[tactic(auto, using(crate::proofs::Digits::begins))]
fn number_from(bytes: &[u8]) -> Option<(u64, &[u8])>
    requires { 0 < length bytes.now }
    ensures reads { Reads (numbers_of bytes.now) result }
    ensures shorter { IfSome result (λ p. length p.1.now < length bytes.now) }
{
    let [b' ', b, rest @ ..] = bytes else {
        return None;
    };
    digits_from(digit(*b)?, rest)
}

// The numbers after the letter.
fn numbers_of(bytes: &[u8]) -> Option<Numbers>
    ensures { MatchOption result (numbers_of bytes.now ≡ unread)
        (λ n. numbers_of bytes.now ≡ Some (take n.count n.values)) }
{
    let mut numbers = Numbers {
        values: [0; MOST_NUMBERS],
        count: 0,
    };
    let mut rest = bytes;
    // Not a for: a turn passes a whole number.
    while !rest.is_empty() {
        let (v, after) = number_from(rest)?;
        numbers.push(v)?;
        rest = after;
    }
    Some(numbers)
}

// What the letter asks for with these numbers, where it takes as many.
#[tactic(auto, unfolding(crate::specs::Lines::line_of))]
fn line_of(letter: u8, numbers: &[u64]) -> Option<Line>
    ensures { result ≡ line_of letter numbers.now }
{
    let call = match (letter, numbers) {
        (b'H', [p]) => return Some(Line::Setup(*p)),
        (b'O', [s]) => Call::Open(*s),
        (b'C', [s]) => Call::Close(*s),
        (b'A', [s, i, size, p]) => Call::Allocate(*s, *i, *size, *p),
        (b'M', [s, i, j]) => Call::Copy(*s, *i, *j),
        (b'Z', [s, i]) => Call::Clear(*s, *i),
        (b'L', [s, i, j, f]) => Call::Load(*s, *i, *j, *f),
        (b'S', [s, j, f, k]) => Call::Store(*s, *j, *f, *k),
        (b'W', [s, j, f, v]) => Call::Put(*s, *j, *f, *v),
        (b'R', [s, j, f]) => Call::Get(*s, *j, *f),
        (b'G', [s, i, g]) => Call::LoadGlobal(*s, *i, *g),
        (b'P', [s, g, i]) => Call::StoreGlobal(*s, *g, *i),
        (b'T', []) => Call::Start,
        (b'K', [s]) => Call::ScanStack(*s),
        (b'Q', []) => Call::ScanGlobals,
        (b'N', []) => Call::MarkStep,
        (b'F', []) => Call::Finish,
        (b'E', []) => Call::SweepStep,
        _ => return None,
    };
    Some(Line::Call(call))
}

// What the bytes of a line read as.
pub fn read(line: &[u8]) -> Option<Line>
    ensures { result ≡ read_line line.now }
{
    if LONGEST < line.len() {
        return None;
    }
    let [letter, rest @ ..] = line else {
        return None;
    };
    let numbers = numbers_of(rest)?;
    line_of(*letter, numbers.as_slice())
}
