// One lent list of 64-bit words, read and written by bit number, lowest bit first: a bit is
// tested, set and cleared, and two searches go through the list by whole words. A word is masked to
// the bits that are asked for where it may have others, and its trailing zeros are then the number of
// the lowest that is set. Callers add the offset of the part of the bitmaps that they mean. What is
// searched goes from bit to bit and is no slice of words: it begins and ends inside words, and what is
// found is a number in the list.
#![tactic(auto)]

ghost use Rattle.std.specs.Prelude.{◌≡◌, true, false, not, MatchOption, ◌+◌, ◌-◌, ◌*◌, ◌/◌, ◌%◌, ◌<◌, ◌≤◌, length};
ghost use Rattle.model.specs.Memory.{word_bits};
ghost use Rattle.model.specs.Bitmaps.{bit_at, with_bit};
ghost use Rattle.bitmap.specs.Search.{Zeros, FirstNonzero, found};
ghost use Rattle.bitmap.specs.Starts.{ElementRow};

use units::{ALL_BITS, WORD_BITS};

// Bit `i`.
pub fn test(ws: &[u64], i: usize) -> bool
    requires { i / word_bits < length ws.now }
    ensures { result ≡ bit_at ws.now i }
{
    (ws[i / WORD_BITS] >> (i % WORD_BITS)) % 2 == 1
}

// Bit `i` turned on. Not one function with the next, by a flag: it is known at each call which is meant.
pub fn set(ws: &mut [u64], i: usize)
    requires { i / word_bits < length ws.old }
    ensures { ws.new ≡ with_bit i true ws.old }
{
    let at = i / WORD_BITS;
    ws[at] |= 1u64 << (i % WORD_BITS);
}

// Bit `i` turned off.
pub fn clear(ws: &mut [u64], i: usize)
    requires { i / word_bits < length ws.old }
    ensures { ws.new ≡ with_bit i false ws.old }
{
    let at = i / WORD_BITS;
    ws[at] &= !(1u64 << (i % WORD_BITS));
}

// How many words hold the bits below `end`. The sum of `end` and a word's bits may exceed 64 bits, so
// it is not taken.
pub fn words_below(end: usize) -> usize
    ensures { result ≡ (end + (word_bits - 1)) / word_bits }
{
    end.div_ceil(WORD_BITS)
}

// A word from word `from` on, at most `end`, before which all words from `from` on are 0. They are
// passed over four at a time, so that the word itself may be 0 too.
fn past_zeros(ws: &[u64], from: usize, end: usize) -> usize
    requires { (from ≤ end) × (end ≤ length ws.now) }
    ensures { (from ≤ result) × (result ≤ end) × Zeros ws.now from result }
{
    let mut at = from;
    // Not a for over chunks: a chunk's number times four would be added to where the search begins, and
    // what is left behind the last whole chunk be taken apart.
    while 4 <= end - at {
        let some = ws[at] | ws[at + 1] | ws[at + 2] | ws[at + 3];
        if some != 0 {
            return at;
        }
        at += 4;
    }
    at
}

// The first word from word `from` on and below word `end` that has a bit.
fn first_nonzero(ws: &[u64], from: usize, end: usize) -> Option<usize>
    requires { (from ≤ end) × (end ≤ length ws.now) }
    ensures { MatchOption result (Zeros ws.now from end) (FirstNonzero ws.now from end) }
{
    for at in past_zeros(ws, from, end)..end {
        if ws[at] != 0 {
            return Some(at);
        }
    }
    None
}

// The lowest set bit at or after `from` and below `to`. Only the first word is masked; of those after
// it the ones that are 0 are passed over.
pub fn first_set(ws: &[u64], from: usize, to: usize) -> Option<usize>
    requires { (from ≤ to) × (to ≤ word_bits * length ws.now) }
    ensures { result ≡ found from (to - from) (λ k. bit_at ws.now (from + k)) }
{
    let end = words_below(to);
    let first = from / WORD_BITS;
    if end <= first {
        return None;
    }
    let head = (ws[first] & (ALL_BITS << (from % WORD_BITS))).trailing_zeros() as usize;
    if head < WORD_BITS {
        let bit = first * WORD_BITS + head;
        return (bit < to).then_some(bit);
    }
    let at = first_nonzero(ws, first + 1, end)?;
    let bit = at * WORD_BITS + ws[at].trailing_zeros() as usize;
    (bit < to).then_some(bit)
}

// Where the first element after a word starts, counted from the word's end, if the first one from the
// word's lowest bit on starts `off` bits after that bit, in the word or behind it. `rest` is what 64
// bits leave over whole elements.
pub fn next_start(size: usize, rest: usize, off: usize) -> usize
    requires { (off < size) × (rest ≡ word_bits % size) }
    ensures { (result < size) × ((result + word_bits) % size ≡ off) }
{
    if off < rest {
        off + (size - rest)
    } else {
        off - rest
    }
}

// The lowest free one of `count` elements. Element k starts at bit `first` + k * `size` and is free if
// that bit is clear; its other bits do not count. `starts` has the bits at which elements start in a
// word whose lowest bit starts one.
pub fn first_free(ws: &[u64], first: usize, size: usize, count: usize, starts: u64) -> Option<usize>
    requires { ElementRow ws.now first size count starts }
    ensures { result ≡ found 0 count (λ k. not (bit_at ws.now (first + k * size))) }
{
    let end = words_below(first + count * size);
    let rest = WORD_BITS % size;
    let mut at = first / WORD_BITS;
    // the lowest start in the word
    let mut off = 0;
    // Not a for: a turn passes over the words in which no element starts.
    while at < end {
        let free = (!ws[at] & (starts << off)).trailing_zeros() as usize;
        if free < WORD_BITS {
            let k = (at * WORD_BITS + free - first) / size;
            return (k < count).then_some(k);
        }
        let next = next_start(size, rest, off);
        at += 1 + next / WORD_BITS;
        off = next % WORD_BITS;
    }
    None
}
