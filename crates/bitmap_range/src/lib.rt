// Ranges of bits of the bitmaps, a 64-bit word at a time: turned on or off, counted, and moved from
// one part of the bitmaps to another. Bits are numbered from the lowest bit of the first word on. A
// range is no slice of words: it begins and ends inside words, or lies in the list beside another, by
// whose place callers know it. A
// crate apart from bitmap for the gate's time: each wrong program proves its whole crate again.
#![tactic(auto)]

ghost use Rattle.std.specs.Prelude.{◌≡◌, true, false, cond, ◌+◌, ◌-◌, ◌*◌, ◌^◌, ◌<◌, ◌≤◌, length};
ghost use Rattle.model.specs.Bounded.{write_run, count_below};
ghost use Rattle.model.specs.Memory.{word_bits};
ghost use Rattle.model.specs.Bitmaps.{bit_at, with_bit, with_bit_of};
ghost use Rattle.bitmap_range.specs.Moved.{moved_words};

use units::{ALL_BITS, WORD_BITS};

// The word of 64 equal bits. The audit of bits, which does not rest on this crate, has this line too.
fn all_bits(on: bool) -> u64
    ensures { result ≡ cond on (2 ^ word_bits - 1) 0 }
{
    if on { ALL_BITS } else { 0 }
}

// The word `w` with its bits `low` to `low + k - 1` on or off.
fn put_bits(w: u64, low: usize, k: usize, on: bool) -> u64
    requires { (0 < k) × (low + k ≤ word_bits) }
    ensures { result ≡ write_run with_bit_of low k (λ j. on) w }
{
    let short = WORD_BITS - k;
    let mask = (ALL_BITS >> short) << low;
    if on { w | mask } else { w & !mask }
}

// Turns n bits on or off, from the first bit of word `first`: whole words, then a mask in the last
// word where the range ends inside it.
fn put_from_word(ws: &mut [u64], first: usize, n: usize, on: bool)
    requires { first * word_bits + n ≤ word_bits * length ws.old }
    ensures { ws.new ≡ write_run with_bit (first * word_bits) n (λ i. on) ws.old }
{
    let whole = n / WORD_BITS;
    let rest = n % WORD_BITS;
    let last = first + whole;
    ws[first..last].fill(all_bits(on));
    if rest == 0 {
        return;
    }
    ws[last] = put_bits(ws[last], 0, rest, on);
}

// Turns bits `from` to `from + n - 1` on or off: a mask in the first word, then whole words. The end
// of the range is never computed, since the number of a bit of a long list can exceed 64 bits.
fn put_range(ws: &mut [u64], from: usize, n: usize, on: bool)
    requires { from + n ≤ word_bits * length ws.old }
    ensures { ws.new ≡ write_run with_bit from n (λ i. on) ws.old }
{
    if n == 0 {
        return;
    }
    let first = from / WORD_BITS;
    let low = from % WORD_BITS;
    let room = WORD_BITS - low;
    if n <= room {
        ws[first] = put_bits(ws[first], low, n, on);
        return;
    }
    ws[first] = put_bits(ws[first], low, room, on);
    put_from_word(ws, first + 1, n - room, on);
}

// Turns bits `from` to `from + n - 1` on. This and the next name the two values of a flag.
pub fn set_range(ws: &mut [u64], from: usize, n: usize)
    requires { from + n ≤ word_bits * length ws.old }
    ensures { ws.new ≡ write_run with_bit from n (λ i. true) ws.old }
{
    put_range(ws, from, n, true);
}

// Turns bits `from` to `from + n - 1` off.
pub fn clear_range(ws: &mut [u64], from: usize, n: usize)
    requires { from + n ≤ word_bits * length ws.old }
    ensures { ws.new ≡ write_run with_bit from n (λ i. false) ws.old }
{
    put_range(ws, from, n, false);
}

// How many bits are on in words `first` to `first + n - 1`. They have fewer than 2^64 bits, so that
// the sum fits.
pub fn count_range(ws: &[u64], first: usize, n: usize) -> usize
    requires { (first + n ≤ length ws.now) × (n * word_bits < 2 ^ word_bits) }
    ensures { result ≡ count_below (n * word_bits) (λ k. bit_at ws.now (first * word_bits + k)) }
{
    let mut total: usize = 0;
    for w in &ws[first..first + n] {
        total += w.count_ones() as usize;
    }
    total
}

// Moves words `from` to `from + n - 1` to the n words at `to`, which lie before them: the bits there
// become those at `from`, and those at `from` go off. So the sweep makes marked words allocated.
pub fn move_range(ws: &mut [u64], to: usize, from: usize, n: usize)
    requires { (to + n ≤ from) × (from + n ≤ length ws.old) }
    ensures { ws.new ≡ moved_words to from n ws.old }
{
    ws.copy_within(from..from + n, to);
    zeroing::zero_part(ws, from, n);
}
