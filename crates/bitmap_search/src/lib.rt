// Searches through the bitmaps a 64-bit word at a time: the next element that a sweep frees, and the
// end of a run of set bits. As in crate bitmap, a word is masked to the bits that are asked for, and
// its trailing zeros are the number of the lowest that is set. A crate apart from bitmap for the gate's
// time: each wrong program proves its whole crate again.
#![tactic(auto)]

ghost use Rattle.std.specs.Prelude.{◌≡◌, ℕ, not, ◌+◌, ◌-◌, ◌*◌, ◌≤◌, length, option_map};
ghost use Rattle.model.specs.Bounded.{first_below};
ghost use Rattle.model.specs.Memory.{word_bits};
ghost use Rattle.model.specs.Bitmaps.{bit_at};
ghost use Rattle.model.specs.Lent.{Bitmaps};
ghost use Rattle.bitmap_search.specs.Freed.{next_freed, SearchRange};
ghost use Rattle.bitmap_search.specs.Search.{Readable, FindsIn};

use units::{ALL_BITS, MARKED_PART, PAGE_BLOCKS, WORD_BITS, Word};

// The lowest bit at or after `from` and below `to` that is on in the words that `word` reads.
fn first_passing<F: Fn(usize) -> u64>(from: usize, to: usize, word: F) -> Option<usize>
    requires order { from ≤ to }
    requires readable { Readable to (λ at. F.pre word at) }
    ensures { FindsIn from to (λ at w. F.post word at w) result }
{
    // the bits of the word from `from` on: all of them, in any word but the first
    let mut mask = ALL_BITS << (from % WORD_BITS);
    for at in from / WORD_BITS..bitmap::words_below(to) {
        let passed = (word(at) & mask).trailing_zeros() as usize;
        if passed < WORD_BITS {
            let bit = at * WORD_BITS + passed;
            return (bit < to).then_some(bit);
        }
        mask = ALL_BITS;
    }
    None
}

// The lowest element start from word `from` on and below `to`, the end of a span, that is allocated
// and not marked.
pub fn next_freed(p: usize, bits: &[u64], from: Word, to: Word) -> Option<Word>
    requires { Bitmaps p bits.now × SearchRange p from.0 to.0 }
    ensures { option_map (λ w. w.0) result ≡ next_freed p bits.now from.0 to.0 }
{
    let marks = MARKED_PART * (PAGE_BLOCKS * p);
    first_passing(from.0, to.0, |at| bits[at] & !bits[marks + at]).map(Word)
}

// The lowest clear bit at or after `from` and below `to`, or `to`: not an Option, since callers count
// the bits before it.
pub fn first_clear(ws: &[u64], from: usize, to: usize) -> usize
    requires { (from ≤ to) × (to ≤ word_bits * length ws.now) }
    ensures { result ≡ from + first_below (to - from) (λ k. not (bit_at ws.now (from + k))) }
{
    first_passing(from, to, |at| !ws[at]).unwrap_or(to)
}
