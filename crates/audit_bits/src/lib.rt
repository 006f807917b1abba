// The audit's clauses about bits. A block is the 64 arena words of one bitmap word, which lie in one
// span or on one free page; its bits are one word in each of the four parts, and whole words are
// tested (crate audit_blocks), so a block without bits is passed over whole and no bit is visited. The
// four words are one value (`Block`), and the bitmaps with their number of pages another (`Blocks`). The
// page table has passed the audit; it is passed once more here, from span to span.
#![tactic(auto)]

ghost use Rattle.std.specs.Prelude.{◌≡◌, ◌&&◌, cond, ◌↔◌, ℕ, ◌+◌, ◌-◌, ◌*◌, ◌^◌, ◌<◌, T, ◌==◌};
ghost use Rattle.model.specs.Bounded.{◌<?◌, ◌≤?◌, all_below};
ghost use Rattle.model.specs.Memory.{mark, page_words, page_blocks, word_bits, first_word};
ghost use Rattle.model.specs.Lent.{Bitmaps, Mapped};
ghost use Rattle.audit_blocks.specs.Block.{on};
ghost use Rattle.audit_bits.specs.Words.{GoodBits, SetBetween};
ghost use Rattle.audit_bits.specs.Needs.{Phased, SpanInside, SpanFits};
ghost use Rattle.audit_bits.specs.Rules.{bare, block_rule, word_rule, marks_stand, span_rule, KeepsRules};

use audit_blocks::{colours_ok, pointers_ok};
use bitmap::{first_set, next_start};
use classes::{layout_of, starts};
use page_table::{Span, owner, span_at};
use units::{
    ALL_BITS, GRAY_PART, MARK, MARKED_PART, PAGE_BLOCKS, POINTER_PART, Page, SWEEP, WORD_BITS,
};

// Whether marks, gray bits and pointers may stand in a span.
#[derive(Clone, Copy)]
struct Allowed {
    marks: bool,
    grays: bool,
    pointers: bool,
}

// A mask for every word of a block, or for none. Crate bitmap_range, on which this one does not rest, has
// this line too.
fn flag(all: bool) -> u64
    ensures { result ≡ cond all (2 ^ 64 - 1) 0 }
{
    if all { ALL_BITS } else { 0 }
}

// The first `left` words of a block; all of them where there are not so many. The library's checked
// shift is no plainer: it counts in u32, so that `left` were converted first.
fn below(left: usize) -> u64
    ensures { (j : ℕ) → j < word_bits → on result j ≡ (j <? left) }
{
    if left < WORD_BITS {
        !(ALL_BITS << left)
    } else {
        ALL_BITS
    }
}

// The words at which elements start in a block, if the first of them is word `off`, or lies behind
// the block. `starts` has them for a block whose first word starts one.
fn starts_in(starts: u64, off: usize) -> u64
    ensures { (j : ℕ) → j < word_bits → on result j ≡ (off ≤? j && on starts (j - off)) }
{
    if off < WORD_BITS { starts << off } else { 0 }
}

// Marks may stand in a span: in phase mark, and in phase sweep in an unswept one.
fn marks_stand(phase: u64, unswept: bool) -> bool
    ensures { result ≡ marks_stand phase unswept }
{
    phase == MARK || phase == SWEEP && unswept
}

// Gray bits may stand in a span: in phase mark, in a scan span.
fn grays_stand(phase: u64, scan: bool) -> bool
    ensures { result ≡ (phase == mark && scan) }
{
    phase == MARK && scan
}

// The bits of a block, one word of each part.
#[derive(Clone, Copy)]
struct Block {
    allocated: u64,
    marked: u64,
    gray: u64,
    pointers: u64,
}

impl Block {
    ghost use Rattle.audit_bits.specs.Block.{clear};

    // None is on.
    fn is_empty(self) -> bool
        ensures { result ≡ all_below word_bits (clear self) }
    {
        self.allocated | self.marked | self.gray | self.pointers == 0
    }
}

// The bitmaps of so many pages, block by block.
#[derive(Clone, Copy)]
struct Blocks<'a> {
    pages: usize,
    bits: &'a [u64],
    ghost sized: { Bitmaps pages bits.now },
}

impl Blocks<'_> {
    ghost use Rattle.audit_bits.specs.Blocks.{said_of, block_at};

    // Block `at`.
    fn block(self, at: usize) -> Block
        requires { at < page_blocks * self.pages }
        ensures { result ≡ block_at self.entry at }
    {
        let part = PAGE_BLOCKS * self.pages;
        Block {
            allocated: self.bits[at],
            marked: self.bits[MARKED_PART * part + at],
            gray: self.bits[GRAY_PART * part + at],
            pointers: self.bits[POINTER_PART * part + at],
        }
    }

    // It has no bit in any part.
    fn empty(self, at: usize) -> bool
        requires { at < page_blocks * self.pages }
        ensures { result ≡ all_below word_bits (λ j. said_of bare self.entry (word_bits * at + j)) }
    {
        self.block(at).is_empty()
    }

    // Block `at` keeps the rules of its span. `starts` has the starts of elements in a block whose first
    // word is one; from the block's first word on it is `off` words to the next start and `left` words to
    // the end of all elements; `before` is the pointer bit of the word before it.
    fn block_ok(
        self,
        at: usize,
        starts: u64,
        off: usize,
        left: usize,
        before: u64,
        allowed: Allowed,
    ) -> bool
        requires { at < page_blocks * self.pages }
        ensures { result ≡ all_below word_bits (said_of block_rule self.entry at starts off left before allowed) }
    {
        let block = self.block(at);
        if block.is_empty() {
            return true;
        }
        let marks = flag(allowed.marks);
        let grays = flag(allowed.grays);
        let scans = flag(allowed.pointers);
        let allocated = block.allocated;
        let scanned = allocated & scans;
        let inside = below(left);
        let first = starts_in(starts, off) & inside;
        colours_ok(allocated, block.marked, block.gray, first, marks, grays)
            && pointers_ok(scanned, block.pointers, first, inside & scans, before)
    }

    // The bits of the span, whose elements have `size` words each and `held` together, keep the rules.
    fn blocks_ok(self, span: Span, size: usize, held: usize, allowed: Allowed) -> bool
        requires { SpanInside self.pages span size }
        ensures { result ≡ all_below (word_bits * (page_blocks * span.pages))
            (said_of word_rule self.entry (first_word span.start.0) size held allowed) }
    {
        let count = span.pages;
        let mask = starts(size);
        let rest = WORD_BITS % size;
        let first = span.start.first_block();
        let pointers = POINTER_PART * (PAGE_BLOCKS * self.pages) + first;
        let blocks = PAGE_BLOCKS * count;
        // as block_ok says
        let mut off = 0;
        let mut left = held;
        let mut before = 0;
        for k in 0..blocks {
            if !self.block_ok(first + k, mask, off, left, before, allowed) {
                return false;
            }
            before = self.bits[pointers + k] >> 63;
            off = next_start(size, rest, off);
            left = left.saturating_sub(WORD_BITS);
        }
        true
    }

    // Page g, a free one, has no bit in any part.
    fn free_page_ok(self, g: Page) -> bool
        requires { g.0 < self.pages }
        ensures { result ≡ all_below (word_bits * page_blocks) (λ o. said_of bare self.entry (page_words * g.0 + o)) }
    {
        let first = g.first_block();
        for k in 0..PAGE_BLOCKS {
            if !self.empty(first + k) {
                return false;
            }
        }
        true
    }

    // The bits of the span keep the rules.
    fn span_bits_ok(self, phase: u64, span: Span) -> bool
        requires { SpanFits self.pages span }
        ensures { result ≡ all_below (word_bits * (page_blocks * span.pages))
            (said_of (span_rule phase) self.entry span) }
    {
        let elements = layout_of(span.class, span.pages);
        let size = elements.words;
        let count = elements.count;
        let held = count * size;
        let allowed = Allowed {
            marks: marks_stand(phase, span.unswept),
            grays: grays_stand(phase, span.scan),
            pointers: span.scan,
        };
        self.blocks_ok(span, size, held, allowed)
    }

    // The span has an allocated element. Allocated bits are the first of the bitmaps, so that they stand at
    // the words' own numbers.
    fn occupied(self, span: Span) -> bool
        requires { SpanFits self.pages span }
        ensures { T result ↔ SetBetween self.entry.bits.now (first_word span.start.0)
            (first_word (span.start.0 + span.pages)) }
    {
        let end = span.start.0 + span.pages;
        let from = span.start.first_word().0;
        let to = Page(end).first_word().0;
        first_set(self.bits, from, to).is_some()
    }

    // The bits of the span keep the rules, and it has an allocated element.
    fn span_ok(self, phase: u64, span: Span) -> bool
        requires { SpanFits self.pages span }
        ensures { T result ↔ said_of (KeepsRules phase) self.entry span }
    {
        self.span_bits_ok(phase, span) && self.occupied(span)
    }
}

// The audit's clauses about bits, also where they depend on the phase, and each span has an allocated
// element. The page table has passed the audit. No part of its caller in the compiled program: there the
// addresses of the four parts, which every block asks for, would not stay in registers.
#[inline(never)]
pub fn bits_ok(p: usize, table: &[u32], bits: &[u64], phase: u64) -> bool
    requires { Mapped p table.now bits.now × Phased phase table.now }
    ensures { T result ↔ GoodBits p phase table.now bits.now }
{
    let blocks = Blocks { pages: p, bits };
    let mut g = 0;
    // Not a for: a turn passes a free page or a whole span. Each of the audit's three passes is written
    // out: one walk with closures for a free page and for a span would be as long at every use, since
    // they need the buffers, and no plainer.
    while g < p {
        let at = Page(g);
        if owner(table, at) == 0 {
            g += 1;
            if !blocks.free_page_ok(at) {
                return false;
            }
        } else {
            let span = span_at(table, at);
            g += span.pages;
            if !blocks.span_ok(phase, span) {
                return false;
            }
        }
    }
    true
}
