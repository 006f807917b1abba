// The audit of the arena's words: every pointer word of a kept element holds a reference, which crate
// audit_references tests. In a swept span each pointer bit belongs to a kept element, so the words are
// found by these bits alone, a bitmap word at a time; in an unswept one they are found by the elements
// that are marked. Spans without pointers are passed over. The page table has passed the audit; it is
// passed once more here, from span to span.
#![tactic(auto)]

ghost use Rattle.std.specs.Prelude.{◌↔◌, ◌*◌, ◌<◌, ◌≤◌, T};
ghost use Rattle.model.specs.Memory.{page_blocks};
ghost use Rattle.model.specs.Facts.{IsSpan};
ghost use Rattle.page_table.specs.Span.{Reads};
ghost use Rattle.audit_words.specs.Contents.{Filled, ElementAt, Searched};
ghost use Rattle.audit_words.specs.Contents.{Pointers, BlockContents, BlocksContents, SpanContents, Contents};

use audit_references::Kept;
use page_table::Span;
use units::{Address, MARKED_PART, PAGE_BLOCKS, PAGE_WORDS, POINTER_PART, Page, WORD_BITS, Word};

// The arena, with what tells which of its elements are kept.
#[derive(Clone, Copy)]
pub struct Words<'a> {
    pub arena: &'a [u64],
    pub kept: Kept<'a>,
    ghost filled: { Filled kept.pages arena.now kept.table.now kept.bits.now },
}

impl Words<'_> {
    ghost use Rattle.audit_words.specs.Words.{said_of};

    // The words of block `at` whose bit is on in `pointers` hold references. They are taken by the lowest
    // bit, which is then turned off.
    fn block_ok(self, at: usize, pointers: u64) -> bool
        requires { at < page_blocks * self.kept.pages }
        ensures { T result ↔ said_of BlockContents self.entry at pointers }
    {
        let first = WORD_BITS * at;
        let mut left = pointers;
        // Not a for: what is passed over is the bits that are on, and no index.
        while left != 0 {
            let j = left.trailing_zeros() as usize;
            let value = self.arena[first + j];
            left &= !(1u64 << j);
            if !self.kept.is_reference(Address(value)) {
                return false;
            }
        }
        true
    }

    // So do the words of blocks `from` to `to` - 1 that have a pointer bit.
    fn blocks_ok(self, from: usize, to: usize) -> bool
        requires { (from ≤ to) × (to ≤ page_blocks * self.kept.pages) }
        ensures { T result ↔ said_of BlocksContents self.entry from to }
    {
        let part = POINTER_PART * (PAGE_BLOCKS * self.kept.pages);
        for at in from..to {
            let pointers = self.kept.bits[part + at];
            if !self.block_ok(at, pointers) {
                return false;
            }
        }
        true
    }

    // The pointer words of the element of n words at word w hold references. Behind the first word that
    // is no pointer there is none.
    fn pointers_ok(self, w: Word, n: usize) -> bool
        requires { ElementAt self.kept.pages self.kept.table.now w.0 n }
        ensures { T result ↔ said_of Pointers self.entry w.0 n }
    {
        let start = w.0;
        let first = POINTER_PART * (PAGE_WORDS * self.kept.pages) + start;
        for f in 0..n {
            let value = self.arena[start + f];
            if !bitmap::test(self.kept.bits, first + f) {
                return true;
            }
            if !self.kept.is_reference(Address(value)) {
                return false;
            }
        }
        true
    }

    // So do the pointer words of the kept elements of the span at page s. They have n words each, and
    // their bits stand from `from` on and before `end`.
    fn elements_ok(self, s: Page, n: usize, from: usize, end: usize) -> bool
        requires { Searched self.kept.pages self.kept.table.now s.0 n from end }
        ensures { T result ↔ said_of SpanContents self.entry s.0 }
    {
        let first = s.first_word().0;
        let mut at = from + first;
        while let Some(i) = bitmap::first_set(self.kept.bits, at, end) {
            at = i + 1;
            let w = i - from;
            if !self.pointers_ok(Word(w), n) {
                return false;
            }
        }
        true
    }

    // The same, for the span as its entry describes it.
    #[tactic(auto, using(crate::proofs::Contents::read_bounds))]
    fn span_ok(self, span: Span) -> bool
        requires { IsSpan self.kept.table.now span.start.0 × Reads self.kept.table.now span.start.0 span }
        ensures { T result ↔ said_of SpanContents self.entry span.start.0 }
    {
        let page = span.start.0;
        let count = span.pages;
        if !span.unswept {
            let first = span.start.first_block();
            let to = first + PAGE_BLOCKS * count;
            return self.blocks_ok(first, to);
        }
        let n = classes::element_words(span.class, count);
        let from = MARKED_PART * (PAGE_WORDS * self.kept.pages);
        let after = page + count;
        let end = from + Page(after).first_word().0;
        self.elements_ok(span.start, n, from, end)
    }

    // Every pointer word of a kept element holds a reference.
    #[tactic(auto, using(crate::proofs::Passes::goes))]
    pub fn contents_ok(self) -> bool
        ensures { T result ↔ said_of Contents self.entry }
    {
        let mut g = 0;
        // Not a for: a turn passes a free page or a whole span.
        while g < self.kept.pages {
            let at = Page(g);
            if page_table::owner(self.kept.table, at) == 0 {
                g += 1;
            } else {
                let span = page_table::span_at(self.kept.table, at);
                g += span.pages;
                if span.scan && !self.span_ok(span) {
                    return false;
                }
            }
        }
        true
    }
}
