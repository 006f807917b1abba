// The sweep of one span over the words of its bitmaps, for the sweep step and for the allocation that
// sweeps for room: the pointer bits of what is freed are cleared, the bits are swept, and the span's
// entry becomes swept or its pages free. The span is read before and handed in; neither the arena nor
// the roots are needed. The page table and the bitmaps are lent each by itself, as C lends them to the
// sweep step.
#![tactic(auto)]

ghost use Rattle.span_sweep.specs.Needs.{SpanRead, SweepsLentSpan, LentSpan, ClearsFreed};
ghost use Rattle.model.specs.Promises.{exclusive};

use page_table::Span;
use units::{MARKED_PART, PAGE_BLOCKS, Page, Word};

// Clears the pointer bits of the freed elements of a span. A noscan span has none.
fn clear_freed(p: usize, bits: &mut [u64], span: Span)
    requires { LentSpan p bits.old span }
    ensures { ClearsFreed p (exclusive bits) span }
{
    if !span.scan {
        return;
    }
    let start = span.start.0;
    let n = span.pages;
    let size = classes::element_words(span.class, n);
    let pointers = units::POINTER_PART * (units::PAGE_WORDS * p);
    let after = start + n;
    let to = Page(after).first_word();
    let mut from = span.start.first_word();
    while let Some(freed) = bitmap_search::next_freed(p, bits, from, to) {
        bitmap_range::clear_range(bits, pointers + freed.0, size);
        from = Word(freed.0 + size);
    }
}

// What a sweep did: the elements that it freed, and the pages that it returned, all of the span's or
// none.
#[derive(Clone, Copy)]
pub struct SpanSwept {
    pub freed: u64,
    pub returned: u64,
}

// Sweeps a span: pointer bits of freed elements go, allocated becomes marked, marks go. What is freed
// is what is allocated and not marked; marks stand at allocated elements alone, so that two counts
// tell it. If nothing is left the pages become free.
pub fn sweep(p: usize, table: &mut [u32], bits: &mut [u64], span: Span) -> SpanSwept
    requires { SpanRead p table.old bits.old span }
    ensures { SweepsLentSpan p (exclusive table) (exclusive bits) span.start.0 result }
{
    let n = span.pages;
    let first = span.start.first_block();
    let marks = MARKED_PART * (PAGE_BLOCKS * p) + first;
    let words = PAGE_BLOCKS * n;
    let allocated = bitmap_range::count_range(bits, first, words);
    let kept = bitmap_range::count_range(bits, marks, words);
    let freed = (allocated - kept) as u64;
    clear_freed(p, bits, span);
    bitmap_range::move_range(bits, first, marks, words);
    if kept == 0 {
        page_entries::free_span(table, span.start, n);
        return SpanSwept {
            freed,
            returned: n as u64,
        };
    }
    page_entries::make_swept(table, span);
    SpanSwept { freed, returned: 0 }
}
