// The audit of what is small: the states of the stacks and of the globals, the phase, and the page
// table. The page table is passed once, from span to span: where a span has ended, the next page is
// free or starts a span, and nothing else may stand there. For the passes that come after this one,
// over the bits and over the words, proofs/Stretches says how they go from span to span.
#![tactic(auto)]

ghost use Rattle.std.specs.Prelude.{◌≡◌, ◌↔◌, ◌≢◌, ℕ, ◌+◌, ◌/◌, ◌%◌, ◌<◌, ◌≤◌, T, false};
ghost use Rattle.model.specs.Memory.{max_pages, unswept_flag, stack_count, sweep};
ghost use Rattle.model.specs.Spans.{page_count};
ghost use Rattle.model.specs.Facts.{GoodEntry, States};
ghost use Rattle.model.specs.Lent.{Roots, PageTable, HasEntry};
ghost use Rattle.audit_pages.specs.Stacks.{GoodPhase, EmptyStack, GoodStack};
ghost use Rattle.page_table.specs.Span.{Reads};
ghost use Rattle.audit_pages.specs.Pass.{GoodPages, BareEntry, Further, Body, GoodSpan};

use page_table::Span;
use units::{
    CLOSED, FIRST_STATE, GLOBALS_STATE, GRAY, MARK, NIL, OPEN, PHASE, Page, SLOTS, STACKS, SWEEP,
    UNSWEPT_FLAG,
};

// The end of the kinds, with the unswept flag.
const KINDS_END: usize = 2 * UNSWEPT_FLAG as usize;

// The pages of a span of class 0, at least and at most.
const FEWEST_LARGE: usize = 5;

const MOST_LARGE: usize = 128;

// All slots of stack s are nil.
fn slots_nil(roots: &[u64], s: usize) -> bool
    requires { Roots roots.now × (s < stack_count) }
    ensures { T result ↔ EmptyStack roots.now s }
{
    let first = SLOTS * s;
    roots[first..first + SLOTS]
        .iter()
        .all(|value| *value == NIL)
}

// Stack s has a legal state, gray only in the mark phase; a closed one is all nil.
fn stack_ok(roots: &[u64], s: usize) -> bool
    requires { Roots roots.now × (s < stack_count) }
    ensures { T result ↔ GoodStack roots.now s }
{
    let state = roots[FIRST_STATE + s];
    state == OPEN || state == GRAY && roots[PHASE] == MARK || state == CLOSED && slots_nil(roots, s)
}

// Every stack is as it should be.
fn stacks_ok(roots: &[u64]) -> bool
    requires { Roots roots.now }
    ensures { T result ↔ ((s : ℕ) → s < stack_count → GoodStack roots.now s) }
{
    for s in 0..STACKS {
        if !stack_ok(roots, s) {
            return false;
        }
    }
    true
}

// The phase and the globals' state are legal, gray globals only in the mark phase.
fn phase_ok(roots: &[u64]) -> bool
    requires { Roots roots.now }
    ensures { T result ↔ GoodPhase roots.now }
{
    let phase = roots[PHASE];
    let state = roots[GLOBALS_STATE];
    phase <= SWEEP && (state == OPEN || state == GRAY && phase == MARK)
}

// The states and the phase are legal, and closed stacks are all nil.
pub fn states_ok(roots: &[u64]) -> bool
    requires { Roots roots.now }
    ensures { T result ↔ States roots.now }
{
    phase_ok(roots) && stacks_ok(roots)
}

// The kind is that of one of the classes, at most with the unswept flag, and the page count is its
// class's.
fn entry_ok(span: Span) -> bool
    requires { span.class ≡ span.flagged % unswept_flag / 2 }
    ensures { T result ↔ GoodEntry span.flagged span.pages }
{
    let flagged = span.flagged;
    let class = span.class;
    let count = span.pages;
    if KINDS_END <= flagged {
        return false;
    }
    if class_table::ROWS < class {
        return false;
    }
    if class != 0 {
        return count == classes::class_pages(class);
    }
    (FEWEST_LARGE..=MOST_LARGE).contains(&count)
}

// The span is swept, unless the phase is sweep.
fn flag_ok(unswept: bool, phase: u64) -> bool
    ensures { T result ↔ (phase ≢ sweep → unswept ≡ false) }
{
    phase == SWEEP || !unswept
}

// The entry of page g has neither a page count nor a kind.
fn bare_entry(table: &[u32], g: Page) -> bool
    requires { HasEntry table.now g.0 }
    ensures { T result ↔ BareEntry table.now g.0 }
{
    page_table::page_count(table, g) == 0 && page_table::kind_entry(table, g) == 0
}

// Page g is a further page of the span at page s.
fn further_ok(table: &[u32], s: Page, g: Page) -> bool
    requires { HasEntry table.now g.0 × (s.0 < g.0) }
    ensures { T result ↔ Further table.now s.0 g.0 }
{
    page_table::owner(table, g) == s.0 + 1 && bare_entry(table, g)
}

// So are all pages of the span at page s but its first.
fn body_ok(p: usize, table: &[u32], s: Page, count: usize) -> bool
    requires { PageTable p table.now × (s.0 + count ≤ p) × (count ≡ page_count table.now s.0) }
    ensures { T result ↔ Body table.now s.0 }
{
    let start = s.0;
    for g in start + 1..start + count {
        if !further_ok(table, s, Page(g)) {
            return false;
        }
    }
    true
}

// The span is as it should be.
fn span_ok(p: usize, table: &[u32], phase: u64, span: Span) -> bool
    requires { PageTable p table.now × (p ≤ max_pages) × (span.start.0 < p) ×
        Reads table.now span.start.0 span }
    ensures { T result ↔ GoodSpan p phase table.now span.start.0 }
{
    let start = span.start.0;
    let count = span.pages;
    entry_ok(span)
        && count <= p - start
        && flag_ok(span.unswept, phase)
        && body_ok(p, table, span.start, count)
}

// The page table of p pages is as it should be in this phase.
pub fn pages_ok(p: usize, table: &[u32], phase: u64) -> bool
    requires { PageTable p table.now × (p ≤ max_pages) }
    ensures { T result ↔ GoodPages p phase table.now }
{
    let mut g = 0;
    // Not a for: a turn passes a free page or a whole span.
    while g < p {
        let at = Page(g);
        let owner = page_table::owner(table, at);
        if owner == 0 {
            g += 1;
            if !bare_entry(table, at) {
                return false;
            }
        } else {
            if owner != g + 1 {
                return false;
            }
            let span = page_table::span_at(table, at);
            if !span_ok(p, table, phase, span) {
                return false;
            }
            g += span.pages;
        }
    }
    true
}
