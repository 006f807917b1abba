// The entries of a span, written: a new span, a freed one, a changed kind. And the unswept flag of
// a span's kind: set on every span, taken off one, the span at a page if it has it, and the first that
// has it. Crate page_table says what the numbers of an entry are, and reads them; this is a crate apart
// from it for the gate's time: each wrong program proves its whole crate again.
#![tactic(auto)]

ghost use Rattle.std.specs.Prelude.{◌≡◌};
ghost use Rattle.model.specs.Spans.{put_page, put_pages, span_page, free_page};
ghost use Rattle.model.specs.Cycle.{unswept_page};
ghost use Rattle.model.specs.Lent.{PageTable, HasEntry};
ghost use Rattle.page_entries.specs.Needs.{HasEntries, NewEntries, SpanEntry, ReadEntry, Flaggable};
ghost use Rattle.page_entries.specs.Kinds.{with_kind, made_swept};
ghost use Rattle.page_entries.specs.Unswept.{UnsweptAt, FirstUnswept};

use page_table::{COUNT, KIND, Span};
use units::{ENTRY_NUMBERS, Page, UNSWEPT_FLAG};

// Page g's entry.
#[tactic(auto, unfolding(model::specs::Spans::put_page))]
fn put_entry(table: &mut [u32], g: Page, owner: u32, count: u32, kind: u32)
    requires { HasEntry table.old g.0 }
    ensures { table.new ≡
        put_page g.0 (record { owner = owner; count = count; kind = kind }) table.old }
{
    let at = ENTRY_NUMBERS * g.0;
    table[at] = owner;
    table[at + COUNT] = count;
    table[at + KIND] = kind;
}

// The entries of a span of n pages from page s on. Only its first page has the count and the kind.
#[tactic(auto, using(model::proofs::Bounded::run_none, model::proofs::Bounded::run_step))]
pub fn write_span(table: &mut [u32], s: Page, n: usize, kind: u32)
    requires { NewEntries table.old s.0 n }
    ensures { table.new ≡ put_pages s.0 n (span_page s.0 n kind) table.old }
{
    if n == 0 {
        return;
    }
    let first = s.0;
    let owner = (first + 1) as u32;
    put_entry(table, s, owner, n as u32, kind);
    for k in 1..n {
        put_entry(table, Page(first + k), owner, 0, 0);
    }
}

// The n pages from page s on become free.
#[tactic(auto, using(model::proofs::Bounded::run_none, model::proofs::Bounded::run_step))]
pub fn free_span(table: &mut [u32], s: Page, n: usize)
    requires { HasEntries table.old s.0 n }
    ensures { table.new ≡ put_pages s.0 n (λ g. free_page) table.old }
{
    for k in 0..n {
        put_entry(table, Page(s.0 + k), 0, 0, 0);
    }
}

// The kind of the span that starts at page s, with or without the unswept flag.
#[tactic(auto, using(crate::proofs::Entries::put_kind))]
fn set_kind(table: &mut [u32], s: Page, kind: u32)
    requires { SpanEntry table.old s.0 }
    ensures { table.new ≡ with_kind s.0 kind table.old }
{
    table[ENTRY_NUMBERS * s.0 + KIND] = kind;
}

// The span becomes swept.
pub fn make_swept(table: &mut [u32], span: Span)
    requires { ReadEntry table.old span }
    ensures { table.new ≡ made_swept span.start.0 table.old }
{
    let kind = span.kind as u32;
    set_kind(table, span.start, kind);
}

// Every span becomes unswept.
#[tactic(auto, using(model::proofs::Bounded::run_none))]
pub fn make_all_unswept(p: usize, table: &mut [u32])
    requires { Flaggable p table.old }
    ensures { table.new ≡ put_pages 0 p (unswept_page table.old) table.old }
{
    for page in 0..p {
        if page_table::starts_span(table, Page(page)) {
            table[ENTRY_NUMBERS * page + KIND] += UNSWEPT_FLAG;
        }
    }
}

// The unswept span that starts at page s, if one does.
pub fn unswept_at(table: &[u32], s: Page) -> Option<Span>
    requires { HasEntry table.now s.0 }
    ensures { UnsweptAt table.now s.0 result }
{
    if !page_table::starts_span(table, s) {
        return None;
    }
    let span = page_table::span_at(table, s);
    if span.unswept {
        return Some(span);
    }
    None
}

// The first unswept span, if there is one.
pub fn first_unswept(p: usize, table: &[u32]) -> Option<Span>
    requires { PageTable p table.now }
    ensures { FirstUnswept p table.now result }
{
    for s in 0..p {
        if let Some(span) = unswept_at(table, Page(s)) {
            return Some(span);
        }
    }
    None
}
