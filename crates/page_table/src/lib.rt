// The page table, read: a lent list of numbers, three to a page, which are the start page + 1 of
// the page's span, the span's page count and its kind. The numbers of an entry, whether a span starts
// at a page, and a span by its start page and by a word of it. Crate page_entries writes the table, and
// crate page_runs finds room among its free pages.
#![tactic(auto)]

ghost use Rattle.std.specs.Prelude.{◌≡◌, ◌-◌};
ghost use Rattle.model.specs.Spans.{owner, page_count, kind_entry, starts_span, span_of};
ghost use Rattle.model.specs.Lent.{HasEntry, WordEntries};
ghost use Rattle.page_table.specs.Span.{Reads};

use units::{ENTRY_NUMBERS, Page, UNSWEPT_FLAG, Word};

// Where the page count and the kind stand in an entry.
pub const COUNT: usize = 1;

pub const KIND: usize = 2;

// The start page + 1 of the span that page g belongs to, 0 for a free page. Not an Option: what the
// document's table holds is this number, and the audit and the model compare it as it stands.
#[tactic(auto, unfolding(model::specs::Spans::owner))]
pub fn owner(table: &[u32], g: Page) -> usize
    requires { HasEntry table.now g.0 }
    ensures { result ≡ owner table.now g.0 }
{
    table[ENTRY_NUMBERS * g.0] as usize
}

// The page count in page g's entry.
#[tactic(auto, unfolding(model::specs::Spans::page_count))]
pub fn page_count(table: &[u32], g: Page) -> usize
    requires { HasEntry table.now g.0 }
    ensures { result ≡ page_count table.now g.0 }
{
    table[ENTRY_NUMBERS * g.0 + COUNT] as usize
}

// The kind in page g's entry, with the unswept flag.
#[tactic(auto, unfolding(model::specs::Spans::kind_entry))]
pub fn kind_entry(table: &[u32], g: Page) -> usize
    requires { HasEntry table.now g.0 }
    ensures { result ≡ kind_entry table.now g.0 }
{
    table[ENTRY_NUMBERS * g.0 + KIND] as usize
}

// A span starts at page g.
pub fn starts_span(table: &[u32], g: Page) -> bool
    requires { HasEntry table.now g.0 }
    ensures { result ≡ starts_span table.now g.0 }
{
    owner(table, g) == g.0 + 1
}

// The start page of the span that page g belongs to, 0 for a free page: not an Option, since `span_of` of
// the definitions gives 0 there.
fn span_of_page(table: &[u32], g: Page) -> Page
    requires { HasEntry table.now g.0 }
    ensures { result.0 ≡ owner table.now g.0 - 1 }
{
    let first = owner(table, g);
    Page(first.saturating_sub(1))
}

// A span as the entry of its first page describes it, read once and handed on. `flagged` is the kind
// as it stands there, with the unswept flag, and `kind` the kind without it: numbers and no enum, as the
// table holds them.
#[derive(Clone, Copy)]
pub struct Span {
    pub start: Page,
    pub pages: usize,
    pub flagged: usize,
    pub kind: usize,
    pub class: usize,
    pub scan: bool,
    pub unswept: bool,
}

// The span that starts at page s.
pub fn span_at(table: &[u32], s: Page) -> Span
    requires { HasEntry table.now s.0 }
    ensures { Reads table.now s.0 result }
{
    let flag = UNSWEPT_FLAG as usize;
    let flagged = kind_entry(table, s);
    let kind = flagged % flag;
    Span {
        start: s,
        pages: page_count(table, s),
        flagged,
        kind,
        class: kind / 2,
        scan: kind % 2 == 0,
        unswept: flag <= flagged,
    }
}

// The span that arena word w lies in.
pub fn span_with_word(table: &[u32], w: Word) -> Span
    requires { WordEntries table.now w.0 }
    ensures { Reads table.now (span_of table.now w.0) result }
{
    let page = w.page();
    let start = span_of_page(table, page);
    span_at(table, start)
}
