// The search for a free element: the lowest of the lowest swept span of a kind that has one, of the
// spans that start on some pages. It goes by the page table and the bitmaps, which are not made one value:
// those who ask hold both to change them, and would make one to be read for the one question.
#![tactic(auto)]

ghost use Rattle.std.specs.Prelude.{◌<◌, ◌≤◌};
ghost use Rattle.model.specs.Lent.{Mapped};
ghost use Rattle.model.specs.Promises.{ByTables, shared};
ghost use Rattle.element_search.specs.Free.{FreeIn, FreeBetween};

use units::{Page, Word};

// The first word of the lowest free element of a swept span of the kind, if one starts at page s and has
// one. It does not depend on the arena and the roots.
fn free_in(p: usize, table: &[u32], bits: &[u64], kind: usize, s: Page) -> Option<Word>
    requires { Mapped p table.now bits.now × (s.0 < p) }
    ensures { ByTables (λ h. FreeIn h kind s.0 result) p (shared table) (shared bits) }
{
    if !page_table::starts_span(table, s) {
        return None;
    }
    let span = page_table::span_at(table, s);
    let flagged = span.flagged;
    if flagged != kind {
        return None;
    }
    let elements = classes::layout_of(span.class, span.pages);
    let size = elements.words;
    let count = elements.count;
    let first = s.first_word().0;
    let k = bitmap::first_free(bits, first, size, count, classes::starts(size))?;
    Some(Word(first + k * size))
}

// The first word of the lowest free element of the lowest swept span of the kind that has one, of the
// spans that start from page `from` on and before page `to`. It does not depend on the arena and the
// roots.
pub fn free_between(
    p: usize,
    table: &[u32],
    bits: &[u64],
    kind: usize,
    from: Page,
    to: Page,
) -> Option<Word>
    requires { Mapped p table.now bits.now × (to.0 ≤ p) }
    ensures { ByTables (λ h. FreeBetween h kind from.0 to.0 result) p (shared table) (shared bits) }
{
    for s in from.0..to.0 {
        if let Some(word) = free_in(p, table, bits, kind, Page(s)) {
            return Some(word);
        }
    }
    None
}
