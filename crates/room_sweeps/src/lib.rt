// Sweeps that make room for an allocation: unswept spans of a kind until one has a free element, and
// unswept spans of any kind until a run of pages is long enough. Each loop goes over the page table
// once: a sweep makes room in its own span, or lengthens the run of free pages around it, and nowhere
// else (crate keeps, proofs/Beside.antt, and proofs/Around.antt here).
#![tactic(auto)]

ghost use Rattle.std.specs.Prelude.{◌<◌};
ghost use Rattle.room_sweeps.specs.Needs.{NoElement, NoRun};
ghost use Rattle.room_sweeps.specs.Needs.{KindTurn, PageTurn, SweepsKind, SweepsPages};

use units::{Page, Word};

// The page table and the bitmaps of so many pages, lent to be swept. That they are audited is required of
// it and no ghost field: it would be proved at each end of a sweep, where nobody asks for it.
#[derive(Drop)]
pub struct Tables<'a> {
    pub pages: usize,
    pub table: &'a mut [u32],
    pub bits: &'a mut [u64],
}

impl Tables<'_> {
    ghost use Rattle.room_sweeps.specs.Tables.{AreAudited, on_tables, SameTables};

    // Sweeps the unswept span of the kind that starts at page s, if one does: its lowest free element. One
    // that is returned whole has none.
    fn sweep_of_kind(&mut self, kind: usize, s: Page) -> Option<Word>
        requires { AreAudited self.old × (s.0 < self.old.pages) }
        ensures turn { on_tables (KindTurn kind s.0) self.old self.new result }
        ensures same { SameTables self.old self.new }
    {
        let p = self.pages;
        let table = &mut *self.table;
        let bits = &mut *self.bits;
        let span = page_entries::unswept_at(table, s)?;
        let of_kind = span.kind;
        if of_kind != kind {
            return None;
        }
        span_sweep::sweep(p, table, bits, span);
        element_search::free_between(p, table, bits, kind, s, Page(s.0 + 1))
    }

    // Sweeps unswept spans of the kind, from the lowest start page until one has a free element: that
    // element.
    pub fn sweep_kind(&mut self, kind: usize) -> Option<Word>
        requires { AreAudited self.old × NoElement kind self.old.pages self.old.table.now self.old.bits.now }
        ensures sweeps { on_tables (SweepsKind kind) self.old self.new result }
        ensures same { SameTables self.old self.new }
    {
        for s in 0..self.pages {
            if let Some(word) = self.sweep_of_kind(kind, Page(s)) {
                return Some(word);
            }
        }
        None
    }

    // Sweeps the unswept span that starts at page s, if one does, where no run of n pages is free: the best
    // run, if there is one then. If its pages are returned, the run around them alone can have become long
    // enough.
    fn sweep_any(&mut self, n: usize, s: Page) -> Option<Page>
        requires { AreAudited self.old × (s.0 < self.old.pages) × (0 < n) ×
            NoRun n self.old.pages self.old.table.now }
        ensures turn { on_tables (PageTurn n s.0) self.old self.new result }
        ensures same { SameTables self.old self.new }
    {
        let p = self.pages;
        let table = &mut *self.table;
        let bits = &mut *self.bits;
        let span = page_entries::unswept_at(table, s)?;
        let swept = span_sweep::sweep(p, table, bits, span);
        if swept.returned == 0 {
            return None;
        }
        page_runs::run_around(p, table, s, n)
    }

    // Sweeps unswept spans, from the lowest start page until a run of n pages is free: the best run, if
    // there is one after all of them. Not one function with sweep_kind: a turn would be a closure that is
    // lent the tables again.
    pub fn sweep_pages(&mut self, n: usize) -> Option<Page>
        requires { AreAudited self.old × NoRun n self.old.pages self.old.table.now × (0 < n) }
        ensures sweeps { on_tables (SweepsPages n) self.old self.new result }
        ensures same { SameTables self.old self.new }
    {
        for s in 0..self.pages {
            if let Some(page) = self.sweep_any(n, Page(s)) {
                return Some(page);
            }
        }
        None
    }
}
