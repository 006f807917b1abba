// Runs of free pages of the page table: how long one is, and the best run for a number of pages, as the
// model's specs/Allocate.antt defines them; and the run around a page, if it is long enough, as
// specs/Around.antt defines it. Crate page_table reads the entries of spans; this is a crate apart from
// it for the gate's time: each wrong program proves its whole crate again.
#![tactic(auto)]

ghost use Rattle.std.specs.Prelude.{◌≡◌, ◌*◌, ◌<◌, ◌≤◌, length};
ghost use Rattle.model.specs.Memory.{entry_numbers};
ghost use Rattle.model.specs.Allocate.{run_length, best_run};
ghost use Rattle.model.specs.Lent.{PageTable};
ghost use Rattle.page_runs.specs.Around.{run_start, run_around};
ghost use Rattle.page_runs.specs.Found.{FoundPage};

use units::{ENTRY_NUMBERS, Page};

// How many pages from page g on are free, up to the first that is not.
fn run_length(p: usize, table: &[u32], g: Page) -> usize
    requires { PageTable p table.now × (g.0 ≤ p) }
    ensures { result ≡ run_length p table.now g.0 }
{
    for k in g.0..p {
        if table[ENTRY_NUMBERS * k] != 0 {
            return k - g.0;
        }
    }
    p - g.0
}

// The first page of the shortest maximal run of at least n free pages, the lowest among equals, if there
// is one. In the loop no free page stands before page g.
pub fn best_run(p: usize, table: &[u32], n: usize) -> Option<Page>
    requires { PageTable p table.now × (0 < n) }
    ensures { FoundPage p (best_run p table.now n) result }
{
    let mut g = 0;
    let mut best = None;
    let mut least = p + 1;
    // Not a for: a turn passes g's run and the page that ends it, so that each page is read once.
    while g < p {
        let l = run_length(p, table, Page(g));
        if n <= l && l < least {
            best = Some(Page(g));
            least = l;
        }
        g += l + 1;
    }
    best
}

// The first page of the run of free pages that ends at page s or goes on behind it. Page s itself is
// not looked at; the pages below it have entries.
fn run_start(table: &[u32], s: Page) -> Page
    requires { entry_numbers * s.0 ≤ length table.now }
    ensures { result.0 ≡ run_start table.now s.0 }
{
    for below in (0..s.0).rev() {
        if table[ENTRY_NUMBERS * below] != 0 {
            return Page(below + 1);
        }
    }
    Page(0)
}

// The first page of the run of free pages around page s if it has at least n pages.
pub fn run_around(p: usize, table: &[u32], s: Page, n: usize) -> Option<Page>
    requires { PageTable p table.now × (s.0 < p) }
    ensures { FoundPage p (run_around p table.now s.0 n) result }
{
    let start = run_start(table, s);
    let pages = run_length(p, table, start);
    if n <= pages {
        return Some(start);
    }
    None
}
