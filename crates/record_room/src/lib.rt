// Where a record goes: the refusals of an allocation, and the search for an element or for pages, with
// the sweeps that make room. The arena and the roots are left alone. The page table and the bitmaps, which
// the allocation is lent each by itself, are handed on as one value.
#![tactic(auto)]

ghost use Rattle.std.specs.Prelude.{◌≡◌, ◌<◌};
ghost use Rattle.model.specs.Checks.{size_refusal};
ghost use Rattle.model.specs.Promises.{AuditedTables, exclusive, shared};
ghost use Rattle.model.specs.Lent.{Told};
ghost use Rattle.model.specs.Refusals.{refused};
ghost use Rattle.room_sweeps.specs.Needs.{SweepsKind, SweepsPages};
ghost use Rattle.room_sweeps.specs.Tables.{AreAudited, on_tables, SameTables};
ghost use Rattle.record_room.specs.Needs.{FindsPlace, ChoosesPlace};

use classes::Shape;
use model::Refusal;
use room_sweeps::Tables;
use units::{Page, Word};

// Where a record goes: its first word, whether its span is still to be made, and the record's shape.
#[derive(Clone, Copy)]
pub struct RecordPlace {
    pub word: Word,
    // a flag and no enum: the word is there in both cases, and is used alike
    pub fresh: bool,
    pub shape: Shape,
}

// A size and a number of pointer words.
#[tactic(auto, using(root_checks::proofs::Passed::rows))]
fn check_size(size: u64, pointers: u64) -> Result<(), Refusal>
    ensures { refused result ≡ size_refusal size pointers }
{
    if size == 0 || classes::MAX_SIZE < size || size / units::WORD_BYTES < pointers {
        return Err(Refusal::BadSize);
    }
    Ok(())
}

// A free element of the kind: of a swept span, else of one that is swept for it. `swept` says that no
// span is unswept.
fn element_for(tables: &mut Tables, swept: bool, kind: usize) -> Option<Word>
    requires { AreAudited tables.old × Told swept tables.old.table.now }
    ensures sweeps { on_tables (SweepsKind kind) tables.old tables.new result }
    ensures same { SameTables tables.old tables.new }
{
    let p = tables.pages;
    let table = &mut *tables.table;
    let bits = &mut *tables.bits;
    if let Some(word) = element_search::free_between(p, table, bits, kind, Page(0), Page(p)) {
        return Some(word);
    }
    if swept {
        return None;
    }
    tables.sweep_kind(kind)
}

// The first page of the best run of n pages: of the pages that are free, else of those that spans
// return that are swept for it. `swept` says that no span is unswept.
fn pages_for(tables: &mut Tables, swept: bool, n: usize) -> Option<Page>
    requires { AreAudited tables.old × Told swept tables.old.table.now × (0 < n) }
    ensures sweeps { on_tables (SweepsPages n) tables.old tables.new result }
    ensures same { SameTables tables.old tables.new }
{
    let p = tables.pages;
    let table = &mut *tables.table;
    if let Some(page) = page_runs::best_run(p, table, n) {
        return Some(page);
    }
    if swept {
        return None;
    }
    tables.sweep_pages(n)
}

// The place of a record of this shape, after the sweeps that make room for it: the lowest free element
// of the lowest swept span of its kind that has one, else the first word of the best run of pages.
// Outside the sweep phase no span is unswept.
fn find(tables: &mut Tables, roots: &[u64], shape: Shape) -> Result<RecordPlace, Refusal>
    requires { AuditedTables tables.old.pages tables.old.table.now tables.old.bits.now roots.now × (0 < shape.pages) }
    ensures finds { on_tables (λ p table bits. FindsPlace shape p table bits (shared roots) result)
        tables.old tables.new }
    ensures same { SameTables tables.old tables.new }
{
    let swept = roots[units::PHASE] != units::SWEEP;
    if let Some(word) = element_for(tables, swept, shape.kind as usize) {
        return Ok(RecordPlace {
            word,
            fresh: false,
            shape,
        });
    }
    if let Some(page) = pages_for(tables, swept, shape.pages) {
        return Ok(RecordPlace {
            word: page.first_word(),
            fresh: true,
            shape,
        });
    }
    Err(Refusal::NoRoom)
}

// The place of a record for slot i of stack s, by its size and its number of pointer words. What is
// refused of these numbers is tested before any sweep.
pub fn choose(
    p: usize,
    table: &mut [u32],
    bits: &mut [u64],
    roots: &[u64],
    s: u64,
    i: u64,
    size: u64,
    pointers: u64,
) -> Result<RecordPlace, Refusal>
    requires { AuditedTables p table.old bits.old roots.now }
    ensures { ChoosesPlace s i size pointers p (exclusive table) (exclusive bits) (shared roots) result }
{
    root_checks::check_slot(roots, s, i)?;
    check_size(size, pointers)?;
    let shape = classes::shape_of(size, pointers);
    let mut tables = Tables {
        pages: p,
        table,
        bits,
    };
    find(&mut tables, roots, shape)
}
