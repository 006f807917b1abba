// The end of marking: the mark step and finish. They are taken after the audit, of which each requires
// what it is lent the buffers for. The lowest gray record and the end of a record's pointer words are
// found a bitmap word at a time. Each buffer is a parameter of its own, as C lends it: those that a call
// never changes as `const`.
#![tactic(auto)]

ghost use Rattle.std.specs.Prelude.{◌≡◌, ◌+◌, eqb, get_or};
ghost use Rattle.model.specs.Bounded.{some_below};
ghost use Rattle.model.specs.Memory.{first_state, stack_count, gray_state};
ghost use Rattle.model.specs.Spans.{pointer_count};
ghost use Rattle.model.specs.Cycle.{mark_step, finish_refusal, finish};
ghost use Rattle.model.specs.Facts.{Element};
ghost use Rattle.model.specs.Lent.{Roots, Bitmaps, Mapped};
ghost use Rattle.model.specs.Promises.{AuditedHeap, AuditedTables, Does, DoesWithoutArena};
ghost use Rattle.model.specs.Promises.{GivesByRoots, exclusive, shared};
ghost use Rattle.model.specs.Promises.{ByTables, ByBits, ByBitsAndRoots};
ghost use Rattle.model.specs.Refusals.{answered, refused};
ghost use Rattle.call_cycle_marks.specs.Needs.{FirstGray, LentGray, ScansRecord, roots_refusal};

use model::{Accepted, Refusal};
use units::{GRAY_PART, PAGE_WORDS, POINTER_PART, Word};

// The first word of the lowest gray record, if there is one.
#[tactic(auto, using(crate::proofs::Marking::searches))]
fn first_gray(p: usize, bits: &[u64]) -> Option<Word>
    requires { Bitmaps p bits.now }
    ensures { ByBits (λ h. FirstGray h result) p (shared bits) }
{
    let words = PAGE_WORDS * p;
    let grays = GRAY_PART * words;
    let at = bitmap::first_set(bits, grays, grays + words)?;
    Some(Word(at - grays))
}

// How many pointer words the record at word w has: its pointer bits are a run from its first word on,
// up to its element's end at most.
fn pointer_count(p: usize, table: &[u32], bits: &[u64], w: Word) -> usize
    requires { Mapped p table.now bits.now × Element table.now w.0 }
    ensures { ByTables (λ h. result ≡ pointer_count h w.0) p (shared table) (shared bits) }
{
    let at = w.0;
    let span = page_table::span_with_word(table, w);
    let size = classes::element_words(span.class, span.pages);
    let first = POINTER_PART * (PAGE_WORDS * p) + at;
    bitmap_search::first_clear(bits, first, first + size) - first
}

// The gray record at word w: its gray bit goes, and its pointer words are shaded.
fn scan_record(p: usize, arena: &[u64], table: &[u32], bits: &mut [u64], w: Word)
    requires { LentGray p arena.now table.now bits.old w.0 }
    ensures { ScansRecord p (shared arena) (shared table) (exclusive bits) w.0 }
{
    let at = w.0;
    let n = pointer_count(p, table, bits, w);
    bitmap::clear(bits, GRAY_PART * (PAGE_WORDS * p) + at);
    shading::shade_slice(p, table, bits, &arena[at..at + n]);
}

// One mark step: the gray record with the lowest address.
pub fn mark_step(
    p: usize,
    arena: &[u64],
    table: &[u32],
    bits: &mut [u64],
    roots: &[u64],
) -> Result<Accepted, Refusal>
    requires { AuditedHeap p arena.now table.now bits.old roots.now }
    ensures { Does (λ h. mark_step h) p (shared arena) (shared table)
        (exclusive bits) (shared roots) (answered result) }
{
    root_checks::check_phase(roots, units::MARK)?;
    let Some(w) = first_gray(p, bits) else {
        // 0 and no Option: the answer that the definitions have where no record is gray
        return Ok(Accepted::Value(0));
    };
    scan_record(p, arena, table, bits, w);
    let record = w.address().0;
    Ok(Accepted::Value(record))
}

// Some stack is gray.
fn some_gray(roots: &[u64]) -> bool
    requires { Roots roots.now }
    ensures { result ≡ some_below stack_count (λ s. eqb (get_or roots.now (first_state + s) 0) gray_state) }
{
    roots[units::FIRST_STATE..units::FIRST_STATE + units::STACKS].contains(&units::GRAY)
}

// Neither a stack nor the globals are gray.
fn check_roots(roots: &[u64]) -> Result<(), Refusal>
    requires { Roots roots.now }
    ensures { GivesByRoots (λ h. roots_refusal h) (shared roots) (refused result) }
{
    if some_gray(roots) || roots[units::GLOBALS_STATE] == units::GRAY {
        return Err(Refusal::Unfinished);
    }
    Ok(())
}

// The phase is mark, and nothing is gray.
fn check_finish(p: usize, bits: &[u64], roots: &[u64]) -> Result<(), Refusal>
    requires { Bitmaps p bits.now × Roots roots.now }
    ensures { ByBitsAndRoots (λ h. refused result ≡ finish_refusal h) p (shared bits) (shared roots) }
{
    root_checks::check_phase(roots, units::MARK).and(check_roots(roots))?;
    match first_gray(p, bits) {
        Some(_) => Err(Refusal::Unfinished),
        None => Ok(()),
    }
}

// Marking ends: every span becomes unswept.
pub fn finish(
    p: usize,
    table: &mut [u32],
    bits: &[u64],
    roots: &mut [u64],
) -> Result<Accepted, Refusal>
    requires { AuditedTables p table.old bits.now roots.old }
    ensures { DoesWithoutArena (λ h. finish h) p (exclusive table) (shared bits) (exclusive roots) (answered result) }
{
    check_finish(p, bits, roots)?;
    page_entries::make_all_unswept(p, table);
    roots[units::PHASE] = units::SWEEP;
    Ok(Accepted::Done)
}
