// The audit and the entry check: the question that every call after setup asks first. The page table
// is passed before the bits, and the bits before what they lead to, so that each part may rely on
// the one before it. So the audit goes over the page table three times: for itself, for the bits and
// for the words of the arena. Each buffer is a parameter of its own, as C
// lends it to the calls that ask: each would make one value of the four for the one question.
#![tactic(auto)]

ghost use Rattle.std.specs.Prelude.{◌↔◌, ◌≡◌, T};
ghost use Rattle.model.specs.Checks.{buffers_refusal};
ghost use Rattle.model.specs.Audit.{audit};
ghost use Rattle.model.specs.Calls.{entry};
ghost use Rattle.model.specs.Facts.{Sized};
ghost use Rattle.model.specs.Refusals.{refused};
ghost use Rattle.model.specs.Promises.{SizedHeap, found, shared};

use audit_references::Kept;
use audit_words::Words;
use model::Refusal;
use units::{BITMAP_WORDS, ENTRY_NUMBERS, MAX_PAGES, PAGE_WORDS, PHASE, ROOT_WORDS, SWEEP};

// P is 1 to MAX_PAGES, and the four buffers have its lengths.
fn buffers_ok(p: u64, arena: &[u64], table: &[u32], bits: &[u64], roots: &[u64]) -> bool
    ensures { T result ↔ Sized (found p (shared arena) (shared table) (shared bits) (shared roots)) }
{
    let n = p as usize;
    (1..=MAX_PAGES as u64).contains(&p)
        && arena.len() == PAGE_WORDS * n
        && table.len() == ENTRY_NUMBERS * n
        && bits.len() == BITMAP_WORDS * n
        && roots.len() == ROOT_WORDS
}

// The audit says yes. The arena, the page table and the bitmaps are lent for one time, since one value
// has them for a while.
fn audit<'a>(p: usize, arena: &'a [u64], table: &'a [u32], bits: &'a [u64], roots: &[u64]) -> bool
    requires { SizedHeap p arena.now table.now bits.now roots.now }
    ensures { result ≡ audit (found p (shared arena) (shared table) (shared bits) (shared roots)) }
{
    if !audit_pages::states_ok(roots) {
        return false;
    }
    let phase = roots[PHASE];
    if !audit_pages::pages_ok(p, table, phase) {
        return false;
    }
    if !audit_bits::bits_ok(p, table, bits, phase) {
        return false;
    }
    let swept = phase != SWEEP;
    let kept = Kept {
        pages: p,
        table,
        bits,
        swept,
    };
    if !kept.roots_ok(roots) {
        return false;
    }
    let words = Words { arena, kept };
    words.contents_ok()
}

// The refusal of P and the lengths.
pub fn check_buffers(
    p: u64,
    arena: &[u64],
    table: &[u32],
    bits: &[u64],
    roots: &[u64],
) -> Result<(), Refusal>
    ensures { refused result ≡ buffers_refusal (found p (shared arena) (shared table) (shared bits) (shared roots)) }
{
    if !buffers_ok(p, arena, table, bits, roots) {
        return Err(Refusal::BadBuffers);
    }
    Ok(())
}

// The refusal that every call after setup gives first: for P and the lengths, or for damaged buffers.
pub fn entry(
    p: u64,
    arena: &[u64],
    table: &[u32],
    bits: &[u64],
    roots: &[u64],
) -> Result<(), Refusal>
    ensures { refused result ≡ entry (found p (shared arena) (shared table) (shared bits) (shared roots)) }
{
    check_buffers(p, arena, table, bits, roots)?;
    if !audit(p as usize, arena, table, bits, roots) {
        return Err(Refusal::Damaged);
    }
    Ok(())
}
