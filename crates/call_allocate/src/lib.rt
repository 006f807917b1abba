// Allocating a record: the call, and the element that it takes. Where the record goes is found by
// crate record_room; here each buffer is changed by a function of its own, and is a parameter of its
// own, as C lends it.
#![tactic(auto)]

ghost use Rattle.std.specs.Prelude.{true, ◌≡◌};
ghost use Rattle.model.specs.Memory.{page_of};
ghost use Rattle.model.specs.Allocate.{new_bits, allocate};
ghost use Rattle.model.specs.Promises.{AuditedHeap, Does, ByBitsAndRoots, exclusive, shared};
ghost use Rattle.model.specs.Refusals.{answered};
ghost use Rattle.page_entries.specs.Needs.{NewEntries};
ghost use Rattle.call_allocate.specs.Needs.{extended, MarksNew, CanTake, TakesElement};

use classes::Shape;
use model::{Accepted, Refusal};
use units::{Address, Word};

// Makes the span of a record of this shape at word w, if it is still to be made.
fn extend(table: &mut [u32], fresh: bool, w: Word, shape: Shape)
    requires { fresh ≡ true → NewEntries table.old (page_of w.0) shape.pages }
    ensures { table.new ≡ extended fresh w.0 shape.pages shape.kind table.old }
{
    if fresh {
        page_entries::write_span(table, w.page(), shape.pages, shape.kind);
    }
}

// The bits of a new record: allocated, its pointer words, and marked in the mark phase. They do not
// depend on the arena and the page table.
fn mark_new(p: usize, bits: &mut [u64], roots: &[u64], w: Word, pointers: usize)
    requires { MarksNew p w.0 pointers bits.old roots.now }
    ensures { ByBitsAndRoots (λ h. bits.new ≡ new_bits h w.0 pointers) p (exclusive bits) (shared roots) }
{
    let at = w.0;
    let words = units::PAGE_WORDS * p;
    bitmap::set(bits, at);
    bitmap_range::set_range(bits, units::POINTER_PART * words + at, pointers);
    if roots[units::PHASE] == units::MARK {
        bitmap::set(bits, units::MARKED_PART * words + at);
    }
}

// Takes the element of n words at word w for a record: its words become 0, its bits are set, and its
// address goes to word `slot` of the roots.
fn take(
    p: usize,
    arena: &mut [u64],
    bits: &mut [u64],
    roots: &mut [u64],
    w: Word,
    n: usize,
    pointers: usize,
    slot: usize,
) -> Address
    requires { CanTake w.0 n pointers slot p arena.old bits.old roots.old }
    ensures { TakesElement w.0 n pointers slot p (exclusive arena) (exclusive bits) (exclusive roots) result.0 }
{
    zeroing::zero_part(arena, w.0, n);
    mark_new(p, bits, roots, w, pointers);
    let address = w.address();
    roots[slot] = address.0;
    address
}

// Allocates a record of this size, with so many leading pointer words, into slot i of stack s.
pub fn allocate(
    p: usize,
    arena: &mut [u64],
    table: &mut [u32],
    bits: &mut [u64],
    roots: &mut [u64],
    s: u64,
    i: u64,
    size: u64,
    pointers: u64,
) -> Result<Accepted, Refusal>
    requires { AuditedHeap p arena.old table.old bits.old roots.old }
    ensures { Does (λ h. allocate h s i size pointers) p (exclusive arena) (exclusive table)
        (exclusive bits) (exclusive roots) (answered result) }
{
    let place = record_room::choose(p, table, bits, roots, s, i, size, pointers)?;
    let w = place.word;
    let shape = place.shape;
    extend(table, place.fresh, w, shape);
    let slot = root_checks::slot_at(s, i);
    let words = shape.words;
    let address = take(p, arena, bits, roots, w, words, pointers as usize, slot);
    Ok(Accepted::Value(address.0))
}
