// Shading: a white record is marked, and made gray where its span is scan. One value, the barrier's
// two, and the values of a lent slice, as the scans and the mark step shade them. Only the bitmaps
// change; each function that counts says how many mark bits it turned on. The page table and the bitmaps
// are not made one value: only one of them may be changed, and the calls are lent each by itself.
#![tactic(auto)]

ghost use Rattle.model.specs.Shading.{barrier};
ghost use Rattle.shading.specs.Needs.{Shadable, LentStore, LentSlice, Shades, ShadesSlice, LeavesBits};
ghost use Rattle.model.specs.Promises.{exclusive, shared};

use units::Address;

// Shade the record that v names, if it names one.
fn shade(p: usize, table: &[u32], bits: &mut [u64], v: Address) -> u64
    requires { Shadable p table.now bits.old v.0 }
    ensures { Shades p table.now v.0 bits.old result bits.new }
{
    if v.is_nil() {
        return 0;
    }
    let record = v.word();
    let w = record.0;
    let words = units::PAGE_WORDS * p;
    let marked = units::MARKED_PART * words + w;
    if bitmap::test(bits, marked) {
        return 0;
    }
    bitmap::set(bits, marked);
    let scan = page_table::span_with_word(table, record).scan;
    if scan {
        bitmap::set(bits, units::GRAY_PART * words + w);
    }
    1
}

// The barrier of a store, in the mark phase: the old value is shaded, then the new.
pub fn barrier(p: usize, table: &[u32], bits: &mut [u64], roots: &[u64], old: Address, new: Address)
    requires { LentStore p table.now bits.old roots.now old.0 new.0 }
    ensures { LeavesBits (λ h. barrier h old.0 new.0) p (shared table) (exclusive bits) (shared roots) }
{
    if roots[units::PHASE] == units::MARK {
        shade(p, table, bits, old);
        shade(p, table, bits, new);
    }
}

// Shade the values of a slice.
pub fn shade_slice(p: usize, table: &[u32], bits: &mut [u64], words: &[u64]) -> u64
    requires { LentSlice p table.now bits.old words.now }
    ensures { ShadesSlice p (shared table) (exclusive bits) (shared words) result }
{
    let mut count: u64 = 0;
    for v in words {
        count += shade(p, table, bits, Address(*v));
    }
    count
}
