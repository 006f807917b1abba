// The calls on records: a pointer word is loaded into a slot or stored from one, a number is put or
// got; and a slot is stored to a global, which has the barrier too. The field is found once, by crate
// record_fields: a pointer word or a number, with where it stands, or the call's refusal. They are taken
// after the audit. Each buffer is a parameter of its own, as C lends it: those that a call never changes
// as `const`.
#![tactic(auto)]

ghost use Rattle.std.specs.Prelude.{◌*◌, ◌<◌, IfOk};
ghost use Rattle.model.specs.Memory.{page_words, stack_count, slot_count};
ghost use Rattle.model.specs.Records.{load, store, put, get, store_global};
ghost use Rattle.model.specs.Promises.{AuditedHeap, AuditedTables, Does, DoesWithoutArena, exclusive, shared};
ghost use Rattle.model.specs.Refusals.{answered};
ghost use Rattle.call_records.specs.Words.{FindsPointer, FindsNumber};

use model::{Accepted, Refusal};
use record_fields::Field;
use units::{Address, Word};

// Pointer word f of the record in slot j of stack s, for a call that names slot i besides.
fn pointer_word(
    p: usize,
    table: &[u32],
    bits: &[u64],
    roots: &[u64],
    s: u64,
    i: u64,
    j: u64,
    f: u64,
) -> Result<Word, Refusal>
    requires { AuditedTables p table.now bits.now roots.now }
    ensures found { FindsPointer p (shared table) (shared bits) (shared roots) s i j f result }
    ensures within { IfOk result (λ w. (s < stack_count) × (i < slot_count) × (w.0 < page_words * p)) }
{
    match record_fields::find(p, table, bits, roots, s, i, j, f)? {
        Field::Pointer(w) => Ok(w),
        Field::Number(_) => Err(Refusal::BadField),
    }
}

// Number word f of the record in slot j of stack s. Not one function with pointer_word: each lets the
// one kind through that its calls name, and refuses the other.
fn number_word(
    p: usize,
    table: &[u32],
    bits: &[u64],
    roots: &[u64],
    s: u64,
    j: u64,
    f: u64,
) -> Result<Word, Refusal>
    requires { AuditedTables p table.now bits.now roots.now }
    ensures found { FindsNumber p (shared table) (shared bits) (shared roots) s j f result }
    ensures within { IfOk result (λ w. w.0 < page_words * p) }
{
    match record_fields::find(p, table, bits, roots, s, j, j, f)? {
        Field::Number(w) => Ok(w),
        Field::Pointer(_) => Err(Refusal::BadField),
    }
}

// Slot i of stack s becomes pointer word f of the record in slot j.
pub fn load(
    p: usize,
    arena: &[u64],
    table: &[u32],
    bits: &[u64],
    roots: &mut [u64],
    s: u64,
    i: u64,
    j: u64,
    f: u64,
) -> Result<Accepted, Refusal>
    requires { AuditedHeap p arena.now table.now bits.now roots.old }
    ensures { Does (λ h. load h s i j f) p
        (shared arena) (shared table) (shared bits) (exclusive roots) (answered result) }
{
    let from = pointer_word(p, table, bits, roots, s, i, j, f)?;
    let to = root_checks::slot_at(s, i);
    let v = arena[from.0];
    roots[to] = v;
    Ok(Accepted::Value(v))
}

// Pointer word f of the record in slot j of stack s becomes slot k, after the barrier.
pub fn store(
    p: usize,
    arena: &mut [u64],
    table: &[u32],
    bits: &mut [u64],
    roots: &[u64],
    s: u64,
    j: u64,
    f: u64,
    k: u64,
) -> Result<Accepted, Refusal>
    requires { AuditedHeap p arena.old table.now bits.old roots.now }
    ensures { Does (λ h. store h s j f k) p
        (exclusive arena) (shared table) (exclusive bits) (shared roots) (answered result) }
{
    let at = pointer_word(p, table, bits, roots, s, k, j, f)?;
    let slot = root_checks::slot_at(s, k);
    let old = arena[at.0];
    let new = roots[slot];
    shading::barrier(p, table, bits, roots, Address(old), Address(new));
    arena[at.0] = new;
    Ok(Accepted::Done)
}

// Number word f of the record in slot j of stack s becomes v.
pub fn put(
    p: usize,
    arena: &mut [u64],
    table: &[u32],
    bits: &[u64],
    roots: &[u64],
    s: u64,
    j: u64,
    f: u64,
    v: u64,
) -> Result<Accepted, Refusal>
    requires { AuditedHeap p arena.old table.now bits.now roots.now }
    ensures { Does (λ h. put h s j f v) p
        (exclusive arena) (shared table) (shared bits) (shared roots) (answered result) }
{
    let to = number_word(p, table, bits, roots, s, j, f)?;
    arena[to.0] = v;
    Ok(Accepted::Done)
}

// The number at word f of the record in slot j of stack s.
pub fn get(
    p: usize,
    arena: &[u64],
    table: &[u32],
    bits: &[u64],
    roots: &[u64],
    s: u64,
    j: u64,
    f: u64,
) -> Result<Accepted, Refusal>
    requires { AuditedHeap p arena.now table.now bits.now roots.now }
    ensures { Does (λ h. get h s j f) p (shared arena) (shared table) (shared bits) (shared roots) (answered result) }
{
    let at = number_word(p, table, bits, roots, s, j, f)?;
    Ok(Accepted::Value(arena[at.0]))
}

// Global g becomes slot i of stack s, after the barrier.
pub fn store_global(
    p: usize,
    table: &[u32],
    bits: &mut [u64],
    roots: &mut [u64],
    s: u64,
    g: u64,
    i: u64,
) -> Result<Accepted, Refusal>
    requires { AuditedTables p table.now bits.old roots.old }
    ensures { DoesWithoutArena (λ h. store_global h s g i) p
        (shared table) (exclusive bits) (exclusive roots) (answered result) }
{
    root_checks::check_global(roots, s, i, g)?;
    let slot = root_checks::slot_at(s, i);
    let global = units::FIRST_GLOBAL + g as usize;
    let old = roots[global];
    let v = roots[slot];
    shading::barrier(p, table, bits, roots, Address(old), Address(v));
    roots[global] = v;
    Ok(Accepted::Done)
}
