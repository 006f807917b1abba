// The calls for C and Rust on records, and the store to a global, which has the barrier too: the entry
// check, then the audited call, and its answer written out (crate c_setup says what all calls for C have
// in common).
#![tactic(auto)]

ghost use Rattle.model.specs.declared.Call.TheVariants.{Allocate, Load, Store, Put, Get, StoreGlobal};
ghost use Rattle.c_answer.specs.Exported.{Exports};
ghost use Rattle.model.specs.Promises.{exclusive, shared};

use c_answer::write_answer;
use model::Answer;

#[unsafe(no_mangle)]
pub extern "C" fn heap_alloc(
    p: u64,
    arena: &mut [u64],
    table: &mut [u32],
    bits: &mut [u64],
    roots: &mut [u64],
    s: u64,
    i: u64,
    size: u64,
    pointers: u64,
    out: &mut [u64; 3],
) -> u64
    ensures { Exports (Allocate s i size pointers) p (exclusive arena) (exclusive table)
        (exclusive bits) (exclusive roots) (exclusive out) result }
{
    if let Err(refusal) = audit::entry(p, arena, table, bits, roots) {
        return write_answer(Answer::from(Err(refusal)), out);
    }
    let answer = call_allocate::allocate(
        p as usize, arena, table, bits, roots, s, i, size, pointers,
    );
    write_answer(Answer::from(answer), out)
}

#[unsafe(no_mangle)]
pub extern "C" fn heap_load(
    p: u64,
    arena: &[u64],
    table: &[u32],
    bits: &[u64],
    roots: &mut [u64],
    s: u64,
    i: u64,
    j: u64,
    f: u64,
    out: &mut [u64; 3],
) -> u64
    ensures { Exports (Load s i j f) p (shared arena) (shared table) (shared bits)
        (exclusive roots) (exclusive out) result }
{
    if let Err(refusal) = audit::entry(p, arena, table, bits, roots) {
        return write_answer(Answer::from(Err(refusal)), out);
    }
    let answer = call_records::load(p as usize, arena, table, bits, roots, s, i, j, f);
    write_answer(Answer::from(answer), out)
}

#[unsafe(no_mangle)]
pub extern "C" fn heap_store(
    p: u64,
    arena: &mut [u64],
    table: &[u32],
    bits: &mut [u64],
    roots: &[u64],
    s: u64,
    j: u64,
    f: u64,
    k: u64,
    out: &mut [u64; 3],
) -> u64
    ensures { Exports (Store s j f k) p (exclusive arena) (shared table) (exclusive bits)
        (shared roots) (exclusive out) result }
{
    if let Err(refusal) = audit::entry(p, arena, table, bits, roots) {
        return write_answer(Answer::from(Err(refusal)), out);
    }
    let answer = call_records::store(p as usize, arena, table, bits, roots, s, j, f, k);
    write_answer(Answer::from(answer), out)
}

#[unsafe(no_mangle)]
pub extern "C" fn heap_put(
    p: u64,
    arena: &mut [u64],
    table: &[u32],
    bits: &[u64],
    roots: &[u64],
    s: u64,
    j: u64,
    f: u64,
    v: u64,
    out: &mut [u64; 3],
) -> u64
    ensures { Exports (Put s j f v) p (exclusive arena) (shared table) (shared bits) (shared roots)
        (exclusive out) result }
{
    if let Err(refusal) = audit::entry(p, arena, table, bits, roots) {
        return write_answer(Answer::from(Err(refusal)), out);
    }
    let answer = call_records::put(p as usize, arena, table, bits, roots, s, j, f, v);
    write_answer(Answer::from(answer), out)
}

#[unsafe(no_mangle)]
pub extern "C" fn heap_get(
    p: u64,
    arena: &[u64],
    table: &[u32],
    bits: &[u64],
    roots: &[u64],
    s: u64,
    j: u64,
    f: u64,
    out: &mut [u64; 3],
) -> u64
    ensures { Exports (Get s j f) p (shared arena) (shared table) (shared bits) (shared roots) (exclusive out) result }
{
    if let Err(refusal) = audit::entry(p, arena, table, bits, roots) {
        return write_answer(Answer::from(Err(refusal)), out);
    }
    let answer = call_records::get(p as usize, arena, table, bits, roots, s, j, f);
    write_answer(Answer::from(answer), out)
}

#[unsafe(no_mangle)]
pub extern "C" fn heap_store_global(
    p: u64,
    arena: &[u64],
    table: &[u32],
    bits: &mut [u64],
    roots: &mut [u64],
    s: u64,
    g: u64,
    i: u64,
    out: &mut [u64; 3],
) -> u64
    ensures { Exports (StoreGlobal s g i) p (shared arena) (shared table) (exclusive bits)
        (exclusive roots) (exclusive out) result }
{
    if let Err(refusal) = audit::entry(p, arena, table, bits, roots) {
        return write_answer(Answer::from(Err(refusal)), out);
    }
    let answer = call_records::store_global(p as usize, table, bits, roots, s, g, i);
    write_answer(Answer::from(answer), out)
}
