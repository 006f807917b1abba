// The calls for C and Rust on stacks and their slots: the entry check, then the audited call, and its
// answer written out (crate c_setup says what all calls for C have in common).
#![tactic(auto)]

ghost use Rattle.model.specs.declared.Call.TheVariants.{Open, Close, Copy, Clear, LoadGlobal};
ghost use Rattle.c_answer.specs.Exported.{Exports};
ghost use Rattle.model.specs.Promises.{exclusive, shared};

use c_answer::write_answer;
use model::Answer;

#[unsafe(no_mangle)]
pub extern "C" fn heap_open(
    p: u64,
    arena: &[u64],
    table: &[u32],
    bits: &[u64],
    roots: &mut [u64],
    s: u64,
    out: &mut [u64; 3],
) -> u64
    ensures { Exports (Open s) p (shared arena) (shared table) (shared bits) (exclusive roots) (exclusive out) result }
{
    if let Err(refusal) = audit::entry(p, arena, table, bits, roots) {
        return write_answer(Answer::from(Err(refusal)), out);
    }
    let answer = call_stacks::open_stack(roots, s);
    write_answer(Answer::from(answer), out)
}

#[unsafe(no_mangle)]
pub extern "C" fn heap_close(
    p: u64,
    arena: &[u64],
    table: &[u32],
    bits: &[u64],
    roots: &mut [u64],
    s: u64,
    out: &mut [u64; 3],
) -> u64
    ensures { Exports (Close s) p (shared arena) (shared table) (shared bits) (exclusive roots) (exclusive out) result }
{
    if let Err(refusal) = audit::entry(p, arena, table, bits, roots) {
        return write_answer(Answer::from(Err(refusal)), out);
    }
    let answer = call_stacks::close_stack(roots, s);
    write_answer(Answer::from(answer), out)
}

#[unsafe(no_mangle)]
pub extern "C" fn heap_copy(
    p: u64,
    arena: &[u64],
    table: &[u32],
    bits: &[u64],
    roots: &mut [u64],
    s: u64,
    i: u64,
    j: u64,
    out: &mut [u64; 3],
) -> u64
    ensures { Exports (Copy s i j) p (shared arena) (shared table) (shared bits) (exclusive roots)
        (exclusive out) result }
{
    if let Err(refusal) = audit::entry(p, arena, table, bits, roots) {
        return write_answer(Answer::from(Err(refusal)), out);
    }
    let answer = call_stacks::copy(roots, s, i, j);
    write_answer(Answer::from(answer), out)
}

#[unsafe(no_mangle)]
pub extern "C" fn heap_clear(
    p: u64,
    arena: &[u64],
    table: &[u32],
    bits: &[u64],
    roots: &mut [u64],
    s: u64,
    i: u64,
    out: &mut [u64; 3],
) -> u64
    ensures { Exports (Clear s i) p (shared arena) (shared table) (shared bits) (exclusive roots)
        (exclusive out) result }
{
    if let Err(refusal) = audit::entry(p, arena, table, bits, roots) {
        return write_answer(Answer::from(Err(refusal)), out);
    }
    let answer = call_stacks::clear(roots, s, i);
    write_answer(Answer::from(answer), out)
}

#[unsafe(no_mangle)]
pub extern "C" fn heap_load_global(
    p: u64,
    arena: &[u64],
    table: &[u32],
    bits: &[u64],
    roots: &mut [u64],
    s: u64,
    i: u64,
    g: u64,
    out: &mut [u64; 3],
) -> u64
    ensures { Exports (LoadGlobal s i g) p (shared arena) (shared table) (shared bits)
        (exclusive roots) (exclusive out) result }
{
    if let Err(refusal) = audit::entry(p, arena, table, bits, roots) {
        return write_answer(Answer::from(Err(refusal)), out);
    }
    let answer = call_stacks::load_global(roots, s, i, g);
    write_answer(Answer::from(answer), out)
}
