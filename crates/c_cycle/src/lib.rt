// The calls for C and Rust of a cycle: the entry check, then the audited call, and its answer written
// out (crate c_setup says what all calls for C have in common).
#![tactic(auto)]

ghost use Rattle.model.specs.declared.Call.TheVariants.{Start, ScanStack, ScanGlobals, MarkStep, Finish, SweepStep};
ghost use Rattle.c_answer.specs.Exported.{Exports};
ghost use Rattle.model.specs.Promises.{exclusive, shared};

use c_answer::write_answer;
use model::Answer;

#[unsafe(no_mangle)]
pub extern "C" fn heap_start(
    p: u64,
    arena: &[u64],
    table: &[u32],
    bits: &[u64],
    roots: &mut [u64],
    out: &mut [u64; 3],
) -> u64
    ensures { Exports Start p (shared arena) (shared table) (shared bits) (exclusive roots) (exclusive out) result }
{
    if let Err(refusal) = audit::entry(p, arena, table, bits, roots) {
        return write_answer(Answer::from(Err(refusal)), out);
    }
    let answer = call_cycle_roots::start(roots);
    write_answer(Answer::from(answer), out)
}

#[unsafe(no_mangle)]
pub extern "C" fn heap_scan_stack(
    p: u64,
    arena: &[u64],
    table: &[u32],
    bits: &mut [u64],
    roots: &mut [u64],
    s: u64,
    out: &mut [u64; 3],
) -> u64
    ensures { Exports (ScanStack s) p (shared arena) (shared table) (exclusive bits)
        (exclusive roots) (exclusive out) result }
{
    if let Err(refusal) = audit::entry(p, arena, table, bits, roots) {
        return write_answer(Answer::from(Err(refusal)), out);
    }
    let answer = call_cycle_roots::scan_stack(p as usize, table, bits, roots, s);
    write_answer(Answer::from(answer), out)
}

#[unsafe(no_mangle)]
pub extern "C" fn heap_scan_globals(
    p: u64,
    arena: &[u64],
    table: &[u32],
    bits: &mut [u64],
    roots: &mut [u64],
    out: &mut [u64; 3],
) -> u64
    ensures { Exports ScanGlobals p (shared arena) (shared table) (exclusive bits)
        (exclusive roots) (exclusive out) result }
{
    if let Err(refusal) = audit::entry(p, arena, table, bits, roots) {
        return write_answer(Answer::from(Err(refusal)), out);
    }
    let answer = call_cycle_roots::scan_globals(p as usize, table, bits, roots);
    write_answer(Answer::from(answer), out)
}

#[unsafe(no_mangle)]
pub extern "C" fn heap_mark_step(
    p: u64,
    arena: &[u64],
    table: &[u32],
    bits: &mut [u64],
    roots: &[u64],
    out: &mut [u64; 3],
) -> u64
    ensures { Exports MarkStep p (shared arena) (shared table) (exclusive bits) (shared roots) (exclusive out) result }
{
    if let Err(refusal) = audit::entry(p, arena, table, bits, roots) {
        return write_answer(Answer::from(Err(refusal)), out);
    }
    let answer = call_cycle_marks::mark_step(p as usize, arena, table, bits, roots);
    write_answer(Answer::from(answer), out)
}

#[unsafe(no_mangle)]
pub extern "C" fn heap_finish(
    p: u64,
    arena: &[u64],
    table: &mut [u32],
    bits: &[u64],
    roots: &mut [u64],
    out: &mut [u64; 3],
) -> u64
    ensures { Exports Finish p (shared arena) (exclusive table) (shared bits) (exclusive roots) (exclusive out) result }
{
    if let Err(refusal) = audit::entry(p, arena, table, bits, roots) {
        return write_answer(Answer::from(Err(refusal)), out);
    }
    let answer = call_cycle_marks::finish(p as usize, table, bits, roots);
    write_answer(Answer::from(answer), out)
}

#[unsafe(no_mangle)]
pub extern "C" fn heap_sweep_step(
    p: u64,
    arena: &[u64],
    table: &mut [u32],
    bits: &mut [u64],
    roots: &mut [u64],
    out: &mut [u64; 3],
) -> u64
    ensures { Exports SweepStep p (shared arena) (exclusive table) (exclusive bits)
        (exclusive roots) (exclusive out) result }
{
    if let Err(refusal) = audit::entry(p, arena, table, bits, roots) {
        return write_answer(Answer::from(Err(refusal)), out);
    }
    let answer = call_cycle_sweep::sweep_step(p as usize, table, bits, roots);
    write_answer(Answer::from(answer), out)
}
