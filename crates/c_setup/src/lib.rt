// Setup and the audit for C and Rust. Each call for C takes P, the four buffers as pointer and length,
// the call's numbers, and an array of three values for the answer; its result is the refusal's number,
// or 0. Each is its entry check, then the audited call, which is lent the buffers that it needs; the
// check's refusal returns at once, since a closure for the rest would be lent the same buffers again. A
// buffer that a call never changes is lent as `&`, `const` in the header. The calls for C are four
// crates, whose objects go into one archive: one crate of all would be proved again for each of its
// wrong programs, at three times the cost.
#![tactic(auto)]

ghost use Rattle.model.specs.declared.Call.TheVariants.{Setup, Audit};
ghost use Rattle.c_answer.specs.Exported.{Exports};
ghost use Rattle.model.specs.Promises.{exclusive, shared};

use c_answer::write_answer;
use model::{Accepted, Answer};

#[unsafe(no_mangle)]
pub extern "C" fn heap_setup(
    p: u64,
    arena: &[u64],
    table: &mut [u32],
    bits: &mut [u64],
    roots: &mut [u64],
    out: &mut [u64; 3],
) -> u64
    ensures { Exports Setup p (shared arena) (exclusive table) (exclusive bits) (exclusive roots)
        (exclusive out) result }
{
    if let Err(refusal) = audit::check_buffers(p, arena, table, bits, roots) {
        return write_answer(Answer::from(Err(refusal)), out);
    }
    let told = call_setup::setup(table, bits, roots);
    write_answer(Answer::from(Ok(told)), out)
}

#[unsafe(no_mangle)]
pub extern "C" fn heap_audit(
    p: u64,
    arena: &[u64],
    table: &[u32],
    bits: &[u64],
    roots: &[u64],
    out: &mut [u64; 3],
) -> u64
    ensures { Exports Audit p (shared arena) (shared table) (shared bits) (shared roots) (exclusive out) result }
{
    if let Err(refusal) = audit::entry(p, arena, table, bits, roots) {
        return write_answer(Answer::from(Err(refusal)), out);
    }
    let told = Accepted::Done;
    write_answer(Answer::from(Ok(told)), out)
}
