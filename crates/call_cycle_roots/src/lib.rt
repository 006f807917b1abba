// The roots' part of a cycle: start, which makes every open stack and the globals gray, and their
// scans, which shade what the slots name. They are taken after the audit, of which each requires what
// it is lent the buffers for. Each buffer is a parameter of its own, as C lends it: those that a call
// never changes as `const`.
#![tactic(auto)]

ghost use Rattle.std.specs.Prelude.{◌≡◌, ◌<◌, OnOk, cond, eqb, get_or};
ghost use Rattle.model.specs.Memory.{put_words, first_state, stack_count, closed, gray_state, mark};
ghost use Rattle.model.specs.Answers.{◌or_else◌};
ghost use Rattle.model.specs.Checks.{phase_refusal, open_refusal};
ghost use Rattle.model.specs.Cycle.{start, scan_stack, scan_globals};
ghost use Rattle.model.specs.Lent.{Roots};
ghost use Rattle.model.specs.Promises.{AuditedTables, DoesByRoots, DoesWithoutArena, GivesByRoots, exclusive, shared};
ghost use Rattle.model.specs.Refusals.{answered, refused, told};
ghost use Rattle.call_cycle_roots.specs.Needs.{LentScan, Scans};

use model::{Accepted, Refusal};

// The state of a stack once a cycle starts.
fn grayed(state: u64) -> u64
    ensures { result ≡ cond (eqb state closed) closed gray_state }
{
    if state == units::CLOSED {
        return units::CLOSED;
    }
    units::GRAY
}

// Every open stack becomes gray.
fn gray_stacks(roots: &mut [u64])
    requires { Roots roots.old }
    ensures { roots.new ≡ put_words first_state stack_count
        (λ i. cond (eqb (get_or roots.old i 0) closed) closed gray_state) roots.old }
{
    for state in roots[units::FIRST_STATE..units::FIRST_STATE + units::STACKS].iter_mut() {
        *state = grayed(*state);
    }
}

// A cycle starts. No bitmap is lent: nothing is marked yet.
pub fn start(roots: &mut [u64]) -> Result<Accepted, Refusal>
    requires { Roots roots.old }
    ensures { DoesByRoots (λ h. start h) (exclusive roots) (answered result) }
{
    root_checks::check_phase(roots, units::OFF)?;
    gray_stacks(roots);
    roots[units::GLOBALS_STATE] = units::GRAY;
    roots[units::PHASE] = units::MARK;
    Ok(Accepted::Done)
}

// The n values from word `from` of the roots on, the slots of a stack or the globals, are shaded, if
// their state, at word `at`, is gray. Numbers and no slice: the state, which changes, lies in the same list.
fn scan(
    p: usize,
    table: &[u32],
    bits: &mut [u64],
    roots: &mut [u64],
    from: usize,
    n: usize,
    at: usize,
) -> Accepted
    requires { LentScan p table.now bits.old roots.old from n at }
    ensures { Scans p (shared table) (exclusive bits) (exclusive roots) from n at (told result) }
{
    if roots[at] != units::GRAY {
        return Accepted::Value(0);
    }
    let count = shading::shade_slice(p, table, bits, &roots[from..from + n]);
    roots[at] = units::OPEN;
    Accepted::Value(count)
}

// The phase is mark, and stack s open.
fn check_scan(roots: &[u64], s: u64) -> Result<(), Refusal>
    requires { Roots roots.now }
    ensures refusal { GivesByRoots
        (λ h. phase_refusal h mark or_else open_refusal h s) (shared roots) (refused result) }
    ensures within { OnOk result (s < stack_count) }
{
    root_checks::check_phase(roots, units::MARK).and(root_checks::check_open(roots, s))
}

// Stack s is scanned.
pub fn scan_stack(
    p: usize,
    table: &[u32],
    bits: &mut [u64],
    roots: &mut [u64],
    s: u64,
) -> Result<Accepted, Refusal>
    requires { AuditedTables p table.now bits.old roots.old }
    ensures { DoesWithoutArena (λ h. scan_stack h s) p (shared table)
        (exclusive bits) (exclusive roots) (answered result) }
{
    check_scan(roots, s)?;
    let stack = s as usize;
    Ok(scan(
        p,
        table,
        bits,
        roots,
        units::SLOTS * stack,
        units::SLOTS,
        units::FIRST_STATE + stack,
    ))
}

// The globals are scanned.
pub fn scan_globals(
    p: usize,
    table: &[u32],
    bits: &mut [u64],
    roots: &mut [u64],
) -> Result<Accepted, Refusal>
    requires { AuditedTables p table.now bits.old roots.old }
    ensures { DoesWithoutArena (λ h. scan_globals h) p (shared table)
        (exclusive bits) (exclusive roots) (answered result) }
{
    root_checks::check_phase(roots, units::MARK)?;
    Ok(scan(
        p,
        table,
        bits,
        roots,
        units::FIRST_GLOBAL,
        units::GLOBALS,
        units::GLOBALS_STATE,
    ))
}
