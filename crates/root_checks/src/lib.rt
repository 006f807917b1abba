// The checks of the phase and of a call's stack, slot and global numbers. Each lets the call on, or has
// its refusal: of a call for one phase, on an open stack, on a closed one, on one slot or two of an open
// stack, on a slot and a global; of a slot's number alone. Beside them, where a slot stands. They are
// taken after the audit, of which they need the roots' length.
#![tactic(auto, using(crate::proofs::Passed::rows))]

ghost use Rattle.std.specs.Prelude.{◌≡◌, ◌<◌, OnOk};
ghost use Rattle.model.specs.Memory.{stack_count, slot_count, global_count, slot_at};
ghost use Rattle.model.specs.Answers.{bad_slot, ◌given◌};
ghost use Rattle.model.specs.Bounded.{◌≤?◌};
ghost use Rattle.model.specs.Checks.{phase_refusal, open_refusal, closed_refusal, slot_number_refusal};
ghost use Rattle.model.specs.Checks.{slot_refusal, slots_refusal, global_refusal};
ghost use Rattle.model.specs.Lent.{Roots};
ghost use Rattle.model.specs.Promises.{GivesByRoots, shared};
ghost use Rattle.model.specs.Refusals.{refused};

use model::Refusal;
use units::{GLOBALS, SLOTS};

// Where slot i of stack s stands.
pub fn slot_at(s: u64, i: u64) -> usize
    requires { (s < stack_count) × (i < slot_count) }
    ensures { result ≡ slot_at s i }
{
    SLOTS * s as usize + i as usize
}

// The call is for this phase alone.
pub fn check_phase(roots: &[u64], phase: u64) -> Result<(), Refusal>
    requires { Roots roots.now }
    ensures { GivesByRoots (λ h. phase_refusal h phase) (shared roots) (refused result) }
{
    if roots[units::PHASE] != phase {
        return Err(Refusal::WrongPhase);
    }
    Ok(())
}

// The stack must be open.
pub fn check_open(roots: &[u64], s: u64) -> Result<(), Refusal>
    requires { Roots roots.now }
    ensures refusal { GivesByRoots (λ h. open_refusal h s) (shared roots) (refused result) }
    ensures within { OnOk result (s < stack_count) }
{
    let stack = s as usize;
    if units::STACKS <= stack || roots[units::FIRST_STATE + stack] == units::CLOSED {
        return Err(Refusal::BadStack);
    }
    Ok(())
}

// The stack must be closed. Not one function with check_open: a flag would not say at the calls which
// of the two must hold.
pub fn check_closed(roots: &[u64], s: u64) -> Result<(), Refusal>
    requires { Roots roots.now }
    ensures refusal { GivesByRoots (λ h. closed_refusal h s) (shared roots) (refused result) }
    ensures within { OnOk result (s < stack_count) }
{
    let stack = s as usize;
    if units::STACKS <= stack || roots[units::FIRST_STATE + stack] != units::CLOSED {
        return Err(Refusal::BadStack);
    }
    Ok(())
}

// A slot's or a global's number, of which there are `limit`.
fn check_number(n: u64, limit: usize) -> Result<(), Refusal>
    ensures refusal { refused result ≡ (bad_slot given limit ≤? n) }
    ensures within { OnOk result (n < limit) }
{
    if limit <= n as usize {
        return Err(Refusal::BadSlot);
    }
    Ok(())
}

// A slot's number.
pub fn check_slot_number(i: u64) -> Result<(), Refusal>
    ensures refusal { refused result ≡ slot_number_refusal i }
    ensures within { OnOk result (i < slot_count) }
{
    check_number(i, SLOTS)
}

// Slot i of stack s.
pub fn check_slot(roots: &[u64], s: u64, i: u64) -> Result<(), Refusal>
    requires { Roots roots.now }
    ensures refusal { GivesByRoots (λ h. slot_refusal h s i) (shared roots) (refused result) }
    ensures within { OnOk result ((s < stack_count) × (i < slot_count)) }
{
    check_open(roots, s).and(check_slot_number(i))
}

// Slots i and j of stack s.
pub fn check_slots(roots: &[u64], s: u64, i: u64, j: u64) -> Result<(), Refusal>
    requires { Roots roots.now }
    ensures refusal { GivesByRoots (λ h. slots_refusal h s i j) (shared roots) (refused result) }
    ensures within { OnOk result ((s < stack_count) × (i < slot_count) × (j < slot_count)) }
{
    check_slot(roots, s, i).and(check_slot_number(j))
}

// Slot i of stack s and global g.
pub fn check_global(roots: &[u64], s: u64, i: u64, g: u64) -> Result<(), Refusal>
    requires { Roots roots.now }
    ensures refusal { GivesByRoots (λ h. global_refusal h s i g) (shared roots) (refused result) }
    ensures within { OnOk result ((s < stack_count) × (i < slot_count) × (g < global_count)) }
{
    check_slot(roots, s, i).and(check_number(g, GLOBALS))
}
