// The calls that read and change the roots alone: opening and closing a stack, copying and clearing
// a slot, loading a global. Each asks the check of crate root_checks that may refuse it, and then does
// its work. They are taken after the audit, of which they need the roots' length. Two pairs look alike,
// opening and closing, copying and loading a global: what differs, the check and what is written, is
// what the call is.
#![tactic(auto)]

ghost use Rattle.std.specs.Prelude.{◌<◌};
ghost use Rattle.model.specs.Memory.{stack_count};
ghost use Rattle.model.specs.Records.{emptied, open_stack, close_stack, copy, clear, load_global};
ghost use Rattle.model.specs.Lent.{Roots};
ghost use Rattle.model.specs.Promises.{LeavesRoots, DoesByRoots, exclusive};
ghost use Rattle.model.specs.Refusals.{answered};

use model::{Accepted, Refusal};

// All slots of stack s become nil, and its state is set.
fn empty(roots: &mut [u64], s: usize, state: u64)
    requires { (s < stack_count) × Roots roots.old }
    ensures { LeavesRoots (λ h. emptied h s state) (exclusive roots) }
{
    zeroing::zero_part(roots, units::SLOTS * s, units::SLOTS);
    roots[units::FIRST_STATE + s] = state;
}

pub fn open_stack(roots: &mut [u64], s: u64) -> Result<Accepted, Refusal>
    requires { Roots roots.old }
    ensures { DoesByRoots (λ h. open_stack h s) (exclusive roots) (answered result) }
{
    root_checks::check_closed(roots, s)?;
    empty(roots, s as usize, units::OPEN);
    Ok(Accepted::Done)
}

pub fn close_stack(roots: &mut [u64], s: u64) -> Result<Accepted, Refusal>
    requires { Roots roots.old }
    ensures { DoesByRoots (λ h. close_stack h s) (exclusive roots) (answered result) }
{
    root_checks::check_open(roots, s)?;
    empty(roots, s as usize, units::CLOSED);
    Ok(Accepted::Done)
}

// Slot i of stack s becomes slot j.
pub fn copy(roots: &mut [u64], s: u64, i: u64, j: u64) -> Result<Accepted, Refusal>
    requires { Roots roots.old }
    ensures { DoesByRoots (λ h. copy h s i j) (exclusive roots) (answered result) }
{
    root_checks::check_slots(roots, s, i, j)?;
    let from = root_checks::slot_at(s, j);
    let to = root_checks::slot_at(s, i);
    let v = roots[from];
    roots[to] = v;
    Ok(Accepted::Value(v))
}

// Slot i of stack s becomes nil.
pub fn clear(roots: &mut [u64], s: u64, i: u64) -> Result<Accepted, Refusal>
    requires { Roots roots.old }
    ensures { DoesByRoots (λ h. clear h s i) (exclusive roots) (answered result) }
{
    root_checks::check_slot(roots, s, i)?;
    let at = root_checks::slot_at(s, i);
    roots[at] = units::NIL;
    Ok(Accepted::Value(units::NIL))
}

// Slot i of stack s becomes global g.
pub fn load_global(roots: &mut [u64], s: u64, i: u64, g: u64) -> Result<Accepted, Refusal>
    requires { Roots roots.old }
    ensures { DoesByRoots (λ h. load_global h s i g) (exclusive roots) (answered result) }
{
    root_checks::check_global(roots, s, i, g)?;
    let global = units::FIRST_GLOBAL + g as usize;
    let slot = root_checks::slot_at(s, i);
    let v = roots[global];
    roots[slot] = v;
    Ok(Accepted::Value(v))
}
