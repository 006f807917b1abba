// The audited call that is asked for: each of the nineteen by its own function, which is lent the
// buffers that it needs. The entry check has been made before. A match and no table of functions: each is
// lent other buffers, and is given other numbers. The buffers are parameters of their own, since each call
// is lent them so.
#![tactic(auto)]

ghost use Rattle.model.specs.Calls.{does};
ghost use Rattle.model.specs.Promises.{Does, Entered, exclusive};
ghost use Rattle.model.specs.Refusals.{answered};

use model::{Accepted, Call, Refusal};

// The call on the four buffers of p pages.
pub fn make(
    p: u64,
    arena: &mut [u64],
    table: &mut [u32],
    bits: &mut [u64],
    roots: &mut [u64],
    call: Call,
) -> Result<Accepted, Refusal>
    requires { Entered call p arena.old table.old bits.old roots.old }
    ensures { Does (λ h. does h call) p (exclusive arena) (exclusive table)
        (exclusive bits) (exclusive roots) (answered result) }
{
    let n = p as usize;
    match call {
        Call::Setup => Ok(call_setup::setup(table, bits, roots)),
        Call::Audit => Ok(Accepted::Done),
        Call::Open(s) => call_stacks::open_stack(roots, s),
        Call::Close(s) => call_stacks::close_stack(roots, s),
        Call::Allocate(s, i, size, pointers) => {
            call_allocate::allocate(n, arena, table, bits, roots, s, i, size, pointers)
        }
        Call::Copy(s, i, j) => call_stacks::copy(roots, s, i, j),
        Call::Clear(s, i) => call_stacks::clear(roots, s, i),
        Call::Load(s, i, j, f) => call_records::load(n, arena, table, bits, roots, s, i, j, f),
        Call::Store(s, j, f, k) => call_records::store(n, arena, table, bits, roots, s, j, f, k),
        Call::Put(s, j, f, v) => call_records::put(n, arena, table, bits, roots, s, j, f, v),
        Call::Get(s, j, f) => call_records::get(n, arena, table, bits, roots, s, j, f),
        Call::LoadGlobal(s, i, g) => call_stacks::load_global(roots, s, i, g),
        Call::StoreGlobal(s, g, i) => call_records::store_global(n, table, bits, roots, s, g, i),
        Call::Start => call_cycle_roots::start(roots),
        Call::ScanStack(s) => call_cycle_roots::scan_stack(n, table, bits, roots, s),
        Call::ScanGlobals => call_cycle_roots::scan_globals(n, table, bits, roots),
        Call::MarkStep => call_cycle_marks::mark_step(n, arena, table, bits, roots),
        Call::Finish => call_cycle_marks::finish(n, table, bits, roots),
        Call::SweepStep => call_cycle_sweep::sweep_step(n, table, bits, roots),
    }
}
