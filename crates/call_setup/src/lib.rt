// Setup, the one call that does not ask the audit: whatever the buffers hold becomes an empty heap.
// The arena is left alone, so it is not lent. The others are parameters of their own, as C lends them.
#![tactic(auto)]

ghost use Rattle.model.specs.Lent.{Roots};
ghost use Rattle.call_setup.specs.SetUp.{SetsUp};
ghost use Rattle.model.specs.Promises.{exclusive};
ghost use Rattle.model.specs.Refusals.{told};

use model::Accepted;

// The page table and the bitmaps become 0, and so do the roots but for the globals' state.
pub fn setup(table: &mut [u32], bits: &mut [u64], roots: &mut [u64]) -> Accepted
    requires { Roots roots.old }
    ensures { SetsUp (exclusive table) (exclusive bits) (exclusive roots) (told result) }
{
    zeroing::zero(table);
    zeroing::zero(bits);
    zeroing::zero(roots);
    roots[units::GLOBALS_STATE] = units::OPEN;
    Accepted::Done
}
