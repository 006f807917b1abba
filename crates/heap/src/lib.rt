// The heap: every call on it, by one method of the four lent buffers. It takes P and what is asked,
// whose numbers are plain 64-bit numbers, and refuses whatever is out of range. The contract says what
// the call answers and leaves for every input, by the model's `run`.
#![tactic(auto)]

ghost use Rattle.std.specs.Prelude.{◌≡◌};
ghost use Rattle.model.specs.Calls.{asks_audit, entry_refusal};
ghost use Rattle.model.specs.Promises.{Makes};
ghost use Rattle.model.specs.Refusals.{refused, answered};

use model::{Accepted, Answer, Call, Refusal};

// Every call but setup asks the audit.
fn asks_audit(call: Call) -> bool
    ensures { result ≡ asks_audit call }
{
    match call {
        Call::Setup => false,
        _ => true,
    }
}

// The four buffers of a heap, lent together.
#[derive(Drop)]
pub struct Buffers<'a> {
    pub arena: &'a mut [u64],
    pub table: &'a mut [u32],
    pub bits: &'a mut [u64],
    pub roots: &'a mut [u64],
}

impl Buffers<'_> {
    ghost use Rattle.heap.specs.Buffers.{found_in, on_buffers, SameLoans};

    // The entry check of a call: the refusal that comes before anything that it does.
    fn entry(&self, p: u64, call: Call) -> Result<(), Refusal>
        ensures { refused result ≡ entry_refusal (found_in p self.now) call }
    {
        if asks_audit(call) {
            return audit::entry(p, self.arena, self.table, self.bits, self.roots);
        }
        audit::check_buffers(p, self.arena, self.table, self.bits, self.roots)
    }

    // The entry check, then the audited call.
    fn enter(&mut self, p: u64, call: Call) -> Result<Accepted, Refusal>
        ensures makes { on_buffers (Makes call p) self.old self.new (answered result) }
        ensures same { SameLoans self.old self.new }
    {
        self.entry(p, call)?;
        calls::make(p, self.arena, self.table, self.bits, self.roots, call)
    }

    // The call on a heap of p pages.
    pub fn make(&mut self, p: u64, call: Call) -> Answer
        ensures makes { on_buffers (Makes call p) self.old self.new result }
        ensures same { SameLoans self.old self.new }
    {
        let given = self.enter(p, call);
        Answer::from(given)
    }
}
