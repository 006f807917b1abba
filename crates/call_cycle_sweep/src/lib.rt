// The sweep step of a cycle: the lowest unswept span is swept, by crate span_sweep. The span is read
// once and handed on; no word of the arena is read. The step is made after the audit. Each buffer is a
// parameter of its own, as C lends it.
#![tactic(auto)]

ghost use Rattle.model.specs.Cycle.{sweep_step};
ghost use Rattle.model.specs.Promises.{AuditedTables, DoesWithoutArena, exclusive};
ghost use Rattle.model.specs.Refusals.{answered};

use model::{Accepted, Refusal};

// One sweep step: the lowest unswept span is swept; where there is none the cycle ends.
pub fn sweep_step(
    p: usize,
    table: &mut [u32],
    bits: &mut [u64],
    roots: &mut [u64],
) -> Result<Accepted, Refusal>
    requires { AuditedTables p table.old bits.old roots.old }
    ensures { DoesWithoutArena (λ h. sweep_step h) p
        (exclusive table) (exclusive bits) (exclusive roots) (answered result) }
{
    root_checks::check_phase(roots, units::SWEEP)?;
    let Some(span) = page_entries::first_unswept(p, table) else {
        roots[units::PHASE] = units::OFF;
        // 0 and no Option: the answer that the definitions have where no span is unswept
        return Ok(Accepted::Swept(0, 0, 0));
    };
    let page = span.start.0;
    let start = page as u64 + 1;
    let swept = span_sweep::sweep(p, table, bits, span);
    Ok(Accepted::Swept(start, swept.freed, swept.returned))
}
