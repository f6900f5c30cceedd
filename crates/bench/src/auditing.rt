// Auditing a loop of many steps against a computed system.
ghost use Rattle.std.specs.Prelude.{◌≡◌, ◌+◌, ◌<◌, IfOk, vec_len};

use crate::meter::Meter;
use crate::studies::study_of;
use crate::wheel::Wheel;
use crate::words::yes_or_no;
use lasso::step::Step;
use std::alloc::{AllocError, Global};

// A document that every session meets.
const ANY_SESSION: &[u8] = b"act\ta\nform\tt\ttrue\ngoal\tt\n";

// Once round the wheel, from group to group; `extra` steps stay in the first group, which is no move of a larger wheel.
fn round(heap: Global, groups: u16, extra: u16) -> Result<Vec<Step>, AllocError>
    ensures { groups + extra < 65536 → IfOk result (λ steps. vec_len steps ≡ groups + extra) }
{
    (0..groups.saturating_add(extra))
        .map(|i| Step {
            state: i.saturating_sub(extra).saturating_mul(4),
            action: 0,
            marks: 0,
        })
        .collect(heap)
}

// Audits such a loop, and says what came out.
fn audit(meter: &mut Meter, groups: u16, extra: u16) -> anyhow::Result<()> {
    let steps = round(meter.heap(), groups, extra)?;
    let mut work = vec![in meter.heap(); 0u64; steps.len().saturating_mul(4)]?;
    let study = study_of(&mut [], &mut [], ANY_SESSION);
    let wheel = Wheel {
        groups: usize::from(groups),
    };
    let audited = meter.piece(|| study.audit(wheel, &steps, 0, &mut work))?;
    meter.line(steps.len(), audited.map_or("refused", yes_or_no))?;
    Ok(())
}

// Loops round wheels of up to 1,024 groups, and one that stands still once.
pub fn series(meter: &mut Meter) -> anyhow::Result<()> {
    meter.series("auditing a computed system: steps")?;
    let first = if meter.is_timed() { 128 } else { 16 };
    for scale in [1, 2, 4, 8] {
        audit(meter, first * scale, 0)?;
    }
    audit(meter, first, 1)
}
