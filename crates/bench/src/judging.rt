// Judging a loop of many steps by a document of 64 forms.
ghost use Rattle.std.specs.Prelude.{◌≡◌, IfOk, vec_len};

use crate::meter::Meter;
use crate::studies::study_of;
use crate::texts::full;
use crate::words::yes_or_no;
use lasso::step::Step;
use std::alloc::{AllocError, Global};

// A loop of `count` steps: by action b, but once, in its middle, by c. After that the proposition holds.
fn once_round(heap: Global, count: usize) -> Result<Vec<Step>, AllocError>
    ensures { IfOk result (λ steps. vec_len steps ≡ count) }
{
    let middle = count / 2;
    (0..count)
        .map(|i| Step {
            state: 0,
            action: u8::from(i == middle),
            marks: u16::from(i == middle + 1),
        })
        .collect(heap)
}

// Judges such a loop, and says what came out.
fn judge(meter: &mut Meter, text: &[u8], count: usize) -> anyhow::Result<()> {
    let steps = once_round(meter.heap(), count)?;
    let mut work = vec![in meter.heap(); 0u64; count.saturating_mul(4)]?;
    let study = study_of(&mut [], &mut [], text);
    let judged = meter.piece(|| study.judge(&steps, 0, &mut work))?;
    meter.line(count, judged.map_or("refused", yes_or_no))?;
    Ok(())
}

pub fn series(meter: &mut Meter) -> anyhow::Result<()> {
    let text = full(meter.heap())?;
    meter.series("judging: steps")?;
    let first = if meter.is_timed() { 16384 } else { 64 };
    for scale in [1, 2, 4, 8] {
        judge(meter, text.as_bytes(), first * scale)?;
    }
    Ok(())
}
