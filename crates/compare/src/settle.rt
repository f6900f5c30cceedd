// How a goal was settled, where a search ran to its end.
ghost use Rattle.std.specs.Prelude.{◌≡◌, None, IfOk};
ghost use Rattle.compare.specs.declared.answer.How.TheVariants.{None as Nothing};

use crate::answer::{How, Settled};
use crate::fault::Fault;
use lasso::step::Step;
use search::found::Found;
use std::alloc::{AllocError, Global};
use study::refusal::Refusal;
use tableau::node::Used;

// Whether the judge says yes to the lasso.
fn is_confirmed<J: FnOnce(&[Step], usize, &mut [u64]) -> Result<bool, Refusal>>(
    heap: Global,
    lasso: &[Step],
    stem: usize,
    judge: J,
) -> Result<bool, AllocError>
    requires { J.IsAlwaysCallable judge }
{
    let mut work = vec![in heap; 0u64; lasso.len().saturating_mul(4)]?;
    Ok(judge(lasso, stem, &mut work) == Ok(true))
}

// What a search answers, with the lasso that it found put to the judge.
pub fn settled<J: FnOnce(&[Step], usize, &mut [u64]) -> Result<bool, Refusal>>(
    heap: Global,
    used: Used,
    found: Option<Found>,
    steps: &[Step],
    judge: J,
) -> Result<Settled, Fault>
    requires { J.IsAlwaysCallable judge }
    ensures { IfOk result (λ s. (s.used ≡ used) × (s.how ≡ Nothing → found ≡ None)) }
{
    let how = match found {
        None => How::None,
        Some(found) => {
            // Kept: a `match` and no `map_or`, for the `?` inside.
            let confirmed = match steps.get(..found.len) {
                Some(lasso) => is_confirmed(heap, lasso, found.stem, judge)?,
                None => false,
            };
            How::Found { confirmed }
        }
    };
    Ok(Settled { how, used })
}
