// Which lists of steps are lassos of a document.
ghost use Rattle.std.specs.Prelude.{◌≡◌, ℕ, ◌+◌, ◌<◌, ◌≤◌, length, Decides};
ghost use Rattle.lasso.specs.Lassos.{fits, step_in, IsLasso};

use crate::step::Step;
use document::document::Document;

// Calls take lassos of up to so many steps.
pub const MOST_STEPS: usize = 131072;

// Whether a step has a declared action, a state up to 4,095, and declared propositions alone.
pub fn step_fits(acts: usize, props: usize, step: Step) -> bool
    requires { props ≤ 16 }
    ensures { result ≡ fits acts props step }
{
    (step.action as usize) < acts && step.state <= 4095 && (step.marks as u32) >> props == 0
}

// Whether the steps, with this stem, are a lasso of the document that calls take.
pub fn is_lasso(document: &Document, steps: &[Step], stem: usize) -> bool
    ensures { Decides result (IsLasso document.now.declared.acts.count document.now.declared.props.count steps.now stem) }
{
    if stem >= steps.len() || steps.len() > MOST_STEPS {
        return false;
    }
    let declared = document.declared();
    let acts = declared.acts().count();
    let props = declared.props().count();
    steps.iter().all(|step| step_fits(acts, props, *step))
}
