// The claims T step of a node, and where a step leads.
ghost use Rattle.std.specs.Prelude.{◌≡◌, ℕ, ◌<◌, ◌≤◌, ◌↔◌, IfSome, MatchOption, ◌≢◌};
ghost use Rattle.program.specs.Automata.{Leads};
ghost use Rattle.program.specs.Masks.{Bit};
ghost use Rattle.document.specs.Documents.{Document as Meaning, form_at};
ghost use Rattle.tableau.specs.Claims.{member};
ghost use Rattle.tableau.specs.Graphs.{step_true, program_of};
ghost use Rattle.tableau.specs.Numbers.{Shows, StateOf, ClaimOf, number_of};
ghost use Rattle.tableau.specs.Successions.{Claims, NoStep};

use crate::claim::{Claim, claim_of};
use crate::node::Node;
use document::declared::Declared;
use document::form::Form;
use program::automaton::Automaton;

// The states that the action leads to from a state of the form's automaton.
pub fn targets(declared: &Declared, e: u8, q: u8, action: u8) -> u16
    ensures { (d : Meaning) → Shows declared.now d → StateOf d e q → action < d.acts → (n : ℕ) → Bit result n ↔ Leads (program_of d (form_at d e)) q action n }
{
    match declared.form(e as usize) {
        Form::Until(_, p, _) => {
            Automaton::new(&declared.row(p)).targets(q as usize, action as usize)
        }
        _ => 0,
    }
}

// A claim T step.
#[derive(Clone, Copy)]
pub struct TrueStep {
    pub number: u8,
    pub form: u8,
    pub state: u8,
    pub label: u8,
}

// The claim T step of a number, if it is one.
fn step_of(declared: &Declared, c: u8) -> Option<TrueStep>
    ensures number { IfSome result (λ s. s.number ≡ c) }
    ensures step { (d : Meaning) → Shows declared.now d → MatchOption result ((e q l : ℕ) → ClaimOf d (step_true e q l) → number_of d (step_true e q l) ≢ c) (λ s. ClaimOf d (step_true s.form s.state s.label) × (number_of d (step_true s.form s.state s.label) ≡ c)) }
{
    match claim_of(declared, c)? {
        Claim::TrueStep(form, state, label) => Some(TrueStep {
            number: c,
            form,
            state,
            label,
        }),
        _ => None,
    }
}

// The node's first claim T step of a number at or above `from`.
pub fn next_step(declared: &Declared, node: &Node, from: usize) -> Option<TrueStep>
    ensures within { IfSome result (λ s. (from ≤ s.number) × (s.number < 256)) }
    ensures next { (d : Meaning) → Shows declared.now d → MatchOption result (NoStep d node.now from 256) (λ s. Claims d (member node.now.claims.words) (step_true s.form s.state s.label) × (number_of d (step_true s.form s.state s.label) ≡ s.number) × NoStep d node.now from s.number) }
{
    for c in from..256 {
        if node.claims.contains(c as u8) {
            if let Some(step) = step_of(declared, c as u8) {
                return Some(step);
            }
        }
    }
    None
}
