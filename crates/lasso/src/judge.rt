// Judging: the truth of each form at each step of a lasso, form by form.
ghost use Rattle.std.specs.Prelude.{◌≡◌, ◌+◌, ◌*◌, ◌<◌, ◌≤◌, length, Decides, ◌⊎◌};
ghost use Rattle.document.specs.Documents.{Document as Meaning, WellFormed, form_at};
ghost use Rattle.document.specs.Forms.{Earlier};
ghost use Rattle.document.specs.Represents.{Represents};
ghost use Rattle.lasso.specs.Judged.{holds_by, Plain, Rests, Judges, Judged};
ghost use Rattle.lasso.specs.Lassos.{IsLasso};
ghost use Rattle.lasso.specs.Sessions.{MeetsSteps};
ghost use Rattle.lasso.specs.TruthLaws.{TruthDecided, TruthAlike, MeetsAlike};

use crate::lasso::Lasso;
use crate::step::Step;
use crate::until::{Operands, clear, fixed_point};
use document::declared::Declared;
use document::document::Document;
use document::form::Form;
use program::automaton::Automaton;
use program::masks;

// Whether a form is true at a step, given the truths of earlier forms there and at the step after, and for an until the
// states from which its rest is true.
fn holds(e: usize, form: Form, step: Step, here: u64, next: u64, states: u64) -> bool
    requires { (e ≤ 64) × (Earlier 16 16 16 e form) }
    ensures { result ≡ holds_by form step here next states }
{
    match form {
        Form::True => true,
        Form::Prop(p) => masks::has(step.marks as u64, p as usize),
        Form::Not(f) => !masks::has(here, f as usize),
        Form::And(f, g) => masks::has(here, f as usize) && masks::has(here, g as usize),
        Form::Or(f, g) => masks::has(here, f as usize) || masks::has(here, g as usize),
        Form::Next(a, f) => step.action == a && masks::has(next, f as usize),
        Form::Until(_, _, _) => masks::has(states, 0),
    }
}

// Enters the truth of form e at each step; for an until the states are those from which its rest is true.
fn enter(e: usize, form: Form, lasso: Lasso, states: &[u64], truths: &mut [u64])
    requires form { (e < 64) × (Earlier 16 16 16 e form) }
    requires states { length states.now ≡ length lasso.steps.now }
    requires truths { length truths.old ≡ length lasso.steps.now }
    ensures { (d : Meaning) → WellFormed d → e < length d.forms → form ≡ form_at d e → (Plain form) ⊎ (Rests d lasso.entry.steps.now lasso.entry.stem e states.now) → Judged d lasso.entry.steps.now lasso.entry.stem e 0 truths.old → Judged d lasso.entry.steps.now lasso.entry.stem (e + 1) 0 truths.new }
{
    for (i, step) in lasso.steps.iter().enumerate() {
        let next = truths[lasso.after(i)];
        if holds(e, form, *step, truths[i], next, states[i]) {
            truths[i] |= 1 << e;
        }
    }
}

// Judges form e at each step.
fn judge_form(declared: &Declared, e: usize, lasso: Lasso, truths: &mut [u64], states: &mut [u64])
    requires form { (e < 64) × (e < declared.now.forms.count) }
    requires truths { length truths.old ≡ length lasso.steps.now }
    requires states { length states.old ≡ length lasso.steps.now }
    ensures { (d : Meaning) → Judges declared.now lasso.entry.steps.now d → Judged d lasso.entry.steps.now lasso.entry.stem e 0 truths.old → Judged d lasso.entry.steps.now lasso.entry.stem (e + 1) 0 truths.new }
{
    let form = declared.form(e);
    if let Form::Until(f, p, g) = form {
        let automaton = Automaton::new(&declared.row(p));
        let operands = Operands {
            f: f as usize,
            g: g as usize,
        };
        fixed_point(&automaton, operands, lasso, truths, states);
    }
    enter(e, form, lasso, states, truths);
}

// Whether the lasso meets the goal. The work places are scratch: a word of truths and one of states for each step.
pub fn judge(document: &Document, lasso: Lasso, work: &mut [u64]) -> bool
    requires lasso { IsLasso document.now.declared.acts.count document.now.declared.props.count lasso.steps.now lasso.stem }
    requires work { 2 * length lasso.steps.now ≤ length work.old }
    ensures decides { (d : Meaning) → Represents document.now d → WellFormed d → Decides result (MeetsSteps d lasso.entry.steps.now lasso.entry.stem) }
    ensures laws { (TruthDecided) × ((TruthAlike) × (MeetsAlike)) }
{
    let n = lasso.steps.len();
    let (truths, rest) = work.split_at_mut(n);
    let (states, _) = rest.split_at_mut(n);
    clear(truths);
    let declared = document.declared();
    for e in 0..declared.forms().count() {
        judge_form(&declared, e, lasso, truths, states);
    }
    masks::has(truths[0], document.goal())
}
