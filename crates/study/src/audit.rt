// Which lassos are sessions of a system.
ghost use Rattle.std.specs.Prelude.{◌≡◌, ℕ, ◌+◌, ◌<◌, ◌≤◌, true, length, Decides};
ghost use Rattle.study.specs.Sessions.{Goes, StepGoes, SessionSteps};

use lasso::lasso::Lasso;
use lasso::step::Step;
use system::system::System;

// Whether the system has the move.
fn has_move<S: System>(system: S, state: usize, action: u8, target: usize) -> bool
    ensures { Decides result (Goes ((S.meaning system).moves state) action target) }
{
    // Kept: a `for` over places and no `any` over `Moves`. Tried: what is then left to show speaks of the whole list of moves,
    // and the iterator's clause of one move after another; the check did not close it.
    for k in 0..system.moves(state) {
        let step = system.move_at(state, k);
        if step.is_some_and(|m| m.action == action && m.target == target) {
            return true;
        }
    }
    false
}

// Whether a step shows its state's marks among the declared ones, and goes along a move to the next state.
fn step_goes<S: System>(system: S, declared: u16, step: Step, next: u16) -> bool
    ensures { Decides result (StepGoes (S.meaning system) declared step next) }
{
    let state = step.state as usize;
    step.marks == system.marks(state) & declared
        && has_move(system, state, step.action, next as usize)
}

// Whether the lasso is a session of the system.
pub fn is_session<S: System>(system: S, declared: u16, lasso: Lasso) -> bool
    ensures { Decides result (SessionSteps (S.meaning system) declared lasso.entry.steps.now lasso.entry.stem) }
{
    if !system.starts(lasso.steps[0].state as usize) {
        return false;
    }
    // Kept: a `for` and no `all`. Tried: `all` over steps with their numbers. Its closure has to repeat the clause of
    // `step_goes` for the step after and to require its number, and the proof is twice as long.
    for (i, step) in lasso.steps.iter().enumerate() {
        let next = lasso.steps[lasso.after(i)];
        if !step_goes(system, declared, *step, next.state) {
            return false;
        }
    }
    true
}
