// Runs of a goal's graph: what agrees with one meets the goal, and what meets the goal has one.
#![tactic(auto)]

ghost use Rattle.runs.specs.Runs.{Sound, Complete};

// The graph is right: its accepting runs and the sessions that meet the goal belong together.
pub fn graph_is_right() -> bool
    ensures sound { Sound }
    ensures complete { Complete }
{
    true
}
