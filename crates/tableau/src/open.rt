// Opening a node: what it hands on to its successors, with a target chosen for each T step.
ghost use Rattle.std.specs.Prelude.{◌≡◌, ℕ, ◌+◌, ◌<◌, ◌≤◌, true, length, if◌then◌else◌, IfSome};
ghost use Rattle.document.specs.Documents.{Document as Meaning, form_at};
ghost use Rattle.document.specs.declared.form.Form.TheVariants.{Next};
ghost use Rattle.tableau.specs.Calculus.{calculus, Fine};
ghost use Rattle.tableau.specs.Claims.{has};
ghost use Rattle.tableau.specs.Graphs.{Sign, Sign.T, Sign.F};
ghost use Rattle.tableau.specs.Handing.{Any, To, From, Operand, By, Hands};
ghost use Rattle.tableau.specs.Numbers.{Shows, StateOf, is_until};
ghost use Rattle.tableau.specs.Successions.{Handed};
ghost use Rattle.tableau.specs.Units.{Chooses, Tries, EntersFirst, EntersSuccessors};
ghost use Rattle.tableau.specs.Walk.{grown, on, Stands};
ghost use Rattle.tableau.specs.Tables.{Room, More};

use crate::claim::{Claim, number, states_of};
use crate::claims::ClaimSet;
use crate::node::{Edge, Node, Used};
use crate::told::Told;
use crate::trail::{Trail, Tried};
pub use crate::true_step::TrueStep;
use crate::true_step::{next_step, targets};
use crate::unit::Opening;
use document::form::Form;
use program::masks;

// A node that is opened, and what its successors are formed for.
#[derive(Clone, Copy)]
struct Opened<'a> {
    opening: Opening<'a>,
    node: &'a Node,
}

impl<'a> Opened<'a> {
    // The claims of the node beside what is declared.
    fn told(self) -> Told<'a>
        ensures { result ≡ record { declared = self.entry.opening.rules.declared; set = self.entry.node.now.claims } }
    {
        self.opening.rules.told(self.node.claims)
    }

    // Adds F until for each state that a claim F step of the form reaches from state q. None at a clash.
    fn add_targets(self, e: u8, q: u8, set: ClaimSet, trail: &mut Trail) -> Option<ClaimSet>
        requires { Stands set.words (on trail.old) trail.old.len }
        ensures stands { IfSome result (λ s. Stands s.words (on trail.new) trail.new.len) }
        ensures hands { (d : Meaning) → Shows self.entry.opening.rules.declared.now d → StateOf d e q → self.entry.node.now.action < d.acts → Fine (calculus d self.entry.opening.rules.phase) (has (on trail.old)) → Hands (calculus d self.entry.opening.rules.phase) (Any (To d self.entry.node.now e q)) (on trail.old) (on trail.new) result }
    {
        let reached = targets(self.opening.rules.declared, e, q, self.node.action);
        let mut all = set;
        for target in 0..16u8 {
            if masks::has(reached as u64, target as usize) {
                let claim = number(self.opening.rules.declared, Claim::FalseUntil(e, target));
                all = self.opening.rules.add(all, trail, &[claim])?;
            }
        }
        Some(all)
    }

    // Adds what the claims F step of an until hand on. None at a clash.
    fn add_false_steps(self, e: u8, set: ClaimSet, trail: &mut Trail) -> Option<ClaimSet>
        requires { Stands set.words (on trail.old) trail.old.len }
        ensures stands { IfSome result (λ s. Stands s.words (on trail.new) trail.new.len) }
        ensures hands { (d : Meaning) → Shows self.entry.opening.rules.declared.now d → e < length d.forms → is_until (form_at d e) ≡ true → self.entry.node.now.action < d.acts → Fine (calculus d self.entry.opening.rules.phase) (has (on trail.old)) → Hands (calculus d self.entry.opening.rules.phase) (Any (From d self.entry.node.now e)) (on trail.old) (on trail.new) result }
    {
        let told = self.told();
        let mut all = set;
        for q in 0..states_of(self.opening.rules.declared, e) {
            if told.has(Claim::FalseStep(e, q as u8)) {
                all = self.add_targets(e, q as u8, all, trail)?;
            }
        }
        Some(all)
    }

    // Adds the operand f of a next form of the node's action, where the node claims that the form is true, or that it is
    // false. None at a clash.
    fn add_operand(
        self,
        sign: bool,
        e: u8,
        f: u8,
        set: ClaimSet,
        trail: &mut Trail,
    ) -> Option<ClaimSet>
        requires { Stands set.words (on trail.old) trail.old.len }
        ensures stands { IfSome result (λ s. Stands s.words (on trail.new) trail.new.len) }
        ensures hands { (d : Meaning) → Shows self.entry.opening.rules.declared.now d → e < length d.forms → form_at d e ≡ Next self.entry.node.now.action f → Fine (calculus d self.entry.opening.rules.phase) (has (on trail.old)) → Hands (calculus d self.entry.opening.rules.phase) (Operand d self.entry.node.now self.entry.opening.rules.phase e f (if sign then T else F)) (on trail.old) (on trail.new) result }
    {
        let told = self.told();
        if told.has_form(e, sign) {
            let operand = self.opening.rules.says(sign, f);
            return self.opening.rules.add(set, trail, &[operand]);
        }
        Some(set)
    }

    // Adds the operand of a next form of the node's action, as the node claims the form true or false. None at a clash.
    fn add_next(self, e: u8, f: u8, set: ClaimSet, trail: &mut Trail) -> Option<ClaimSet>
        requires { Stands set.words (on trail.old) trail.old.len }
        ensures stands { IfSome result (λ s. Stands s.words (on trail.new) trail.new.len) }
        ensures hands { (d : Meaning) → Shows self.entry.opening.rules.declared.now d → e < length d.forms → form_at d e ≡ Next self.entry.node.now.action f → Fine (calculus d self.entry.opening.rules.phase) (has (on trail.old)) → Hands (calculus d self.entry.opening.rules.phase) (λ y. (s : Sign) × Operand d self.entry.node.now self.entry.opening.rules.phase e f s y) (on trail.old) (on trail.new) result }
    {
        let all = self.add_operand(true, e, f, set, trail)?;
        self.add_operand(false, e, f, all, trail)
    }

    // Adds what the node hands on by its claims of one form. None at a clash.
    fn hand_on(self, e: u8, set: ClaimSet, trail: &mut Trail) -> Option<ClaimSet>
        requires { Stands set.words (on trail.old) trail.old.len }
        ensures stands { IfSome result (λ s. Stands s.words (on trail.new) trail.new.len) }
        ensures hands { (d : Meaning) → Shows self.entry.opening.rules.declared.now d → e < length d.forms → self.entry.node.now.action < d.acts → Fine (calculus d self.entry.opening.rules.phase) (has (on trail.old)) → Hands (calculus d self.entry.opening.rules.phase) (By d self.entry.node.now self.entry.opening.rules.phase e) (on trail.old) (on trail.new) result }
    {
        match self.opening.rules.declared.form(e as usize) {
            Form::Next(b, f) => {
                if b == self.node.action {
                    self.add_next(e, f, set, trail)
                } else {
                    Some(set)
                }
            }
            Form::Until(_, _, _) => self.add_false_steps(e, set, trail),
            _ => Some(set),
        }
    }

    // Adds all that the node hands on whatever is chosen. None at a clash.
    fn carry(self, set: ClaimSet, trail: &mut Trail) -> Option<ClaimSet>
        requires { Stands set.words (on trail.old) trail.old.len }
        ensures stands { IfSome result (λ s. Stands s.words (on trail.new) trail.new.len) }
        ensures hands { (d : Meaning) → Shows self.entry.opening.rules.declared.now d → self.entry.node.now.action < d.acts → Fine (calculus d self.entry.opening.rules.phase) (has (on trail.old)) → Hands (calculus d self.entry.opening.rules.phase) (Handed d self.entry.node.now self.entry.opening.rules.phase) (on trail.old) (on trail.new) result }
    {
        let mut all = set;
        for e in 0..self.opening.rules.declared.forms().count() {
            all = self.hand_on(e as u8, all, trail)?;
        }
        Some(all)
    }

    // Chooses a target for each claim T step of a number at or above `from`, and expands. None where there is no room.
    #[cycle(choose_try_target)]
    fn choose(
        self,
        from: usize,
        set: ClaimSet,
        trail: &mut Trail,
        nodes: &mut [Node],
        edges: &mut [Edge],
        used: Used,
    ) -> Option<Used>
        requires stands { Stands set.words (on trail.old) trail.old.len }
        requires room { Room (length nodes.old) (length edges.old) used }
        ensures len { trail.new.len ≡ trail.old.len }
        ensures kept { on trail.new ≡ on trail.old }
        ensures room { More (length nodes.old) (length edges.old) used result }
        ensures entered { Chooses self.entry.opening.rules.declared.now self.entry.opening.rules.phase self.entry.opening.origin self.entry.node.now from (on trail.old) nodes.old edges.old used nodes.new edges.new result }
    {
        let declared = self.opening.rules.declared;
        let Some(step) = next_step(declared, self.node, from) else {
            return self.opening.expand(set, trail, 0, nodes, edges, used);
        };
        let reached = targets(declared, step.form, step.state, self.node.action);
        let mut count = used;
        for target in 0..16u8 {
            if masks::has(reached as u64, target as usize) {
                count = self.try_target(step, target, set, trail, nodes, edges, count)?;
            }
        }
        Some(count)
    }

    // The same with one target tried for a step. The guard puts the trail back.
    #[cycle(choose_try_target)]
    fn try_target(
        self,
        step: TrueStep,
        target: u8,
        set: ClaimSet,
        trail: &mut Trail,
        nodes: &mut [Node],
        edges: &mut [Edge],
        used: Used,
    ) -> Option<Used>
        requires stands { Stands set.words (on trail.old) trail.old.len }
        requires room { Room (length nodes.old) (length edges.old) used }
        ensures len { trail.new.len ≡ trail.old.len }
        ensures kept { on trail.new ≡ on trail.old }
        ensures room { More (length nodes.old) (length edges.old) used result }
        ensures entered { Tries self.entry.opening.rules.declared.now self.entry.opening.rules.phase self.entry.opening.origin self.entry.node.now step.number step.form target step.label (on trail.old) nodes.old edges.old used nodes.new edges.new result }
    {
        let claim = number(
            self.opening.rules.declared,
            Claim::TrueUntil(step.form, target, step.label),
        );
        let mark = trail.len;
        let guard = Tried {
            trail: &mut *trail,
            mark,
        };
        let Some(more) = self.opening.rules.add(set, guard.trail, &[claim]) else {
            return Some(used);
        };
        self.choose(
            step.number as usize + 1,
            more,
            guard.trail,
            nodes,
            edges,
            used,
        )
    }
}

impl<'a> Opening<'a> {
    // Enters the first nodes: the expansions of the claim that the goal is true. None where there is no room.
    pub fn enter_first(
        self,
        goal: u8,
        trail: &mut Trail,
        nodes: &mut [Node],
        edges: &mut [Edge],
        used: Used,
    ) -> Option<Used>
        requires room { Room (length nodes.old) (length edges.old) used }
        ensures empty { trail.new.len ≡ 0 }
        ensures room { More (length nodes.old) (length edges.old) used result }
        ensures entered { EntersFirst self.entry.rules.declared.now self.entry.rules.phase self.entry.origin goal nodes.old edges.old used nodes.new edges.new result }
    {
        let claim = self.rules.true_form(goal);
        let guard = Tried {
            trail: &mut *trail,
            mark: 0,
        };
        guard.trail.len = 0;
        let Some(set) = self.rules.add(ClaimSet::empty(), guard.trail, &[claim]) else {
            return Some(used);
        };
        self.expand(set, guard.trail, 0, nodes, edges, used)
    }

    // Enters the successors of a node, and the edges to them. None where there is no room.
    pub fn enter_successors(
        self,
        node: &Node,
        trail: &mut Trail,
        nodes: &mut [Node],
        edges: &mut [Edge],
        used: Used,
    ) -> Option<Used>
        requires room { Room (length nodes.old) (length edges.old) used }
        ensures empty { trail.new.len ≡ 0 }
        ensures room { More (length nodes.old) (length edges.old) used result }
        ensures entered { EntersSuccessors self.entry.rules.declared.now self.entry.rules.phase self.entry.origin node.now nodes.old edges.old used nodes.new edges.new result }
    {
        let guard = Tried {
            trail: &mut *trail,
            mark: 0,
        };
        guard.trail.len = 0;
        let opened = Opened {
            opening: self,
            node,
        };
        let Some(set) = opened.carry(ClaimSet::empty(), guard.trail) else {
            return Some(used);
        };
        opened.choose(0, set, guard.trail, nodes, edges, used)
    }
}
