// The walk in depth over the choices: the trail lists the claims of the set in the order in which they came in, and a
// cursor goes over it.
ghost use Rattle.std.specs.Prelude.{◌≡◌, ℕ, ◌+◌, ◌<◌, ◌≤◌, length, take, IfSome};
ghost use Rattle.tableau.specs.Expansions.{Adding};
ghost use Rattle.tableau.specs.Offers.{listed};
ghost use Rattle.tableau.specs.Units.{Expands};
ghost use Rattle.tableau.specs.Walk.{grown, on, Stands};
ghost use Rattle.tableau.specs.Tables.{Room, More};

use crate::claims::ClaimSet;
use crate::node::{Edge, Node, Used};
use crate::rules::{Alternatives, Few, Rules};
use crate::trail::{Trail, Tried};
use crate::unit::Opening;

impl<'a> Rules<'a> {
    // Adds the claims that are not in the set yet. None at a clash.
    pub fn add(self, start: ClaimSet, trail: &mut Trail, claims: &[u8]) -> Option<ClaimSet>
        requires { Stands start.words (on trail.old) trail.old.len }
        ensures kept { take trail.old.len trail.new.claims ≡ on trail.old }
        ensures added { IfSome result (λ s. Stands s.words (on trail.new) trail.new.len × (on trail.new ≡ grown (on trail.old) claims.now)) }
        ensures more { trail.old.len ≤ trail.new.len }
        ensures fine { Adding self.entry.declared.now self.entry.phase (on trail.old) claims.now result }
    {
        let mut set = start;
        for x in claims {
            let c = *x;
            if !set.contains(c) {
                if self.clashes(set, c) {
                    return None;
                }
                trail.push(c);
                set = set.with(c);
            }
        }
        Some(set)
    }

    // The same with the claims of one alternative.
    fn add_few(self, start: ClaimSet, trail: &mut Trail, few: Few) -> Option<ClaimSet>
        requires { Stands start.words (on trail.old) trail.old.len }
        ensures kept { take trail.old.len trail.new.claims ≡ on trail.old }
        ensures added { IfSome result (λ s. Stands s.words (on trail.new) trail.new.len × (on trail.new ≡ grown (on trail.old) (listed few))) }
        ensures more { trail.old.len ≤ trail.new.len }
        ensures fine { Adding self.entry.declared.now self.entry.phase (on trail.old) (listed few) result }
    {
        match few {
            Few::Single(a) => self.add(start, trail, &[a]),
            Few::Pair(a, b) => self.add(start, trail, &[a, b]),
        }
    }
}

impl<'a> Opening<'a> {
    // Enters the nodes of what is reached from the trail's claim at the cursor on. None where there is no room.
    #[cycle(expand_follow)]
    pub fn expand(
        self,
        set: ClaimSet,
        trail: &mut Trail,
        at: usize,
        nodes: &mut [Node],
        edges: &mut [Edge],
        used: Used,
    ) -> Option<Used>
        requires stands { Stands set.words (on trail.old) trail.old.len }
        requires room { Room (length nodes.old) (length edges.old) used }
        ensures len { trail.new.len ≡ trail.old.len }
        ensures kept { on trail.new ≡ on trail.old }
        ensures room { More (length nodes.old) (length edges.old) used result }
        ensures entered { Expands self.entry.rules.declared.now self.entry.rules.phase self.entry.origin (on trail.old) at (on trail.old) nodes.old edges.old used nodes.new edges.new result }
    {
        if at >= trail.len {
            return self.enter_set(set, nodes, edges, used);
        }
        match self.rules.alternatives(trail.claims[at]) {
            Alternatives::Nothing => self.expand(set, trail, at + 1, nodes, edges, used),
            Alternatives::One(few) => self.follow(set, trail, at, few, nodes, edges, used),
            Alternatives::Two(first, second) => {
                let more = self.follow(set, trail, at, first, nodes, edges, used)?;
                self.follow(set, trail, at, second, nodes, edges, more)
            }
        }
    }

    // The same with the claims of one alternative added. The guard puts the trail back.
    #[cycle(expand_follow)]
    fn follow(
        self,
        set: ClaimSet,
        trail: &mut Trail,
        at: usize,
        few: Few,
        nodes: &mut [Node],
        edges: &mut [Edge],
        used: Used,
    ) -> Option<Used>
        requires stands { Stands set.words (on trail.old) trail.old.len }
        requires room { Room (length nodes.old) (length edges.old) used }
        requires cursor { at < trail.old.len }
        ensures len { trail.new.len ≡ trail.old.len }
        ensures kept { on trail.new ≡ on trail.old }
        ensures room { More (length nodes.old) (length edges.old) used result }
        ensures entered { Expands self.entry.rules.declared.now self.entry.rules.phase self.entry.origin (on trail.old) (at + 1) (grown (on trail.old) (listed few)) nodes.old edges.old used nodes.new edges.new result }
    {
        let mark = trail.len;
        let guard = Tried {
            trail: &mut *trail,
            mark,
        };
        let Some(more) = self.rules.add_few(set, guard.trail, few) else {
            return Some(used);
        };
        self.expand(more, guard.trail, at + 1, nodes, edges, used)
    }
}
