// The graph of a goal: claims, expansions, nodes and edges, grown unit by unit.
// Kept: clauses begin with `(d : Meaning) → Shows declared.now d →`: they hold of every document that the declarations show, and
// some show none. `Of declared.now (λ d. ..)` would save four words and hide d.
// Kept: what searches by such a clause (`claim_of`, `next_step`, `claims_prop`, `promises`, `promises_in`) is a loop and no `any`
// or `find_map`. Tried with `any` in `promises_in`: of a closure without clauses nothing comes through under the premise; one
// with clauses has to repeat the clause and the bound of its cast, and the answer did not follow from them either.
#![tactic(auto)]

pub mod claim;
pub mod claims;
pub mod grow;
pub mod node;
pub mod open;
pub mod rules;
pub mod told;
pub mod trail;
pub mod true_step;
pub mod unit;
pub mod walk;
