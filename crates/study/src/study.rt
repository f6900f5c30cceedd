// A study: one document, its goal and the goal's graph in two lent tables.
ghost use Rattle.std.specs.Prelude.{length};
ghost use Rattle.tableau.specs.Growing.{Sound};

use document::document::Document;
use tableau::grow::Grown;
use tableau::node::{Edge, Node};

// Blank where it has no document; `grown` tells how far the goal's graph stands in the tables.
#[derive(Drop)]
pub struct Study<'n, 'e> {
    nodes: &'n mut [Node],
    edges: &'e mut [Edge],
    document: Option<Document>,
    grown: Grown,
    ghost sound: { Sound (length nodes.now) (length edges.now) grown },
}

pub mod calls;
