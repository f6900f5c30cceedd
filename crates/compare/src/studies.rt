// The study that a case asks.
ghost use Rattle.std.specs.Prelude.{◌≡◌, ◌<◌, length, None};

use study::study::Study;
use tableau::node::{Edge, Node};

// Kept: beside that of `bench`: the two programs have no library in common but the engine's, which passes over no refusal.
// A study of the document. If the document is refused the study is blank, and the call that follows refuses it.
pub fn study_of<'n, 'e>(nodes: &'n mut [Node], edges: &'e mut [Edge], text: &[u8]) -> Study<'n, 'e>
    ensures unused { result.grown.units ≡ 0 }
    ensures long { 16384 < length text.now → result.document ≡ None }
{
    let mut study = Study::new(nodes, edges);
    let _ = study.load(text);
    study
}
