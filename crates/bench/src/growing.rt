// Growing the graph of a goal.
use crate::meter::Meter;
use crate::texts::{promises, wide};
use study::study::Study;
use tableau::node::{Edge, Node};

// Grows to the end, and writes how many nodes there are.
fn grow(meter: &mut Meter, text: &[u8]) -> anyhow::Result<()> {
    let heap = meter.heap();
    let mut nodes = vec![in heap; Node::blank(); 4096]?;
    let mut edges = vec![in heap; Edge::blank(); 65536]?;
    let mut study = Study::new(&mut nodes, &mut edges);
    let mut report = None;
    for _ in 0..meter.rounds() {
        // Refused, it is blank, which the call of grow then refuses.
        let _ = study.load(text);
        let grown = meter.round(&mut || study.grow(u64::MAX))?;
        report = grown.ok().map(|growth| growth.report);
    }
    let count = study.used().nodes;
    match report {
        Some(report) => meter.line(count, report)?,
        None => meter.line(count, "refused")?,
    }
    Ok(())
}

pub fn series(meter: &mut Meter) -> anyhow::Result<()> {
    meter.series("growing many first nodes: nodes")?;
    let first = if meter.is_timed() { 3 } else { 1 };
    for last in [first, 2 * first] {
        let text = wide(meter.heap(), last)?;
        grow(meter, text.as_bytes())?;
    }
    meter.series("growing promises: nodes")?;
    let most = if meter.is_timed() { 8 } else { 4 };
    for count in 2..most {
        let text = promises(meter.heap(), count)?;
        grow(meter, text.as_bytes())?;
    }
    Ok(())
}
