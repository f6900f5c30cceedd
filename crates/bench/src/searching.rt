// Searching the pairs of a goal and a system where there is no lasso, so that all pairs are visited.
use crate::meter::Meter;
use crate::studies::study_of;
use crate::texts::vain;
use crate::wheel::Wheel;
use crate::words::found_or_none;
use lasso::step::Step;
use std::alloc::Global;
use system::listed::{Listed, Row, StateRecord};
use system::moves::Moves;
use system::system::System;
use tableau::node::{Edge, Node};

// Examines the system, and writes how many pairs there are.
fn examine<S: System>(meter: &mut Meter, text: &[u8], system: S) -> anyhow::Result<()> {
    let heap = meter.heap();
    let mut nodes = vec![in heap; Node::blank(); 64]?;
    let mut edges = vec![in heap; Edge::blank(); 1024]?;
    let mut study = study_of(&mut nodes, &mut edges, text);
    // What is not grown to the end is refused by the examination.
    let _ = study.grow(u64::MAX);
    let pairs = study.used().nodes.saturating_mul(system.count());
    let mut work = vec![in heap; 0u64; pairs.saturating_mul(4)]?;
    let mut steps = vec![in heap; Step::default(); pairs.saturating_mul(2)]?;
    let found = meter.piece(|| study.examine(system, &mut work, &mut steps))?;
    meter.line(pairs, found.map_or("refused", found_or_none))?;
    Ok(())
}

// Pairs of 16 nodes and up to 4,096 states of a wheel, with four slots each.
pub fn computed(meter: &mut Meter) -> anyhow::Result<()> {
    let text = vain(meter.heap(), "act\ta\n")?;
    meter.series("searching a computed system: pairs")?;
    let first = if meter.is_timed() { 128 } else { 1 };
    for scale in [1, 2, 4, 8] {
        let groups = first * scale;
        examine(meter, text.as_bytes(), Wheel { groups })?;
    }
    Ok(())
}

// The rows of a wheel of four times so many states.
fn wheel_rows(heap: Global, groups: usize) -> anyhow::Result<Vec<Row>> {
    let wheel = Wheel { groups };
    let mut rows = Vec::new(heap);
    for from in 0..wheel.count() {
        for step in Moves::of(wheel, from) {
            rows.push(Row {
                from,
                action: step.action,
                to: step.target,
            })?;
        }
    }
    Ok(rows)
}

// Examines listed wheels, of up to 1,024 states and 4,096 rows.
fn listed_series(meter: &mut Meter, text: &[u8]) -> anyhow::Result<()> {
    let heap = meter.heap();
    let start = StateRecord {
        starts: true,
        marks: 0,
    };
    let first = if meter.is_timed() { 128 } else { 1 };
    for scale in [1, 2] {
        let groups = first * scale;
        let rows = wheel_rows(heap, groups)?;
        let records = vec![in heap; start; Wheel { groups }.count()]?;
        examine(meter, text, Listed::new(&rows, &records, 1))?;
    }
    Ok(())
}

// Pairs of 16 and of 64 nodes and the states of listed wheels.
pub fn listed(meter: &mut Meter) -> anyhow::Result<()> {
    let one = vain(meter.heap(), "act\ta\n")?;
    meter.series("searching a listed system with 16 nodes: pairs")?;
    listed_series(meter, one.as_bytes())?;
    let four = vain(meter.heap(), "act\ta\nact\tb\nact\tc\nact\td\n")?;
    meter.series("searching a listed system with 64 nodes: pairs")?;
    listed_series(meter, four.as_bytes())
}
