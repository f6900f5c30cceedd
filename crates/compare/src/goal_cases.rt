// Cases on a goal alone: load, verdict and grow.
use crate::answer::{Answer, Counts, How, Progress, Settled};
use crate::cursor::Cursor;
use crate::fault::{Fault, Refused};
use crate::settle::settled;
use crate::studies::study_of;
use lasso::step::Step;
use std::alloc::Global;
use study::refusal::Refusal;
use study::study::Study;
use tableau::grow::Report;
use tableau::node::{Edge, Node};

pub fn load(cursor: &mut Cursor) -> Result<Answer, Fault> {
    let text = cursor.bytes()?;
    let mut study = Study::new(&mut [], &mut []);
    study.load(text).map_err(Refused::with_column)?;
    let document = study.document().ok_or(Refusal::Blank)?;
    Ok(Answer::Loaded(Counts::from(&document)))
}

// Grows to the end, and decides.
fn decided(heap: Global, study: &mut Study) -> Result<Settled, Fault> {
    let growth = study.grow(u64::MAX)?;
    let used = study.used();
    if growth.report == Report::Full {
        return Ok(Settled {
            how: How::Full,
            used,
        });
    }
    let mut work = vec![in heap; 0u64; used.nodes.saturating_mul(4)]?;
    let mut steps = vec![in heap; Step::default(); used.nodes.saturating_mul(2)]?;
    let found = study.decide(&mut work, &mut steps)?;
    settled(heap, used, found, &steps, |lasso, stem, work| {
        study.judge(lasso, stem, work)
    })
}

pub fn verdict(heap: Global, cursor: &mut Cursor) -> Result<Answer, Fault> {
    let mut nodes = vec![in heap; Node::blank(); cursor.places()?]?;
    let mut edges = vec![in heap; Edge::blank(); cursor.places()?]?;
    let text = cursor.bytes()?;
    let mut study = Study::new(&mut nodes, &mut edges);
    study.load(text)?;
    Ok(Answer::Settled(decided(heap, &mut study)?))
}

// Grows by each budget in turn.
fn grown(heap: Global, study: &mut Study, budgets: &[u64]) -> Result<Vec<Progress>, Fault> {
    let mut calls = Vec::new(heap);
    for budget in budgets {
        let growth = study.grow(*budget)?;
        calls.push(Progress {
            growth,
            used: study.used(),
        })?;
    }
    Ok(calls)
}

pub fn grow(heap: Global, cursor: &mut Cursor) -> Result<Answer, Fault> {
    let mut nodes = vec![in heap; Node::blank(); cursor.places()?]?;
    let mut edges = vec![in heap; Edge::blank(); cursor.places()?]?;
    let count = cursor.places()?;
    let budgets = cursor.list(heap, count, |cursor| cursor.number())?;
    let text = cursor.bytes()?;
    let mut study = study_of(&mut nodes, &mut edges, text);
    Ok(Answer::Grown(grown(heap, &mut study, &budgets)?))
}
