// Cases on a system: audit and examine.
ghost use Rattle.std.specs.Prelude.{◌≡◌, ◌-◌, ◌^◌, Decides, IfOk};
ghost use Rattle.compare.specs.Tabled.{AuditSays, ExamineSays};

use crate::answer::{Answer, Settled};
use crate::cursor::Cursor;
use crate::fault::Fault;
use crate::settle::settled;
use crate::studies::study_of;
use crate::tables::{Question, Tables, read_steps};
use lasso::step::Step;
use std::alloc::Global;
use study::refusal::Refusal;
use study::study::Study;
use system::system::System;
use tableau::node::{Edge, Node};

// Whether the system has a session that does what the lasso says, and the lasso meets the goal.
#[derive(Drop)]
struct AuditQuestion<'a> {
    study: &'a Study<'a, 'a>,
    steps: &'a [Step],
    stem: usize,
    work: &'a mut [u64],
}

impl<'a> Question for AuditQuestion<'a> {
    type Answer = Result<bool, Refusal>;

    ghost answers = { λ q g r. AuditSays q.study.now q.steps.now q.stem g r };

    fn put<S: System>(self, system: S) -> Result<bool, Refusal> {
        let AuditQuestion {
            study,
            steps,
            stem,
            work,
        } = self;
        study.audit(system, steps, stem, work)
    }
}

pub fn audit(heap: Global, cursor: &mut Cursor) -> Result<Answer, Fault> {
    let stem = cursor.places()?;
    let mut work = vec![in heap; 0u64; cursor.places()?]?;
    let steps = read_steps(heap, cursor)?;
    let tables = Tables::read(heap, cursor)?;
    let text = cursor.bytes()?;
    let study = study_of(&mut [], &mut [], text);
    let judged = tables.put(AuditQuestion {
        study: &study,
        steps: &steps,
        stem,
        work: &mut work,
    })?;
    Ok(Answer::Judged(judged))
}

// Whether the system has a session that meets the goal, and whether the audit says yes to it.
#[derive(Drop)]
struct ExamineQuestion<'a> {
    heap: Global,
    study: &'a Study<'a, 'a>,
    work: &'a mut [u64],
    steps: &'a mut [Step],
}

impl<'a> Question for ExamineQuestion<'a> {
    type Answer = Result<Settled, Fault>;

    ghost answers = { λ q g r. ExamineSays q.study.now g r };

    fn put<S: System>(self, system: S) -> Result<Settled, Fault> {
        let ExamineQuestion {
            heap,
            study,
            work,
            steps,
        } = self;
        let found = study.examine(system, work, steps)?;
        settled(heap, study.used(), found, steps, |lasso, stem, work| {
            study.audit(system, lasso, stem, work)
        })
    }
}

pub fn examine(heap: Global, cursor: &mut Cursor) -> Result<Answer, Fault> {
    let mut nodes = vec![in heap; Node::blank(); cursor.places()?]?;
    let mut edges = vec![in heap; Edge::blank(); cursor.places()?]?;
    let mut work = vec![in heap; 0u64; cursor.places()?]?;
    let mut steps = vec![in heap; Step::default(); cursor.places()?]?;
    let tables = Tables::read(heap, cursor)?;
    let text = cursor.bytes()?;
    let mut study = study_of(&mut nodes, &mut edges, text);
    // What is not grown to the end is refused by the question.
    let _ = study.grow(u64::MAX);
    let settled = tables.put(ExamineQuestion {
        heap,
        study: &study,
        work: &mut work,
        steps: &mut steps,
    })?;
    Ok(Answer::Settled(settled))
}
