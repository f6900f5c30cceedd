// Cases on a lasso: judge, scan and print.
use crate::answer::Answer;
use crate::cursor::Cursor;
use crate::fault::Fault;
use crate::studies::study_of;
use crate::tables::read_steps;
use lasso::step::Step;
use std::alloc::{AllocError, Global};
use study::study::Study;

pub fn judge(heap: Global, cursor: &mut Cursor) -> Result<Answer, Fault> {
    let stem = cursor.places()?;
    let mut work = vec![in heap; 0u64; cursor.places()?]?;
    let steps = read_steps(heap, cursor)?;
    let text = cursor.bytes()?;
    let study = study_of(&mut [], &mut [], text);
    Ok(Answer::Judged(study.judge(&steps, stem, &mut work)?))
}

// Whether printing the lasso gives the text.
fn prints_as(
    heap: Global,
    study: &Study,
    lasso: &[Step],
    stem: usize,
    text: &[u8],
) -> Result<bool, AllocError> {
    let mut again = vec![in heap; 0u8; text.len()]?;
    let printed = study.print(lasso, stem, &mut again);
    Ok(printed.is_ok_and(|len| len == text.len() && again.as_slice() == text))
}

pub fn scan(heap: Global, cursor: &mut Cursor) -> Result<Answer, Fault> {
    let mut steps = vec![in heap; Step::default(); cursor.places()?]?;
    let lines = cursor.bytes()?;
    let text = cursor.bytes()?;
    let study = study_of(&mut [], &mut [], text);
    let read = study.scan(lines, &mut steps)?;
    let same = prints_as(heap, &study, &steps[..read.steps], read.stem, lines)?;
    Ok(Answer::Scanned {
        steps: read.steps,
        stem: read.stem,
        same,
    })
}

// The text with a space for each tab and a bar for each line feed.
fn shown(heap: Global, text: &[u8]) -> Result<String, AllocError> {
    text.iter()
        .map(|byte| match *byte {
            b'\t' => ' ',
            b'\n' => '|',
            other => char::from(other),
        })
        .collect(heap)
}

pub fn print(heap: Global, cursor: &mut Cursor) -> Result<Answer, Fault> {
    let mut lines = vec![in heap; 0u8; cursor.places()?]?;
    let stem = cursor.places()?;
    let steps = read_steps(heap, cursor)?;
    let text = cursor.bytes()?;
    let study = study_of(&mut [], &mut [], text);
    let len = study.print(&steps, stem, &mut lines)?.min(lines.len());
    Ok(Answer::Printed(shown(heap, &lines[..len])?))
}
