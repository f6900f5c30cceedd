// One case: its kind, its number and what follows it.
use crate::answer::Answer;
use crate::cursor::Cursor;
use crate::fault::Fault;
use crate::stop::Stop;
use crate::{goal_cases, lasso_cases, system_cases};
use std::alloc::Global;

// Reads the next case and runs it. Answers its number and what the engine says.
pub fn case(heap: Global, cursor: &mut Cursor) -> Result<(u64, Answer), Stop> {
    let stop = cursor.malformed();
    let kind = cursor.word();
    let id = cursor.number()?;
    // Kept: a `match` over the eight words. A table would need one type for readers with and without a heap.
    let answer = match kind {
        b"load" => goal_cases::load(cursor),
        b"verdict" => goal_cases::verdict(heap, cursor),
        b"grow" => goal_cases::grow(heap, cursor),
        b"judge" => lasso_cases::judge(heap, cursor),
        b"scan" => lasso_cases::scan(heap, cursor),
        b"print" => lasso_cases::print(heap, cursor),
        b"audit" => system_cases::audit(heap, cursor),
        b"examine" => system_cases::examine(heap, cursor),
        _ => Err(Fault::Stopped(stop)),
    };
    match answer {
        Ok(answer) => Ok((id, answer)),
        Err(Fault::Refused(refused)) => Ok((id, Answer::Refused(refused))),
        Err(Fault::Stopped(stop)) => Err(stop),
    }
}
