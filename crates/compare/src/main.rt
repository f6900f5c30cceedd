// Reads cases.txt of the current folder, runs every case on the engine, and writes a line a case to standard output.
#![tactic(auto)]

mod answer;
mod cases;
mod cursor;
mod fault;
mod goal_cases;
mod lasso_cases;
mod settle;
mod stop;
mod studies;
mod system_cases;
mod tables;
#[cfg(test)]
mod tests;

use crate::cases::case;
use crate::cursor::Cursor;
use std::fs;

fn run(rt: &HostRuntime) -> anyhow::Result<()> {
    let file = fs::read(rt, "cases.txt")?;
    let mut cursor = Cursor::new(&file);
    // Kept: at most as many turns as the file has bytes, and no `while !cursor.is_at_end()`: for that each call that
    // reads would have to promise that it moves the cursor on.
    for _ in 0..file.len() {
        if cursor.is_at_end() {
            break;
        }
        let (id, answer) = case(rt.alloc(), &mut cursor)?;
        println!(rt; "{id} {answer}")?;
    }
    Ok(())
}

fn main(rt: HostRuntime) -> anyhow::Result<()> {
    run(&rt)
}
