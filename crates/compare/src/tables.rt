// What the records hold: steps, and systems of up to three tables.
ghost use Rattle.std.specs.Prelude.{◌≡◌, IfOk};
ghost use Rattle.system.specs.TransitionGraph.{TransitionGraph};
ghost use Rattle.system.specs.Listed.{listed as graph_of};
ghost use Rattle.compare.specs.Tabled.{table_graph, tables_graph, Limited, AllLimited};

use crate::cursor::Cursor;
use crate::stop::Stop;
use lasso::step::Step;
use std::alloc::Global;
use system::joint::Joint;
use system::listed::{Listed, Row, StateRecord};
use system::system::System;

fn read_step(cursor: &mut Cursor) -> Result<Step, Stop> {
    let action = cursor.number()?;
    let state = cursor.number()?;
    let marks = cursor.number()?;
    Ok(Step {
        state,
        action,
        marks,
    })
}

// How many steps, and then each.
pub fn read_steps(heap: Global, cursor: &mut Cursor) -> Result<Vec<Step>, Stop> {
    let count = cursor.places()?;
    cursor.list(heap, count, read_step)
}

// The tables of a listed system.
#[derive(Drop)]
pub struct Table {
    actions: u16,
    records: Vec<StateRecord>,
    rows: Vec<Row>,
}

fn read_record(cursor: &mut Cursor) -> Result<StateRecord, Stop> {
    let starts = cursor.number::<u8>()? != 0;
    let marks = cursor.number()?;
    Ok(StateRecord { starts, marks })
}

fn read_row(cursor: &mut Cursor) -> Result<Row, Stop> {
    let from = usize::from(cursor.number::<u16>()?);
    let action = cursor.number()?;
    let to = usize::from(cursor.number::<u16>()?);
    Ok(Row { from, action, to })
}

impl Table {
    fn read(heap: Global, cursor: &mut Cursor) -> Result<Table, Stop>
        ensures { IfOk result Limited }
    {
        let actions = cursor.number()?;
        let record_count = cursor.places()?;
        let row_count = cursor.places()?;
        let records = cursor.list(heap, record_count, read_record)?;
        let rows = cursor.list(heap, row_count, read_row)?;
        Ok(Table {
            actions,
            records,
            rows,
        })
    }

    pub fn listed(&self) -> Listed<'_>
        ensures { graph_of result.rows.now result.records.now result.actions ≡ table_graph self.now }
    {
        Listed::new(&self.rows, &self.records, self.actions)
    }
}

// A system's tables, as they are put together.
#[derive(Drop)]
pub enum Tables {
    One(Table),
    Two(Table, Table),
    // The first and the second, with the third.
    LeftFirst(Table, Table, Table),
    // The first, with the second and the third.
    RightFirst(Table, Table, Table),
}

// A question to a system of any kind. A maker of a kind of question gives `answers`: what an answer says of the system's graph.
pub trait Question {
    type Answer;

    ghost answers: { Self → TransitionGraph → Self.Answer → Type 0 };

    fn put<S: System>(self, system: S) -> Self::Answer
        ensures { answers self (S.meaning system) result };
}

impl Tables {
    pub fn read(heap: Global, cursor: &mut Cursor) -> Result<Tables, Stop>
        ensures { IfOk result AllLimited }
    {
        let stop = cursor.malformed();
        let shape = cursor.number::<u64>()?;
        let mut table = || Table::read(heap, cursor);
        match shape {
            1 => Ok(Tables::One(table()?)),
            2 => Ok(Tables::Two(table()?, table()?)),
            3 => Ok(Tables::LeftFirst(table()?, table()?, table()?)),
            4 => Ok(Tables::RightFirst(table()?, table()?, table()?)),
            _ => Err(stop),
        }
    }

    // Puts the question to the system that the tables list.
    pub fn put<Q: Question>(&self, question: Q) -> Q::Answer
        ensures { Q.answers question (tables_graph self.now) result }
    {
        match self {
            Tables::One(a) => question.put(a.listed()),
            Tables::Two(a, b) => question.put(Joint::new(a.listed(), b.listed())),
            Tables::LeftFirst(a, b, c) => {
                let left = Joint::new(a.listed(), b.listed());
                question.put(Joint::new(left, c.listed()))
            }
            Tables::RightFirst(a, b, c) => {
                let right = Joint::new(b.listed(), c.listed());
                question.put(Joint::new(a.listed(), right))
            }
        }
    }
}
