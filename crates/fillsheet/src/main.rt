// fillsheet: reads commands to a book from standard input, a line each, and writes what each answers.
#![tactic(auto)]

use book::refusal::Refusal;
use desk::Desk;
use matching::Filled;
use record::execution::EXECUTION_BYTES;
use script::command;
use script::text::Lines;
use std::io;
use std::io::{Cursor, Read};

// A sheet's length, at most.
const MOST_BYTES: usize = 65_536;

// One byte more is read.
const ROOM: usize = MOST_BYTES + 1;

fn write_refusal(rt: &impl Print, refusal: u32) -> io::Result<()> {
    let mut line = [0u8; 33];
    let n = listing::refusal_line(refusal, &mut line);
    rt.write_all(&line[..n])
}

// The executions at the front of a buffer, as many as are said to be there.
fn write_executions(rt: &impl Print, executions: &[u8], count: u32) -> io::Result<()> {
    for execution in executions
        .chunks_exact(EXECUTION_BYTES)
        .take(count as usize)
    {
        let mut line = [0u8; 33];
        let n = listing::execution_line(execution, 0, &mut line);
        rt.write_all(&line[..n])?;
    }
    Ok(())
}

// An accepted take's executions, and the shares left.
fn write_listing(rt: &impl Print, executions: &[u8], filled: Filled) -> io::Result<()> {
    println!(rt; "order price shares")?;
    write_executions(rt, executions, filled.count)?;
    let mut line = [0u8; 33];
    let n = listing::left_line(filled.left.0, &mut line);
    rt.write_all(&line[..n])
}

// Only a refused command and an accepted take write.
fn write_answer(
    rt: &impl Print,
    answer: Result<Option<Filled>, Refusal>,
    executions: &[u8],
) -> io::Result<()> {
    match answer {
        Ok(None) => Ok(()),
        Ok(Some(filled)) => write_listing(rt, executions, filled),
        Err(refusal) => write_refusal(rt, refusal.into()),
    }
}

// The command of each line of a sheet is given to the desk, and its answer written; the book is empty at first, with room for 256 records.
fn run(rt: &impl Print, sheet: &[u8]) -> io::Result<()> {
    let mut book = [0u8; 10240];
    let mut executions = [0u8; 4096];
    let mut desk = Desk {
        book: &mut book,
        executions: &mut executions,
        algorithm: 1,
    };
    for line in Lines::new(sheet) {
        let answer = desk.perform(command::command_of(line));
        write_answer(rt, answer, desk.executions)?;
    }
    Ok(())
}

// One byte more than the longest sheet is read, so that a longer one is refused.
fn main(rt: HostRuntime) -> io::Result<()> {
    let mut input = Cursor::new([0u8; ROOM]);
    let n = io::copy(&mut rt.stdin().take(ROOM as u64), &mut input)? as usize;
    if MOST_BYTES < n {
        write_refusal(&rt, Refusal::OutOfRange.into())
    } else {
        run(&rt, &input.get_ref()[..n])
    }
}
