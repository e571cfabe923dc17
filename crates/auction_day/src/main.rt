// Reads the lines of a day from standard input, and prints the answer to each at once.
#![tactic(auto)]

use book::Store;
use chain_table::table::ChainTable;
use day::day::Day;
use day_lines::reading::without_newline;
use row_table::table::RowTable;
use std::env;
use std::io::{BufRead, BufReader};

// How many orders the book of a day holds.
const BOOK: usize = 64;

// Is the program asked to keep its book in the chain table?
fn wants_chain(rt: &HostRuntime) -> anyhow::Result<bool> {
    for word in env::args(rt)?.skip(1) {
        if word.as_str() == "chain" {
            return Ok(true);
        }
    }
    Ok(false)
}

// A day from its first line to the end of the input.
fn run<S: Store + Drop>(rt: &HostRuntime, store: S) -> anyhow::Result<()> {
    let mut day = Day::new(store);
    let mut input = BufReader::new(rt.alloc(), rt.stdin())?;
    let mut line = Vec::new(rt.alloc());
    for _ in 0..u64::MAX {
        line.clear();
        if input.read_until(b'\n', &mut line)? == 0 {
            break;
        }
        match day.line(without_newline(line.as_slice())) {
            Some(answer) => println!(rt; "{answer}")?,
            None => break,
        }
    }
    if let Some(answer) = day.close() {
        println!(rt; "{answer}")?;
    }
    Ok(())
}

fn main(rt: HostRuntime) -> anyhow::Result<()> {
    if wants_chain(&rt)? {
        run(&rt, ChainTable::new(rt.alloc(), BOOK)?)
    } else {
        run(&rt, RowTable::new(rt.alloc(), BOOK)?)
    }
}
