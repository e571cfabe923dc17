// A whole day as text.
use book::Store;
use chain_table::table::ChainTable;
use day::answer::Answer;
use day::day::Day;
use day_lines::reading::without_newline;
use row_table::table::RowTable;
use std::alloc::Global;
use std::fmt::Write;
use std::io::BufRead;
use std::process::Abort;
use std::test::Fail;

// What a day over a store prints for an input: the loop of the day program, over text.
fn talk_over<S: Store + Drop>(heap: Global, store: S, input: &[u8]) -> Result<String, Fail> {
    let mut day = Day::new(store);
    let mut output = String::new(heap);
    let mut rest = input;
    let mut line = Vec::new(heap);
    for _ in 0..input.len() {
        line.clear();
        if rest.read_until(b'\n', &mut line)? == 0 {
            break;
        }
        match day.line(without_newline(line.as_slice())) {
            Some(answer) => writeln!(output, "{answer}")?,
            None => break,
        }
    }
    if let Some(answer) = day.close() {
        writeln!(output, "{answer}")?;
    }
    Ok(output)
}

// What the day program prints for an input, over either store.
pub(crate) fn talk(rt: &impl Abort, heap: Global, input: &[u8]) -> Result<String, Fail> {
    let output = talk_over(heap, RowTable::new(heap, 64)?, input)?;
    let other = talk_over(heap, ChainTable::new(heap, 64)?, input)?;
    assert_eq!(rt; output.as_str(), other.as_str());
    Ok(output)
}
