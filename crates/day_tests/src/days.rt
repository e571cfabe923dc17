// Days from beginning to end, each with what it prints.
use crate::talk::talk;
use std::fmt::Write;
use std::test::Fail;

const DAYS: [(&str, &str); 17] = [
    ("", ""),
    ("\n", "bad 18 1\n"),
    ("S 1 0", "ready\nopen 0 0\n"),
    ("S 1 0\n", "ready\nopen 0 0\n"),
    ("S 1 0\n\n", "ready\nbad 18 1\nopen 0 0\n"),
    ("S 0 0\nS 1 0\n", "no 14\n"),
    ("S 1001 0\n", "no 14\n"),
    ("S 1 18\nE 1 7 B M 1 0 0\n", "no 14\n"),
    ("S 1000 17\n", "ready\nopen 0 0\n"),
    ("E 1 7 B L 100 1020 0\nS 1 0\n", "no 13\n"),
    ("D 1 7\n", "no 13\n"),
    ("S 1 0\nS 1 0\nS x\n", "ready\nno 13\nbad 18 3\nopen 0 0\n"),
    (
        "S 1 0\nE 1 7 B L 100 1020 0\nE 2 8 S L 60 1000 0",
        "ready\nok 100 0\nok 60 0\nopen 2 160\n",
    ),
    // each kind, with the prices that it has
    (
        "S 1 0\nE 1 7 B M 1 0 0\nE 2 7 S L 2 9 0\nE 3 7 B P 3 0 9\nE 4 7 S Q 4 8 9\n",
        "ready\nok 1 0\nok 2 0\nok 3 0\nok 4 0\nopen 4 10\n",
    ),
    // a change rises, falls, and stays; another's order; another side, another kind
    (
        "S 1 0\nE 1 7 B L 100 9 0\nC 1 7 B L 130 8 0\nC 1 7 B L 30 8 0\nC 1 7 B L 30 7 0\nC 1 8 S M 30 0 0\nC 1 7 S L 30 7 0\nC 1 7 B M 30 0 0\nC 2 7 B L 30 7 0\n",
        "ready\nok 100 0\nok 30 0\nok 0 100\nok 0 0\nno 6\nno 7\nno 7\nno 5\nopen 1 30\n",
    ),
    // refusals in the order of the checks
    (
        "S 10 3\nE 0 7 B L 5 5 0\nE 1 0 B L 5 5 0\nE 1 7 B L 5 5 0\nE 1 7 B L 10 5 0\nE 1 7 B L 10 10 0\nE 1 8 B L 10 10 0\nD 0 9\nD 1 0\nD 2 9\nD 1 9\nD 1 7\n",
        "ready\nno 1\nno 1\nno 2\nno 3\nok 10 0\nno 4\nno 1\nno 1\nno 5\nno 6\nok 0 10\nopen 0 0\n",
    ),
    // the largest numbers of each field, and leading zeros
    (
        "S 00001 000\nE 4294967295 65535 B Q 1000000 1000000000 1000000000\nE 0000000001 00007 S L 0000000005 0000000001 0000000000\nE 2 7 B L 4294967295 1 0\nE 2 7 B L 1 4294967295 0\n",
        "ready\nok 1000000 0\nok 5 0\nno 2\nno 3\nopen 2 1000005\n",
    ),
];

#[test]
fn days(rt: HostRuntime) -> Result<(), Fail> {
    for (input, output) in DAYS {
        assert_eq!(rt; talk(&rt, rt.alloc(), input.as_bytes())?.as_str(), output);
    }
    Ok(())
}

#[test]
fn book_of_64(rt: HostRuntime) -> Result<(), Fail> {
    let mut input = String::from_str(rt.alloc(), "S 1 0\n")?;
    let mut output = String::from_str(rt.alloc(), "ready\n")?;
    for number in 1..65 {
        writeln!(input, "E {number} 7 B L 2 9 0")?;
        output.push_str("ok 2 0\n")?;
    }
    input.push_str("E 65 7 B L 2 9 0\nE 64 7 B L 2 9 0\nD 1 7\nE 65 7 B L 3 9 0\n")?;
    output.push_str("no 8\nno 4\nok 0 2\nok 3 0\nopen 64 129\n")?;
    assert_eq!(rt;
        talk(&rt, rt.alloc(), input.as_bytes())?.as_str(),
        output.as_str()
    );
    Ok(())
}

#[test]
fn very_long_lines(rt: HostRuntime) -> Result<(), Fail> {
    let mut input = String::from_str(rt.alloc(), "S 1 0\nE 1 7 B M ")?;
    for _ in 0..100_000 {
        input.push_str("0123456789")?;
    }
    input.push_str("\nD 1 7\n")?;
    assert_eq!(rt;
        talk(&rt, rt.alloc(), input.as_bytes())?.as_str(),
        "ready\nbad 18 11\nno 5\nopen 0 0\n"
    );
    Ok(())
}
