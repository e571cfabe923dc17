// A text fault at every field of every line, with the place that is told.
use crate::talk::talk;
use std::alloc::Global;
use std::fmt::Write;
use std::test::Fail;

// Lines that stand first in a day.
const SETTINGS: [(&[u8], usize); 17] = [
    (b"S", 2),
    (b"Sx", 2),
    (b"S1 0", 2),
    (b"S ", 3),
    (b"S  1 0", 3),
    (b"S x 0", 3),
    (b"S 65536 0", 3),
    (b"S 00000000001 0", 3),
    (b"S 1", 4),
    (b"S 1,0", 4),
    (b"S 1 ", 5),
    (b"S 1 x", 5),
    (b"S 1 -1", 5),
    (b"S 1 4294967296", 5),
    (b"S 1 0 ", 6),
    (b"S 1 0\r", 6),
    (b"S 1 0x", 6),
];

// What follows E and C.
const TICKETS: [(&[u8], usize); 51] = [
    (b"", 2),
    (b"1 7 B L 100 1020 0", 2),
    (b"\t1 7 B L 100 1020 0", 2),
    (b" ", 3),
    (b"  1 7 B L 100 1020 0", 3),
    (b" x 7 B L 100 1020 0", 3),
    (b" -1 7 B L 100 1020 0", 3),
    (b" 4294967296 7 B L 100 1020 0", 3),
    (b" 00000000001 7 B L 100 1020 0", 3),
    (b" 99999999999999999999 7 B L 100 1020 0", 3),
    (b" 1", 4),
    (b" 1x7 B L 100 1020 0", 4),
    (b" 1 ", 5),
    (b" 1  7 B L 100 1020 0", 5),
    (b" 1 B B L 100 1020 0", 5),
    (b" 1 65536 B L 100 1020 0", 5),
    (b" 1 00000000007 B L 100 1020 0", 5),
    (b" 1 7", 6),
    (b" 1 7B L 100 1020 0", 6),
    (b" 1 7 ", 7),
    (b" 1 7  B L 100 1020 0", 7),
    (b" 1 7 b L 100 1020 0", 7),
    (b" 1 7 1 L 100 1020 0", 7),
    (b" 1 7 L B 100 1020 0", 7),
    (b" 1 7 B", 8),
    (b" 1 7 BL 100 1020 0", 8),
    (b" 1 7 B1 L 100 1020 0", 8),
    (b" 1 7 B ", 9),
    (b" 1 7 B X 100 1020 0", 9),
    (b" 1 7 B l 100 1020 0", 9),
    (b" 1 7 B 0 100 1020 0", 9),
    (b" 1 7 B L", 10),
    (b" 1 7 B L100 1020 0", 10),
    (b" 1 7 B L ", 11),
    (b" 1 7 B L x 1020 0", 11),
    (b" 1 7 B L 4294967296 1020 0", 11),
    (b" 1 7 B L 00000000100 1020 0", 11),
    (b" 1 7 B L 100", 14),
    (b" 1 7 B L 100.1020 0", 14),
    (b" 1 7 B L 100 ", 15),
    (b" 1 7 B L 100 -1 0", 15),
    (b" 1 7 B L 100 4294967296 0", 15),
    (b" 1 7 B L 100 00000001020 0", 15),
    (b" 1 7 B L 100 1020", 19),
    (b" 1 7 B L 100 1020\x000", 19),
    (b" 1 7 B L 100 1020 ", 20),
    (b" 1 7 B L 100 1020 x", 20),
    (b" 1 7 B L 100 1020 4294967296", 20),
    (b" 1 7 B L 100 1020 0 ", 21),
    (b" 1 7 B L 100 1020 0\r", 21),
    (b" 1 7 B L 100 1020 0\xff", 21),
];

// Lines about a number and a participant, and lines that are none.
const OTHERS: [(&[u8], usize); 26] = [
    (b"D", 2),
    (b"D1 7", 2),
    (b"D ", 3),
    (b"D x 7", 3),
    (b"D 4294967296 7", 3),
    (b"D 00000000001 7", 3),
    (b"D 1", 4),
    (b"D 1;7", 4),
    (b"D 1 ", 5),
    (b"D 1 x", 5),
    (b"D 1 65536", 5),
    (b"D 1 00000000007", 5),
    (b"D 1 7 ", 6),
    (b"D 1 7\r", 6),
    (b"D 1 7 B", 6),
    (b"", 1),
    (b" ", 1),
    (b" D 1 7", 1),
    (b"d 1 7", 1),
    (b"X", 1),
    (b"0", 1),
    (b"\x00", 1),
    (b"\xff", 1),
    (b"F", 1),
    (b"M 990 1030 0 0", 1),
    (b"L", 1),
];

fn bad(heap: Global, before: &str, place: usize, after: &str) -> Result<String, Fail> {
    let mut output = String::from_str(heap, before)?;
    writeln!(output, "bad 18 {place}")?;
    output.push_str(after)?;
    Ok(output)
}

// The second line of a day: a letter, and what follows it.
fn second_line(heap: Global, letter: &[u8], rest: &[u8]) -> Result<Vec<u8>, Fail> {
    let mut input = Vec::from_slice(heap, b"S 1 0\n")?;
    input.extend_from_slice(letter)?;
    input.extend_from_slice(rest)?;
    input.push(b'\n')?;
    Ok(input)
}

#[test]
fn faults_in_the_first_line(rt: HostRuntime) -> Result<(), Fail> {
    for (line, place) in SETTINGS {
        assert_eq!(rt;
            talk(&rt, rt.alloc(), line)?.as_str(),
            bad(rt.alloc(), "", place, "")?.as_str()
        );
    }
    Ok(())
}

#[test]
fn faults_in_tickets(rt: HostRuntime) -> Result<(), Fail> {
    for letter in [b"E", b"C"] {
        for (rest, place) in TICKETS {
            let input = second_line(rt.alloc(), letter, rest)?;
            assert_eq!(rt;
                talk(&rt, rt.alloc(), input.as_slice())?.as_str(),
                bad(rt.alloc(), "ready\n", place, "open 0 0\n")?.as_str()
            );
        }
    }
    Ok(())
}

#[test]
fn faults_in_other_lines(rt: HostRuntime) -> Result<(), Fail> {
    for (line, place) in OTHERS {
        let input = second_line(rt.alloc(), b"", line)?;
        assert_eq!(rt;
            talk(&rt, rt.alloc(), input.as_slice())?.as_str(),
            bad(rt.alloc(), "ready\n", place, "open 0 0\n")?.as_str()
        );
    }
    Ok(())
}
