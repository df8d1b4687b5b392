//! Where the lines of a file begin.
use fault_places::line_start;

// Four lines, of which the second has a letter of two bytes, and the third is empty.
const TEXT: &[u8] = b"one\nzw\xC3\xB6, drei\n\nvier";

// The number of a line, and where it begins. The first line has the number 1.
const STARTS: &[(u64, Option<usize>)] = &[
    (0, None),
    (1, Some(0)),
    (2, Some(4)),
    (3, Some(15)),
    (4, Some(16)),
    (5, None),
];

fn have_starts(text: &[u8], starts: &[(u64, Option<usize>)]) -> bool {
    for (number, start) in starts {
        if line_start(text, *number) != *start {
            return false;
        }
    }
    true
}

#[test]
fn a_line_begins_behind_the_one_before(rt: HostRuntime) {
    assert!(rt; have_starts(TEXT, STARTS));
}
