//! Numbers as they are read and printed, and what only begins as one.

use super::{FIRST_LINE_IS_NONE, assert_ended, fails, prints, repeated, run_script};

/// A line's numbers, and as they are printed: on both sides of eight digits and of sixteen, with zeros in front, in pairs and
/// after signs, one blank or several.
const NUMBERS: &[(&str, &str)] = &[
    (" 7", " 7"),
    (" 99999999 100000000", " 99999999 100000000"),
    (
        " 9999999999999999 12345678123456789",
        " 9999999999999999 12345678123456789",
    ),
    (" 9223372036854775807", " 9223372036854775807"),
    (" -9223372036854775808", " -9223372036854775808"),
    (" 00000001 000000002", " 1 2"),
    (" 09223372036854775807", " 9223372036854775807"),
    (" 56 7", " 56 7"),
    (" -0 +9 8", " 0 9 8"),
    ("  5  6", " 5 6"),
    ("\t5\r6\x0c7", " 5 6 7"),
    (" 5 12345678 6", " 5 12345678 6"),
];

#[test]
fn reads_and_prints_numbers(rt: HostRuntime) {
    for (numbers, shown) in NUMBERS {
        // before the text's end, a line's end, and blanks
        for end in ["", "\n", "\r\n", " ", " \n", "\n\n\n\n\n\n\n"] {
            let script = repeated(&rt, &[("extend", 1), (*numbers, 1), (end, 1)]);
            let want = repeated(&rt, &[("extended\nitems", 1), (*shown, 1), ("\n", 1)]);
            for words in [["array", "3"], ["heap", "3"], ["grow", "0"]] {
                let outcome = run_script(&rt, &words, script.as_bytes());
                assert_ended(&rt, (*numbers, end), &outcome, prints(want.as_str()));
            }
        }
    }
}

/// Lines of a push, with a bar between two.
const NO_NUMBERS: &[u8] =
    b":|/|+|-|+-1|-/|:5|1/|1:|12/|123;|1234\xb5|123456\xff|1234567:|12345678/|123456789a|\
123456781234567:|12345678123456781/|-9223372036854775809|10000000000000000000|99999999999999999999|\
12345678123456781234567812345678";

#[test]
fn refuses_what_only_begins_as_a_number(rt: HostRuntime) {
    for word in NO_NUMBERS.split(|byte| *byte == b'|') {
        for end in [b"".as_slice(), b"\nskip\nskip\nskip\nskip\n"] {
            let mut script = Vec::new(rt.alloc());
            for part in [b"push ".as_slice(), word, end] {
                script.extend_from_slice(part).expect(&rt, "memory");
            }
            let outcome = run_script(&rt, &["array", "3"], script.as_slice());
            assert_ended(&rt, word, &outcome, fails(1, FIRST_LINE_IS_NONE));
        }
    }
}
