//! Lines that are no command, and the number of the first.

use super::{FIRST_LINE_IS_NONE, assert_ended, fails, repeated, run_script};

#[test]
fn names_a_line_that_is_no_command(rt: HostRuntime) {
    // lines, with a bar between two
    let rows: [&[u8]; 2] = [
        b"push|push 1 2|dequeue 1|extend 1 x|PUSH 1|push ++1|push -|push 1.|\xff|skip\x0b",
        b"push 9223372036854775808|push 123:5678|push 1\xb5345678|push 018446744073709551617",
    ];
    let mut lines = 0usize;
    for row in rows {
        for line in row.split(|byte| *byte == b'|') {
            let outcome = run_script(&rt, &["array", "3"], line);
            assert_ended(&rt, line, &outcome, fails(1, FIRST_LINE_IS_NONE));
            lines = lines.saturating_add(1);
        }
    }
    assert_eq!(rt; lines, 14);
}

// The line feeds before a bad line are counted in blocks of 255 bytes.
#[test]
fn names_the_first_line_that_is_no_command(rt: HostRuntime) {
    let rows = [
        (2, "ringrun: line 3: not a command\n"),
        (254, "ringrun: line 255: not a command\n"),
        (255, "ringrun: line 256: not a command\n"),
        (256, "ringrun: line 257: not a command\n"),
        (510, "ringrun: line 511: not a command\n"),
        (511, "ringrun: line 512: not a command\n"),
    ];
    let outcome = run_script(&rt, &["array", "2"], b"push 1\npush x");
    let second = fails(1, "ringrun: line 2: not a command\n");
    assert_ended(&rt, "the second", &outcome, second);
    for (blanks, want) in rows {
        let script = repeated(&rt, &[("\n", blanks), ("push x\n", 1)]);
        let outcome = run_script(&rt, &["array", "3"], script.as_bytes());
        assert_ended(&rt, blanks, &outcome, fails(1, want));
    }
}
