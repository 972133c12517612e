//! What the program prints for its commands, on each kind of ring.

use super::{ANSWER, SCRIPT, assert_ended, prints, repeated, run_script};

#[test]
fn prints_what_the_commands_answer(rt: HostRuntime) {
    let cases: [(&str, &[u8], &str); 5] = [
        (
            "1",
            b"push 0\npush 0\ndequeue\nextend 0 1000000009\n",
            "pushed\npushed over 0\ndequeued 0\nextended\nitems 1000000009\n",
        ),
        ("2", SCRIPT, ANSWER),
        // what a push overwrites
        (
            "2",
            b"extend 1 2 3\npush 4\n",
            "extended\npushed over 2\nitems 3 4\n",
        ),
        (
            "3",
            b"push +5\n  push\t-0\r\npush 007",
            "pushed\npushed\npushed\nitems 5 0 7\n",
        ),
        (
            "1",
            b"push -9223372036854775808",
            "pushed\nitems -9223372036854775808\n",
        ),
    ];
    for (capacity, script, want) in cases {
        let outcome = run_script(&rt, &["array", capacity], script);
        assert_ended(&rt, script, &outcome, prints(want));
    }
}

#[test]
fn runs_on_each_kind_of_ring(rt: HostRuntime) {
    let cases: [([&str; 2], &[u8], &str); 5] = [
        (["heap", "1"], b"extend 1 2", "extended\nitems 2\n"),
        (["heap", "2097153"], b"push 1", "pushed\nitems 1\n"),
        (
            ["heap", "2"],
            b"extend 1 2 3\n\nextend\nclear\ndequeue\n",
            "extended\nextended\ncleared\ndequeued none\nitems\n",
        ),
        (["heap", "2"], b"", "items\n"),
        (
            ["grow", "0"],
            b"extend 1 2 3\nskip\npush 4\n",
            "extended\nskipped\npushed\nitems 2 3 4\n",
        ),
    ];
    for (words, script, want) in cases {
        let outcome = run_script(&rt, &words, script);
        assert_ended(&rt, words, &outcome, prints(want));
    }
}

// More than two mebibytes are read, and more than four printed.
#[test]
fn runs_many_lines(rt: HostRuntime) {
    let script = repeated(&rt, &[("push 7\n", 350_000)]);
    let output = [
        ("pushed\n", 3),
        ("pushed over 7\n", 349_997),
        ("items 7 7 7\n", 1),
    ];
    let output = repeated(&rt, &output);
    let outcome = run_script(&rt, &["array", "3"], script.as_bytes());
    assert_ended(&rt, "350,000 lines", &outcome, prints(output.as_str()));
}

#[test]
fn runs_a_long_line(rt: HostRuntime) {
    let script = repeated(&rt, &[("extend", 1), (" 7", 70_000), ("\nskip\n", 1)]);
    let output = [("extended\nskipped\nitems", 1), (" 7", 69_999), ("\n", 1)];
    let output = repeated(&rt, &output);
    for words in [["grow", "0"], ["heap", "70000"]] {
        let outcome = run_script(&rt, &words, script.as_bytes());
        assert_ended(&rt, words, &outcome, prints(output.as_str()));
    }
}
