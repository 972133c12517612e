//! Bad arguments, and reading and writing that fail or go on in pieces.

use super::streams::{Refusal, Sink, Source};
use super::{
    ANSWER_WITH_ROOM, Ending, FAILED, FIRST_LINE_IS_NONE, NO_MEMORY, Outcome, SCRIPT, USAGE,
    assert_ended, assert_ended_unread, fails, prints, run, run_on_three, serve_words, sink,
    strings,
};
use std::io::ErrorKind;
use std::process::Abort;

#[test]
fn ends_before_it_reads(rt: HostRuntime) {
    let cases: [(&[&str], Ending<'_>); 5] = [
        (&["array", "5"], fails(2, USAGE)),
        (&["heap", "0"], fails(2, USAGE)),
        (&["heap"], fails(2, USAGE)),
        (&["heap", "9223372036854775809"], fails(3, NO_MEMORY)),
        (&["grow", "18446744073709551615"], fails(3, NO_MEMORY)),
    ];
    for (arguments, ending) in cases {
        let input = Source::failing_between((b"", SCRIPT), ErrorKind::BrokenPipe);
        let outcome = run(&rt, arguments, input, sink(&rt));
        assert_ended_unread(&rt, arguments, &outcome, ending);
    }
}

#[test]
fn reads_what_comes_in_pieces(rt: HostRuntime) {
    let outcome = run_on_three(&rt, Source::in_pieces(SCRIPT, 1), sink(&rt));
    assert_ended(&rt, "in pieces", &outcome, prints(ANSWER_WITH_ROOM));
    let outcome = run_on_three(&rt, Source::ending_once(SCRIPT), sink(&rt));
    assert_ended(&rt, "ending once", &outcome, prints(ANSWER_WITH_ROOM));
    for k in 0..=SCRIPT.len() {
        let input = Source::failing_between(SCRIPT.split_at(k), ErrorKind::Interrupted);
        let outcome = run_on_three(&rt, input, sink(&rt));
        assert_ended(&rt, k, &outcome, prints(ANSWER_WITH_ROOM));
    }
}

#[test]
fn says_where_reading_failed(rt: HostRuntime) {
    for k in 0..=SCRIPT.len() {
        let input = Source::failing_between(SCRIPT.split_at(k), ErrorKind::BrokenPipe);
        let outcome = run_on_three(&rt, input, sink(&rt));
        assert_ended(&rt, k, &outcome, fails(4, FAILED));
    }
}

/// Runs with an output that takes at most `most` bytes a call, and refuses one call. A flush counts as a call.
fn run_refused(
    rt: &(impl Abort + AllocGlobal),
    most: usize,
    call: usize,
    refusal: Refusal,
) -> Outcome {
    let output = Sink::in_pieces(rt.alloc(), most).expect(rt, "memory");
    run_on_three(rt, Source::of(SCRIPT), output.refusing(call, refusal))
}

/// Runs on an array ring of a capacity, with a writer for errors.
fn run_with_errors(
    rt: &(impl Abort + AllocGlobal),
    capacity: &str,
    input: Source<'_>,
    errors: Sink,
) -> Outcome {
    let words = strings(rt, &["array", capacity]);
    serve_words(rt.alloc(), words.as_slice(), input, sink(rt), errors)
}

/// Makes a writer that takes a byte a call.
fn sink_of_bytes(rt: &(impl Abort + AllocGlobal)) -> Sink {
    Sink::in_pieces(rt.alloc(), 1).expect(rt, "memory")
}

#[test]
fn says_where_writing_failed(rt: HostRuntime) {
    let broken = Refusal::Fails(ErrorKind::BrokenPipe);
    // how many of the run's calls are refused before one isn't: its writes, and its flush where that can fail
    let cases = [
        (usize::MAX, broken, 2),
        (usize::MAX, Refusal::TakesNothing, 1),
        (1, broken, ANSWER_WITH_ROOM.len().saturating_add(1)),
        (1, Refusal::TakesNothing, ANSWER_WITH_ROOM.len()),
    ];
    for (most, refusal, calls) in cases {
        for call in 1..=calls {
            let outcome = run_refused(&rt, most, call, refusal);
            assert!(rt;
                ANSWER_WITH_ROOM.starts_with(outcome.output.unflushed().expect(&rt, "a text"))
            );
            assert_ended(&rt, (most, call), &outcome, fails(4, FAILED));
        }
        let outcome = run_refused(&rt, most, calls.saturating_add(1), refusal);
        assert_ended(&rt, (most, calls), &outcome, prints(ANSWER_WITH_ROOM));
    }
}

// What the writer took before is a beginning of the answer, and the line of the error goes out in as many pieces as are taken.
#[test]
fn stops_where_nothing_more_is_taken(rt: HostRuntime) {
    for refusal in [Refusal::Fails(ErrorKind::BrokenPipe), Refusal::TakesNothing] {
        for call in 1..=ANSWER_WITH_ROOM.len() {
            let output = sink_of_bytes(&rt).refusing_from(call, refusal);
            let outcome = run_on_three(&rt, Source::of(SCRIPT), output);
            let taken = ANSWER_WITH_ROOM.get(..call.saturating_sub(1));
            assert_eq!(rt; outcome.output.taken().ok(), taken);
            assert_ended(&rt, call, &outcome, fails(4, FAILED));
        }
        for call in 1..=FIRST_LINE_IS_NONE.len() {
            let errors = sink_of_bytes(&rt).refusing_from(call, refusal);
            let outcome = run_with_errors(&rt, "2", Source::of(b"push x"), errors);
            let taken = FIRST_LINE_IS_NONE.get(..call.saturating_sub(1));
            assert_eq!(rt; (outcome.status, outcome.errors.taken().ok()), (1, taken));
        }
    }
}

#[test]
fn writes_on_after_an_interruption(rt: HostRuntime) {
    let interruption = Refusal::Fails(ErrorKind::Interrupted);
    for call in 1..=ANSWER_WITH_ROOM.len() {
        let outcome = run_refused(&rt, 1, call, interruption);
        assert_ended(&rt, call, &outcome, prints(ANSWER_WITH_ROOM));
    }
}

#[test]
fn keeps_the_status_where_no_error_is_taken(rt: HostRuntime) {
    let failing = Some(ErrorKind::BrokenPipe);
    let cases: [(&str, &[u8], Option<ErrorKind>, u8); 3] = [
        ("2", b"push x", None, 1),
        ("5", SCRIPT, None, 2),
        ("2", SCRIPT, failing, 4),
    ];
    for (capacity, script, fault, want) in cases {
        for refusal in [Refusal::Fails(ErrorKind::BrokenPipe), Refusal::TakesNothing] {
            let input = match fault {
                Some(kind) => Source::failing_between((b"", script), kind),
                None => Source::of(script),
            };
            let errors = sink(&rt).refusing_from(1, refusal);
            let outcome = run_with_errors(&rt, capacity, input, errors);
            let output = outcome.output.text().expect(&rt, "a text");
            let found = (outcome.status, output, outcome.errors.calls());
            // A write that is refused, and a flush.
            assert_eq!(rt; found, (want, "", 2));
        }
    }
}

#[test]
fn writes_the_whole_line_of_an_error(rt: HostRuntime) {
    let interruption = Refusal::Fails(ErrorKind::Interrupted);
    for call in 1..=FIRST_LINE_IS_NONE.len() {
        let errors = sink_of_bytes(&rt).refusing(call, interruption);
        let outcome = run_with_errors(&rt, "2", Source::of(b"push x"), errors);
        assert_ended(&rt, call, &outcome, fails(1, FIRST_LINE_IS_NONE));
    }
}
