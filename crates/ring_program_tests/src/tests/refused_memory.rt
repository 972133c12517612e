//! Runs that are refused memory.

use super::streams::Source;
use super::{
    Ending, NO_MEMORY, Outcome, SCRIPT, assert_ended, assert_ended_unread, fails, prints, repeated,
    serve_words, sink, strings,
};
use ring_test_support::drought::Drought;
use std::cmp::Ordering;
use std::io::ErrorKind;
use std::process::Abort;

/// Runs with no memory but one block of `room` bytes.
fn serve_in_drought(
    rt: &(impl Abort + AllocGlobal),
    arguments: &[&str],
    input: Source<'_>,
    room: usize,
) -> Outcome {
    let words = strings(rt, arguments);
    let (output, errors) = (sink(rt), sink(rt));
    let drought = Drought::but_for(rt.alloc(), room).expect(rt, "memory");
    let outcome = serve_words(rt.alloc(), words.as_slice(), input, output, errors);
    drop(drought);
    outcome
}

/// Counts the runs that were refused memory before one ended as `ending` says. All that a run can have is one block, of no
/// bytes at first, which grows by `step`. Where that is below any request, they are refused one after the other.
fn refusals(
    rt: &(impl Abort + AllocGlobal),
    arguments: &[&str],
    script: &str,
    step: usize,
    ending: Ending<'_>,
) -> usize {
    let _most = Drought::of_most(rt.alloc()).expect(rt, "memory");
    for refused in 0..400 {
        let (input, room) = (Source::of(script.as_bytes()), step.saturating_mul(refused));
        let outcome = serve_in_drought(rt, arguments, input, room);
        if outcome.status == ending.status {
            assert_ended(rt, refused, &outcome, ending);
            return refused;
        }
        assert_ended(rt, refused, &outcome, fails(3, NO_MEMORY));
    }
    panic!(rt; "refused at each step")
}

// The two scripts of a case are as long and answered alike. The items of an extension take memory on a growable ring alone.
#[test]
fn is_refused_an_extension(rt: HostRuntime) {
    let ending = prints("extended\nextended\ncleared\ndequeued none\nitems\n");
    let cases = [
        (
            ["heap", "2"],
            "extend 1 2 3\n\nextend\nclear\ndequeue\n",
            "extend      \n\nextend\nclear\ndequeue\n",
            Ordering::Equal,
        ),
        (
            ["grow", "0"],
            "extend 1 2 3 4 5 6 7 8\n\nextend\nclear\ndequeue\n",
            "extend                \n\nextend\nclear\ndequeue\n",
            Ordering::Greater,
        ),
    ];
    for (arguments, with_items, without_items, wanted) in cases {
        let with_items = refusals(&rt, &arguments, with_items, 32, ending);
        let without_items = refusals(&rt, &arguments, without_items, 32, ending);
        assert_eq!(rt; with_items.cmp(&without_items), wanted);
    }
}

// A ring that grew push by push would end with room for nearly twice the numbers, and move them there.
#[test]
fn keeps_no_more_room_than_two_long_lines_need(rt: HostRuntime) {
    let line = repeated(&rt, &[("extend", 1), (" 0", 131_072), ("\n", 1)]);
    let script = repeated(&rt, &[(line.as_str(), 2), ("clear\n", 1)]);
    let arguments = ["grow", "1023"];
    let outcome = serve_in_drought(&rt, &arguments, Source::of(script.as_bytes()), 7 << 20);
    let ending = prints("extended\nextended\ncleared\nitems\n");
    assert_ended(&rt, &arguments, &outcome, ending);
}

// The first run would be refused room for the longest text that so many items have, and the second for its input twice.
#[test]
fn keeps_its_input_and_its_text_once(rt: HostRuntime) {
    let zeros = (" 0", 147_448);
    let script = repeated(&rt, &[("extend", 1), zeros, ("\n", 1)]);
    let shown = repeated(&rt, &[("extended\nitems", 1), zeros, ("\n", 1)]);
    let blank = repeated(&rt, &[("\n", 250_000)]);
    let cases = [
        (["heap", "147448"], script.as_str(), 4 << 20, shown.as_str()),
        (["array", "3"], blank.as_str(), 450_000, "items\n"),
    ];
    for (arguments, script, room, output) in cases {
        let outcome = serve_in_drought(&rt, &arguments, Source::of(script.as_bytes()), room);
        assert_ended(&rt, room, &outcome, prints(output));
    }
}

/// Returns the least room, in steps of 8 bytes, with which a run reads from its input.
fn room_to_read(rt: &(impl Abort + AllocGlobal), arguments: &[&str]) -> usize {
    let _most = Drought::of_most(rt.alloc()).expect(rt, "memory");
    for step in 0..100usize {
        let room = step.saturating_mul(8);
        let outcome = serve_in_drought(rt, arguments, Source::of(SCRIPT), room);
        if !outcome.is_unread {
            return room;
        }
    }
    panic!(rt; "read nothing")
}

// There is one block of so many bytes, which is a little too small for the ring. A growable ring with room for none takes as
// little as an array does: its run reads with the same room.
#[test]
fn is_refused_a_ring(rt: HostRuntime) {
    let cases = [
        (["heap", "100000"], 1 << 19),
        (["grow", "100000"], 790_000),
        (["heap", "1000"], 8_100),
        (["grow", "1000"], 7_900),
        (["heap", "1"], 0),
        (["grow", "1"], 0),
    ];
    for (arguments, room) in cases {
        let input = Source::failing_between((b"", SCRIPT), ErrorKind::BrokenPipe);
        let outcome = serve_in_drought(&rt, &arguments, input, room);
        assert_ended_unread(&rt, &arguments, &outcome, fails(3, NO_MEMORY));
    }
    assert_eq!(rt;
        room_to_read(&rt, &["grow", "0"]),
        room_to_read(&rt, &["array", "3"])
    );
}

// With room for the input, refusals come one after the other, for the ring and the text. The line that is no command is after
// them all.
#[test]
fn names_a_line_behind_what_is_refused(rt: HostRuntime) {
    let lines = ("push 7\n\n", 3000);
    let script = repeated(&rt, &[lines]);
    let faulty = repeated(&rt, &[lines, ("extend 1 2 x\n", 1)]);
    let (words, named_line) = (
        &["grow", "0"],
        fails(1, "ringrun: line 6001: not a command\n"),
    );
    let _most = Drought::of_most(rt.alloc()).expect(&rt, "memory");
    let (mut named, mut refused) = (0usize, 0usize);
    for step in 0..100usize {
        let room = step.saturating_mul(4096);
        let outcome = serve_in_drought(&rt, words, Source::of(faulty.as_bytes()), room);
        if named == 0 && outcome.status == 3 {
            assert_ended(&rt, room, &outcome, fails(3, NO_MEMORY));
            continue;
        }
        named = named.saturating_add(1);
        assert_ended(&rt, room, &outcome, named_line);
        let outcome = serve_in_drought(&rt, words, Source::of(script.as_bytes()), room);
        if outcome.status == 3 {
            refused = refused.saturating_add(1);
        }
    }
    assert!(rt; refused > 10, "{refused} of {named} were refused");
}
