//! Tests of `serve` over readers and writers in memory.

mod bad_lines;
mod faults;
mod numbers;
mod refused_memory;
mod replies;
mod streams;

use ringrun_service::serve;
use std::alloc::Global;
use std::fmt::Debug;
use std::process::Abort;
use streams::{Sink, Source};

const SCRIPT: &[u8] = b"push 5\npush 42\npush 1\ndequeue\n";

/// What a ring of two replies to the script.
const ANSWER: &str = "pushed\npushed\npushed over 5\ndequeued 42\nitems 1\n";

/// What a ring of three replies to it, or one without a limit.
const ANSWER_WITH_ROOM: &str = "pushed\npushed\npushed\ndequeued 5\nitems 42 1\n";

const USAGE: &str = "usage: ringrun array|heap|grow CAPACITY\n";

const NO_MEMORY: &str = "ringrun: no memory\n";

const FIRST_LINE_IS_NONE: &str = "ringrun: line 1: not a command\n";

const FAILED: &str = "ringrun: input or output failed\n";

/// How a run ends.
#[derive(Clone, Copy, Debug, Drop, PartialEq)]
struct Ending<'a> {
    status: u8,
    output: &'a str,
    errors: &'a str,
}

/// Returns the ending of a run that prints `output`, and no error.
fn prints(output: &str) -> Ending<'_> {
    Ending {
        status: 0,
        output,
        errors: "",
    }
}

/// Returns the ending of a run that prints `errors` alone.
fn fails(status: u8, errors: &str) -> Ending<'_> {
    Ending {
        status,
        output: "",
        errors,
    }
}

/// What a run of the program left.
#[derive(Drop)]
struct Outcome {
    status: u8,
    is_unread: bool,
    output: Sink,
    errors: Sink,
}

fn strings(rt: &(impl Abort + AllocGlobal), words: &[&str]) -> Vec<String> {
    let mut strings = Vec::new(rt.alloc());
    for word in words {
        let string = String::from_str(rt.alloc(), word).expect(rt, "memory");
        strings.push(string).expect(rt, "memory");
    }
    strings
}

fn sink(rt: &(impl Abort + AllocGlobal)) -> Sink {
    Sink::new(rt.alloc()).expect(rt, "memory")
}

/// Serves `words`, and takes no memory of its own.
fn serve_words(
    alloc: Global,
    words: &[String],
    mut input: Source<'_>,
    mut output: Sink,
    mut errors: Sink,
) -> Outcome {
    let status = serve(alloc, words, &mut input, &mut output, &mut errors);
    Outcome {
        status,
        is_unread: input.is_unread(),
        output,
        errors,
    }
}

fn run(
    rt: &(impl Abort + AllocGlobal),
    arguments: &[&str],
    input: Source<'_>,
    output: Sink,
) -> Outcome {
    let words = strings(rt, arguments);
    serve_words(rt.alloc(), words.as_slice(), input, output, sink(rt))
}

/// Runs on an array ring of capacity 3.
fn run_on_three(rt: &(impl Abort + AllocGlobal), input: Source<'_>, output: Sink) -> Outcome {
    run(rt, &["array", "3"], input, output)
}

fn run_script(rt: &(impl Abort + AllocGlobal), arguments: &[&str], script: &[u8]) -> Outcome {
    run(rt, arguments, Source::of(script), sink(rt))
}

/// Fails, and says at which place, unless a run ended as `ending` says.
fn assert_ended<P: Copy + PartialEq + Debug + Drop>(
    rt: &impl Abort,
    place: P,
    outcome: &Outcome,
    ending: Ending<'_>,
) {
    let found = Ending {
        status: outcome.status,
        output: outcome.output.text().expect(rt, "a text"),
        errors: outcome.errors.text().expect(rt, "a text"),
    };
    assert_eq!(rt; (place, found), (place, ending));
}

/// Fails unless a run read nothing, and ended as `ending` says.
fn assert_ended_unread(rt: &impl Abort, arguments: &[&str], outcome: &Outcome, ending: Ending<'_>) {
    assert!(rt; outcome.is_unread);
    assert_ended(rt, arguments, outcome, ending);
}

/// Returns each text as often as its number says, one after the other.
fn repeated(rt: &(impl Abort + AllocGlobal), texts: &[(&str, usize)]) -> String {
    let mut all = String::new(rt.alloc());
    for (text, count) in texts {
        for _ in 0..*count {
            all.push_str(text).expect(rt, "memory");
        }
    }
    all
}
