//! The program's work, over any reader and writers.

ghost use Rattle.std.specs.Prelude.{◌≡◌, ◌≢◌, ℕ, ℤ, ◌+◌, ◌++◌, ◌<◌, ◌≤◌, ◌↔◌, Err, IfErr, IfOk, IfSome, IsErr, IsErrOf, List, Ok, OnOk, Some, [], flat_map, length, map, string_bytes};
ghost use Rattle.std.specs.Io.KnownBytes.{IsAtEnd};
ghost use Rattle.ringbuffer.specs.Contents.{keep_last};
ghost use Rattle.ringbuffer.specs.Meaning.{after_all, replies_to};
ghost use Rattle.ringbuffer.specs.declared.Command.{Command};
ghost use Rattle.ringrun_service.specs.Arguments.{AsksFor, AsksTooMuch, NamesRing};
ghost use Rattle.ringrun_service.specs.Fault.{IfLinesRead, IsInScript, status_of};
ghost use Rattle.ringrun_service.specs.Line.{IsShorter};
ghost use Rattle.ringrun_service.specs.Parsing.{NumbersAt};
ghost use Rattle.ringrun_service.specs.Program.{Answers, IsBad, NamesBadLine, Prints, Tells, limit_of, printed_on};
ghost use Rattle.ringrun_service.specs.Replies.{reply_line};
ghost use Rattle.ringrun_service.specs.Rest.{IsRest, NamesFirstBad, script_left};
ghost use Rattle.ringrun_service.specs.Script.{script_of, with_front};
ghost use Rattle.ringrun_service.specs.declared.arguments.Arguments.{Arguments};

use crate::arguments::{Arguments, Kind};
use crate::error_line::end;
use crate::fault::Fault;
use crate::replies;
use crate::room::{MakesRoom, make_room};
use crate::script::{Line, Script, split_number};
use ringbuffer::{
    AllocRingBuffer, CopyRingBuffer, GrowableAllocRingBuffer, Reply, RingBuffer, apply, runs_join,
};
use std::alloc::Global;
use std::io;
use std::io::{Read, Write};

/// Does what `words`, the program's arguments after its name, ask for, and returns the status to end with.
///
/// It checks the arguments, makes the ring, reads the whole input, and runs its lines as commands. Then it prints what they
/// returned, in one text that is complete before its first byte is written. A line that is no command comes before want of
/// memory to run the lines. Each status but 0 comes with a line on `errors`, where that takes one.
pub fn serve<I: Read, O: Write, E: Write>(
    alloc: Global,
    words: &[String],
    input: &mut I,
    output: &mut O,
    errors: &mut E,
) -> u8
    ensures done { result ≡ 0 → Answers (map string_bytes words.now) (I.remaining input.old)
        (O.contents output.old) (O.contents output.new) }
    ensures told { 0 < result → Tells result (I.remaining input.old)
        (E.contents errors.old) (E.contents errors.new) }
    ensures statuses { result ≤ 4 }
    ensures silent { IfSome (I.remaining input.old)
        (λ bytes. IsErr (script_of bytes) → output.new ≡ output.old) }
    ensures arguments { (result ≡ 2) ↔ (¬ NamesRing (map string_bytes words.now)) }
    ensures unread { result ≡ 2 → input.new ≡ input.old }
    ensures ring_first { AsksTooMuch (map string_bytes words.now)
        → (result ≡ 3) × (input.new ≡ input.old) }
    ensures whole_input { result < 2 → IsAtEnd (I.remaining input.new) }
    ensures unwritten { 0 < result → result < 4 → output.new ≡ output.old }
    ensures written_last { (¬ IsAtEnd (I.remaining input.new)) → output.new ≡ output.old }
    ensures no_error { result ≡ 0 → errors.new ≡ errors.old }
{
    match attempt(alloc, words, input, output) {
        Ok(()) => 0,
        Err(fault) => end(fault, errors),
    }
}

/// Does the work of `serve`, or returns why it can't be done.
fn attempt<I: Read, O: Write>(
    alloc: Global,
    words: &[String],
    input: &mut I,
    output: &mut O,
) -> Result<(), Fault>
    ensures done { OnOk result (Answers (map string_bytes words.now) (I.remaining input.old)
        (O.contents output.old) (O.contents output.new)) }
    ensures bad { IfErr result (NamesBadLine (I.remaining input.old)) }
    ensures silent { IfSome (I.remaining input.old)
        (λ bytes. IsErr (script_of bytes) → output.new ≡ output.old) }
    ensures arguments { IsErrOf result Fault.BadArguments
        ↔ (¬ NamesRing (map string_bytes words.now)) }
    ensures unread { IsErrOf result Fault.BadArguments → input.new ≡ input.old }
    ensures ring_first { AsksTooMuch (map string_bytes words.now)
        → IsErrOf result Fault.NoMemory × (input.new ≡ input.old) }
    ensures whole_input { IfLinesRead result (IsAtEnd (I.remaining input.new)) }
    ensures unwritten { IfErr result (λ fault. status_of fault < 4 → output.new ≡ output.old) }
    ensures written_last { (¬ IsAtEnd (I.remaining input.new)) → output.new ≡ output.old }
{
    let text = text_for(alloc, words, input)?;
    if output.write_all(text.as_slice()).is_err() || output.flush().is_err() {
        return Err(Fault::InputOrOutput);
    }
    Ok(())
}

/// Returns the text that the program prints. No byte of the input is read before the arguments are checked.
fn text_for<I: Read>(alloc: Global, words: &[String], input: &mut I) -> Result<Vec<u8>, Fault>
    ensures text { IfOk result (λ text. (a : Arguments) × AsksFor (map string_bytes words.now) a
        × IfSome (I.remaining input.old)
        (λ bytes. Prints (limit_of a.kind a.capacity) bytes text.items)) }
    ensures bad { IfErr result (NamesBadLine (I.remaining input.old)) }
    ensures arguments { IsErrOf result Fault.BadArguments
        ↔ (¬ NamesRing (map string_bytes words.now)) }
    ensures unread { IsErrOf result Fault.BadArguments → input.new ≡ input.old }
    ensures ring_first { AsksTooMuch (map string_bytes words.now)
        → IsErrOf result Fault.NoMemory × (input.new ≡ input.old) }
    ensures whole_input { IfLinesRead result (IsAtEnd (I.remaining input.new)) }
{
    let Arguments { kind, capacity } = Arguments::parse(words)?;
    match kind {
        Kind::Array => match capacity {
            1 => run_input(&mut CopyRingBuffer::<i64, 1>::new(0), alloc, input),
            2 => run_input(&mut CopyRingBuffer::<i64, 2>::new(0), alloc, input),
            3 => run_input(&mut CopyRingBuffer::<i64, 3>::new(0), alloc, input),
            4 => run_input(&mut CopyRingBuffer::<i64, 4>::new(0), alloc, input),
            8 => run_input(&mut CopyRingBuffer::<i64, 8>::new(0), alloc, input),
            10 => run_input(&mut CopyRingBuffer::<i64, 10>::new(0), alloc, input),
            _ => Err(Fault::BadArguments),
        },
        Kind::Heap => {
            if capacity == 0 {
                return Err(Fault::BadArguments);
            }
            let mut ring = AllocRingBuffer::new(alloc, capacity)?;
            run_input(&mut ring, alloc, input)
        }
        Kind::Grow => {
            let mut ring = GrowableAllocRingBuffer::with_capacity(alloc, capacity)?;
            run_input(&mut ring, alloc, input)
        }
    }
}

/// Reads the whole input, and returns the text that the replies of `ring`, which is empty, to its commands make.
fn run_input<R: MakesRoom, I: Read>(
    ring: &mut R,
    alloc: Global,
    input: &mut I,
) -> Result<Vec<u8>, Fault>
    requires { R.contents ring.old ≡ [] }
    ensures text { IfOk result (λ text. IfSome (I.remaining input.old)
        (λ bytes. Prints (R.limit ring.old) bytes text.items)) }
    ensures bad { IfErr result (NamesBadLine (I.remaining input.old)) }
    ensures faults { IfErr result (λ fault. fault ≢ Fault.BadArguments) }
    ensures whole_input { IfLinesRead result (IsAtEnd (I.remaining input.new)) }
{
    let mut bytes = Vec::new(alloc);
    if let Err(error) = input.read_to_end(&mut bytes) {
        return Err(Fault::from_error(&error, Fault::InputOrOutput));
    }
    run_script(ring, alloc, bytes.as_slice())
}

/// Returns the text that the replies of `ring`, which is empty, to the commands of `input` make. A bad line is its fault even
/// where memory was refused before.
fn run_script<R: MakesRoom>(ring: &mut R, alloc: Global, input: &[u8]) -> Result<Vec<u8>, Fault>
    requires { R.contents ring.old ≡ [] }
    ensures text { IfOk result
        (λ text. Prints (R.limit ring.old) input.now text.items) }
    ensures bad { (line : ℕ) → IsErrOf result (Fault.NotACommand line) ↔ IsBad line input.now }
    ensures faults { IfErr result IsInScript }
{
    let mut script = Script::new(input);
    match run_lines(ring, alloc, &mut script) {
        Err(Fault::NoMemory) => {
            script.check()?;
            Err(Fault::NoMemory)
        }
        text => text,
    }
}

/// Returns the text that the replies of `ring` to `script` make. Each line is run as it is read, so that no command and no
/// reply is kept.
fn run_lines<R: MakesRoom>(
    ring: &mut R,
    alloc: Global,
    script: &mut Script<'_>,
) -> Result<Vec<u8>, Fault>
    requires { IsRest script.old }
    ensures rest { IsRest script.new }
    ensures text { IfOk result (λ text. (commands : List (Command ℤ))
        × (script_left script.old ≡ Ok commands)
        × (text.items ≡ printed_on (R.limit ring.old) (R.contents ring.old) commands)) }
    ensures passed { (commands : List (Command ℤ))
        × (script_left script.old ≡ with_front commands (script_left script.new)) }
    ensures bad { IfErr result (NamesFirstBad script.old) }
    ensures faults { IfErr result IsInScript }
{
    // For the proof: the contents are within the limit.
    let _ = ring.len();
    runs_join::<i64>();
    let mut text = Vec::new(alloc);
    while !script.rest.is_empty() {
        run_line(ring, script, &mut text)?;
    }
    replies::push_items(&mut text, ring)?;
    Ok(text)
}

/// Runs the next line of `script`, and puts the line of the reply at the end of `text`.
#[inline(always)]
fn run_line<R: MakesRoom>(
    ring: &mut R,
    script: &mut Script<'_>,
    text: &mut Vec<u8>,
) -> Result<(), Fault>
    requires { IsRest script.old }
    ensures rest { IsRest script.new }
    ensures limit { R.limit ring.new ≡ R.limit ring.old }
    ensures run { OnOk result ((commands : List (Command ℤ))
        × (script_left script.old ≡ with_front commands (script_left script.new))
        × (text.new.items ≡ text.old.items ++ flat_map reply_line (replies_to (R.limit ring.old)
        (R.contents ring.old) commands))
        × (R.contents ring.new ≡ after_all (R.limit ring.old) (R.contents ring.old) commands)) }
    ensures passed { (commands : List (Command ℤ))
        × (script_left script.old ≡ with_front commands (script_left script.new)) }
    ensures bad { IfErr result (NamesFirstBad script.old) }
    ensures faults { IfErr result IsInScript }
    ensures shorter { OnOk result (IsShorter script.old script.new) }
{
    match script.read_line()? {
        Line::Blank => Ok(()),
        Line::Command(command) => {
            let reply = apply(ring, command)?;
            Ok(replies::push_reply(text, &reply)?)
        }
        Line::Extension(numbers) => {
            let rest = push_numbers(ring, numbers)?;
            script.end_line(rest)?;
            Ok(replies::push_reply(text, &Reply::Extended)?)
        }
    }
}

/// Pushes the numbers at the front of `text` as they are read, so that no vector is made of them, and returns what follows them.
fn push_numbers<'a, R: MakesRoom>(ring: &mut R, text: &'a [u8]) -> Result<&'a [u8], Fault>
    ensures pushed { IfOk result (λ rest. (numbers : List ℤ) × NumbersAt text.now numbers rest.now
        × (length numbers + length rest.now ≤ length text.now)
        × (R.contents ring.new ≡ keep_last (R.limit ring.old) (R.contents ring.old ++ numbers))) }
    ensures limit { R.limit ring.new ≡ R.limit ring.old }
    ensures faults { IfErr result (λ fault. fault ≡ Fault.NoMemory) }
{
    // For the proof: the contents are within the limit.
    let held = ring.len();
    let mut rest = text;
    while let Some((number, after)) = split_number(rest) {
        make_room(ring, held, rest);
        if ring.push(number).is_err() {
            return Err(Fault::NoMemory);
        }
        rest = after;
    }
    Ok(rest)
}
