//! A script: a command a line, its words apart by ASCII white space. It is read from its front, a line at a time.

ghost use Rattle.std.specs.Prelude.{◌≡◌, ℤ, ◌+◌, codes, count_by, List, Err, Ok, ◌-◌, ◌<◌, ◌≤◌, IfErr, IfOk, IfSome, MatchOption, None, OnOk, Some, length};
ghost use Rattle.ringrun_service.specs.Fault.{NamesALine};
ghost use Rattle.ringrun_service.specs.Line.{IsLine};
ghost use Rattle.ringrun_service.specs.Parsing.{CommandAt, HasNoCommand, NumbersAt, after_blanks, after_end, after_name, number_at};
ghost use Rattle.ringrun_service.specs.Rest.{IsRest, NamesFirstBad, next_number, script_left};
ghost use Rattle.ringrun_service.specs.Script.{is_line_feed, script_of, with_front};
ghost use Rattle.ringbuffer.specs.declared.Command.{Command};

use crate::fault::Fault;
use decimal::read_decimal;
use ringbuffer::Command;

/// As many bytes have at most as many line feeds as a byte counts.
const BLOCK: usize = 255;

/// What the next line of a script is.
#[derive(Drop)]
pub enum Line<'a> {
    /// It has no words.
    Blank,
    /// It is a command, but no extension.
    Command(Command<i64>),
    /// It is an extension by the numbers that these bytes begin with. The line is left to read.
    Extension(&'a [u8]),
}

/// A script that is read from its front, line by line.
#[derive(Clone, Copy)]
pub struct Script<'a> {
    pub text: &'a [u8],
    /// The lines that are left to read.
    pub rest: &'a [u8],
}

impl<'a> Script<'a> {
    /// Makes a script of the lines of `text`.
    pub fn new(text: &'a [u8]) -> Script<'a>
        ensures rest { IsRest result }
        ensures whole { script_left result ≡ script_of text.now }
    {
        Script { text, rest: text }
    }

    /// Reads the next line. An extension's numbers are left to the caller, who goes on after them by `end_line`, so that no
    /// line takes memory.
    ///
    /// # Errors
    ///
    /// `NotACommand` where its words are no command. The line is then left to read.
    #[inline(always)]
    pub fn read_line(&mut self) -> Result<Line<'a>, Fault>
        requires { IsRest self.old }
        ensures rest { IsRest self.new }
        ensures line { IfOk result (λ line. IsLine line self.old self.new) }
        ensures passed { (commands : List (Command ℤ))
            × (script_left self.old ≡ with_front commands (script_left self.new)) }
        ensures bad { IfErr result (NamesFirstBad self.old) }
        ensures faults { IfErr result NamesALine }
    {
        let words = skip_blanks(self.rest);
        let Some((command, rest)) = read_command(words) else {
            if let Some(numbers) = strip_name(words, b"extend") {
                return Ok(Line::Extension(numbers));
            }
            self.end_line(words)?;
            return Ok(Line::Blank);
        };
        self.end_line(rest)?;
        Ok(Line::Command(command))
    }

    /// Reads all lines that are left, and keeps nothing of them. It takes no memory.
    ///
    /// # Errors
    ///
    /// `NotACommand` for the first line that is none.
    pub fn check(&mut self) -> Result<(), Fault>
        requires { IsRest self.old }
        ensures good { OnOk result ((commands : List (Command ℤ))
            × (script_left self.old ≡ Ok commands)) }
        ensures bad { IfErr result (NamesFirstBad self.old) }
        ensures fault { IfErr result NamesALine }
        ensures read { OnOk result (length self.new.rest.now ≡ 0) }
    {
        while !self.rest.is_empty() {
            let Line::Extension(numbers) = self.read_line()? else {
                continue;
            };
            let (_, rest) = count_numbers(numbers);
            self.end_line(rest)?;
        }
        Ok(())
    }

    /// Goes on after the first line that is left, which `rest` ends.
    ///
    /// # Errors
    ///
    /// `NotACommand` where other words come before the line's end.
    #[inline(always)]
    pub fn end_line(&mut self, rest: &'a [u8]) -> Result<(), Fault>
        ensures text { self.new.text ≡ self.old.text }
        ensures ok { OnOk result (after_end (after_blanks rest.now) ≡ Some self.new.rest.now) }
        ensures shorter { OnOk result (length self.new.rest.now ≤ length rest.now - 1) }
        ensures err { IfErr result (λ fault. (after_end (after_blanks rest.now) ≡ None)
            × (self.new ≡ self.old) × (fault ≡ Fault.NotACommand (next_number self.old))) }
    {
        let Some(rest) = after_line(rest) else {
            let read = self.text.len().saturating_sub(self.rest.len());
            return Err(Fault::NotACommand {
                line: count_line_feeds(&self.text[..read]) + 1,
            });
        };
        self.rest = rest;
        Ok(())
    }
}

/// Returns how many line feeds `text` has.
fn count_line_feeds(text: &[u8]) -> usize
    ensures count { result ≡ count_by is_line_feed text.now }
    ensures within { result ≤ length text.now }
{
    let mut count = 0;
    let mut rest = text;
    while !rest.is_empty() {
        let (block, after) = rest.split_at(rest.len().min(BLOCK));
        count += usize::from(count_in_block(block));
        rest = after;
    }
    count
}

/// Returns how many line feeds `block` has. Its count is a byte, and no branch depends on a byte, so the compiler counts 16
/// bytes at once.
#[inline]
fn count_in_block(block: &[u8]) -> u8
    requires { length block.now ≤ 255 }
    ensures { result ≡ count_by is_line_feed block.now }
{
    let mut count = 0;
    for byte in block {
        count += u8::from(*byte == b'\n');
    }
    count
}

/// Returns the command that begins `text`, if one does that is no extension, and what follows the words that belong to it.
#[inline(always)]
fn read_command(text: &[u8]) -> Option<(Command<i64>, &[u8])>
    ensures command { MatchOption result
        (after_name (codes "extend") text.now ≡ None → HasNoCommand text.now)
        (λ read. CommandAt text.now read.0 read.1.now) }
    ensures rest { IfSome result (λ read. length read.1.now ≤ length text.now) }
{
    if let Some(rest) = strip_name(text, b"push") {
        let (number, rest) = split_number(rest)?;
        return Some((Command::Push(number), rest));
    }
    if let Some(rest) = strip_name(text, b"dequeue") {
        return Some((Command::Dequeue, rest));
    }
    if let Some(rest) = strip_name(text, b"skip") {
        return Some((Command::Skip, rest));
    }
    if let Some(rest) = strip_name(text, b"clear") {
        return Some((Command::Clear, rest));
    }
    None
}

/// Returns what follows `name` at the front of `text`, if it stands there.
#[inline(always)]
fn strip_name<'a>(text: &'a [u8], name: &[u8]) -> Option<&'a [u8]>
    ensures name { MatchOption result (after_name name.now text.now ≡ None)
        (λ rest. after_name name.now text.now ≡ Some rest.now) }
    ensures rest { IfSome result (λ rest. length rest.now ≤ length text.now) }
{
    text.strip_prefix(name)
}

/// Returns how many numbers stand at the front of `text`, and what follows them.
pub fn count_numbers(text: &[u8]) -> (usize, &[u8])
    ensures numbers { (numbers : List ℤ) × NumbersAt text.now numbers result.1.now
        × (length numbers + length result.1.now ≤ length text.now) × (result.0 ≡ length numbers) }
{
    let mut count = 0;
    let mut rest = text;
    while let Some((_, after)) = split_number(rest) {
        count += 1;
        rest = after;
    }
    (count, rest)
}

/// Returns the number that follows the blanks at the front of `text`, and what follows it.
#[inline(always)]
pub fn split_number(text: &[u8]) -> Option<(i64, &[u8])>
    ensures number { MatchOption result (number_at text.now ≡ None)
        (λ found. number_at text.now ≡ Some (found.0, found.1.now)) }
    ensures shorter { IfSome result (λ found. length found.1.now < length text.now) }
{
    // Most numbers stand after one space, with a byte above all blanks, which is told without a loop.
    let word = match text {
        [b' ', word @ ..] if matches!(word, [byte, ..] if *byte > b' ') => word,
        _ => {
            let word = skip_blanks(text);
            if word.len() == text.len() {
                return None;
            }
            word
        }
    };
    read_decimal(word)
}

/// Returns what follows the line's end in `text`, if nothing but blanks comes before it.
fn after_line(text: &[u8]) -> Option<&[u8]>
    ensures end { MatchOption result (after_end (after_blanks text.now) ≡ None)
        (λ rest. after_end (after_blanks text.now) ≡ Some rest.now) }
    ensures shorter { IfSome result (λ rest. length rest.now ≤ length text.now - 1) }
{
    // Most lines end where their last word does.
    if let [b'\n', rest @ ..] = text {
        return Some(rest);
    }
    match skip_blanks(text) {
        [] => Some(&[]),
        [b'\n', rest @ ..] => Some(rest),
        _ => None,
    }
}

/// Returns what follows the blanks at the front of `text`.
fn skip_blanks(text: &[u8]) -> &[u8]
    ensures rest { result.now ≡ after_blanks text.now }
    ensures within { length result.now ≤ length text.now }
{
    // Most bytes are above all blanks, and are told by one comparison.
    let end = text
        .iter()
        .position(|byte| *byte > b' ' || !matches!(*byte, b' ' | b'\t' | b'\x0c' | b'\r'))
        .unwrap_or(text.len());
    &text[end..]
}
