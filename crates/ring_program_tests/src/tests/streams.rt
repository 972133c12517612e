//! Readers and writers that move few bytes a call, or fail.

use std::alloc::{AllocError, Global};
use std::io::{ErrorKind, Read, Write};
use std::str::Utf8Error;
use std::{io, str};

/// Gives its first text, then fails once if it has a fault, and then gives the rest. It may fail where it is read again
/// after its end.
#[derive(Drop)]
pub struct Source<'a> {
    first: &'a [u8],
    fault: Option<ErrorKind>,
    rest: &'a [u8],
    after_end: Option<ErrorKind>,
    most: usize,
    calls: usize,
}

impl<'a> Source<'a> {
    /// Makes a source that gives `text`, and as many bytes a call as are asked for.
    pub fn of(text: &'a [u8]) -> Source<'a> {
        Source::in_pieces(text, usize::MAX)
    }

    /// Makes a source that gives `text`, and at most `most` bytes a call.
    pub fn in_pieces(text: &'a [u8], most: usize) -> Source<'a> {
        Source {
            first: text,
            fault: None,
            rest: &[],
            after_end: None,
            most,
            calls: 0,
        }
    }

    /// Makes a source that fails once between two texts.
    pub fn failing_between((first, rest): (&'a [u8], &'a [u8]), fault: ErrorKind) -> Source<'a> {
        let mut source = Source::of(first);
        source.fault = Some(fault);
        source.rest = rest;
        source
    }

    /// Makes a source that gives `text`, ends, and fails if it is read once more.
    pub fn ending_once(text: &'a [u8]) -> Source<'a> {
        let mut source = Source::of(text);
        source.after_end = Some(ErrorKind::BrokenPipe);
        source
    }

    /// Returns whether no read was made.
    pub fn is_unread(&self) -> bool {
        self.calls == 0
    }
}

impl Read for Source<'_> {
    fn read(&mut self, buf: &mut [u8]) -> io::Result<usize> {
        self.calls = self.calls.saturating_add(1);
        if self.first.is_empty() {
            if let Some(kind) = self.fault.take() {
                return Err(io::Error::from(kind));
            }
            self.first = self.rest;
            self.rest = &[];
        }
        let count = self.most.min(buf.len()).min(self.first.len());
        if self.first.is_empty() {
            self.fault = self.after_end.take();
        }
        let (given, left) = self.first.split_at(count);
        buf[..count].copy_from_slice(given);
        self.first = left;
        Ok(count)
    }
}

/// What a writer does in place of taking bytes.
#[derive(Clone, Copy)]
pub enum Refusal {
    Fails(ErrorKind),
    TakesNothing,
}

/// Keeps what is written, in memory that it was made with, and apart from it what a flush let out. One of its calls may
/// be refused, or all from one on.
#[derive(Drop)]
pub struct Sink {
    flushed: Vec<u8>,
    unflushed: Vec<u8>,
    most: usize,
    calls: usize,
    first_refused: usize,
    last_refused: usize,
    refusal: Refusal,
}

impl Sink {
    /// Makes a sink that takes all bytes of each call.
    pub fn new(alloc: Global) -> Result<Sink, AllocError> {
        Sink::in_pieces(alloc, usize::MAX)
    }

    /// Makes a sink that takes at most `most` bytes of each call.
    pub fn in_pieces(alloc: Global, most: usize) -> Result<Sink, AllocError> {
        Ok(Sink {
            flushed: Vec::with_capacity(alloc, 1024)?,
            unflushed: Vec::with_capacity(alloc, 1024)?,
            most,
            calls: 0,
            first_refused: usize::MAX,
            last_refused: usize::MAX,
            refusal: Refusal::TakesNothing,
        })
    }

    /// Makes it refuse one call, counted from 1. A flush counts as a call.
    pub fn refusing(mut self, call: usize, refusal: Refusal) -> Sink {
        self.last_refused = call;
        self.refusing_from(call, refusal)
    }

    /// Makes it refuse each call from one on.
    pub fn refusing_from(mut self, call: usize, refusal: Refusal) -> Sink {
        self.first_refused = call;
        self.refusal = refusal;
        self
    }

    /// Counts the calls that were made.
    pub fn calls(&self) -> usize {
        self.calls
    }

    /// Returns what was written and let out by a flush.
    pub fn text(&self) -> Result<&str, Utf8Error> {
        str::from_utf8(self.flushed.as_slice())
    }

    /// Returns what was written and not let out.
    pub fn unflushed(&self) -> Result<&str, Utf8Error> {
        str::from_utf8(self.unflushed.as_slice())
    }

    /// Returns what was written, let out or not, where one of both is empty.
    pub fn taken(&self) -> Result<&str, Utf8Error> {
        if self.flushed.is_empty() {
            self.unflushed()
        } else {
            self.text()
        }
    }

    // Counts a call, and returns how it is refused, if it is.
    fn next_refusal(&mut self) -> Option<Refusal> {
        self.calls = self.calls.saturating_add(1);
        let is_refused = self.first_refused <= self.calls && self.calls <= self.last_refused;
        if is_refused { Some(self.refusal) } else { None }
    }
}

impl Write for Sink {
    fn write(&mut self, buf: &[u8]) -> io::Result<usize> {
        match self.next_refusal() {
            Some(Refusal::Fails(kind)) => return Err(io::Error::from(kind)),
            Some(Refusal::TakesNothing) => return Ok(0),
            None => {}
        }
        let count = self.most.min(buf.len());
        self.unflushed.extend_from_slice(&buf[..count])?;
        Ok(count)
    }

    fn flush(&mut self) -> io::Result<()> {
        if let Some(Refusal::Fails(kind)) = self.next_refusal() {
            return Err(io::Error::from(kind));
        }
        self.flushed.extend_from_slice(self.unflushed.as_slice())?;
        self.unflushed.clear();
        Ok(())
    }
}
