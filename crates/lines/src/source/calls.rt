//! Reading chunks, and taking lines out of them.
ghost use Rattle.std.specs.Prelude.{◌≡◌, ◌-◌, ◌^◌, ◌<◌, [], Ok, OnErr, OnOk, false};
ghost use Rattle.std.specs.List.{list_any};
ghost use Rattle.std.specs.Io.BufRead.{drop_through};
ghost use Rattle.std.specs.Io.KnownBytes.{Keeps, IsAtEnd, prepend_known};
ghost use Rattle.lines.specs.Line.{text_of};
ghost use Rattle.lines.specs.Source.{held, is_feed, line_feed, grown, FirstFeed};

use crate::line::Line;
use crate::source::{CHUNK, Source};
use std::io;
use std::io::{ErrorKind, Read};

/// Adds the bytes before the first line feed to the line, or all where there is none. The place of that line feed.
fn add_to_feed(bytes: &[u8], line: &mut Line) -> Option<usize>
    ensures place { FirstFeed bytes.now result }
    ensures text { text_of line.new ≡ grown (text_of line.old) bytes.now }
    ensures number { line.new.number ≡ line.old.number }
{
    for (place, byte) in bytes.iter().enumerate() {
        if *byte == b'\n' {
            return Some(place);
        }
        line.add(*byte);
    }
    None
}

impl<R: Read> Source<R> {
    /// The reader, of which nothing is read yet.
    pub(crate) fn new(reader: R) -> Source<R>
        ensures reader { result.reader ≡ reader }
        ensures held { held result ≡ [] }
        ensures turns { result.turns ≡ 2 ^ 64 - 1 }
    {
        Source {
            reader,
            chunk: [0; CHUNK],
            start: 0,
            end: 0,
            turns: u64::MAX,
        }
    }

    /// Takes a turn, where some are left. Fails at the last.
    pub(crate) fn take_turn(&mut self) -> io::Result<()>
        requires { 0 < self.old.turns }
        ensures fewer { self.new.turns ≡ self.old.turns - 1 }
        ensures more { OnOk result (0 < self.new.turns) }
        ensures held { held self.new ≡ held self.old }
        ensures reader { self.new.reader ≡ self.old.reader }
    {
        self.turns -= 1;
        if self.turns == 0 {
            return Err(io::Error::from(ErrorKind::TimedOut));
        }
        Ok(())
    }

    /// Takes the bytes that are held, up to the first line feed and with it, and adds those before it to the line.
    /// Whether a line feed came.
    pub(crate) fn take_line(&mut self, line: &mut Line) -> bool
        ensures feed { result ≡ list_any is_feed (held self.old) }
        ensures held { held self.new ≡ drop_through line_feed (held self.old) }
        ensures reader { self.new.reader ≡ self.old.reader }
        ensures turns { self.new.turns ≡ self.old.turns }
        ensures text { text_of line.new ≡ grown (text_of line.old) (held self.old) }
        ensures number { line.new.number ≡ line.old.number }
    {
        match add_to_feed(&self.chunk[self.start..self.end], line) {
            Some(place) => {
                self.start += place + 1;
                true
            }
            None => {
                self.start = self.end;
                false
            }
        }
    }

    /// Reads the next chunk, where all bytes before are taken. Whether any byte came.
    pub(crate) fn read_chunk(&mut self) -> io::Result<bool>
        requires { held self.old ≡ [] }
        ensures bytes { Keeps (R.remaining self.old.reader) (prepend_known (held self.new) (R.remaining self.new.reader)) }
        ensures end { result ≡ Ok false → IsAtEnd (R.remaining self.old.reader) }
        ensures failed { OnErr result (held self.new ≡ []) }
        ensures turns { self.new.turns ≡ self.old.turns }
    {
        let count = self.reader.read(&mut self.chunk)?;
        self.start = 0;
        self.end = count;
        Ok(count > 0)
    }
}
