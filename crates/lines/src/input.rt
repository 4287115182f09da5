//! Standard input, cut into lines.
ghost use Rattle.lines.specs.Lines.{lines_left, AtStart, Finishes, TellsInTurn};

use crate::line::Line;
use crate::source::Source;
use std::io;
use std::io::{Read, Stdin};

/// The lines of a reader, one after the other; the last one may lack its line feed.
#[derive(Drop)]
pub struct Lines<R> {
    /// What is still to be read, or `None` once the reader has ended.
    source: Option<Source<R>>,
    /// The line that is being read.
    line: Line,
}

impl<R: Read + Drop> Iterator for Lines<R> {
    type Item = io::Result<Line>;

    ghost next_gives = { TellsInTurn R.remaining };

    ghost remaining = { lines_left };

    /// Takes the next line, or answers `None` when none is left.
    fn next(&mut self) -> Option<io::Result<Line>> {
        let source = self.source.as_mut()?;
        while source.turns > 0 {
            if let Err(error) = source.take_turn() {
                return Some(Err(error));
            }
            if source.take_line(&mut self.line) {
                return Some(Ok(self.line.advance()));
            }
            match source.read_chunk() {
                Ok(true) => {}
                Ok(false) => break,
                Err(error) => return Some(Err(error)),
            }
        }
        self.finish()
    }
}

impl<R> Lines<R> {
    /// Ends the reading. The line that is being read comes last, where it has a byte.
    fn finish(&mut self) -> Option<io::Result<Line>>
    where
        R: Drop,
        ensures { Finishes self.old result self.new }
    {
        self.source = None;
        if self.line.is_begun() {
            Some(Ok(self.line.advance()))
        } else {
            None
        }
    }
}

/// The lines of standard input. No contract can say what is read.
pub fn read_lines(rt: &HostRuntime) -> Lines<Stdin>
    ensures { AtStart result }
{
    Lines {
        source: Some(Source::new(rt.stdin())),
        line: Line::new(),
    }
}

#[cfg(test)]
mod tests {
    use super::*;
    use std::test::Fail;

    /// The lines of a text.
    fn lines_of(text: &[u8]) -> Lines<&[u8]> {
        Lines {
            source: Some(Source::new(text)),
            line: Line::new(),
        }
    }

    /// How many lines come after the next.
    fn count_after_next<R: Read + Drop>(lines: &mut Lines<R>) -> usize {
        lines.by_ref().skip(1).count()
    }

    #[test]
    fn lines_behind_a_reference_are_counted(rt: HostRuntime) -> Result<(), Fail> {
        let mut lines = lines_of(b"first\nsecond\n\nlast");
        let first = lines.next().expect(&rt, "a line")?;
        assert_eq!(rt; first.text(), Some(b"first".as_slice()));
        assert_eq!(rt; count_after_next(&mut lines), 2);
        assert!(rt; lines.next().is_none());
        Ok(())
    }
}
