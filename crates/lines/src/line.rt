//! A line of input as far as it has come.
ghost use Rattle.std.specs.Prelude.{◌≡◌, ◌+◌, ◌-◌, ◌^◌, ◌≤◌, min, length, [], Some, IfSome};
ghost use Rattle.std.specs.Option.{option_map};
ghost use Rattle.lines.specs.Line.{max_line, text_of, extended, begun};

use arrayvec::ArrayVec;
use std::mem;

/// The most bytes of a line that is kept: more than any line that a program here takes.
pub const MAX_LINE: usize = 1024;

/// A line of input so far, without its line feed, and its number, counted from 1. A line past `MAX_LINE` bytes is
/// overlong, and its text is not kept.
#[derive(Drop)]
pub struct Line {
    number: u64,
    /// The text, or `None` where the line is overlong.
    text: Option<ArrayVec<u8, MAX_LINE>>,
}

impl Line {
    /// The first line, with no byte yet.
    pub fn new() -> Line
        ensures text { text_of result ≡ Some [] }
        ensures number { result.number ≡ 1 }
    {
        Line::numbered(1)
    }

    /// The line of this number, with no byte yet.
    fn numbered(number: u64) -> Line
        ensures text { text_of result ≡ Some [] }
        ensures number { result.number ≡ number }
    {
        Line {
            number,
            text: Some(ArrayVec::new()),
        }
    }

    /// Adds a byte.
    pub fn add(&mut self, byte: u8)
        ensures text { text_of self.new ≡ extended (text_of self.old) byte }
        ensures number { self.new.number ≡ self.old.number }
    {
        if let Some(text) = &mut self.text
            && text.try_push(byte).is_err()
        {
            self.text = None;
        }
    }

    /// Goes on to the next line, with no byte yet, and hands out the line that is done.
    pub fn advance(&mut self) -> Line
        ensures done { result ≡ self.old }
        ensures text { text_of self.new ≡ Some [] }
        ensures number { self.new.number ≡ min (self.old.number + 1) (2 ^ 64 - 1) }
    {
        let next = Line::numbered(self.number.saturating_add(1));
        mem::replace(self, next)
    }

    /// The line's number.
    pub fn number(&self) -> u64
        ensures { result ≡ self.now.number }
    {
        self.number
    }

    /// Whether the line has a byte.
    pub fn is_begun(&self) -> bool
        ensures { result ≡ begun (text_of self.now) }
    {
        match &self.text {
            Some(text) => !text.is_empty(),
            None => true,
        }
    }

    /// The line's text, or `None` where the line is overlong.
    pub fn text(&self) -> Option<&[u8]>
        ensures text { option_map (λ x. x.now) result ≡ text_of self.now }
        ensures bounded { IfSome result (λ x. length x.now ≤ max_line) }
    {
        self.text.as_ref().map(|text| text.as_slice())
    }
}
