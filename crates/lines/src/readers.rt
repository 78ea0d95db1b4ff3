// Fields handed out one after the other, each with its place.
ghost use Rattle.std.specs.Prelude.{◌≤◌, length};

use crate::faults::NotRead;
use crate::scans::field_end;

/// The longest line, in bytes, that can be of the grammar.
pub const LONGEST: usize = 200;

/// A field of a line, with its place.
#[derive(Clone, Copy)]
pub struct Field<'a> {
    /// The bytes of the field.
    pub bytes: &'a [u8],
    /// Where it begins: how many bytes of the line stand before it.
    pub start: usize,
    ghost short: { start ≤ 200 },
}

impl Field<'_> {
    ghost use Rattle.std.specs.Prelude.{◌≡◌};

    /// The refusal of a wrong field: its place is the field's start.
    pub fn refusal(&self) -> NotRead
        ensures { result.place ≡ self.now.start }
    {
        NotRead {
            place: self.start as u8,
        }
    }
}

/// A line of at most 200 bytes, of which the fields up to some place were handed out. It keeps the whole line, since a refusal
/// tells a place in it.
#[derive(Drop)]
pub struct Reader<'a> {
    line: &'a [u8],
    // The end of the field that was handed out last.
    at: usize,
    ghost within: { at ≤ length line.now },
    ghost short: { length line.now ≤ 200 },
}

impl<'a> Reader<'a> {
    ghost use Rattle.std.specs.Prelude.{◌≡◌, ◌+◌, ◌≤◌, ◌∷◌, length};
    ghost use Rattle.lines.specs.Fields.{fields};
    ghost use Rattle.lines.specs.Reading.{NoneLeft, NextField, left, line_of, left_start};

    // The line's first field, and the reader of those after it.
    pub(crate) fn begin(line: &'a [u8]) -> (Field<'a>, Reader<'a>)
        requires { length line.now ≤ 200 }
        ensures line { line_of result.1 ≡ line.now }
        ensures cut { fields line.now ≡ result.0.bytes.now ∷ left result.1 }
        ensures start { result.0.start ≡ 0 }
        ensures next { left_start result.1 ≡ length result.0.bytes.now + 1 }
    {
        let end = field_end(line, 0);
        let first = Field {
            bytes: &line[0..end],
            start: 0,
        };
        (first, Reader { line, at: end })
    }

    /// The next field. Where none is left, the place of the refusal is the line's length.
    pub fn next_field(&mut self) -> Result<Field<'a>, NotRead>
        ensures line { line_of self.new ≡ line_of self.old }
        ensures next { NextField self.old result self.new }
    {
        if self.at == self.line.len() {
            return Err(NotRead {
                place: self.line.len() as u8,
            });
        }
        let start = self.at + 1;
        let end = field_end(self.line, start);
        self.at = end;
        Ok(Field {
            bytes: &self.line[start..end],
            start,
        })
    }

    /// Nothing, where no field is left. Where one is too many, the place of the refusal is the byte after the last field that
    /// was handed out.
    pub fn expect_end(&self) -> Result<(), NotRead>
        ensures { NoneLeft self.now result }
    {
        if self.at < self.line.len() {
            return Err(NotRead {
                place: self.at as u8,
            });
        }
        Ok(())
    }
}
