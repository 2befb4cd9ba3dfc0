//! Lines of a text, read one after the other into a row of numbers.
ghost use Rattle.std.specs.Prelude.{◌≡◌, Bool, IfOk, IsTrue};

use std::alloc::AllocError;

/// A reader of lines that appends what they say to a row.
pub trait RowReader {
    /// Whether a line, or the end, may be read.
    ghost is_live: { Self → Bool };

    /// Reads a line, by its number from 1; false where it is malformed.
    fn take_line(
        &mut self,
        number: usize,
        line: &[u8],
        row: &mut Vec<u64>,
    ) -> Result<bool, AllocError>
        requires { IsTrue (is_live self.old) }
        ensures { IfOk result (λ taken. is_live self.new ≡ taken) };

    /// Reads the end.
    fn take_end(&mut self, row: &mut Vec<u64>) -> Result<(), AllocError>
        requires { IsTrue (is_live self.old) };
}

/// Reads lines, the next from where the one before ended, and then the end; nothing after a malformed line.
pub fn take_lines<R: RowReader>(
    reader: &mut R,
    text: &[u8],
    ends: &[usize],
    row: &mut Vec<u64>,
) -> Result<(), AllocError>
    requires { IsTrue (R.is_live reader.old) }
{
    let mut start = 0;
    for k in 0..ends.len() {
        let end = ends[k];
        if end < start || end > text.len() {
            return Err(AllocError);
        }
        if !reader.take_line(k + 1, &text[start..end], row)? {
            return Ok(());
        }
        start = end;
    }
    reader.take_end(row)
}
