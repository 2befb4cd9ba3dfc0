//! Where a line ends, and whether it is too long.
ghost use Rattle.std.specs.Prelude.{◌≡◌, ◌≤◌, ◌+◌, length, take, MatchOption};
ghost use Rattle.ht_ports.specs.Buffer.{IsFirstLf};
ghost use Rattle.ht_ports.specs.LineRule.{without_cr, HasNoLf, max_text_bytes};
ghost use Rattle.ht_ports.specs.LineEnd.{IsLineEnd, EndsPiece};

/// The greatest length of a text, in bytes.
pub const MAX_TEXT_BYTES: u64 = 1 << 62;

// How many bytes of a piece, which has no LF, are its line.
fn line_len(piece: &[u8]) -> usize
    ensures within { result ≤ length piece.now }
    ensures few { length piece.now ≤ result + 1 }
    ensures line { take result piece.now ≡ without_cr piece.now }
{
    let len = piece.len();
    if len > 0 && piece[len - 1] == b'\r' {
        len - 1
    } else {
        len
    }
}

/// Where the bytes that wait have the end of their first line.
#[derive(Clone, Copy)]
pub enum LineEnd {
    /// There is no further line.
    NoLine,
    /// The line is too long, or the text up to its end.
    TooLong,
    /// The first `line` bytes are a line, which ends after `end` bytes.
    Line { line: usize, end: usize },
}

/// Finds the end of the first line of the bytes that wait, whose first LF is at
/// `found`. Where they have none they are the text's last, or too many for a line.
pub fn find_line_end(bytes: &[u8], found: Option<usize>, max_len: u32, bytes_read: u64) -> LineEnd
    requires bytes_read { bytes_read ≤ max_text_bytes }
    requires found { MatchOption found (HasNoLf bytes.now) (IsFirstLf bytes.now) }
    ensures { IsLineEnd max_len bytes_read bytes.now found result }
{
    match found {
        Some(i) => end_line(&bytes[..i], i + 1, max_len, bytes_read),
        None => {
            if bytes.is_empty() {
                return LineEnd::NoLine;
            }
            end_line(bytes, bytes.len(), max_len, bytes_read)
        }
    }
}

// The end of the line of a piece, of which `end` bytes are read with its LF.
fn end_line(piece: &[u8], end: usize, max_len: u32, bytes_read: u64) -> LineEnd
    requires bytes_read { bytes_read ≤ max_text_bytes }
    ensures { EndsPiece max_len bytes_read piece.now end result }
{
    let line = line_len(piece);
    if line > max_len as usize {
        return LineEnd::TooLong;
    }
    if end as u64 > MAX_TEXT_BYTES - bytes_read {
        return LineEnd::TooLong;
    }
    LineEnd::Line { line, end }
}
