//! One form for all tests of `run`: texts that say the words, what stands on the desk before, and what must stand on it
//! after. A text has paragraphs. Each begins with `~`, and its first line has its words, and after a `<` the names of
//! texts. The paragraph's own text is theirs, one after the other, and then its other lines. It begins with these
//! words:
//!
//! | Words | What they say |
//! |---|---|
//! | `text NAME` | this text has this name from here on |
//! | `line NAME LINE` | this line has this name from here on |
//! | `run WORDS` | a row begins: these words, and a desk without files |
//! | `given FILE` | the file is there with this text; said again, it goes on with this one |
//! | `times N FILE` | the file goes on with this text so many times; `%` is the number of the time, from 1, and `^` the one after |
//! | `most N` | one read gives so many bytes at the most |
//! | `ends STATUS LINE` | the run ends with this status and leaves this line, or where none is said this text, on Out where the status is 0 and else on Err; the other has none. A status above 0 stays where the line on Err fails, which isn't written again |
//! | `once STATUS LINE` | so it ends, in one run |
//! | `with FILE STATUS LINE` | so it ends where the file goes on with this text |
//! | `each FILE STATUS LINE` | so it ends where the file goes on with the texts of the names and one of these lines, with each of them |
//! | `words STATUS FILE` | with each line after the first as its words it ends with this status, and the file has the first one somewhere |
//! | `fails` | of each line, which is explained at `line_fails_so`, also where the line on Err fails |
//! | `left FILE`, `none FILE`, `has FILE` | after the last run the file has this text, isn't there, or has this text somewhere; Out is `out` and Err `err` |
//! | `# ..` | a remark |

use super::samples::SAMPLES;
use ht_app::run;
use ht_desks::{Fail, MemoryDesk};
use ht_ports::InPort::{Netlist, Tests};
use ht_ports::OutPort::{self, Err as ErrPort, Out, Proofs, Report};
use std::alloc::{AllocError, Global};
use std::mem::replace;
use std::str::from_utf8;

/// A paragraph of a text of rows.
#[derive(Clone, Copy)]
struct Paragraph<'a> {
    /// The words of its first line.
    words: &'a str,
    /// The names of texts, with spaces between them.
    names: &'a str,
    /// Its other lines, each with its LF.
    lines: &'a str,
}

/// The row that is played, and the texts that have names.
#[derive(Drop)]
struct Row<'a> {
    alloc: Global,
    words: &'a str,
    /// What is laid on the desk before a run.
    given: Vec<Paragraph<'a>>,
    named: Vec<(&'a str, String)>,
}

/// A run of a row: its words, a file that goes on with a text, the call of the desk that fails, whether the line on Err
/// does, and whether it stays at this run. None is a file or a call without a name.
#[derive(Clone, Copy)]
struct Play<'a> {
    words: &'a str,
    file: &'a str,
    text: &'a str,
    fails: &'a str,
    is_mute: bool,
    is_once: bool,
}

// A run of these words over what the row says.
fn play_of(words: &str) -> Play<'_> {
    Play {
        words,
        file: "",
        text: "",
        fails: "",
        is_mute: false,
        is_once: false,
    }
}

// The paragraph that stands between one `~` and the next. What stands before the first one has no line.
fn paragraph_of(text: &str) -> Option<Paragraph<'_>> {
    let (first, lines) = text.split_once('\n')?;
    let (words, names) = first.split_once(" <").unwrap_or((first, ""));
    Some(Paragraph {
        words,
        names,
        lines,
    })
}

// The first of some words, and the others.
fn first_word(words: &str) -> (&str, &str) {
    words.split_once(' ').unwrap_or((words, ""))
}

// The text of this name. A row that misses one isn't to hold, so it then reads as a line that says so.
fn find<'a>(named: &'a [(&str, String)], name: &str) -> &'a str {
    for (own, text) in named {
        if *own == name {
            return text.as_str();
        }
    }
    "no text has this name\n"
}

// The text of a paragraph.
fn text_of(row: &Row<'_>, paragraph: Paragraph<'_>) -> Result<String, AllocError> {
    let mut text = String::new(row.alloc);
    for name in paragraph.names.split_whitespace() {
        text.push_str(find(&row.named, name))?;
    }
    text.push_str(paragraph.lines)?;
    Ok(text)
}

/// The status of the run with these words, with a space between two of them; of no words where there is none.
pub fn status_of(alloc: Global, desk: &mut MemoryDesk, words: &str) -> Result<u8, AllocError> {
    let words = words_of(alloc, words)?;
    Ok(run(alloc, &words, desk))
}

/// The words of a text, each a `String`.
pub fn words_of(alloc: Global, text: &str) -> Result<Vec<String>, AllocError> {
    let mut list = Vec::new(alloc);
    for word in text.split_whitespace() {
        list.push(String::from_str(alloc, word)?)?;
    }
    Ok(list)
}

// The call of the desk that these words say: its name and port, and its number, which says nothing where each call
// fails.
fn fail_of(words: &str) -> Option<Fail> {
    let (call, number) = words.rsplit_once(' ')?;
    let nth = number.parse::<u64>().ok()?;
    match call {
        "open netlist" => Some(Fail::Open(Netlist)),
        "open tests" => Some(Fail::Open(Tests)),
        "read netlist" => Some(Fail::Read { port: Netlist, nth }),
        "create tests" => Some(Fail::Create(OutPort::Tests)),
        "create report" => Some(Fail::Create(Report)),
        "create proofs" => Some(Fail::Create(Proofs)),
        "write tests" => Some(Fail::Write {
            port: OutPort::Tests,
            nth,
        }),
        "write report" => Some(Fail::Write { port: Report, nth }),
        "write proofs" => Some(Fail::Write { port: Proofs, nth }),
        "write out" => Some(Fail::Write { port: Out, nth }),
        "write err" => Some(Fail::Write { port: ErrPort, nth }),
        _ => None,
    }
}

// Lets a file go on with a text.
fn put_after(
    alloc: Global,
    desk: &mut MemoryDesk,
    file: &str,
    text: &str,
) -> Result<(), AllocError> {
    let mut whole = Vec::new(alloc);
    if let Some(before) = desk.file(file) {
        whole.extend_from_slice(before)?;
    }
    whole.extend_from_slice(text.as_bytes())?;
    desk.put(file, &whole)
}

// Adds a text with a number in the place of each `%`, and the one after in that of each `^`.
fn push_numbered(
    alloc: Global,
    whole: &mut String,
    text: &str,
    number: u32,
) -> Result<(), AllocError> {
    for mark in text.chars() {
        if mark == '%' || mark == '^' {
            let shown = if mark == '%' {
                number
            } else {
                number.saturating_add(1)
            };
            whole.push_str(format!(in alloc; "{shown}")?.as_str())?;
        } else {
            whole.push(mark)?;
        }
    }
    Ok(())
}

// A text so many times, with the number of each time, from 1.
fn repeated(alloc: Global, count: u32, text: &str) -> Result<String, AllocError> {
    let mut whole = String::new(alloc);
    let is_numbered = text.contains('%') || text.contains('^');
    for number in 1..=count {
        if is_numbered {
            push_numbered(alloc, &mut whole, text, number)?;
        } else {
            whole.push_str(text)?;
        }
    }
    Ok(whole)
}

// Lays on the desk what a paragraph says.
fn lay(desk: &mut MemoryDesk, row: &Row<'_>, paragraph: Paragraph<'_>) -> Result<(), AllocError> {
    let (verb, words) = first_word(paragraph.words);
    let own = text_of(row, paragraph)?;
    match verb {
        "most" => {
            desk.pieces(words.parse::<usize>().unwrap_or(1).max(1));
            Ok(())
        },
        "times" => {
            let (count, file) = first_word(words);
            let count = count.parse::<u32>().unwrap_or(0);
            let whole = repeated(row.alloc, count, own.as_str())?;
            put_after(row.alloc, desk, file, whole.as_str())
        },
        _ => put_after(row.alloc, desk, words, own.as_str()),
    }
}

// Lays all that a row and a run of it say on a new desk.
fn prepare(desk: &mut MemoryDesk, row: &Row<'_>, play: Play<'_>) -> Result<(), AllocError> {
    *desk = MemoryDesk::new(row.alloc);
    for paragraph in &row.given {
        lay(desk, row, *paragraph)?;
    }
    if !play.file.is_empty() {
        put_after(row.alloc, desk, play.file, play.text)?;
    }
    if play.is_mute {
        desk.fail(Fail::Write {
            port: ErrPort,
            nth: 1,
        })?;
    }
    match fail_of(play.fails) {
        Some(fail) => desk.fail(fail),
        None => Ok(()),
    }
}

// The status of a run, which leaves its desk.
fn run_on(desk: &mut MemoryDesk, row: &Row<'_>, play: Play<'_>) -> Result<u8, AllocError> {
    prepare(desk, row, play)?;
    status_of(row.alloc, desk, play.words)
}

// Whether a run has this status.
fn has_status(
    desk: &mut MemoryDesk,
    row: &Row<'_>,
    play: Play<'_>,
    status: &str,
) -> Result<bool, AllocError> {
    Ok(status.parse::<u8>() == Ok(run_on(desk, row, play)?))
}

// Whether a run has this status where the line on Err fails, which isn't written again.
fn is_mute(row: &Row<'_>, play: Play<'_>, status: &str) -> Result<bool, AllocError> {
    let mut desk = MemoryDesk::new(row.alloc);
    let mute = Play {
        is_mute: true,
        ..play
    };
    Ok(has_status(&mut desk, row, mute, status)? && desk.err().is_empty())
}

// Whether a text is this line, or where none is said this other text.
fn is_said(text: &[u8], line: &str, other: &str) -> bool {
    match text.strip_suffix(b"\n".as_slice()) {
        Some(found) if !line.is_empty() => found == line.as_bytes(),
        _ => line.is_empty() && text == other.as_bytes(),
    }
}

// Whether this line or text stands on Out where the status is 0 and else on Err, and nothing on the other.
fn says(desk: &MemoryDesk, status: &str, line: &str, other: &str) -> bool {
    if status == "0" {
        desk.err().is_empty() && is_said(desk.out(), line, other)
    } else {
        desk.out().is_empty() && is_said(desk.err(), line, other)
    }
}

// Whether a run ends with this status, and says this line, or where none is said this text.
fn ends(
    desk: &mut MemoryDesk,
    row: &Row<'_>,
    play: Play<'_>,
    words: &str,
    other: &str,
) -> Result<bool, AllocError> {
    let (status, line) = first_word(words);
    let is_said = has_status(desk, row, play, status)? && says(desk, status, line, other);
    Ok(is_said && (status == "0" || play.is_once || is_mute(row, play, status)?))
}

// Whether the words in each line after the first give this status, and the file has the first line somewhere.
fn words_end(
    desk: &mut MemoryDesk,
    row: &Row<'_>,
    words: &str,
    own: &str,
) -> Result<bool, AllocError> {
    let (status, file) = first_word(words);
    let (part, list) = own.split_once('\n').unwrap_or((own, ""));
    for words in list.lines() {
        if !has_status(desk, row, play_of(words), status)? || !is_left(desk, "has", file, part) {
            return Ok(false);
        }
    }
    Ok(true)
}

// What is in a file, on Out or on Err.
fn file_of<'d>(desk: &'d MemoryDesk, name: &str) -> Option<&'d [u8]> {
    match name {
        "out" => Some(desk.out()),
        "err" => Some(desk.err()),
        _ => desk.file(name),
    }
}

// Whether a file is left as it must be.
fn is_left(desk: &MemoryDesk, how: &str, name: &str, text: &str) -> bool {
    let Some(found) = file_of(desk, name) else {
        return how == "none";
    };
    match how {
        "left" => found == text.as_bytes(),
        "has" => match from_utf8(found) {
            Ok(found) => found.contains(text),
            Err(_) => false,
        },
        _ => false,
    }
}

// How many lines a text has; none where the last one breaks off.
fn lines_in(text: &[u8]) -> Option<u64> {
    let mut count: u64 = 0;
    let mut is_whole = true;
    for byte in text {
        is_whole = *byte == b'\n';
        if is_whole {
            count = count.saturating_add(1);
        }
    }
    if is_whole { Some(count) } else { None }
}

// Whether a file has so many lines, the first ones of a text; none where it isn't there.
fn is_front(found: Option<&[u8]>, lines: &str, text: &[u8]) -> bool {
    match found {
        Some(found) => {
            let count = lines.parse::<u64>().ok();
            text.starts_with(found) && count.is_some() && lines_in(found) == count
        },
        None => lines == "-",
    }
}

// Whether the files that a run leaves are fronts of those of a whole run.
fn are_fronts(desk: &MemoryDesk, whole: &MemoryDesk, lines: &str) -> bool {
    let mut lines = lines;
    for name in ["t", "r", "p", "out"] {
        let (count, after) = first_word(lines);
        lines = after;
        if !is_front(
            file_of(desk, name),
            count,
            file_of(whole, name).unwrap_or(&[]),
        ) {
            return false;
        }
    }
    true
}

// The line on Err of a status.
fn line_at(status: &str) -> &'static [u8] {
    match status {
        "4" => b"read fault\n",
        "5" => b"write fault\n",
        _ => b"",
    }
}

// Whether a run of which this call fails has this status, and leaves so many lines of the tests, the report, the proofs
// and Out, of those that the last run left.
fn fails_so(
    desk: &mut MemoryDesk,
    whole: &MemoryDesk,
    row: &Row<'_>,
    wanted: &str,
    fails: &str,
) -> Result<bool, AllocError> {
    let (status, lines) = first_word(wanted);
    let play = Play {
        fails,
        ..play_of(row.words)
    };
    let is_so = has_status(desk, row, play, status)? && is_mute(row, play, status)?;
    Ok(is_so && are_fronts(desk, whole, lines) && desk.err() == line_at(status))
}

// Whether each call that a line names fails as it says: the status, how many lines are left of each file, and after a
// colon the calls with their numbers.
fn line_fails_so(
    desk: &mut MemoryDesk,
    whole: &MemoryDesk,
    row: &Row<'_>,
    line: &str,
) -> Result<bool, AllocError> {
    let (wanted, calls) = line.split_once(": ").unwrap_or((line, ""));
    for fails in calls.split(", ") {
        if !fails_so(desk, whole, row, wanted, fails)? {
            return Ok(false);
        }
    }
    Ok(true)
}

fn fail_so(desk: &mut MemoryDesk, row: &Row<'_>, lines: &str) -> Result<bool, AllocError> {
    let whole = replace(desk, MemoryDesk::new(row.alloc));
    for line in lines.lines() {
        if !line_fails_so(desk, &whole, row, line)? {
            return Ok(false);
        }
    }
    Ok(true)
}

// Whether what a paragraph says of a row holds.
fn holds(
    desk: &mut MemoryDesk,
    row: &Row<'_>,
    paragraph: Paragraph<'_>,
) -> Result<bool, AllocError> {
    let (verb, words) = first_word(paragraph.words);
    let own = text_of(row, paragraph)?;
    let own = own.as_str();
    match verb {
        "ends" => ends(desk, row, play_of(row.words), words, own),
        "once" => {
            let play = Play {
                is_once: true,
                ..play_of(row.words)
            };
            ends(desk, row, play, words, own)
        },
        "with" | "each" => {
            let (file, words) = first_word(words);
            let play = Play {
                file,
                text: own,
                ..play_of(row.words)
            };
            ends(desk, row, play, words, "")
        },
        "words" => words_end(desk, row, words, own),
        "fails" => fail_so(desk, row, own),
        _ => Ok(is_left(desk, verb, words, own)),
    }
}

// Whether it holds of each line of the paragraph alone.
fn each_holds(
    desk: &mut MemoryDesk,
    row: &Row<'_>,
    paragraph: Paragraph<'_>,
) -> Result<bool, AllocError> {
    for lines in paragraph.lines.split_inclusive('\n') {
        if !holds(desk, row, Paragraph { lines, ..paragraph })? {
            return Ok(false);
        }
    }
    Ok(true)
}

// Plays a paragraph, and says whether it holds.
fn take<'a>(desk: &mut MemoryDesk, row: &mut Row<'a>, text: &'a str) -> Result<bool, AllocError> {
    let Some(paragraph) = paragraph_of(text) else {
        return Ok(text.is_empty());
    };
    let (verb, words) = first_word(paragraph.words);
    match verb {
        "#" => {},
        "text" => {
            let own = text_of(row, paragraph)?;
            row.named.push((words, own))?;
        },
        "line" => {
            let (name, line) = first_word(words);
            let own = format!(in row.alloc; "{line}\n")?;
            row.named.push((name, own))?;
        },
        "run" => {
            row.words = words;
            row.given = Vec::new(row.alloc);
        },
        "given" | "times" | "most" => row.given.push(paragraph)?,
        "each" => return each_holds(desk, row, paragraph),
        _ => return holds(desk, row, paragraph),
    }
    Ok(true)
}

// The first paragraph that doesn't hold, if one doesn't.
fn play_all<'a>(
    desk: &mut MemoryDesk,
    row: &mut Row<'a>,
    rows: &'a str,
) -> Result<Option<&'a str>, AllocError> {
    for text in rows.split('~') {
        if !take(desk, row, text)? {
            return Ok(Some(text));
        }
    }
    Ok(None)
}

/// The first paragraph of these rows that doesn't hold, if one doesn't.
pub fn first_wrong<'a>(alloc: Global, rows: &'a str) -> Result<Option<&'a str>, AllocError> {
    let mut desk = MemoryDesk::new(alloc);
    let mut row = Row {
        alloc,
        words: "",
        given: Vec::new(alloc),
        named: Vec::new(alloc),
    };
    let _ = play_all(&mut desk, &mut row, SAMPLES)?;
    play_all(&mut desk, &mut row, rows)
}
