//! The words of a refusal.
ghost use Rattle.std.specs.Prelude.{◌≡◌, ◌++◌, codes, is_ok};
ghost use Rattle.ht_ports.specs.Desk.{Wrote};
ghost use Rattle.ht_ports.specs.Numbered.{numbered};
ghost use Rattle.ht_ports.specs.declared.ports.OutPort.TheVariants as out_port;
ghost use Rattle.ht_bench.specs.RefusalText.{limit_text, loop_text, at_line, refusal_text};

use crate::BenchError;
use ht_items::Items;
use ht_net::Limit;
use ht_ports::{Desk, Failed, OutPort, write_all, write_numbered, write_pair};

fn limit_text(limit: Limit) -> &'static [u8]
    ensures { result.now ≡ limit_text limit }
{
    match limit {
        Limit::Nets => b"too many nets",
        Limit::Pins => b"too many pins",
        Limit::Inputs => b"too many inputs",
        Limit::Dffs => b"too many flip-flops",
    }
}

// Writes the line that is refused.
fn write_line<D: Desk>(desk: &mut D, line: u32) -> Result<(), Failed>
    ensures { Wrote out_port.Err (numbered (codes "line ") line (codes ": ")) (is_ok result)
        (D.view desk.old) (D.view desk.new) }
{
    write_numbered(desk, OutPort::Err, b"line ", u64::from(line), b": ")
}

// Writes a line and a cause.
fn write_cause<D: Desk>(desk: &mut D, line: u32, cause: &[u8]) -> Result<(), Failed>
    ensures { Wrote out_port.Err (at_line line cause.now) (is_ok result) (D.view desk.old)
        (D.view desk.new) }
{
    write_line(desk, line)?;
    write_all(desk, OutPort::Err, cause)
}

// Writes a line and a cause that ends with the name of a net.
fn write_named<D: Desk>(desk: &mut D, line: u32, cause: &[u8], name: &[u8]) -> Result<(), Failed>
    ensures { Wrote out_port.Err (at_line line (cause.now ++ name.now)) (is_ok result)
        (D.view desk.old) (D.view desk.new) }
{
    write_line(desk, line)?;
    write_pair(desk, OutPort::Err, cause, name)
}

// Writes the names of a cycle, each after one space.
fn write_names<D: Desk>(desk: &mut D, names: &[Items<u8>]) -> Result<(), Failed>
    ensures { Wrote out_port.Err (loop_text names.now) (is_ok result) (D.view desk.old)
        (D.view desk.new) }
{
    for name in names {
        write_pair(desk, OutPort::Err, b" ", name.as_slice())?;
    }
    Ok(())
}

fn write_loop<D: Desk>(desk: &mut D, line: u32, names: &[Items<u8>]) -> Result<(), Failed>
    ensures { Wrote out_port.Err (at_line line (codes "loop" ++ loop_text names.now))
        (is_ok result) (D.view desk.old) (D.view desk.new) }
{
    write_line(desk, line)?;
    write_all(desk, OutPort::Err, b"loop")?;
    write_names(desk, names)
}

/// Writes on Err why a text is no netlist, with no LF: for example `line 3: second driver G5` or
/// `line 7: loop G8 G9`. It takes no memory.
///
/// # Errors
/// `Failed` as `write_all`: a proper front of the words was written.
pub fn write_refusal<D: Desk>(desk: &mut D, error: &BenchError) -> Result<(), Failed>
    ensures { Wrote out_port.Err (refusal_text error.now) (is_ok result) (D.view desk.old)
        (D.view desk.new) }
{
    match error {
        BenchError::BadLine { line } => write_cause(desk, *line, b"bad line"),
        BenchError::BadName { line } => write_cause(desk, *line, b"bad name"),
        BenchError::BadKind { line } => write_cause(desk, *line, b"bad kind"),
        BenchError::BadCount { line } => write_cause(desk, *line, b"bad count"),
        BenchError::Twice { line, name } => {
            write_named(desk, *line, b"second driver ", name.as_slice())
        }
        BenchError::TooMany { line, what } => write_cause(desk, *line, limit_text(*what)),
        BenchError::Undriven { line, name } => {
            write_named(desk, *line, b"undriven ", name.as_slice())
        }
        BenchError::Loop { line, names } => write_loop(desk, *line, names.as_slice()),
        BenchError::NoMemory => write_all(desk, OutPort::Err, b"out of memory"),
    }
}
