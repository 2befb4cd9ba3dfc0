//! Texts that are written in pieces.
ghost use Rattle.std.specs.Prelude.{◌++◌, is_ok};
ghost use Rattle.ht_ports.specs.Desk.{Wrote, IsWritable};
ghost use Rattle.ht_ports.specs.Numbered.{numbered};

use crate::{Desk, Failed, OutPort, write_all};
use itoa::Buffer;

/// Writes two pieces, one after the other. It takes no memory.
///
/// # Errors
/// `Failed` as `write_all`: a proper front of both was written.
pub fn write_pair<D: Desk>(
    desk: &mut D,
    port: OutPort,
    front: &[u8],
    back: &[u8],
) -> Result<(), Failed>
    requires { IsWritable (D.view desk.old) port }
    ensures { Wrote port (front.now ++ back.now) (is_ok result) (D.view desk.old)
        (D.view desk.new) }
{
    write_all(desk, port, front)?;
    write_all(desk, port, back)
}

/// Writes a number between two pieces. It takes no memory.
///
/// # Errors
/// `Failed` as `write_all`: a proper front of the whole was written.
pub fn write_numbered<D: Desk>(
    desk: &mut D,
    port: OutPort,
    front: &[u8],
    number: u64,
    back: &[u8],
) -> Result<(), Failed>
    requires { IsWritable (D.view desk.old) port }
    ensures { Wrote port (numbered front.now number back.now) (is_ok result) (D.view desk.old)
        (D.view desk.new) }
{
    let mut buffer = Buffer::new();
    write_all(desk, port, front)?;
    write_pair(desk, port, buffer.format(number).as_bytes(), back)
}
