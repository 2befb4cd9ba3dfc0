//! Whole texts.
ghost use Rattle.std.specs.Prelude.{◌≡◌, ◌<◌, ◌≤◌, length, is_ok, IfOk, IfErr, IsTrue};
ghost use Rattle.ht_ports.specs.Desk.{Reads, Wrote, IsWritable, TookAll};
ghost use Rattle.ht_ports.specs.ReadErrors.{ReadHasCause};
ghost use Rattle.ht_ports.specs.declared.whole_text.ReadFault.TheVariants.{NoMemory};
ghost use Rattle.ht_ports.specs.declared.whole_text.ReadFault.TheVariants as fault;

use crate::{Desk, Failed, InPort, OutPort};
use std::alloc::{AllocError, Global};
use thiserror::Error;

/// Why a text isn't read.
#[derive(Clone, Copy, Debug, PartialEq, Eq, Error)]
pub enum ReadFault {
    /// A read failed; the port's count of faults rose.
    #[error("the desk failed")]
    Failed,
    /// More bytes than the limit came.
    #[error("more than {limit} bytes")]
    TooLong { limit: u64 },
    /// There was no memory for the text.
    #[error("out of memory")]
    NoMemory,
}

impl From<AllocError> for ReadFault {
    ghost from_gives = { λ _ e. e ≡ NoMemory };

    fn from(_: AllocError) -> Self {
        ReadFault::NoMemory
    }
}

impl From<Failed> for ReadFault {
    ghost from_gives = { λ _ e. e ≡ fault.Failed };

    fn from(_: Failed) -> Self {
        ReadFault::Failed
    }
}

/// Adds all of `bytes`. It takes no memory.
///
/// # Errors
/// `Failed` where the port's count of faults rose, and never over a steady
/// desk; a proper prefix of the bytes was added then.
pub fn write_all<D: Desk>(desk: &mut D, port: OutPort, bytes: &[u8]) -> Result<(), Failed>
    requires { IsWritable (D.view desk.old) port }
    ensures { Wrote port bytes.now (is_ok result) (D.view desk.old) (D.view desk.new) }
{
    let mut done = 0;
    while done < bytes.len() {
        done += desk.write(port, &bytes[done..])?;
    }
    Ok(())
}

/// All bytes that are left, if these are at most `limit`.
///
/// # Errors
/// `Failed` only where the port's count of faults rose, and never over a
/// steady desk; `TooLong` exactly where more bytes than the limit came;
/// `NoMemory`.
pub fn read_all<D: Desk>(
    alloc: Global,
    desk: &mut D,
    port: InPort,
    limit: u64,
) -> Result<Vec<u8>, ReadFault>
    requires { IsTrue ((D.view desk.old).is_open port) }
    ensures frame { Reads port (D.view desk.old) (D.view desk.new) }
    ensures all { IfOk result
        (λ bytes. TookAll port bytes.items (D.view desk.old) (D.view desk.new)) }
    ensures within { IfOk result (λ bytes. length bytes.items ≤ limit) }
    ensures cause { IfErr result (ReadHasCause port limit (D.view desk.old) (D.view desk.new)) }
{
    let mut bytes = Vec::new(alloc);
    let mut piece = [0; 4096];
    while bytes.len() as u64 <= limit {
        let count = desk.read(port, &mut piece)?;
        if count == 0 {
            return Ok(bytes);
        }
        bytes.extend_from_slice(&piece[..count])?;
    }
    Err(ReadFault::TooLong { limit })
}
