//! What a desk has to keep.
ghost use Rattle.std.specs.Prelude.{◌<◌, List, ℕ, length, take, OnOk, OnErr, IfOk, IsTrue, IsSome};
ghost use Rattle.std.specs.Io.{ReadsAtMost, WritesAtMost};
ghost use Rattle.ht_ports.specs.Desk.{DeskView, InCall, OutCall, Reads, Writes, Opened, NotOpened, Created, NotCreated, Took, NotRead, Added, NotWritten, KeepsCounts, IsWritable};

use crate::{Failed, InPort, OutPort};

/// The files and streams that a command may touch.
///
/// Its contracts speak of one record, the desk's view: the bytes of the
/// names and the ports where the desk tells them, which ports are open or
/// created, a count of faults for each port, and whether the desk is steady. A
/// steady desk tells which names it holds, and fails only at the opening of
/// another name. A call that goes well counts no fault, and one that fails counts
/// it at its own port.
pub trait Desk {
    ghost view: { Self → DeskView };

    /// Opens the file `name` for reading from its start.
    ///
    /// # Errors
    /// `Failed` only where the port's count of faults rose; over a steady desk only
    /// where there is no file of this name.
    fn open(&mut self, port: InPort, name: &str) -> Result<(), Failed>
        ensures frame { InCall port (view self.old) (view self.new) }
        ensures opened { OnOk result (Opened port name.now (view self.old) (view self.new)) }
        ensures quiet { OnOk result (KeepsCounts (view self.old) (view self.new)) }
        ensures failed { OnErr result (NotOpened port name.now (view self.old) (view self.new)) };

    /// Makes the file `name`, or empties it. At `Out` and `Err` no file changes.
    ///
    /// # Errors
    /// `Failed` only where the port's count of faults rose; never over a steady desk.
    fn create(&mut self, port: OutPort, name: &str) -> Result<(), Failed>
        ensures frame { OutCall port (view self.old) (view self.new) }
        ensures created { OnOk result (Created port name.now (view self.old) (view self.new)) }
        ensures quiet { OnOk result (KeepsCounts (view self.old) (view self.new)) }
        ensures failed { OnErr result (NotCreated port (view self.old) (view self.new)) };

    /// Takes bytes from the front of what is left, and says how many: at a
    /// nonempty `buf` none exactly at the end.
    ///
    /// # Errors
    /// `Failed` only where the port's count of faults rose; never over a steady desk.
    fn read(&mut self, port: InPort, buf: &mut [u8]) -> Result<usize, Failed>
        requires { IsTrue ((view self.old).is_open port) }
        ensures bound { ReadsAtMost result buf.new }
        ensures frame { Reads port (view self.old) (view self.new) }
        ensures took { IfOk result
            (λ n. Took port (length buf.old) (take n buf.new) (view self.old) (view self.new)) }
        ensures quiet { OnOk result (KeepsCounts (view self.old) (view self.new)) }
        ensures failed { OnErr result (NotRead port (view self.old) (view self.new)) };

    /// Adds bytes of the front of `bytes`, and says how many: of a nonempty
    /// piece at least one.
    ///
    /// # Errors
    /// `Failed` only where the port's count of faults rose; never over a steady desk.
    fn write(&mut self, port: OutPort, bytes: &[u8]) -> Result<usize, Failed>
        requires { IsWritable (view self.old) port }
        ensures bound { WritesAtMost result bytes.now }
        ensures some { IfOk result (λ n. 0 < length bytes.now → 0 < n) }
        ensures frame { Writes port (view self.old) (view self.new) }
        ensures added { IfOk result
            (λ n. Added port (take n bytes.now) (view self.old) (view self.new)) }
        ensures quiet { OnOk result (KeepsCounts (view self.old) (view self.new)) }
        ensures failed { OnErr result (NotWritten port (view self.old) (view self.new)) };

    ghost steady_tells: { (desk : Self) (name : List ℕ) → IsTrue (view desk).steady
        → IsSome ((view desk).file name) };
}
