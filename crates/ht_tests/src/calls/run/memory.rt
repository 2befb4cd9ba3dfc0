//! Refused memory. In the gate no allocation is refused; outside it these tests run with each of their allocations
//! refused in turn (`rt try --test --fail-alloc N`, and `model/refused --desk`).
ghost use Rattle.ht_desks.specs.Memory.{memory_view};
ghost use Rattle.ht_ports.specs.PerPort.{at_out_port};

use super::rows::{status_of, words_of};
use ht_app::run;
use ht_desks::MemoryDesk;
use ht_ports::{Desk, Failed, InPort, OutPort, PerOutPort, count_out_fault};
use std::alloc::{AllocError, Global};
use std::test::Fail;

/// A memory desk whose standard error takes nothing: each write to it is a counted fault.
#[derive(Drop)]
struct MuteDesk {
    inner: MemoryDesk,
    out_faults: PerOutPort<u64>,
    /// A call on another out-port failed.
    output_failed: bool,
}

impl Desk for MuteDesk {
    ghost use Rattle.std.proofs.Common.{rules};

    ghost view = { λ d. record (memory_view d.inner) { out_faults = at_out_port d.out_faults } };

    ghost steady_tells = { λ desk name steady. Prim.search rules };

    fn open(&mut self, port: InPort, name: &str) -> Result<(), Failed> {
        self.inner.open(port, name)
    }

    fn create(&mut self, port: OutPort, name: &str) -> Result<(), Failed> {
        match self.inner.create(port, name) {
            Ok(()) => Ok(()),
            Err(Failed) => {
                self.output_failed = true;
                Err(count_out_fault(&mut self.out_faults, port))
            }
        }
    }

    fn read(&mut self, port: InPort, buf: &mut [u8]) -> Result<usize, Failed> {
        self.inner.read(port, buf)
    }

    fn write(&mut self, port: OutPort, bytes: &[u8]) -> Result<usize, Failed> {
        if port != OutPort::Err {
            if let Ok(count) = self.inner.write(port, bytes) {
                return Ok(count);
            }
            self.output_failed = true;
        }
        Err(count_out_fault(&mut self.out_faults, port))
    }
}

const SIM: &str = "sim n t r";

const REPORT: &[u8] = b"circuit inputs 1 outputs 1 flip-flops 0 gates 0 faults 2 classes 2
1 a s-a-0 detected 1 a
2 a s-a-1 undetected
total 2 detected 1
";

// Puts the files on the desk that the words name.
fn load(desk: &mut MemoryDesk) -> Result<(), AllocError> {
    desk.put("n", b"INPUT(a)\nOUTPUT(a)\n")?;
    desk.put("t", b"1\n")
}

/// The line on Err where calls or memory may be refused; a desk in memory counts a refused growth as a fault.
fn line_at(status: u8) -> Option<&'static [u8]> {
    match status {
        0 => Some(b""),
        4 => Some(b"read fault\n"),
        5 => Some(b"write fault\n"),
        6 => Some(b"no memory\n"),
        _ => None,
    }
}

// Whether the run says its status in its line, and leaves the report where it finishes.
fn says_status(alloc: Global, desk: &mut MemoryDesk) -> Result<bool, AllocError> {
    load(desk)?;
    let status = status_of(alloc, desk, SIM)?;
    let is_whole = status != 0 || desk.file("r") == Some(REPORT);
    Ok(is_whole && line_at(status) == Some(desk.err()))
}

#[test]
fn refused_memory_has_its_status(rt: HostRuntime) -> Result<(), Fail> {
    let mut desk = MemoryDesk::new(rt.alloc());
    assert!(rt; says_status(rt.alloc(), &mut desk)?);
    Ok(())
}

// Whether the status is that of a failed write exactly where a write of the output failed, and not where that of the
// line on Err did.
fn keeps_status(alloc: Global, desk: &mut MuteDesk) -> Result<bool, AllocError> {
    load(&mut desk.inner)?;
    let words = words_of(alloc, SIM)?;
    let status = run(alloc, &words, desk);
    let is_whole = status != 0 || desk.inner.file("r") == Some(REPORT);
    Ok(is_whole && (status == 5) == desk.output_failed && line_at(status).is_some())
}

#[test]
fn refused_memory_on_a_mute_desk_keeps_its_status(rt: HostRuntime) -> Result<(), Fail> {
    let mut desk = MuteDesk {
        inner: MemoryDesk::new(rt.alloc()),
        out_faults: PerOutPort::empty(),
        output_failed: false,
    };
    assert!(rt; keeps_status(rt.alloc(), &mut desk)?);
    Ok(())
}
