//! One line of a search's report, read.
ghost use Rattle.std.specs.Prelude.{◌≡◌};
ghost use Rattle.ht_faults.specs.Sites.{faults_of};
ghost use Rattle.ht_faults.specs.Classes.{AreClasses};
ghost use Rattle.ht_texts.specs.ReportLines.{FindsItem};

use crate::item::Item;
use crate::read_fault::read_fault;
use crate::read_head::read_head;
use crate::read_total::is_total;
use crate::total::Sums;
use ht_faults::{Classes, FaultList};
use ht_net::Circuit;

// What line `n` says, from 0, where the lines before have these sums, or `None` where no report of a search has it
// there.
pub fn read_line(
    circuit: &Circuit,
    faults: &FaultList,
    classes: &Classes,
    n: u64,
    sums: Sums,
    line: &[u8],
) -> Option<Item>
    requires faults { faults.now ≡ faults_of circuit.now }
    requires classes { AreClasses circuit.now classes.now }
    ensures { FindsItem circuit.now classes.now n sums line.now result }
{
    if n == 0 {
        let budget = read_head(circuit, classes, line)?;
        return Some(Item::Head { budget });
    }
    if n <= u64::from(faults.len()) {
        return read_fault(circuit, faults, classes, (n - 1) as u32, line);
    }
    if n == u64::from(faults.len()) + 1 && is_total(line, sums) {
        Some(Item::Total)
    } else {
        None
    }
}
