//! A report without its total line.
ghost use Rattle.std.specs.Prelude.{◌≡◌, IfOk};
ghost use Rattle.ht_faults.specs.Sites.{faults_of};
ghost use Rattle.ht_faults.specs.Classes.{AreClasses};
ghost use Rattle.ht_texts.specs.Verdicts.{AreSayable};
ghost use Rattle.ht_texts.specs.Reports.{report_body};

use crate::fault_line::push_fault;
use crate::head::write_head;
use crate::said::Said;
use ht_faults::{Classes, FaultList};
use ht_net::Circuit;
use std::alloc::{AllocError, Global};

/// The report without its total line, where `saids` has what is said of each fault, by its number from 0. What is
/// said of a fault that isn't its own representative has no effect.
///
/// # Errors
///
/// `AllocError`: out of memory.
pub fn write_body(
    alloc: Global,
    circuit: &Circuit,
    faults: &FaultList,
    classes: &Classes,
    budget: Option<u64>,
    saids: &[Said],
) -> Result<Vec<u8>, AllocError>
    requires faults { faults.now ≡ faults_of circuit.now }
    requires classes { AreClasses circuit.now classes.now }
    requires saids { AreSayable circuit.now classes.now saids.now }
    ensures { IfOk result
        (λ body. body.items ≡ report_body circuit.now classes.now budget saids.now) }
{
    let mut body = write_head(alloc, circuit, classes, budget)?;
    for i in 0..faults.len() {
        push_fault(&mut body, circuit, faults, classes, i, saids[i as usize])?;
    }
    Ok(body)
}
