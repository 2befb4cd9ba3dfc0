//! The line of one fault in a report.
ghost use Rattle.std.specs.Prelude.{◌≡◌, ◌<◌, ◌++◌, true, length, IfOk, OnOk};
ghost use Rattle.ht_faults.specs.Sites.{faults_of};
ghost use Rattle.ht_faults.specs.Classes.{AreClasses, is_representative};
ghost use Rattle.ht_texts.specs.Lines.{with_lf};
ghost use Rattle.ht_texts.specs.Pieces.{add_pieces};
ghost use Rattle.ht_texts.specs.Sites.{IsSite};
ghost use Rattle.ht_texts.specs.Verdicts.{IsSayable};
ghost use Rattle.ht_texts.specs.Reports.{fault_pieces, line_front, outcome_pieces, fault_line};

use crate::number::push_number;
use crate::said::{Said, push_verdict};
use crate::site::push_site;
use crate::vector::character_of;
use ht_faults::{Classes, FaultList};
use ht_net::{Circuit, Fault};
use std::alloc::{AllocError, Global};

/// The line, with its LF, of fault `i` of the list, from 0: its number from 1, its site, its value and, for the
/// representative of a class, what is said of it, as `17 G17 s-a-0 detected 1 G17`. The line of another fault has the
/// number of its representative, from 1, as `8 n(1) s-a-1 as 3`, and `said` has no effect.
///
/// # Errors
///
/// `AllocError`: out of memory.
pub fn write_fault(
    alloc: Global,
    circuit: &Circuit,
    faults: &FaultList,
    classes: &Classes,
    i: u32,
    said: Said,
) -> Result<Vec<u8>, AllocError>
    requires faults { faults.now ≡ faults_of circuit.now }
    requires classes { AreClasses circuit.now classes.now }
    requires fault { i < length faults.now }
    requires sayable { is_representative classes.now i ≡ true → IsSayable circuit.now said }
    ensures { IfOk result
        (λ line. line.items ≡ with_lf (fault_line circuit.now classes.now i said)) }
{
    let mut line = Vec::new(alloc);
    push_fault(&mut line, circuit, faults, classes, i, said)?;
    Ok(line)
}

/// Appends the line that `write_fault` gives.
///
/// # Errors
///
/// `AllocError`: out of memory. The text may hold a part of the line.
pub fn push_fault(
    text: &mut Vec<u8>,
    circuit: &Circuit,
    faults: &FaultList,
    classes: &Classes,
    i: u32,
    said: Said,
) -> Result<(), AllocError>
    requires faults { faults.now ≡ faults_of circuit.now }
    requires classes { AreClasses circuit.now classes.now }
    requires fault { i < length faults.now }
    requires sayable { is_representative classes.now i ≡ true → IsSayable circuit.now said }
    ensures { OnOk result
        (text.new.items ≡ text.old.items ++ with_lf (fault_line circuit.now classes.now i said)) }
{
    push_line_front(text, circuit, faults, i)?;
    push_outcome(text, circuit, classes, i, said)?;
    text.extend_from_slice(b"\n")?;
    Ok(())
}

/// Appends what the line of fault `i` of the list begins with, from 0: its number from 1, its site and its value, as
/// `17 G17 s-a-0 ` with the space.
///
/// # Errors
///
/// `AllocError`: out of memory. The text may hold a part of it.
pub fn push_line_front(
    text: &mut Vec<u8>,
    circuit: &Circuit,
    faults: &FaultList,
    i: u32,
) -> Result<(), AllocError>
    requires faults { faults.now ≡ faults_of circuit.now }
    requires fault { i < length faults.now }
    ensures { OnOk result
        (text.new.items ≡ add_pieces text.old.items (line_front circuit.now i)) }
{
    push_number(text, u64::from(i) + 1)?;
    text.extend_from_slice(b" ")?;
    push_stuck_line(text, circuit, faults.get(i))?;
    text.extend_from_slice(b" ")?;
    Ok(())
}

// Appends the site of a fault and the value that it is stuck at.
fn push_stuck_line(text: &mut Vec<u8>, circuit: &Circuit, fault: Fault) -> Result<(), AllocError>
    requires { IsSite circuit.now fault.site }
    ensures { OnOk result
        (text.new.items ≡ add_pieces text.old.items (fault_pieces circuit.now fault)) }
{
    push_site(text, circuit, fault.site)?;
    text.extend_from_slice(b" s-a-")?;
    text.extend_from_slice(&[character_of(fault.value)])
}

// Appends what the report says of fault `i`: the verdict of a representative, or the representative of another fault.
fn push_outcome(
    text: &mut Vec<u8>,
    circuit: &Circuit,
    classes: &Classes,
    i: u32,
    said: Said,
) -> Result<(), AllocError>
    requires fault { i < length classes.now }
    requires sayable { is_representative classes.now i ≡ true → IsSayable circuit.now said }
    ensures { OnOk result
        (text.new.items
        ≡ add_pieces text.old.items (outcome_pieces circuit.now classes.now i said)) }
{
    let representative = classes.of(i);
    if representative == i {
        return push_verdict(text, circuit, said);
    }
    text.extend_from_slice(b"as ")?;
    push_number(text, u64::from(representative) + 1)
}
