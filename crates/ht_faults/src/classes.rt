//! Classes of equivalent faults.
ghost use Rattle.std.specs.Prelude.{◌≡◌, ◌<◌, ◌^◌, length, get_or, IfOk};
ghost use Rattle.ht_faults.specs.Sites.{faults_of};
ghost use Rattle.ht_faults.specs.Classes.{AreClasses, own_representatives};

use crate::fault_list::FaultList;
use crate::first_index::first_indices;
use crate::leaders::find_leaders;
use ht_net::Circuit;
use std::alloc::{AllocError, Global};
use std::marker::Model;

/// The representative of each fault of a list: the least number in its class. Faults count from 0.
#[derive(Drop)]
pub struct Classes {
    by_fault: Vec<u32>,
    // the faults that are their own representative
    own: Vec<u32>,
}

impl Model for Classes {
    ghost use Rattle.std.specs.Prelude.{ℕ, List};

    ghost Value = { List ℕ };

    ghost use Rattle.ht_faults.specs.ClassesOf.{representatives_in, AreListed};

    ghost view = { representatives_in };

    ghost invariant = { AreListed };
}

// The numbers that are their own representative.
fn own_representatives(alloc: Global, by_fault: &[u32]) -> Result<Vec<u32>, AllocError>
    requires { length by_fault.now < 2 ^ 32 }
    ensures { IfOk result (λ own. own.items ≡ own_representatives by_fault.now) }
{
    let mut own = Vec::new(alloc);
    for i in 0..by_fault.len() as u32 {
        if by_fault[i as usize] == i {
            own.push(i)?;
        }
    }
    Ok(own)
}

/// The classes of a circuit's fault list by structural equivalence (McCluskey and Clegg 1971): an input fault and an
/// output fault of a gate are equivalent where the input's stuck value decides the output, nothing collapses across a
/// flip-flop, and classes are the closure of these pairs. Its time is linear in the pins and faults of the circuit.
///
/// # Errors
///
/// `AllocError`: out of memory.
pub fn collapse(alloc: Global, circuit: &Circuit, faults: &FaultList) -> Result<Classes, AllocError>
    requires { faults.now ≡ faults_of circuit.now }
    ensures { IfOk result (λ classes. AreClasses circuit.now classes) }
{
    let leaders = find_leaders(alloc, circuit, faults)?;
    let by_fault = first_indices(alloc, &leaders)?;
    let own = own_representatives(alloc, &by_fault)?;
    Ok(Classes { by_fault, own })
}

impl Classes {
    /// How many faults there are.
    pub fn len(&self) -> u32
        ensures { result ≡ length self.now }
    {
        self.by_fault.len() as u32
    }

    /// The representative of fault `i`: the least number in its class.
    pub fn of(&self, i: u32) -> u32
        requires { i < length self.now }
        ensures { result ≡ get_or self.now i 0 }
    {
        self.by_fault[i as usize]
    }

    /// The representatives of all classes, rising: the numbers that are their own representative.
    pub fn representatives(&self) -> &[u32]
        ensures { result.now ≡ own_representatives self.now }
    {
        &self.own
    }
}
