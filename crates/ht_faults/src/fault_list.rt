//! The fault list.
ghost use Rattle.std.specs.Prelude.{◌≡◌, ◌<◌, length, get_or, IfOk};
ghost use Rattle.ht_faults.specs.Sites.{site_faults};
ghost use Rattle.ht_faults.specs.Sites.{faults_of};
ghost use Rattle.ht_faults.specs.FaultList.{no_fault};

use crate::sites::find_sites;
use ht_net::{Circuit, Fault, Site};
use std::alloc::{AllocError, Global};
use std::marker::Model;

/// The faults of a circuit, in order. Faults count from 0.
#[derive(Drop)]
pub struct FaultList {
    // the site of every two faults
    sites: Vec<Site>,
}

impl Model for FaultList {
    ghost use Rattle.std.specs.Prelude.{List};
    ghost use Rattle.ht_net.specs.declared.fault.Fault.{Fault};

    ghost Value = { List Fault };

    ghost use Rattle.ht_faults.specs.FaultList.{faults_at, IsShort};

    ghost view = { faults_at };

    ghost invariant = { IsShort };
}

/// The whole fault list of a circuit: stems by net, then data pins by flip-flop, then gate pins by gate and pin,
/// where a pin is listed if the net that drives it has two or more loads. Each site has stuck-at-0 and then
/// stuck-at-1.
///
/// # Errors
/// Out of memory.
#[tactic(auto, using(crate::proofs::ListLaws::faults_count, crate::proofs::SiteLaws::sites_few))]
pub fn list(alloc: Global, circuit: &Circuit) -> Result<FaultList, AllocError>
    ensures { IfOk result (λ faults. faults ≡ faults_of circuit.now) }
{
    let sites = find_sites(alloc, circuit)?;
    Ok(FaultList { sites })
}

/// A fault of a site: the first is stuck-at-0, and the second is stuck-at-1.
fn fault_of(site: Site, k: u32) -> Fault
    requires { k < 2 }
    ensures { result ≡ get_or (site_faults site) k no_fault }
{
    Fault {
        site,
        value: k == 1,
    }
}

impl FaultList {
    /// How many faults there are.
    #[tactic(auto, using(crate::proofs::ListLaws::faults_count))]
    pub fn len(&self) -> u32
        ensures { result ≡ length self.now }
    {
        2 * self.sites.len() as u32
    }

    /// The fault at place i, from 0.
    pub fn get(&self, i: u32) -> Fault
        requires { i < length self.now }
        ensures { result ≡ get_or self.now i no_fault }
    {
        fault_of(self.sites[i as usize / 2], i % 2)
    }
}
