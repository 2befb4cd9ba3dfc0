//! What stands in the fault list. Each theorem is the contract of a function that does nothing.
ghost use Rattle.std.specs.Prelude.{◌≡◌, ◌≢◌, ◌<◌, ◌≤◌, ◌*◌, ◌↔◌, ℕ, length, get_or};
ghost use Rattle.std.specs.List.{Contains};
ghost use Rattle.ht_net.specs.declared.fault.Site.{Site};
ghost use Rattle.ht_net.specs.Circuit.Netlist.{Netlist, IsCircuit};
ghost use Rattle.ht_faults.specs.Sites.{IsFaultSite, sites_of, faults_of};
ghost use Rattle.ht_faults.specs.FaultList.{no_fault};

/// Exactly the sites of a circuit are listed: stems, and pins that a fanout net drives.
#[tactic(auto, using(crate::proofs::MemberLaws::sites_listed))]
pub fn exactly_the_sites_are_listed()
    ensures { (c : Netlist) (site : Site) → Contains (sites_of c) site ↔ IsFaultSite c site }
{}

/// Every fault of the list stands on a site of the circuit.
#[tactic(auto, using(crate::proofs::MemberLaws::fault_site))]
pub fn listed_faults_stand_on_sites()
    ensures { (c : Netlist) (i : ℕ) → i < length (faults_of c)
        → IsFaultSite c (get_or (faults_of c) i no_fault).site }
{}

/// No fault is listed twice.
pub fn each_fault_is_listed_once()
    ensures { (c : Netlist) (i j : ℕ) → i < j → j < length (faults_of c)
        → get_or (faults_of c) i no_fault ≢ get_or (faults_of c) j no_fault }
{}

/// A circuit has two faults for each site, and fewer than a million, since it has few nets and pins.
#[tactic(auto, using(crate::proofs::ListLaws::faults_count, crate::proofs::SiteLaws::sites_few))]
pub fn fault_list_is_short()
    ensures two { (c : Netlist) → length (faults_of c) ≡ 2 * length (sites_of c) }
    ensures few { (c : Netlist) → IsCircuit c → length (faults_of c) ≤ 655358 }
{}
