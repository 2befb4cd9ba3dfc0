//! The whole list of single stuck-at faults of a circuit, and classes of equivalent ones.
//!
//! A fault stands on a site: the stem of a net, or a pin that a fanout net drives (one with two or more loads, where an
//! output mark is a load and no site). `list` gives stems by net, then data pins by flip-flop, then gate pins by gate
//! and pin, each site with stuck-at-0 and then stuck-at-1. The definition, `specs/Sites.antt`, filters all lines; the
//! code walks the circuit's counts of loads.
//!
//! Structural equivalence collapsing (E. J. McCluskey, F. W. Clegg, "Fault Equivalence in Combinational Logic
//! Networks", 1971): an input fault and an output fault of one gate are equivalent where the input's stuck value
//! decides the output (`specs/Table.antt`); classes are the closure of these pairs (`specs/Classes.antt`), which the
//! code never builds. `collapse` gives the representative of each fault, the least number of its class.
//! `members_run_alike` says what a class is for: its members give equal outputs and equal states in every run, so one
//! of them stands for all.
//!
//! How it is found: each line feeds at most one gate, so a fault has at most one equivalent fault one gate further.
//! Gates are taken from the outputs back, and each fault is led to the last fault of its chain, its leader (`stems`,
//! `leaders`); the first index of each leader is the representative (`first_index`).
#![tactic(auto)]

mod class_theorems;
mod classes;
mod fault_list;
mod first_index;
mod leaders;
mod sites;
mod stems;
mod table;
mod theorems;

pub use class_theorems::{
    classes_are_determined, members_run_alike, representatives_stand_for_members,
};
pub use classes::{Classes, collapse};
pub use fault_list::{FaultList, list};
pub use sites::has_fanout;
pub use theorems::{
    each_fault_is_listed_once, exactly_the_sites_are_listed, fault_list_is_short,
    listed_faults_stand_on_sites,
};
