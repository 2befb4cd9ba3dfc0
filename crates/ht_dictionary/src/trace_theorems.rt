//! What a trace means: it shows what `respond` shows, and there is one. Each theorem is the contract of a function that
//! does nothing.
ghost use Rattle.std.specs.Prelude.{◌≡◌, List, Bool, Option};
ghost use Rattle.ht_tern.specs.declared.tern.Tern.{Tern};
ghost use Rattle.ht_net.specs.declared.fault.Fault.{Fault};
ghost use Rattle.ht_net.specs.Circuit.Netlist.{Netlist, IsCircuit};
ghost use Rattle.ht_net.specs.Detect.Detection.{outputs_from};
ghost use Rattle.ht_dictionary.specs.Traces.{IsTrace, outputs_in};

/// The values of a trace at the nets of the outputs, in the order of the outputs, are what the machine shows.
pub fn traces_show_outputs()
    ensures { (c : Netlist) (fault : Option Fault) (start : List Tern) (list : List (List Bool))
        (rows : List (List Tern)) → IsCircuit c → IsTrace c fault start list rows
        → outputs_in c rows ≡ outputs_from c fault start list }
{}

/// A machine has one trace over a list of vectors from a start.
pub fn traces_are_determined()
    ensures { (c : Netlist) (fault : Option Fault) (start : List Tern) (list : List (List Bool))
        (a b : List (List Tern)) → IsTrace c fault start list a → IsTrace c fault start list b
        → a ≡ b }
{}
