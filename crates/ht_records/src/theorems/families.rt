//! What a family that closes means. It is the contract of a function that does nothing.
ghost use Rattle.std.specs.Prelude.{◌<◌, ℕ, List, Bool, [], Some, None, length, get_or};
ghost use Rattle.ht_tern.specs.declared.tern.Tern.{Tern};
ghost use Rattle.ht_tern.specs.declared.tern.Tern.TheVariants.{Unk};
ghost use Rattle.ht_pairs.specs.Pairs.{IsMember, pair};
ghost use Rattle.ht_net.specs.declared.fault.Fault.{Fault};
ghost use Rattle.ht_net.specs.Circuit.Netlist.{Netlist};
ghost use Rattle.ht_net.specs.Detect.Detection.{Detects, DetectsFrom, IsStart, state_from};
ghost use Rattle.ht_tree.specs.Record.Reached.{AreVectors};
ghost use Rattle.ht_tree.specs.Record.ClosedFamilies.{Closes, Family};

/// Where a family closes for a fault and a start, the pair of each latch of the good and of the faulty machine is in
/// its set after every list of vectors, and no list detects the fault: from the start, or from all-unknown.
pub fn closed_families_hold_all_runs()
    ensures latches { (c : Netlist) (fault : Fault) (start : List Tern) (family : Family)
        → Closes c fault start family → IsStart c start → (list : List (List Bool))
        → AreVectors c list → (j : ℕ) → j < length c.dffs
        → IsMember (pair (get_or (state_from c None start list) j Unk)
        (get_or (state_from c (Some fault) start list) j Unk)) (get_or family j []) }
    ensures from_start { (c : Netlist) (fault : Fault) (start : List Tern) (family : Family)
        → Closes c fault start family → IsStart c start → (list : List (List Bool)) (t o : ℕ) → ¬ DetectsFrom c fault start list t o }
    ensures from_unknown { (c : Netlist) (fault : Fault) (start : List Tern) (family : Family)
        → Closes c fault start family → IsStart c start → (list : List (List Bool)) (t o : ℕ) → ¬ Detects c fault list t o }
{}
