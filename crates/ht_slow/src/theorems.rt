//! What an expanded circuit is good for. Each law is the contract of a function that does nothing.
ghost use Rattle.std.specs.Prelude.{◌≡◌, ◌<◌, ◌≤◌, ◌+◌, ◌*◌, ◌↔◌, ◌++◌, ℕ, List, [], ◌∷◌, Bool, true, false, Option, Some, None, length};
ghost use Rattle.std.specs.List.{All};
ghost use Rattle.ht_tern.specs.declared.tern.Tern.{Tern};
ghost use Rattle.ht_tern.specs.declared.tern.Tern.TheVariants.{Unk};
ghost use Rattle.ht_tern.specs.declared.gate.Kind.TheVariants.{And, Or};
ghost use Rattle.ht_tern.specs.Gate.{gate_value, tern_of};
ghost use Rattle.ht_net.specs.declared.fault.Site.{Site};
ghost use Rattle.ht_net.specs.declared.place.Place.{Place};
ghost use Rattle.ht_net.specs.declared.fault.Fault.{Fault};
ghost use Rattle.ht_net.specs.Circuit.Netlist.{Netlist, IsCircuit, net_count, pin_count, max_nets, max_pins, max_dffs};
ghost use Rattle.ht_net.specs.Frames.Frame.{run_outputs};
ghost use Rattle.ht_net.specs.Frames.Faults.{tern_rules, bool_rules};
ghost use Rattle.ht_net.specs.Detect.Detection.{DetectsFrom, IsFirstFrom, IsStart, IsState, unknown_state};
ghost use Rattle.ht_net.specs.Detect.Silence.{Silent};
ghost use Rattle.ht_net.specs.Detect.Undetectable.{IsUndetectable};
ghost use Rattle.ht_faults.specs.Sites.{IsFaultSite};
ghost use Rattle.ht_faults.specs.Classes.{SameClass};
ghost use Rattle.ht_slow.specs.Slow.{slow, slow_outputs, slow_bit_outputs};
ghost use Rattle.ht_slow.specs.SlowDetection.{DetectsSlow, IsFirstSlow};
ghost use Rattle.ht_slow.specs.LineNames.{HasNoMark};
ghost use Rattle.ht_slow.specs.Expanded.{expanded, listed_fault, slow_fault, before_of, start_over, AreLines};

/// The line of an expanded circuit shows what the line carries; with its stuck pin it shows it as a slow line.
pub fn the_line_of_an_expanded_circuit()
    ensures good { (carried before : Tern)
        → gate_value Or (carried ∷ gate_value And (carried ∷ before ∷ []) ∷ []) ≡ carried }
    ensures rise { (carried before : Tern) → gate_value Or (tern_of false
        ∷ gate_value And (carried ∷ before ∷ []) ∷ []) ≡ slow false before carried }
    ensures fall { (carried before : Tern) → gate_value Or (carried
        ∷ gate_value And (tern_of true ∷ before ∷ []) ∷ []) ≡ slow true before carried }
{}

/// The good machine of the expanded circuit shows what that of the circuit shows: in each frame, from each start,
/// whatever the new flip-flops hold.
pub fn expanded_good_machine_shows_the_same()
    ensures terns { (c : Netlist) (sites : List Site) (start befores : List Tern)
        (vectors : List (List Tern)) → IsCircuit c → AreLines c sites
        → length start ≡ length c.dffs → length befores ≡ length sites
        → run_outputs (expanded c sites) (tern_rules None) (start ++ befores) vectors
        ≡ run_outputs c (tern_rules None) start vectors }
    ensures bits { (c : Netlist) (sites : List Site) (state befores : List Bool)
        (vectors : List (List Bool)) → IsCircuit c → AreLines c sites
        → length state ≡ length c.dffs → length befores ≡ length sites
        → run_outputs (expanded c sites) (bool_rules None) (state ++ befores) vectors
        ≡ run_outputs c (bool_rules None) state vectors }
{}

/// With the listed fault of a line the expanded circuit shows what the circuit shows with that transition fault,
/// where the line carried before what its new flip-flop holds at the start.
pub fn transition_faults_are_stuck_pins()
    ensures terns { (c : Netlist) (sites : List Site) (k : ℕ) (value : Bool)
        (start befores : List Tern) (vectors : List (List Tern)) → IsCircuit c → AreLines c sites
        → k < length sites → length start ≡ length c.dffs → length befores ≡ length sites
        → run_outputs (expanded c sites) (tern_rules (Some (listed_fault c k value)))
        (start ++ befores) vectors
        ≡ slow_outputs c (slow_fault sites k value) (before_of Unk befores k) start vectors }
    ensures bits { (c : Netlist) (sites : List Site) (k : ℕ) (value : Bool)
        (state befores : List Bool) (vectors : List (List Bool)) → IsCircuit c
        → AreLines c sites → k < length sites → length state ≡ length c.dffs
        → length befores ≡ length sites
        → run_outputs (expanded c sites) (bool_rules (Some (listed_fault c k value)))
        (state ++ befores) vectors
        ≡ slow_bit_outputs c (slow_fault sites k value) (before_of false befores k) state vectors }
{}

/// A list detects the listed fault of a line at a vector and an output if and only if it detects that transition fault
/// there; so the first detections are one place.
pub fn transition_faults_are_detected_as_stuck_pins()
    ensures detected { (c : Netlist) (sites : List Site) (k : ℕ) (value : Bool) (start : List Tern)
        (list : List (List Bool)) (t o : ℕ) → IsCircuit c → AreLines c sites → k < length sites
        → IsStart c start
        → DetectsFrom (expanded c sites) (listed_fault c k value) (start_over start sites) list t o
        ↔ DetectsSlow c (slow_fault sites k value) start list t o }
    ensures first { (c : Netlist) (sites : List Site) (k : ℕ) (value : Bool) (start : List Tern)
        (list : List (List Bool)) (place : Option Place) → IsCircuit c → AreLines c sites
        → k < length sites → IsStart c start
        → IsFirstFrom (expanded c sites) (listed_fault c k value) (start_over start sites) list
        place
        → IsFirstSlow c (slow_fault sites k value) start list place }
    ensures undetectable { (c : Netlist) (sites : List Site) (k : ℕ) (value : Bool)
        (start : List Tern) → IsCircuit c → AreLines c sites → k < length sites → IsStart c start
        → IsUndetectable (expanded c sites) (listed_fault c k value) (start_over start sites)
        → (list : List (List Bool)) (t o : ℕ)
        → ¬ DetectsSlow c (slow_fault sites k value) start list t o }
{}

/// From all-unknown the expanded circuit starts all-unknown too. And where a refutation says that from a state the listed
/// fault never shows, the circuit with the slow line shows what a good one shows, whatever the line carried before.
pub fn refutations_speak_of_transition_faults()
    ensures unknown { (c : Netlist) (sites : List Site)
        → start_over (unknown_state c) sites ≡ unknown_state (expanded c sites) }
    ensures silent { (c : Netlist) (sites : List Site) (k : ℕ) (value : Bool)
        (state befores : List Bool) → IsCircuit c → AreLines c sites → k < length sites
        → IsState c state → length befores ≡ length sites
        → Silent (expanded c sites) (listed_fault c k value) (state ++ befores)
        → (list : List (List Bool)) → run_outputs c (bool_rules None) state list
        ≡ slow_bit_outputs c (slow_fault sites k value) (before_of false befores k) state list }
{}

/// Under the limits, and where no name has a `~`, the circuit with lines expanded is well formed.
pub fn expanded_circuits_are_well_formed()
    ensures { (c : Netlist) (sites : List Site) → IsCircuit c → All HasNoMark c.names
        → AreLines c sites → net_count c + 3 * length sites ≤ max_nets
        → pin_count c + 5 * length sites ≤ max_pins → length c.dffs + length sites ≤ max_dffs
        → IsCircuit (expanded c sites) }
{}

/// A listed fault stands on a fault site, and is its class by itself: its own representative.
pub fn listed_faults_stand_alone()
    ensures site { (c : Netlist) (sites : List Site) (k : ℕ) (value : Bool) → IsCircuit c
        → AreLines c sites → k < length sites
        → IsFaultSite (expanded c sites) (listed_fault c k value).site }
    ensures class { (c : Netlist) (sites : List Site) (k : ℕ) (value : Bool) (fault : Fault)
        → k < length sites → SameClass (expanded c sites) (listed_fault c k value) fault
        → fault ≡ listed_fault c k value }
{}
