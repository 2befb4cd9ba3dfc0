//! The laws of forced nets. Each is the contract of a function that does nothing.
ghost use Rattle.std.specs.Prelude.{◌≡◌, ◌<◌, ◌+◌, ℕ, List, Bool, None, Some};
ghost use Rattle.ht_tern.specs.declared.tern.Tern.{Tern};
ghost use Rattle.ht_tern.specs.Gate.{tern_of};
ghost use Rattle.ht_net.specs.declared.net.NetId.{NetId};
ghost use Rattle.ht_net.specs.declared.fault.Site.TheVariants.{DffPin, GatePin, Stem};
ghost use Rattle.ht_net.specs.declared.fault.Fault.{Fault};
ghost use Rattle.ht_net.specs.Circuit.Netlist.{Netlist, first_gate_net, net_count, IsCircuit};
ghost use Rattle.ht_net.specs.Frames.Frame.{gate_output};
ghost use Rattle.ht_net.specs.Frames.Faults.{tern_rules};
ghost use Rattle.ht_stems.specs.declared.arrival.Arrival.{Arrival};
ghost use Rattle.ht_stems.specs.declared.arrival.Arrival.TheVariants.{AtLatch, AtOutput};
ghost use Rattle.ht_stems.specs.declared.net_loads.NetLoads.TheVariants.{NoLoad, OneGate, OneDataPin, OneOutput};
ghost use Rattle.ht_stems.specs.ForcedNets.{net_forced, with_net_value};
ghost use Rattle.ht_stems.specs.LoadsOfNets.{HasLoads};
ghost use Rattle.ht_stems.specs.Arrivals.{Arrives, FaultArrives, HasLine, IsStuckAlready};
ghost use Rattle.ht_stems.specs.ArrivedFrames.{AreGoodValues, ShowSame, ShowsArrival};

/// A frame with a net forced to the value that it has is the good frame.
pub fn own_value_changes_nothing()
    ensures { (c : Netlist) (vector latches : List Tern) (good : ℕ → Tern) (x : ℕ) → IsCircuit c
        → AreGoodValues c vector latches good → x < net_count c
        → ShowSame c (net_forced (tern_rules None) x (good x)) (tern_rules None) vector latches }
{}

/// A frame in which a stuck line carries its stuck value already is the good frame.
pub fn stuck_line_with_its_value_changes_nothing()
    ensures { (c : Netlist) (vector latches : List Tern) (good : ℕ → Tern) (fault : Fault)
        → IsCircuit c → AreGoodValues c vector latches good → HasLine c fault.site
        → IsStuckAlready c good fault
        → ShowSame c (tern_rules (Some fault)) (tern_rules None) vector latches }
{}

/// A net that is forced to a bit is a net whose stem is stuck at it.
pub fn forced_stem_is_the_stem_fault()
    ensures { (c : Netlist) (vector latches : List Tern) (x : NetId) (bit : Bool)
        → ShowSame c (tern_rules (Some (record { site = Stem x; value = bit })))
        (net_forced (tern_rules None) x.0 (tern_of bit)) vector latches }
{}

/// A fault at a pin of a gate is the gate's net forced to what the gate gives with the pin stuck.
pub fn pin_fault_is_a_forced_net()
    ensures { (c : Netlist) (vector latches : List Tern) (good : ℕ → Tern) (g i : ℕ) (bit : Bool)
        → IsCircuit c → AreGoodValues c vector latches good → HasLine c (GatePin g i)
        → ShowSame c (tern_rules (Some (record { site = GatePin g i; value = bit })))
        (net_forced (tern_rules None) (first_gate_net c + g)
        (gate_output c (tern_rules (Some (record { site = GatePin g i; value = bit }))) good g))
        vector latches }
{}

/// A fault at a data pin changes only that latch.
pub fn data_pin_fault_is_one_latch()
    ensures { (c : Netlist) (vector latches : List Tern) (j : ℕ) (bit : Bool)
        → IsCircuit c → HasLine c (DffPin j)
        → ShowsArrival c (tern_rules (Some (record { site = DffPin j; value = bit })))
        vector latches (AtLatch j (tern_of bit)) }
{}

/// To force a net that only one pin of a gate reads is to force the gate's net to what the gate then gives.
pub fn forced_net_goes_on_through_its_only_gate()
    ensures { (c : Netlist) (vector latches : List Tern) (good : ℕ → Tern) (x g : ℕ) (v : Tern)
        → IsCircuit c → AreGoodValues c vector latches good → x < net_count c
        → HasLoads c x (OneGate g)
        → ShowSame c (net_forced (tern_rules None) x v)
        (net_forced (tern_rules None) (first_gate_net c + g)
        (gate_output c (tern_rules None) (with_net_value good x v) g)) vector latches }
{}

/// To force a net that only one data pin reads is to change that latch.
pub fn forced_net_comes_to_its_only_latch()
    ensures { (c : Netlist) (vector latches : List Tern) (x j : ℕ) (v : Tern)
        → IsCircuit c → x < net_count c → HasLoads c x (OneDataPin j)
        → ShowsArrival c (net_forced (tern_rules None) x v) vector latches (AtLatch j v) }
{}

/// To force a net that is an output and that nothing reads is to change that output.
pub fn forced_net_comes_to_its_only_output()
    ensures { (c : Netlist) (vector latches : List Tern) (x o : ℕ) (v : Tern)
        → IsCircuit c → x < net_count c → HasLoads c x (OneOutput o)
        → ShowsArrival c (net_forced (tern_rules None) x v) vector latches (AtOutput o v) }
{}

/// To force a net without a load changes nothing.
pub fn forced_net_without_load_changes_nothing()
    ensures { (c : Netlist) (vector latches : List Tern) (x : ℕ) (v : Tern)
        → IsCircuit c → x < net_count c → HasLoads c x NoLoad
        → ShowSame c (net_forced (tern_rules None) x v) (tern_rules None) vector latches }
{}

/// The effect of a net that is forced to a value ends in only one way.
pub fn effect_ends_at_one_place()
    ensures { (c : Netlist) (good : ℕ → Tern) (x : ℕ) (v : Tern) (a b : Arrival)
        → Arrives c good x v a → Arrives c good x v b → a ≡ b }
{}

/// What a frame shows with a net forced follows from where its effect ends.
pub fn net_arrivals_tell_frames()
    ensures { (c : Netlist) (vector latches : List Tern) (good : ℕ → Tern) (x : ℕ) (v : Tern)
        (a : Arrival) → IsCircuit c → AreGoodValues c vector latches good → x < net_count c
        → Arrives c good x v a
        → ShowsArrival c (net_forced (tern_rules None) x v) vector latches a }
{}

/// What a frame shows of a fault, from latches that are the good ones, follows from where its effect ends.
pub fn fault_arrivals_tell_frames()
    ensures { (c : Netlist) (vector latches : List Tern) (good : ℕ → Tern) (fault : Fault)
        (a : Arrival) → IsCircuit c → AreGoodValues c vector latches good
        → HasLine c fault.site → FaultArrives c good fault a
        → ShowsArrival c (tern_rules (Some fault)) vector latches a }
{}

/// Faults whose effects end at one place show the same in a frame, from latches that are the good ones: so one of them
/// stands for all.
pub fn faults_that_arrive_together_show_the_same()
    ensures { (c : Netlist) (vector latches : List Tern) (good : ℕ → Tern) (fault other : Fault)
        (a : Arrival) → IsCircuit c → AreGoodValues c vector latches good
        → HasLine c fault.site → HasLine c other.site
        → FaultArrives c good fault a → FaultArrives c good other a
        → ShowSame c (tern_rules (Some fault)) (tern_rules (Some other)) vector latches }
{}
