//! Theorems on netlists and their texts: each is the contract of a function that does nothing.
ghost use Rattle.std.specs.Prelude.{◌≡◌, ℕ, List, Option, Some};
ghost use Rattle.ht_net.specs.Circuit.Netlist.{Netlist, IsCircuit};
ghost use Rattle.ht_bench.specs.Normal.{normal_text, HasFormatNames};
ghost use Rattle.ht_bench.specs.Text.{IsNetlistOf, Refuses, IsOfNoCircuit};
ghost use Rattle.ht_bench.specs.TextRefusal.{text_refusal_of};
ghost use Rattle.ht_bench.specs.declared.error.BenchError.{BenchError};
ghost use Rattle.ht_bench.specs.declared.error.BenchError.TheVariants.{NoMemory};

/// A text is the netlist of at most one circuit.
pub fn one_circuit_per_text()
    ensures { (text : List ℕ) (circuit other : Netlist) → IsNetlistOf text circuit
        → IsNetlistOf text other → circuit ≡ other }
{}

/// A text has at most one refusal, up to the choice of a cycle.
#[tactic(auto, using(crate::proofs::ExcludeLaws::one_refusal))]
pub fn one_refusal_per_text()
    ensures { (text : List ℕ) (error other : BenchError) (v w : Option BenchError)
        → Refuses text error → Refuses text other
        → text_refusal_of error ≡ Some v → text_refusal_of other ≡ Some w → v ≡ w }
{}

/// The normal text of a well-formed circuit whose names are names of the format is a netlist of that circuit.
#[tactic(auto, using(crate::proofs::NormalRoundLaws::normal_is_netlist))]
pub fn normal_text_is_a_netlist_of_its_circuit()
    ensures { (c : Netlist) → IsCircuit c → HasFormatNames c → IsNetlistOf (normal_text c) c }
{}

/// The names of a circuit that was read are names of the format, so it can be written and read again.
pub fn a_circuit_that_was_read_has_names_of_the_format()
    ensures { (text : List ℕ) (c : Netlist) → IsNetlistOf text c → HasFormatNames c }
{}

/// What `read` answers on the normal text of a well-formed circuit whose names are names of the format: that circuit,
/// or out of memory.
#[tactic(auto, using(crate::proofs::NormalBackLaws::read_back, crate::proofs::NormalBackLaws::not_refused))]
pub fn normal_text_is_read_as_its_circuit()
    ensures circuit { (c d : Netlist) → IsCircuit c → HasFormatNames c
        → IsNetlistOf (normal_text c) d → d ≡ c }
    ensures refusal { (c : Netlist) (error : BenchError) → IsCircuit c → HasFormatNames c
        → IsOfNoCircuit (normal_text c) error → error ≡ NoMemory }
{}
