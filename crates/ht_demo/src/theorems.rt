//! The theorem on the demonstration netlist: it is the contract of a function that does nothing.
ghost use Rattle.std.specs.Prelude.{ℕ, ◌≤◌, length};
ghost use Rattle.ht_bench.specs.Normal.{normal_text};
ghost use Rattle.ht_bench.specs.Text.{IsNetlistOf, max_netlist_bytes};
ghost use Rattle.ht_demo.specs.Counts.{max_demo_size};
ghost use Rattle.ht_demo.specs.Demo.{demo_netlist};

/// The text of a demonstration netlist is always accepted, as the netlist that it is, and no longer than a netlist may
/// be.
pub fn demo_netlist_is_accepted()
    ensures netlist { (size seed : ℕ) → 1 ≤ size → size ≤ max_demo_size
        → IsNetlistOf (normal_text (demo_netlist size seed)) (demo_netlist size seed) }
    ensures short { (size seed : ℕ) → 1 ≤ size → size ≤ max_demo_size
        → length (normal_text (demo_netlist size seed)) ≤ max_netlist_bytes }
{}
