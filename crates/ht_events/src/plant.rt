//! What is kept up to date, item by item.
ghost use Rattle.std.specs.Prelude.{◌≡◌, ◌↔◌, ℕ, ◌<◌, ◌≤◌, ◌+◌, false, OnOk, OnErr, Ok};
ghost use Rattle.ht_net.specs.Circuit.Netlist.{Netlist};
ghost use Rattle.ht_events.specs.Items.{IsLoad, frame_items, item_at, item_count};

use std::alloc::AllocError;

/// Cells of the items of a circuit over some frames, each of which agrees with its arguments or doesn't.
// `Core` calls back here and knows nothing of cells, so its loop is proved once, for any plant. The cells of each
// window are one (`Held` of ht_window).
pub trait Plant {
    // the circuit and how many frames there are
    ghost circuit: { Self → Netlist };

    ghost frames: { Self → ℕ };

    // an item has the value that its arguments give
    ghost agrees: { Self → ℕ → Type 0 };

    // what stays the same from the first to the second
    ghost keeps: { Self → Self → Type 0 };

    // the most that one call spends, and what was spent so far
    ghost price: { Self → ℕ };

    ghost spent: { Self → ℕ };

    /// Makes the item with this index in a frame agree with what it reads, and says whether its value changed. What
    /// agreed and isn't its load still agrees, and where nothing changed its loads do too.
    ///
    /// # Errors
    /// Out of memory; the same items agree as before.
    fn recompute(&mut self, frame: u32, local: u32) -> Result<bool, AllocError>
        requires frame { frame < frames self.old }
        requires local { local < frame_items (circuit self.old) }
        ensures circuit { circuit self.new ≡ circuit self.old }
        ensures frames { frames self.new ≡ frames self.old }
        ensures price { price self.new ≡ price self.old }
        ensures keeps { keeps self.old self.new }
        ensures rises { spent self.old ≤ spent self.new }
        ensures spent { spent self.new ≤ spent self.old + price self.old }
        ensures agrees { OnOk result (agrees self.new (item_at (circuit self.old) frame local)) }
        ensures others { OnOk result ((x : ℕ) → x < item_count (circuit self.old) (frames self.old)
            → ¬ IsLoad (circuit self.old) (frames self.old)
            (item_at (circuit self.old) frame local) x
            → agrees self.old x → agrees self.new x) }
        ensures loads { result ≡ Ok false → (x : ℕ) → x < item_count (circuit self.old)
            (frames self.old)
            → agrees self.old x → agrees self.new x }
        ensures err { OnErr result ((x : ℕ) → x < item_count (circuit self.old) (frames self.old)
            → agrees self.old x ↔ agrees self.new x) };

    ghost reflexive: { (a : Self) → keeps a a };

    ghost transitive: { (a b c : Self) → keeps a b → keeps b c → keeps a c };
}
