//! What the lanes of a word show, lane by lane, as it changes what is kept of their machines.
ghost use Rattle.std.specs.Prelude.{◌≡◌, ◌<◌, ◌≤◌, ◌+◌, ℕ, length, OnOk};
ghost use Rattle.ht_items.specs.Bits.{is_set};
ghost use Rattle.ht_lanes.specs.Lanes.{lane};
ghost use Rattle.ht_group.specs.GroupView.{lane_count};
ghost use Rattle.ht_causes.specs.Compared.{are_unlike};
ghost use Rattle.ht_causes.specs.Tracks.{HaveNoted, latch_kept, output_kept};

use crate::cause::LatchPlace;
use crate::track::Track;
use ht_lanes::Word;
use ht_net::Place;
use ht_tern::Tern;
use std::alloc::AllocError;

// The lanes that have another value than the good one, where that is definite.
fn unlike_lanes(good: Tern, word: Word) -> u64
    ensures { (k : ℕ) → k < 64 → is_set result k ≡ are_unlike good (lane word k) }
{
    if good == Tern::Unk {
        return 0;
    }
    word.other_than(good)
}

/// Compares what the good machine and those of the first lanes of a word show at an output. What is kept of the machine
/// in lane k stands at `from + k`.
pub fn note_output(
    place: Place,
    good: Tern,
    word: Word,
    from: usize,
    count: u32,
    tracks: &mut [Track],
)
    requires few { count ≤ lane_count }
    requires room { from + count ≤ length tracks.old }
    ensures { HaveNoted from count (λ k. output_kept place good (lane word k)) tracks.old
        tracks.new }
{
    // most outputs are alike in all lanes, and others unlike in few
    let mut rest = unlike_lanes(good, word);
    while rest != 0 {
        let k = rest.trailing_zeros();
        rest &= !(1 << k);
        if k < count {
            tracks[from + k as usize].note_output(place, good, word.lane(k));
        }
    }
}

/// The same of a flip-flop.
///
/// # Errors
/// Out of memory.
pub fn note_latch(
    place: LatchPlace,
    good: Tern,
    word: Word,
    from: usize,
    count: u32,
    tracks: &mut [Track],
) -> Result<(), AllocError>
    requires few { count ≤ lane_count }
    requires room { from + count ≤ length tracks.old }
    ensures { OnOk result
        (HaveNoted from count (λ k. latch_kept place good (lane word k)) tracks.old tracks.new) }
{
    // most flip-flops differ in no lane, and others in few
    let mut rest = word.other_than(good);
    while rest != 0 {
        let k = rest.trailing_zeros();
        rest &= !(1 << k);
        if k < count {
            tracks[from + k as usize].note_latch(place, good, word.lane(k))?;
        }
    }
    Ok(())
}
