//! Gates in 64 lanes: what they give, and where they let an effect through.
ghost use Rattle.std.specs.Prelude.{◌≡◌, ◌<◌, ◌||◌, ℕ, map};
ghost use Rattle.ht_items.specs.Bits.{is_set};
ghost use Rattle.ht_tern.specs.declared.tern.Tern.TheVariants.{One, Zero};
ghost use Rattle.ht_tern.specs.Gate.{operation_of};
ghost use Rattle.ht_tern.specs.Opposite.{are_opposite};
ghost use Rattle.ht_lanes.specs.Lanes.{gate_lanes, lane, lane_operations, word_at};
ghost use Rattle.ht_breed.specs.Sensitized.{lets_through};

use ht_lanes::Word;
use ht_tern::{GateOperations, Kind, Tern};

/// The word of a net, all unknown where there is none.
#[inline(always)]
pub fn word_at(words: &[Word], net: u32) -> Word
    ensures { result ≡ word_at words.now net }
{
    match words.get(net as usize) {
        Some(word) => *word,
        None => Word::splat(Tern::Unk),
    }
}

// What the operation of a kind makes of the word so far and of the next one.
#[inline(always)]
fn combined(kind: Kind, word: Word, next: Word) -> Word
    ensures { result ≡ operation_of lane_operations kind word next }
{
    match kind {
        Kind::And | Kind::Nand => word.conjunction(next),
        Kind::Or | Kind::Nor => word.disjunction(next),
        Kind::Xor | Kind::Xnor => word.parity(next),
        Kind::Not | Kind::Buf => word,
    }
}

/// What a gate gives from the words of the nets at its pins (Kleene logic), in each lane.
#[inline(always)]
pub fn gate_word(kind: Kind, nets: &[u32], words: &[Word]) -> Word
    ensures { result ≡ gate_lanes kind (map (λ net. word_at words.now net) nets.now) }
{
    if nets.is_empty() {
        return Word::splat(Tern::Unk);
    }
    let mut word = word_at(words, nets[0]);
    for net in &nets[1..] {
        word = combined(kind, word, word_at(words, *net));
    }
    if kind.inverts() {
        word.complement()
    } else {
        word
    }
}

// The lanes in which a word is definite.
#[inline(always)]
#[tactic(auto, using(ht_lanes::proofs::OperationLaws::set_or))]
fn definite_lanes(word: Word) -> u64
    ensures { (k : ℕ) → k < 64 → is_set result k
        ≡ (are_opposite One (lane word k) || are_opposite Zero (lane word k)) }
{
    word.opposite(Tern::One) | word.opposite(Tern::Zero)
}

/// The lanes in which a pin lets an effect at another pin of its gate through.
#[inline(always)]
pub fn side_lanes(kind: Kind, word: Word) -> u64
    ensures { (k : ℕ) → k < 64 → is_set result k ≡ lets_through kind (lane word k) }
{
    match kind {
        Kind::And | Kind::Nand => word.opposite(Tern::Zero),
        Kind::Or | Kind::Nor => word.opposite(Tern::One),
        Kind::Xor | Kind::Xnor | Kind::Not | Kind::Buf => definite_lanes(word),
    }
}
