//! A gate over four words at a time, in wide registers.
ghost use Rattle.std.specs.Prelude.{◌≡◌, ◌<◌, ℕ, length, map};
ghost use Rattle.ht_tern.specs.Gate.{HasArity, operation_of, polarity_of};
ghost use Rattle.ht_lanes.specs.Four.{IsEach1, IsEach2};
ghost use Rattle.ht_lanes.specs.Lanes.{gate_lanes, lane_operations, word_at};

use crate::word::{Word, four_rows, four_words};
use ht_tern::Kind;

// The complement of each of four words.
fn complement_four(v: &[Word; 4]) -> [Word; 4]
    ensures { IsEach1 lane_operations.complement v.now result }
{
    let (zero, one) = four_rows(v);
    four_words(one, zero)
}

// AND of each of four words with another.
fn conjunction_four(v: &[Word; 4], w: &[Word; 4]) -> [Word; 4]
    ensures { IsEach2 lane_operations.conjunction v.now w.now result }
{
    let (v_zero, v_one) = four_rows(v);
    let (w_zero, w_one) = four_rows(w);
    four_words(v_zero | w_zero, v_one & w_one)
}

// OR of each of four words with another.
fn disjunction_four(v: &[Word; 4], w: &[Word; 4]) -> [Word; 4]
    ensures { IsEach2 lane_operations.disjunction v.now w.now result }
{
    let (v_zero, v_one) = four_rows(v);
    let (w_zero, w_one) = four_rows(w);
    four_words(v_zero & w_zero, v_one | w_one)
}

// XOR of each of four words with another.
fn parity_four(v: &[Word; 4], w: &[Word; 4]) -> [Word; 4]
    ensures { IsEach2 lane_operations.parity v.now w.now result }
{
    let (v_zero, v_one) = four_rows(v);
    let (w_zero, w_one) = four_rows(w);
    four_words(
        v_zero & w_zero | v_one & w_one,
        v_zero & w_one | v_one & w_zero,
    )
}

// What the operation of a kind makes of four words so far and of the next four.
fn combined_four(kind: Kind, v: &[Word; 4], w: &[Word; 4]) -> [Word; 4]
    ensures { IsEach2 (operation_of lane_operations kind) v.now w.now result }
{
    match kind {
        Kind::And | Kind::Nand => conjunction_four(v, w),
        Kind::Or | Kind::Nor => disjunction_four(v, w),
        Kind::Xor | Kind::Xnor => parity_four(v, w),
        Kind::Not | Kind::Buf => *v,
    }
}

// Four folded words, or their complements where the kind inverts.
fn with_polarity_four(kind: Kind, v: &[Word; 4]) -> [Word; 4]
    ensures { IsEach1 (polarity_of lane_operations kind) v.now result }
{
    if kind.inverts() {
        complement_four(v)
    } else {
        *v
    }
}

/// The value of a gate in each lane of four words, from the words at its pins, in the order of the pins (Kleene logic).
/// Word i is what `eval_word` gives of the words i; the four are evaluated at once, in wide registers (`std::simd`).
// A bare loop in C does 400 million words a second four by four and 150 million one by one; with AVX2, which the kit's
// target doesn't use, it does 650 million (docs/MEASURED.md).
pub fn eval_four(kind: Kind, args: &[[Word; 4]]) -> [Word; 4]
    requires { HasArity kind (length args.now) }
    ensures { (i : ℕ) → i < 4
        → word_at result i ≡ gate_lanes kind (map (λ four. word_at four i) args.now) }
{
    let mut value = args[0];
    for arg in &args[1..] {
        value = combined_four(kind, &value, arg);
    }
    with_polarity_four(kind, &value)
}
