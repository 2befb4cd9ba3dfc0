//! What a gate takes of its arguments and makes of the folded set, looked up.
//!
//! The results of an operation are the union of four meets, each of a part of the first set and a part of the second: a
//! part has the pairs to which a move leads. So a step of a gate is two look-ups, and the same code whatever its kind: a
//! jump by the kind would be guessed wrong every second time. The four parts stand in one word, 16 bits each, so that one
//! AND makes all four meets: `gen` takes some 12 percent less time than with each part by itself. What a kind makes of the
//! folded set is looked up for the same reason.
//!
//! A set is three digits of eight, one for each good half, X, 1 and 0; the digit has the faulty halves, 4 for X, 2 for 1
//! and 1 for 0. A move of the faulty half changes each digit by itself, and a move of the good half joins digits.

// What AND may make of faulty halves: 1 may become X and 0, and X may become 0.
macro_rules! lowered {
    (0) => { 0 };
    (1) => { 1 };
    (2) => { 7 };
    (3) => { 7 };
    (4) => { 5 };
    (5) => { 5 };
    (6) => { 7 };
    (7) => { 7 };
}

// What OR may make of them: 0 may become X and 1, and X may become 1.
macro_rules! raised {
    (0) => { 0 };
    (1) => { 7 };
    (2) => { 2 };
    (3) => { 7 };
    (4) => { 6 };
    (5) => { 7 };
    (6) => { 6 };
    (7) => { 7 };
}

// What XOR may make of them where they are 0 and the other value is 0 or 1; and X where they are X.
macro_rules! passed {
    (0) => { 0 };
    (1) => { 3 };
    (2) => { 0 };
    (3) => { 3 };
    (4) => { 4 };
    (5) => { 7 };
    (6) => { 4 };
    (7) => { 7 };
}

// The same where they are 1 and the other value is 0 or 1; and X where the other value is X.
macro_rules! flipped {
    (0) => { 0 };
    (1) => { 4 };
    (2) => { 7 };
    (3) => { 7 };
    (4) => { 4 };
    (5) => { 4 };
    (6) => { 7 };
    (7) => { 7 };
}

// The halves themselves, and X.
macro_rules! blurred {
    (0) => { 0 };
    (1) => { 5 };
    (2) => { 6 };
    (3) => { 7 };
    (4) => { 4 };
    (5) => { 5 };
    (6) => { 6 };
    (7) => { 7 };
}

// Their complements.
macro_rules! complemented {
    (0) => { 0 };
    (1) => { 2 };
    (2) => { 1 };
    (3) => { 3 };
    (4) => { 4 };
    (5) => { 6 };
    (6) => { 5 };
    (7) => { 7 };
}

// A set of three digits.
macro_rules! set {
    ($x:expr, $one:expr, $zero:expr) => {
        ($x << 6 | $one << 3 | $zero)
    };
}

// The same moves of the good halves.
macro_rules! lowered_good {
    ($x:expr, $one:expr, $zero:expr) => {
        set!(($x | $one), $one, ($x | $one | $zero))
    };
}

macro_rules! raised_good {
    ($x:expr, $one:expr, $zero:expr) => {
        set!(($x | $zero), ($x | $one | $zero), $zero)
    };
}

macro_rules! passed_good {
    ($x:expr, $one:expr, $zero:expr) => {
        set!($x, $zero, $zero)
    };
}

macro_rules! flipped_good {
    ($x:expr, $one:expr, $zero:expr) => {
        set!(($x | $one | $zero), $one, $one)
    };
}

macro_rules! blurred_good {
    ($x:expr, $one:expr, $zero:expr) => {
        set!(($x | $one | $zero), $one, $zero)
    };
}

macro_rules! complemented_good {
    ($x:expr, $one:expr, $zero:expr) => {
        set!($x, $zero, $one)
    };
}

// Four parts in one word, the first one lowest.
macro_rules! word {
    ($first:expr, $second:expr, $third:expr, $fourth:expr) => {
        $first | $second << 16 | $third << 32 | $fourth << 48
    };
}

// The parts of the first argument of AND and of OR. Each half of a result is that half of one of the two members, and
// the other member's may be moved to it.
macro_rules! by_one_move {
    ($moved:ident $moved_good:ident $x:tt $one:tt $zero:tt) => {
        word!(
            set!($x, $one, $zero),
            $moved_good!($moved!($x), $moved!($one), $moved!($zero)),
            set!($moved!($x), $moved!($one), $moved!($zero)),
            $moved_good!($x, $one, $zero)
        )
    };
}

// The parts of the second argument: what the first one keeps is moved here, and the other way round.
macro_rules! by_other_move {
    ($moved:ident $moved_good:ident $x:tt $one:tt $zero:tt) => {
        word!(
            $moved_good!($moved!($x), $moved!($one), $moved!($zero)),
            set!($x, $one, $zero),
            $moved_good!($x, $one, $zero),
            set!($moved!($x), $moved!($one), $moved!($zero))
        )
    };
}

macro_rules! first_of_and {
    ($x:tt $one:tt $zero:tt) => {
        by_one_move!(lowered lowered_good $x $one $zero)
    };
}

macro_rules! second_of_and {
    ($x:tt $one:tt $zero:tt) => {
        by_other_move!(lowered lowered_good $x $one $zero)
    };
}

macro_rules! first_of_or {
    ($x:tt $one:tt $zero:tt) => {
        by_one_move!(raised raised_good $x $one $zero)
    };
}

macro_rules! second_of_or {
    ($x:tt $one:tt $zero:tt) => {
        by_other_move!(raised raised_good $x $one $zero)
    };
}

// Where a half of the first member is 0, the second member's passes; where it is 1, the second's complement does. Each
// of two moves of the good halves comes after each of two moves of the faulty halves.
macro_rules! by_two_moves {
    ($zero_moved:ident $zero_good:ident $one_moved:ident $one_good:ident $x:tt $one:tt $zero:tt) => {
        word!(
            $zero_good!($zero_moved!($x), $zero_moved!($one), $zero_moved!($zero)),
            $zero_good!($one_moved!($x), $one_moved!($one), $one_moved!($zero)),
            $one_good!($zero_moved!($x), $zero_moved!($one), $zero_moved!($zero)),
            $one_good!($one_moved!($x), $one_moved!($one), $one_moved!($zero))
        )
    };
}

macro_rules! first_of_xor {
    ($x:tt $one:tt $zero:tt) => {
        by_two_moves!(passed passed_good flipped flipped_good $x $one $zero)
    };
}

macro_rules! second_of_xor {
    ($x:tt $one:tt $zero:tt) => {
        by_two_moves!(blurred blurred_good complemented complemented_good $x $one $zero)
    };
}

// A set itself, and its complements.
macro_rules! itself {
    ($x:tt $one:tt $zero:tt) => {
        set!($x, $one, $zero)
    };
}

macro_rules! complements {
    ($x:tt $one:tt $zero:tt) => {
        complemented_good!(complemented!($x), complemented!($one), complemented!($zero))
    };
}

// NOT and BUFF have one argument. A second one, which has a member, makes no difference.
macro_rules! any_second {
    (0 0 0) => {
        0
    };
    ($x:tt $one:tt $zero:tt) => {
        0o777
    };
}

// A row for each set.
macro_rules! each_set {
    ($row:ident) => {
        [
            $row!(0 0 0), $row!(0 0 1), $row!(0 0 2), $row!(0 0 3), $row!(0 0 4), $row!(0 0 5),
            $row!(0 0 6), $row!(0 0 7), $row!(0 1 0), $row!(0 1 1), $row!(0 1 2), $row!(0 1 3),
            $row!(0 1 4), $row!(0 1 5), $row!(0 1 6), $row!(0 1 7), $row!(0 2 0), $row!(0 2 1),
            $row!(0 2 2), $row!(0 2 3), $row!(0 2 4), $row!(0 2 5), $row!(0 2 6), $row!(0 2 7),
            $row!(0 3 0), $row!(0 3 1), $row!(0 3 2), $row!(0 3 3), $row!(0 3 4), $row!(0 3 5),
            $row!(0 3 6), $row!(0 3 7), $row!(0 4 0), $row!(0 4 1), $row!(0 4 2), $row!(0 4 3),
            $row!(0 4 4), $row!(0 4 5), $row!(0 4 6), $row!(0 4 7), $row!(0 5 0), $row!(0 5 1),
            $row!(0 5 2), $row!(0 5 3), $row!(0 5 4), $row!(0 5 5), $row!(0 5 6), $row!(0 5 7),
            $row!(0 6 0), $row!(0 6 1), $row!(0 6 2), $row!(0 6 3), $row!(0 6 4), $row!(0 6 5),
            $row!(0 6 6), $row!(0 6 7), $row!(0 7 0), $row!(0 7 1), $row!(0 7 2), $row!(0 7 3),
            $row!(0 7 4), $row!(0 7 5), $row!(0 7 6), $row!(0 7 7), $row!(1 0 0), $row!(1 0 1),
            $row!(1 0 2), $row!(1 0 3), $row!(1 0 4), $row!(1 0 5), $row!(1 0 6), $row!(1 0 7),
            $row!(1 1 0), $row!(1 1 1), $row!(1 1 2), $row!(1 1 3), $row!(1 1 4), $row!(1 1 5),
            $row!(1 1 6), $row!(1 1 7), $row!(1 2 0), $row!(1 2 1), $row!(1 2 2), $row!(1 2 3),
            $row!(1 2 4), $row!(1 2 5), $row!(1 2 6), $row!(1 2 7), $row!(1 3 0), $row!(1 3 1),
            $row!(1 3 2), $row!(1 3 3), $row!(1 3 4), $row!(1 3 5), $row!(1 3 6), $row!(1 3 7),
            $row!(1 4 0), $row!(1 4 1), $row!(1 4 2), $row!(1 4 3), $row!(1 4 4), $row!(1 4 5),
            $row!(1 4 6), $row!(1 4 7), $row!(1 5 0), $row!(1 5 1), $row!(1 5 2), $row!(1 5 3),
            $row!(1 5 4), $row!(1 5 5), $row!(1 5 6), $row!(1 5 7), $row!(1 6 0), $row!(1 6 1),
            $row!(1 6 2), $row!(1 6 3), $row!(1 6 4), $row!(1 6 5), $row!(1 6 6), $row!(1 6 7),
            $row!(1 7 0), $row!(1 7 1), $row!(1 7 2), $row!(1 7 3), $row!(1 7 4), $row!(1 7 5),
            $row!(1 7 6), $row!(1 7 7), $row!(2 0 0), $row!(2 0 1), $row!(2 0 2), $row!(2 0 3),
            $row!(2 0 4), $row!(2 0 5), $row!(2 0 6), $row!(2 0 7), $row!(2 1 0), $row!(2 1 1),
            $row!(2 1 2), $row!(2 1 3), $row!(2 1 4), $row!(2 1 5), $row!(2 1 6), $row!(2 1 7),
            $row!(2 2 0), $row!(2 2 1), $row!(2 2 2), $row!(2 2 3), $row!(2 2 4), $row!(2 2 5),
            $row!(2 2 6), $row!(2 2 7), $row!(2 3 0), $row!(2 3 1), $row!(2 3 2), $row!(2 3 3),
            $row!(2 3 4), $row!(2 3 5), $row!(2 3 6), $row!(2 3 7), $row!(2 4 0), $row!(2 4 1),
            $row!(2 4 2), $row!(2 4 3), $row!(2 4 4), $row!(2 4 5), $row!(2 4 6), $row!(2 4 7),
            $row!(2 5 0), $row!(2 5 1), $row!(2 5 2), $row!(2 5 3), $row!(2 5 4), $row!(2 5 5),
            $row!(2 5 6), $row!(2 5 7), $row!(2 6 0), $row!(2 6 1), $row!(2 6 2), $row!(2 6 3),
            $row!(2 6 4), $row!(2 6 5), $row!(2 6 6), $row!(2 6 7), $row!(2 7 0), $row!(2 7 1),
            $row!(2 7 2), $row!(2 7 3), $row!(2 7 4), $row!(2 7 5), $row!(2 7 6), $row!(2 7 7),
            $row!(3 0 0), $row!(3 0 1), $row!(3 0 2), $row!(3 0 3), $row!(3 0 4), $row!(3 0 5),
            $row!(3 0 6), $row!(3 0 7), $row!(3 1 0), $row!(3 1 1), $row!(3 1 2), $row!(3 1 3),
            $row!(3 1 4), $row!(3 1 5), $row!(3 1 6), $row!(3 1 7), $row!(3 2 0), $row!(3 2 1),
            $row!(3 2 2), $row!(3 2 3), $row!(3 2 4), $row!(3 2 5), $row!(3 2 6), $row!(3 2 7),
            $row!(3 3 0), $row!(3 3 1), $row!(3 3 2), $row!(3 3 3), $row!(3 3 4), $row!(3 3 5),
            $row!(3 3 6), $row!(3 3 7), $row!(3 4 0), $row!(3 4 1), $row!(3 4 2), $row!(3 4 3),
            $row!(3 4 4), $row!(3 4 5), $row!(3 4 6), $row!(3 4 7), $row!(3 5 0), $row!(3 5 1),
            $row!(3 5 2), $row!(3 5 3), $row!(3 5 4), $row!(3 5 5), $row!(3 5 6), $row!(3 5 7),
            $row!(3 6 0), $row!(3 6 1), $row!(3 6 2), $row!(3 6 3), $row!(3 6 4), $row!(3 6 5),
            $row!(3 6 6), $row!(3 6 7), $row!(3 7 0), $row!(3 7 1), $row!(3 7 2), $row!(3 7 3),
            $row!(3 7 4), $row!(3 7 5), $row!(3 7 6), $row!(3 7 7), $row!(4 0 0), $row!(4 0 1),
            $row!(4 0 2), $row!(4 0 3), $row!(4 0 4), $row!(4 0 5), $row!(4 0 6), $row!(4 0 7),
            $row!(4 1 0), $row!(4 1 1), $row!(4 1 2), $row!(4 1 3), $row!(4 1 4), $row!(4 1 5),
            $row!(4 1 6), $row!(4 1 7), $row!(4 2 0), $row!(4 2 1), $row!(4 2 2), $row!(4 2 3),
            $row!(4 2 4), $row!(4 2 5), $row!(4 2 6), $row!(4 2 7), $row!(4 3 0), $row!(4 3 1),
            $row!(4 3 2), $row!(4 3 3), $row!(4 3 4), $row!(4 3 5), $row!(4 3 6), $row!(4 3 7),
            $row!(4 4 0), $row!(4 4 1), $row!(4 4 2), $row!(4 4 3), $row!(4 4 4), $row!(4 4 5),
            $row!(4 4 6), $row!(4 4 7), $row!(4 5 0), $row!(4 5 1), $row!(4 5 2), $row!(4 5 3),
            $row!(4 5 4), $row!(4 5 5), $row!(4 5 6), $row!(4 5 7), $row!(4 6 0), $row!(4 6 1),
            $row!(4 6 2), $row!(4 6 3), $row!(4 6 4), $row!(4 6 5), $row!(4 6 6), $row!(4 6 7),
            $row!(4 7 0), $row!(4 7 1), $row!(4 7 2), $row!(4 7 3), $row!(4 7 4), $row!(4 7 5),
            $row!(4 7 6), $row!(4 7 7), $row!(5 0 0), $row!(5 0 1), $row!(5 0 2), $row!(5 0 3),
            $row!(5 0 4), $row!(5 0 5), $row!(5 0 6), $row!(5 0 7), $row!(5 1 0), $row!(5 1 1),
            $row!(5 1 2), $row!(5 1 3), $row!(5 1 4), $row!(5 1 5), $row!(5 1 6), $row!(5 1 7),
            $row!(5 2 0), $row!(5 2 1), $row!(5 2 2), $row!(5 2 3), $row!(5 2 4), $row!(5 2 5),
            $row!(5 2 6), $row!(5 2 7), $row!(5 3 0), $row!(5 3 1), $row!(5 3 2), $row!(5 3 3),
            $row!(5 3 4), $row!(5 3 5), $row!(5 3 6), $row!(5 3 7), $row!(5 4 0), $row!(5 4 1),
            $row!(5 4 2), $row!(5 4 3), $row!(5 4 4), $row!(5 4 5), $row!(5 4 6), $row!(5 4 7),
            $row!(5 5 0), $row!(5 5 1), $row!(5 5 2), $row!(5 5 3), $row!(5 5 4), $row!(5 5 5),
            $row!(5 5 6), $row!(5 5 7), $row!(5 6 0), $row!(5 6 1), $row!(5 6 2), $row!(5 6 3),
            $row!(5 6 4), $row!(5 6 5), $row!(5 6 6), $row!(5 6 7), $row!(5 7 0), $row!(5 7 1),
            $row!(5 7 2), $row!(5 7 3), $row!(5 7 4), $row!(5 7 5), $row!(5 7 6), $row!(5 7 7),
            $row!(6 0 0), $row!(6 0 1), $row!(6 0 2), $row!(6 0 3), $row!(6 0 4), $row!(6 0 5),
            $row!(6 0 6), $row!(6 0 7), $row!(6 1 0), $row!(6 1 1), $row!(6 1 2), $row!(6 1 3),
            $row!(6 1 4), $row!(6 1 5), $row!(6 1 6), $row!(6 1 7), $row!(6 2 0), $row!(6 2 1),
            $row!(6 2 2), $row!(6 2 3), $row!(6 2 4), $row!(6 2 5), $row!(6 2 6), $row!(6 2 7),
            $row!(6 3 0), $row!(6 3 1), $row!(6 3 2), $row!(6 3 3), $row!(6 3 4), $row!(6 3 5),
            $row!(6 3 6), $row!(6 3 7), $row!(6 4 0), $row!(6 4 1), $row!(6 4 2), $row!(6 4 3),
            $row!(6 4 4), $row!(6 4 5), $row!(6 4 6), $row!(6 4 7), $row!(6 5 0), $row!(6 5 1),
            $row!(6 5 2), $row!(6 5 3), $row!(6 5 4), $row!(6 5 5), $row!(6 5 6), $row!(6 5 7),
            $row!(6 6 0), $row!(6 6 1), $row!(6 6 2), $row!(6 6 3), $row!(6 6 4), $row!(6 6 5),
            $row!(6 6 6), $row!(6 6 7), $row!(6 7 0), $row!(6 7 1), $row!(6 7 2), $row!(6 7 3),
            $row!(6 7 4), $row!(6 7 5), $row!(6 7 6), $row!(6 7 7), $row!(7 0 0), $row!(7 0 1),
            $row!(7 0 2), $row!(7 0 3), $row!(7 0 4), $row!(7 0 5), $row!(7 0 6), $row!(7 0 7),
            $row!(7 1 0), $row!(7 1 1), $row!(7 1 2), $row!(7 1 3), $row!(7 1 4), $row!(7 1 5),
            $row!(7 1 6), $row!(7 1 7), $row!(7 2 0), $row!(7 2 1), $row!(7 2 2), $row!(7 2 3),
            $row!(7 2 4), $row!(7 2 5), $row!(7 2 6), $row!(7 2 7), $row!(7 3 0), $row!(7 3 1),
            $row!(7 3 2), $row!(7 3 3), $row!(7 3 4), $row!(7 3 5), $row!(7 3 6), $row!(7 3 7),
            $row!(7 4 0), $row!(7 4 1), $row!(7 4 2), $row!(7 4 3), $row!(7 4 4), $row!(7 4 5),
            $row!(7 4 6), $row!(7 4 7), $row!(7 5 0), $row!(7 5 1), $row!(7 5 2), $row!(7 5 3),
            $row!(7 5 4), $row!(7 5 5), $row!(7 5 6), $row!(7 5 7), $row!(7 6 0), $row!(7 6 1),
            $row!(7 6 2), $row!(7 6 3), $row!(7 6 4), $row!(7 6 5), $row!(7 6 6), $row!(7 6 7),
            $row!(7 7 0), $row!(7 7 1), $row!(7 7 2), $row!(7 7 3), $row!(7 7 4), $row!(7 7 5),
            $row!(7 7 6), $row!(7 7 7),
        ]
    };
}

/// The four parts of each first argument, for the operations of AND, OR, XOR and BUFF.
pub(crate) static FIRST: [[u64; 512]; 4] = [
    each_set!(first_of_and),
    each_set!(first_of_or),
    each_set!(first_of_xor),
    each_set!(itself),
];

/// The four parts of each second argument.
pub(crate) static SECOND: [[u64; 512]; 4] = [
    each_set!(second_of_and),
    each_set!(second_of_or),
    each_set!(second_of_xor),
    each_set!(any_second),
];

/// What a kind makes of the folded set: the set itself, and its complements where the kind inverts.
pub(crate) static POLARITIES: [[u16; 512]; 2] = [each_set!(itself), each_set!(complements)];
