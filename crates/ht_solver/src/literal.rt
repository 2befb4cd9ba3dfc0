//! Variables, literals and their values.

// From here on a variable has no literal: twice its number, and one more, is within 32 bits, and none is the last one.
const MAX_VARIABLES: u32 = 0x7fff_ffff;

/// A literal: a variable, counted from 0, or its opposite.
#[derive(Clone, Copy, PartialEq, Eq, Debug)]
pub struct Literal {
    // twice the variable, and one more for its opposite: the index of lists by literal
    pub(crate) code: u32,
}

/// What is known of a literal.
#[derive(Clone, Copy, PartialEq, Eq, Debug)]
pub enum Value {
    /// Its variable has no value.
    Open,
    /// It is true.
    True,
    /// It is false.
    False,
}

impl Literal {
    /// The variable where `positive`, else its opposite. None for a variable of 2^31 - 1 and more.
    pub fn new(variable: u32, positive: bool) -> Option<Literal> {
        if variable >= MAX_VARIABLES {
            return None;
        }
        let side = if positive { 0 } else { 1 };
        Some(Literal {
            code: 2 * variable + side,
        })
    }

    /// The variable, from 0.
    #[inline(always)]
    pub fn variable(self) -> u32 {
        self.code / 2
    }

    /// Whether it is a variable, and not the opposite of one.
    #[inline(always)]
    pub fn is_positive(self) -> bool {
        self.code % 2 == 0
    }

    /// The literal that is true where this one is false.
    #[inline(always)]
    pub fn opposite(self) -> Literal {
        Literal {
            code: self.code ^ 1,
        }
    }
}
