//! Decimal numbers.
ghost use Rattle.std.specs.Prelude.{◌≡◌, ◌++◌, ℕ, MatchOption, OnOk};
ghost use Rattle.std.specs.Fmt.{decimal};
ghost use Rattle.ht_texts.specs.Numbers.{IsNumberText};

use itoa::Buffer;
use std::alloc::AllocError;

/// The number that this text is, in decimal and at most `most`. `None` where there is none: `+7`, `07` and an empty
/// text are no numbers.
pub fn read_number(text: &[u8], most: u64) -> Option<u64>
    ensures { MatchOption result ((number : ℕ) → ¬ IsNumberText most text.now number)
        (λ number. IsNumberText most text.now number) }
{
    let Ok(digits) = str::from_utf8(text) else {
        return None;
    };
    let Ok(number) = digits.parse::<u64>() else {
        return None;
    };
    // What `parse` takes and no number is written as, a plus or a leading zero, differs from the number's text.
    let mut buffer = Buffer::new();
    if number > most || buffer.format(number).as_bytes() != text {
        return None;
    }
    Some(number)
}

/// Appends a number in decimal, without leading zeros.
///
/// # Errors
///
/// `AllocError`: out of memory.
pub fn push_number(text: &mut Vec<u8>, number: u64) -> Result<(), AllocError>
    ensures { OnOk result (text.new.items ≡ text.old.items ++ decimal number) }
{
    let mut buffer = Buffer::new();
    text.extend_from_slice(buffer.format(number).as_bytes())
}
