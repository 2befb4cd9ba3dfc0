//! What is drawn by random words.
ghost use Rattle.std.specs.Prelude.{◌<◌};

use ht_random::Words;

/// The next word mod `number`, which is below it. Where the number is 0 it is 0, and no word is taken.
pub fn below(words: &mut Words, number: usize) -> usize
    ensures { 0 < number → result < number }
{
    if number == 0 {
        return 0;
    }
    words.next() as usize % number
}

/// Whether the lowest byte of the next word is below `rate`: so many of 256 words that differ in it.
pub fn is_below(words: &mut Words, rate: u32) -> bool {
    words.next() % 256 < rate
}

/// One of these numbers, each as likely as the others.
pub fn one_of(words: &mut Words, numbers: &[u32]) -> u32 {
    match numbers.get(below(words, numbers.len())) {
        Some(number) => *number,
        None => 0,
    }
}
