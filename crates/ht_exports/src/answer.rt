//! A yes or a no as a number.

/// 1 for yes, 0 for no, and 2 where there is no answer.
pub fn numbered(answer: Option<bool>) -> u8 {
    match answer {
        Some(answer) => u8::from(answer),
        None => 2,
    }
}
