//! Splits of a text at a byte.
ghost use Rattle.std.specs.Prelude.{◌≡◌, ◌≢◌, ℕ, List, [], ◌∷◌, ◌++◌, IfSome, IfNone};
ghost use Rattle.ht_bench.specs.Split.{Lacks, IsSplit};

/// The bytes before the first `mark` and those after it, or `None` where there is no `mark`.
pub(crate) fn split_at_byte(text: &[u8], mark: u8) -> Option<(&[u8], &[u8])>
    ensures found { IfSome result (λ parts. IsSplit text.now mark parts.0.now parts.1.now) }
    ensures none { IfNone result (Lacks text.now mark) }
{
    for (place, byte) in text.iter().enumerate() {
        if *byte == mark {
            return Some((&text[..place], &text[place + 1..]));
        }
    }
    None
}

/// The bytes before a last byte that is the mark, or `None` where the text doesn't end with it.
pub(crate) fn before_last(text: &[u8], mark: u8) -> Option<&[u8]>
    ensures found { IfSome result (λ front. text.now ≡ front.now ++ mark ∷ []) }
    ensures none { IfNone result ((front : List ℕ) → text.now ≢ front ++ mark ∷ []) }
{
    match text {
        [front @ .., last] if *last == mark => Some(front),
        _ => None,
    }
}
