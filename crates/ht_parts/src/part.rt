//! A part of a fault list.
ghost use Rattle.std.specs.Prelude.{◌≡◌, ◌<◌, ◌≤◌, ◌+◌, ◌↔◌, IsSome, IfSome};
ghost use Rattle.ht_parts.specs.Parts.{IsPart};

/// The most parts that a fault list is dealt out to.
pub const MAX_PARTS: u32 = 4096;

/// One of so many parts to which the classes of a fault list are dealt out in turn. The index counts from 0.
#[derive(Clone, Copy, Debug, PartialEq, Eq)]
pub struct Part {
    pub index: u32,
    pub count: u32,
}

impl Part {
    /// Part `number`, from 1, of `count`; none where there is no such part, or more than `MAX_PARTS`.
    pub fn new(number: u32, count: u32) -> Option<Part>
        ensures there { IsSome result ↔ ((0 < number) × (number ≤ count) × (count ≤ MAX_PARTS)) }
        ensures part { IfSome result IsPart }
        ensures index { IfSome result (λ part. part.index + 1 ≡ number) }
        ensures count { IfSome result (λ part. part.count ≡ count) }
    {
        if number == 0 || number > count || count > MAX_PARTS {
            return None;
        }
        Some(Part {
            index: number - 1,
            count,
        })
    }
}
