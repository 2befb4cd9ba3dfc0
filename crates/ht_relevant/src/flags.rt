//! Flip-flops that are marked.
ghost use Rattle.std.specs.Prelude.{◌≡◌, false, get_or};

/// Whether mark j is set.
pub fn is_set(marks: &[bool], j: u32) -> bool
    ensures { result ≡ get_or marks.now j false }
{
    match marks.get(j as usize) {
        Some(mark) => *mark,
        None => false,
    }
}
