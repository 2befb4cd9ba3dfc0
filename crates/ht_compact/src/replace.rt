//! Items in place of a run of others.
ghost use Rattle.std.specs.Prelude.{◌≡◌, ◌≤◌, OnOk};
ghost use Rattle.ht_compact.specs.Kept.{continued};

use std::alloc::AllocError;

/// Puts other items in place of those from `from` on before `rest`, or up to the end where there are fewer.
///
/// # Errors
///
/// `AllocError`: out of memory.
pub fn replace<T: Drop>(
    items: &mut Vec<T>,
    from: usize,
    others: Vec<T>,
    rest: usize,
) -> Result<(), AllocError>
    requires { from ≤ rest }
    ensures { OnOk result (items.new.items
        ≡ continued from items.old.items others.items rest) }
{
    let mut others = others;
    let mut tail = items.split_off(rest.min(items.len()))?;
    items.truncate(from);
    items.append(&mut others)?;
    items.append(&mut tail)
}
