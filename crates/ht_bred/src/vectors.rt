//! Lists of vectors that grow.
ghost use Rattle.std.specs.Prelude.{◌≡◌, ◌++◌, OnOk};

use ht_net::Vectors;
use std::alloc::AllocError;

/// Adds vectors at the end of a list.
///
/// # Errors
/// Out of memory; then some are added.
pub fn append(list: &mut Vectors, more: &Vectors) -> Result<(), AllocError>
    requires { more.now.width ≡ list.old.width }
    ensures width { list.new.width ≡ list.old.width }
    ensures added { OnOk result (list.new.list ≡ list.old.list ++ more.now.list) }
{
    for t in 0..more.len() {
        list.push(more.get(t))?;
    }
    Ok(())
}
