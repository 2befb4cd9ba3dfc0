//! Files in memory: their bytes by their names.
ghost use Rattle.std.specs.Prelude.{◌≡◌, ◌≢◌, ◌++◌, List, ℕ, OnOk, OnErr, IfOk, IfSome, Some};
ghost use Rattle.ht_desks.specs.Store.{file_of};

use std::alloc::{AllocError, Global};
use std::collections::BTreeMap;

/// The bytes of files by their names.
pub type FileMap = BTreeMap<String, Vec<u8>>;

/// A copy of a file; `None` where there is none of this name, or no memory.
pub fn copy_file(alloc: Global, files: &FileMap, name: &str) -> Option<Vec<u8>>
    ensures { IfSome result (λ v. file_of files.now name.now ≡ Some v.items) }
{
    match files.get(name) {
        Some(bytes) => bytes.to_vec(alloc).ok(),
        None => None,
    }
}

/// Adds a file, or replaces the one of this name.
pub fn put_file(
    alloc: Global,
    files: &mut FileMap,
    name: &str,
    bytes: &[u8],
) -> Result<(), AllocError>
    ensures file { OnOk result (file_of files.new name.now ≡ Some bytes.now) }
    ensures others { (n : List ℕ) → n ≢ name.now → file_of files.new n ≡ file_of files.old n }
    ensures failed { OnErr result ((n : List ℕ) → file_of files.new n ≡ file_of files.old n) }
{
    let key = String::from_str(alloc, name)?;
    let value = bytes.to_vec(alloc)?;
    files.insert(key, value)?;
    Ok(())
}

/// The bytes of `front`, and then those of `back`.
pub fn concat(alloc: Global, front: &[u8], back: &[u8]) -> Result<Vec<u8>, AllocError>
    ensures { IfOk result (λ v. v.items ≡ front.now ++ back.now) }
{
    let mut bytes = front.to_vec(alloc)?;
    bytes.extend_from_slice(back)?;
    Ok(bytes)
}
