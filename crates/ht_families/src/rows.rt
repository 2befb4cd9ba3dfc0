//! Families by rows, as an entry has them.
ghost use Rattle.std.specs.Prelude.{◌≡◌, ◌≢◌, ◌↔◌, ◌<◌, ◌^◌, [], ℕ, IsTrue, length, get_or, IfOk};
ghost use Rattle.std.specs.List.{All};
ghost use Rattle.ht_pairs.specs.Pairs.{set_of};
ghost use Rattle.ht_net.specs.Detect.Detection.{IsStart};
ghost use Rattle.ht_tree.specs.Record.Rising.{Rises};
ghost use Rattle.ht_tree.specs.Record.FamilyRows.{ClosesByRows, dffs_of, family_of, row_set, start_set};

use crate::Family;
use crate::check::closes;
use crate::sets::start_family;
use ht_net::{Circuit, Fault};
use ht_pairs::PairSet;
use ht_tern::Tern;
use ht_tree::FamilyRow;
use std::alloc::{AllocError, Global};

// Gives the flip-flops of rows their sets.
fn write_rows(rows: &[FamilyRow], family: &mut [PairSet])
    requires { All (λ row. row.dff < length family.old) rows.now }
    ensures { (j : ℕ) → get_or family.new j [] ≡ row_set rows.now j (get_or family.old j []) }
{
    for row in rows {
        family[row.dff as usize] = row.set;
    }
}

// The family of a start and rows.
fn family_of(alloc: Global, start: &[Tern], rows: &[FamilyRow]) -> Result<Family, AllocError>
    requires { All (λ row. row.dff < length start.now) rows.now }
    ensures { IfOk result (λ family. family.items ≡ family_of start.now rows.now) }
{
    let mut family = start_family(alloc, start)?;
    write_rows(rows, &mut family);
    Ok(family)
}

// Whether the flip-flops of rows rise and are below a count.
fn names_flip_flops(rows: &[FamilyRow], count: u32) -> bool
    ensures { IsTrue result
        ↔ (Rises (dffs_of rows.now) × All (λ row. row.dff < count) rows.now) }
{
    for i in 0..rows.len() {
        if rows[i].dff >= count {
            return false;
        }
        if i + 1 < rows.len() && rows[i].dff >= rows[i + 1].dff {
            return false;
        }
    }
    true
}

/// Whether rows refute a fault from a start: they rise, are of the circuit's flip-flops, and the family that they give,
/// with the pair of the start alone at each flip-flop without a row, closes. A start has a value for each flip-flop.
///
/// # Errors
/// Out of memory.
pub fn closes_by_rows(
    alloc: Global,
    circuit: &Circuit,
    fault: Fault,
    start: &[Tern],
    rows: &[FamilyRow],
) -> Result<bool, AllocError>
    requires { IsStart circuit.now start.now }
    ensures { IfOk result
        (λ closed. IsTrue closed ↔ ClosesByRows circuit.now fault start.now rows.now) }
{
    if !names_flip_flops(rows, circuit.dffs()) {
        return Ok(false);
    }
    let family = family_of(alloc, start, rows)?;
    closes(alloc, circuit, fault, start, &family)
}

/// The rows of a family over a start: one for each flip-flop, in rising order, whose set isn't the pair of the start
/// alone. No set is empty, and each lists its members in the order of all pairs. A start has a value for each flip-flop.
///
/// # Errors
/// Out of memory.
pub fn rows_of(
    alloc: Global,
    start: &[Tern],
    family: &[PairSet],
) -> Result<Vec<FamilyRow>, AllocError>
    requires start { length start.now ≡ length family.now }
    requires few { length family.now < 2 ^ 32 }
    ensures rises { IfOk result (λ rows. Rises (dffs_of rows.items)) }
    ensures known { IfOk result (λ rows. All (λ row. row.dff < length family.now) rows.items) }
    ensures family { IfOk result (λ rows. family_of start.now rows.items ≡ family.now) }
    ensures more { IfOk result
        (λ rows. All (λ row. row.set ≢ start_set start.now row.dff) rows.items) }
    ensures listed { IfOk result (λ rows. All (λ row. row.set ≡ set_of row.set) rows.items) }
    ensures some { IfOk result (λ rows. All (λ row. 0 < length row.set) rows.items) }
{
    let mut rows = Vec::new(alloc);
    for (j, set) in family.iter().enumerate() {
        let alone = *set == PairSet::single(start[j], start[j]);
        if !alone {
            // for the proof: the set has a member, and lists its members in order
            set.is_listed_in_order();
            let _ = set.is_single();
            rows.push(FamilyRow {
                dff: j as u32,
                set: *set,
            })?;
        }
    }
    Ok(rows)
}
