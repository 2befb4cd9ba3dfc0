//! The reader of netlists.
ghost use Rattle.std.specs.Prelude.{◌≡◌, ◌≤◌, [], length, map, All, IfOk, OnOk, IfErr};
ghost use Rattle.ht_net.specs.Build.Draft.{IsName, draft_name};
ghost use Rattle.ht_net.specs.Build.Finish.{RefusesFinish};
ghost use Rattle.ht_bench.specs.Drafts.{IsDraftOf};
ghost use Rattle.ht_bench.specs.Progress.{IsRead};
ghost use Rattle.ht_bench.specs.Text.{max_netlist_bytes, IsNetlistOf, Refuses, IsOfNoCircuit};

use crate::BenchError;
use crate::add_line::add_line;
use crate::find_line::{Role, first_line};
use crate::lines::next_line;
use ht_items::Items;
use ht_net::{Builder, Circuit, NameId, NetError};
use std::alloc::{AllocError, Global};

/// Adds what each line states.
fn add_lines(alloc: Global, builder: &mut Builder, text: &[u8]) -> Result<(), BenchError>
    requires short { length text.now ≤ max_netlist_bytes }
    requires new { IsDraftOf [] builder.old }
    ensures read { OnOk result (IsRead text.now builder.new) }
    ensures refusal { IfErr result (Refuses text.now) }
{
    let mut rest = text;
    let mut number = 0;
    while let Some((line, more)) = next_line(rest) {
        number += 1;
        if let Err(error) = add_line(alloc, builder, line) {
            return Err(error.at(number));
        }
        rest = more;
    }
    Ok(())
}

/// The names of a cycle's nets.
fn names_of(
    alloc: Global,
    builder: &Builder,
    nets: &[NameId],
) -> Result<Items<Items<u8>>, AllocError>
    requires { All (IsName builder.now) nets.now }
    ensures { IfOk result (λ names. names ≡ map (draft_name builder.now) nets.now) }
{
    let mut names = Vec::new(alloc);
    for net in nets {
        names.push(Items::from_slice(alloc, builder.name(*net))?)?;
    }
    Ok(Items::from_vec(names))
}

/// The refusal of a text whose lines are all read and whose nets make no circuit.
fn end_refusal(
    alloc: Global,
    builder: &Builder,
    text: &[u8],
    error: &NetError,
) -> Result<BenchError, AllocError>
    requires short { length text.now ≤ max_netlist_bytes }
    requires read { IsRead text.now builder.now }
    requires refused { RefusesFinish builder.now error.now }
    ensures { IfOk result (Refuses text.now) }
{
    match error {
        NetError::Undriven { name } => {
            let name = builder.name(*name);
            let line = first_line(alloc, text, Role::Mentioned, name)?;
            let name = Items::from_slice(alloc, name)?;
            Ok(BenchError::Undriven { line, name })
        }
        NetError::Loop { nets } => {
            let nets = nets.as_slice();
            let first = nets[0];
            let line = first_line(alloc, text, Role::Driven, builder.name(first))?;
            let names = names_of(alloc, builder, nets)?;
            Ok(BenchError::Loop { line, names })
        }
        _ => Err(AllocError),
    }
}

/// The circuit of a text that is read into a new builder. For the proof: the caller owns it, and drops it in one place.
#[tactic(auto, using(crate::proofs::EndOfTextLaws::netlist_is))]
fn read_into(alloc: Global, builder: &mut Builder, text: &[u8]) -> Result<Circuit, BenchError>
    requires short { length text.now ≤ max_netlist_bytes }
    requires new { IsDraftOf [] builder.old }
    ensures circuit { IfOk result (λ c. IsNetlistOf text.now c) }
    ensures refusal { IfErr result (Refuses text.now) }
{
    add_lines(alloc, builder, text)?;
    match builder.finish() {
        Ok(circuit) => Ok(circuit),
        Err(error) => Err(end_refusal(alloc, builder, text, &error)?),
    }
}

/// The circuit of a netlist of at most 16,777,216 bytes (ISCAS-89 format).
///
/// # Errors
/// The text's one refusal, by the rules of `BenchError`; which cycle `Loop` names is free. `NoMemory` may come at any
/// text.
#[tactic(auto, using(crate::proofs::ExcludeLaws::refused_is_of_no_circuit))]
pub fn read(alloc: Global, text: &[u8]) -> Result<Circuit, BenchError>
    requires { length text.now ≤ max_netlist_bytes }
    ensures circuit { IfOk result (λ c. IsNetlistOf text.now c) }
    ensures refusal { IfErr result (Refuses text.now) }
    ensures excludes { IfErr result (IsOfNoCircuit text.now) }
{
    let mut builder = Builder::new(alloc);
    read_into(alloc, &mut builder, text)
}
