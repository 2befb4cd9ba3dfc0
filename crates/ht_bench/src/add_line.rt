//! Adding what a line states.
ghost use Rattle.std.specs.Prelude.{◌≡◌, ◌≤◌, length, None, OnOk, IfErr};
ghost use Rattle.ht_tern.specs.Gate.{HasArity};
ghost use Rattle.ht_net.specs.Circuit.Netlist.{max_arguments};
ghost use Rattle.ht_statement.specs.Statement.{blank_line, input_line, output_line, dff_line, gate_line};
ghost use Rattle.ht_statement.specs.StatementOf.{statement_of, texts_of};
ghost use Rattle.ht_bench.specs.Drafts.{draft_limit, Accepts, RefusesStatement, HasArguments, AddsLine, RefusesLine};

use crate::add_error::AddError;
use crate::mention::{mention, mention_all, mention_driven};
use ht_net::Builder;
use ht_statement::{Statement, read_line};
use ht_tern::Kind;
use std::alloc::Global;

fn add_input(alloc: Global, builder: &mut Builder, name: &[u8]) -> Result<(), AddError>
    ensures accepts { OnOk result (Accepts builder.old (input_line name.now) builder.new) }
    ensures refusal { IfErr result (RefusesStatement builder.old (input_line name.now)) }
{
    let id = mention_driven(alloc, builder, name)?;
    builder.input(id)?;
    Ok(())
}

/// Adds an output, or nothing if the net is one.
fn add_output(builder: &mut Builder, name: &[u8]) -> Result<(), AddError>
    ensures accepts { OnOk result (Accepts builder.old (output_line name.now) builder.new) }
    ensures refusal { IfErr result (RefusesStatement builder.old (output_line name.now)) }
{
    let id = mention(builder, name)?;
    builder.output(id)?;
    Ok(())
}

fn add_dff(
    alloc: Global,
    builder: &mut Builder,
    out: &[u8],
    data_pin: &[u8],
) -> Result<(), AddError>
    ensures accepts { OnOk result
        (Accepts builder.old (dff_line out.now data_pin.now) builder.new) }
    ensures refusal { IfErr result (RefusesStatement builder.old (dff_line out.now data_pin.now)) }
{
    let out_id = mention_driven(alloc, builder, out)?;
    let pin_id = mention(builder, data_pin)?;
    builder.dff(out_id, pin_id)?;
    Ok(())
}

fn add_gate(
    alloc: Global,
    builder: &mut Builder,
    out: &[u8],
    kind: Kind,
    args: &[&[u8]],
) -> Result<(), AddError>
    requires arity { HasArity kind (length args.now) }
    requires few { length args.now ≤ max_arguments }
    ensures accepts { OnOk result
        (Accepts builder.old (gate_line out.now kind (texts_of args.now)) builder.new) }
    ensures refusal { IfErr result
        (RefusesStatement builder.old (gate_line out.now kind (texts_of args.now))) }
{
    let out_id = mention_driven(alloc, builder, out)?;
    let arg_ids = mention_all(alloc, builder, args)?;
    builder.gate(kind, out_id, arg_ids.as_slice())?;
    Ok(())
}

fn add(alloc: Global, builder: &mut Builder, statement: &Statement<'_>) -> Result<(), AddError>
    requires within { draft_limit builder.old ≡ None }
    requires arguments { HasArguments (statement_of statement.now) }
    ensures accepts { OnOk result
        (Accepts builder.old (statement_of statement.now) builder.new) }
    ensures refusal { IfErr result (RefusesStatement builder.old (statement_of statement.now)) }
{
    match statement {
        Statement::Nothing => Ok(()),
        Statement::Input(name) => add_input(alloc, builder, name),
        Statement::Output(name) => add_output(builder, name),
        Statement::Dff { out, data_pin } => add_dff(alloc, builder, out, data_pin),
        Statement::Gate { out, kind, args } => add_gate(alloc, builder, out, *kind, args),
    }
}

/// Adds what a line states.
#[tactic(auto, using(crate::proofs::StatedLaws::stated_arguments))]
pub(crate) fn add_line(alloc: Global, builder: &mut Builder, line: &[u8]) -> Result<(), AddError>
    requires { draft_limit builder.old ≡ None }
    ensures adds { OnOk result (AddsLine builder.old line.now builder.new) }
    ensures refusal { IfErr result (RefusesLine builder.old line.now) }
{
    let statement = read_line(alloc, line)?;
    add(alloc, builder, &statement)
}
