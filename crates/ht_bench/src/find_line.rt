//! The first line that mentions or drives a net, in a text whose lines were all read.
ghost use Rattle.std.specs.Prelude.{◌≡◌, ◌≤◌, IfOk, length};
ghost use Rattle.ht_statement.specs.Statement.{Statement as Stated, names_in};
ghost use Rattle.ht_statement.specs.Reading.{stated, reading_of};
ghost use Rattle.ht_statement.specs.StatementOf.{statement_of, texts_of};
ghost use Rattle.ht_bench.specs.Different.{has_name};
ghost use Rattle.ht_bench.specs.Contents.{driven_in};
ghost use Rattle.ht_bench.specs.Text.{max_netlist_bytes};
ghost use Rattle.ht_bench.specs.Role.{nets_in};
ghost use Rattle.ht_bench.specs.Progress.{HasNet, IsFirstLine};

use crate::lines::next_line;
use ht_statement::{Statement, StatementError, read_line};
use std::alloc::{AllocError, Global};

/// A net's role in a line: mentioned anywhere, or driven.
#[derive(Clone, Copy)]
pub(crate) enum Role {
    Mentioned,
    Driven,
}

/// Whether a statement drives a net.
fn drives(statement: &Statement<'_>, name: &[u8]) -> bool
    ensures { result ≡ has_name (driven_in (statement_of statement.now)) name.now }
{
    match statement {
        Statement::Nothing | Statement::Output(_) => false,
        Statement::Input(net) => *net == name,
        Statement::Dff { out, .. } => *out == name,
        Statement::Gate { out, .. } => *out == name,
    }
}

/// Whether a name is one of these.
fn is_one_of(name: &[u8], names: &[&[u8]]) -> bool
    ensures { result ≡ has_name (texts_of names.now) name.now }
{
    for other in names {
        if *other == name {
            return true;
        }
    }
    false
}

/// Whether a statement mentions a net.
fn mentions(statement: &Statement<'_>, name: &[u8]) -> bool
    ensures { result ≡ has_name (names_in (statement_of statement.now)) name.now }
{
    match statement {
        Statement::Nothing => false,
        Statement::Input(net) | Statement::Output(net) => *net == name,
        Statement::Dff { out, data_pin } => *out == name || *data_pin == name,
        Statement::Gate { out, args, .. } => *out == name || is_one_of(name, args),
    }
}

/// Whether a statement has a net in a role.
fn has_net(statement: &Statement<'_>, role: Role, name: &[u8]) -> bool
    ensures { result ≡ has_name (nets_in role (statement_of statement.now)) name.now }
{
    match role {
        Role::Mentioned => mentions(statement, name),
        Role::Driven => drives(statement, name),
    }
}

/// What a line states that was read before. For the proof: it can't be refused now.
fn read_again<'a>(alloc: Global, line: &'a [u8]) -> Result<Statement<'a>, AllocError>
    requires { (statement : Stated) × (reading_of line.now ≡ stated statement) }
    ensures { IfOk result (λ statement. reading_of line.now ≡ stated (statement_of statement)) }
{
    match read_line(alloc, line) {
        Ok(statement) => Ok(statement),
        Err(StatementError::NoMemory) => Err(AllocError),
        Err(StatementError::Refused(_)) => unreachable!(),
    }
}

/// The first line, from 1, that has a net in a role.
// The text is read again for an undriven net or a cycle alone, so a netlist that is accepted pays nothing for line
// numbers.
pub(crate) fn first_line(
    alloc: Global,
    text: &[u8],
    role: Role,
    name: &[u8],
) -> Result<u32, AllocError>
    requires short { length text.now ≤ max_netlist_bytes }
    requires has { HasNet text.now role name.now }
    ensures { IfOk result (IsFirstLine text.now role name.now) }
{
    let mut rest = text;
    let mut number = 0;
    while let Some((line, more)) = next_line(rest) {
        number += 1;
        let statement = read_again(alloc, line)?;
        if has_net(&statement, role, name) {
            return Ok(number);
        }
        rest = more;
    }
    unreachable!()
}
