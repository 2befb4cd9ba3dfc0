//! The reading of a line.
ghost use Rattle.std.specs.Prelude.{◌≡◌, IfOk, IfErr};
ghost use Rattle.std.specs.List.{list_all};
ghost use Rattle.ht_statement.specs.LineFormOf.{form_meant};
ghost use Rattle.ht_statement.specs.Name.{is_name};
ghost use Rattle.ht_statement.specs.Element.{element_named};
ghost use Rattle.ht_statement.specs.Reading.{stated, unreadable, form_reading, definition_reading, reading_of, IsRefusalOf};
ghost use Rattle.ht_statement.specs.StatementOf.{texts_of, statement_of};

use crate::element::{Element, element_named, has_count};
use crate::error::{LineRefusal, StatementError};
use crate::form::{LineForm, read_form};
use crate::name::is_name;
use crate::statement::Statement;
use std::alloc::Global;

/// Whether all texts are names.
fn are_names(texts: &[&[u8]]) -> bool
    ensures { result ≡ list_all is_name (texts_of texts.now) }
{
    texts.iter().all(|text| is_name(text))
}

/// What a definition states whose names are names.
fn defined<'a>(
    out: &'a [u8],
    kind: &[u8],
    args: Vec<&'a [u8]>,
) -> Result<Statement<'a>, LineRefusal>
    ensures states { IfOk result
        (λ statement. definition_reading out.now (texts_of args.entry.items)
        (element_named kind.now) ≡ stated (statement_of statement)) }
    ensures refusal { IfErr result
        (λ refusal. definition_reading out.now (texts_of args.entry.items) (element_named kind.now)
        ≡ unreadable refusal) }
{
    let Some(element) = element_named(kind) else {
        return Err(LineRefusal::BadKind);
    };
    if !has_count(element, args.len()) {
        return Err(LineRefusal::BadCount);
    }
    match element {
        Element::FlipFlop => Ok(Statement::Dff {
            out,
            data_pin: args[0],
        }),
        Element::Gate(kind) => Ok(Statement::Gate { out, kind, args }),
    }
}

/// What a line of a form states.
fn stated<'a>(form: LineForm<'a>) -> Result<Statement<'a>, LineRefusal>
    ensures states { IfOk result (λ statement. form_reading (form_meant form.entry)
        ≡ stated (statement_of statement)) }
    ensures refusal { IfErr result (λ refusal. form_reading (form_meant form.entry)
        ≡ unreadable refusal) }
{
    match form {
        LineForm::Blank => Ok(Statement::Nothing),
        LineForm::Input(name) if is_name(name) => Ok(Statement::Input(name)),
        LineForm::Output(name) if is_name(name) => Ok(Statement::Output(name)),
        LineForm::Definition { out, kind, args } if is_name(out) && are_names(&args) => {
            defined(out, kind, args)
        }
        _ => Err(LineRefusal::BadName),
    }
}

/// What a line states.
///
/// # Errors
/// - `Refused` with the first cause, in the order of `LineRefusal`.
/// - `NoMemory`: it may come at any line.
pub fn read_line<'a>(alloc: Global, line: &'a [u8]) -> Result<Statement<'a>, StatementError>
    ensures states { IfOk result
        (λ statement. reading_of line.now ≡ stated (statement_of statement)) }
    ensures refusal { IfErr result (IsRefusalOf line.now) }
{
    let Some(form) = read_form(alloc, line)? else {
        return Err(StatementError::Refused(LineRefusal::BadLine));
    };
    stated(form).map_err(StatementError::Refused)
}
