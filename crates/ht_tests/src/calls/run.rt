//! Tests of `run`: the worked examples, over desks in memory, byte for byte. Each file has rows of one form (`rows`).
//! Where a row fails, the left side of the assertion is the paragraph that doesn't hold.

mod check;
mod commands;
mod compact;
mod failures;
mod generate;
mod limits;
mod memory;
mod netlists;
mod proofs;
mod rows;
mod samples;
mod sim;
mod words;

use rows::first_wrong;
use std::test::Fail;

const INPUTS: &[&str] = &[
    words::ROWS,
    netlists::ROWS,
    sim::ROWS,
    sim::STARTED,
    proofs::MALFORMED,
];

#[test]
fn inputs_are_read_or_refused(rt: HostRuntime) -> Result<(), Fail> {
    for rows in INPUTS {
        assert_eq!(rt; first_wrong(rt.alloc(), rows)?, None);
    }
    Ok(())
}

const COMMANDS: &[&str] = &[
    generate::ROWS,
    proofs::PASSING,
    check::ROWS,
    commands::ROWS,
    compact::ROWS,
    failures::ROWS,
];

#[test]
fn commands_end_and_leave_what_is_said(rt: HostRuntime) -> Result<(), Fail> {
    for rows in COMMANDS {
        assert_eq!(rt; first_wrong(rt.alloc(), rows)?, None);
    }
    Ok(())
}

#[test]
fn limits_are_named(rt: HostRuntime) -> Result<(), Fail> {
    assert_eq!(rt; first_wrong(rt.alloc(), limits::ROWS)?, None);
    Ok(())
}

#[test]
fn long_texts_are_read(rt: HostRuntime) -> Result<(), Fail> {
    assert_eq!(rt; first_wrong(rt.alloc(), limits::LONG)?, None);
    Ok(())
}

#[test]
fn an_entry_of_100000_tokens_is_read(rt: HostRuntime) -> Result<(), Fail> {
    assert_eq!(rt; first_wrong(rt.alloc(), limits::TOKENS)?, None);
    Ok(())
}
