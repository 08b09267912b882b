//! Reading a setup line.

ghost use Rattle.std.specs.Prelude.{◌≡◌, IfErr};
ghost use Rattle.flat_policy.specs.Texts.SetupLines.{json_of, numbers_of, read_setup_text, setup_of, setup_of_members, setup_of_object, unless_fault};
ghost use Rattle.serde_json.specs.Find.{as_object};
ghost use Rattle.serde_json.specs.View.{members_view, view};
ghost use Rattle.setup_json.specs.Numbers.{numbers_said};
ghost use Rattle.setup_json.specs.Reads.{IsOfLineError, Reads, json_or_fault};

use crate::fault::SetupError;
use crate::numbers::{Members, Numbers, has_only_keys, numbers_of};
use crate::shapes::TimesRows;
use flat_policy::setup::{Field, Setup};
use flat_policy::texts::SetupFault;
use serde_json::Value;
use std::alloc::Global;

/// The setup that a line states, in either version.
///
/// `NotJson` comes exactly where the line has no reading as a JSON value; `Shape(Whole)` where the
/// value is no object or has a key beside those of the fields; `Shape(f)` with the first field
/// whose shape is wrong; `Range(f)` with the first field out of its range. They come in this order.
/// `Long` and `Unfinished` never come.
pub fn read_setup(alloc: Global, line: &[u8]) -> Result<Setup, SetupError>
    ensures exact { Reads (λ s. s) result (read_setup_text line.now) }
    ensures of_line { IfErr result IsOfLineError }
{
    let value = parse(alloc, line)?;
    setup_of_value(alloc, &value)
}

/// The JSON value that a line is.
fn parse(alloc: Global, line: &[u8]) -> Result<Value, SetupError>
    ensures { Reads view result (json_or_fault (json_of line.now)) }
{
    match Value::from_slice(alloc, line) {
        Ok(value) => Ok(value),
        Err(error) if error.is_memory() => Err(SetupError::Memory),
        Err(_) => Err(SetupError::Fault(SetupFault::NotJson)),
    }
}

fn setup_of_value(alloc: Global, value: &Value) -> Result<Setup, SetupError>
    ensures { Reads (λ s. s) result (setup_of_members (as_object (view value.now))) }
{
    match value.as_object() {
        Some(members) => setup_of_object(alloc, members),
        None => Err(SetupError::shape(Field::Whole)),
    }
}

fn setup_of_object(alloc: Global, members: &Members) -> Result<Setup, SetupError>
    ensures { Reads (λ s. s) result (setup_of_object (members_view members.now.entries)) }
{
    if has_only_keys(members) {
        setup_of_fields(alloc, members)
    } else {
        Err(SetupError::shape(Field::Whole))
    }
}

#[tactic(auto, using(crate::proofs::Meanings::fails_on))]
fn setup_of_fields(alloc: Global, members: &Members) -> Result<Setup, SetupError>
    ensures { Reads (λ s. s) result (unless_fault (numbers_of (members_view members.now.entries)) (λ n. setup_of n n.times)) }
{
    let numbers = numbers_of(alloc, members)?;
    setup_of_numbers(alloc, &numbers)
}

fn setup_of_numbers(alloc: Global, numbers: &Numbers) -> Result<Setup, SetupError>
    ensures { Reads (λ s. s) result (setup_of (numbers_said numbers.now) (numbers_said numbers.now).times) }
{
    match &numbers.times {
        None => setup_of_one(alloc, numbers),
        Some(times) => setup_of_two(alloc, numbers, times),
    }
}

/// A setup of version 1; any other version without times is out of range.
fn setup_of_one(alloc: Global, numbers: &Numbers) -> Result<Setup, SetupError>
    ensures { Reads (λ s. s) result (setup_of (numbers_said numbers.now) None) }
{
    let setup = Setup::build(
        alloc,
        &numbers.clusters,
        &numbers.edges,
        &numbers.groups,
        numbers.threads,
        numbers.version,
    )?;
    Ok(setup)
}

/// A setup of version 2.
fn setup_of_two(alloc: Global, numbers: &Numbers, times: &[TimesRows]) -> Result<Setup, SetupError>
    ensures { Reads (λ s. s) result (setup_of (numbers_said numbers.now) (Some times.now)) }
{
    let setup = Setup::build_timed(
        alloc,
        &numbers.clusters,
        &numbers.edges,
        &numbers.groups,
        numbers.threads,
        times,
    )?;
    Ok(setup)
}
