//! The numbers of a setup line whose fields have their shapes.

ghost use Rattle.std.specs.Prelude.{◌≡◌, codes, IfOk, option_and_then, option_map, string_bytes};
ghost use Rattle.std.specs.BTreeMap.{keys};
ghost use Rattle.std.specs.List.{list_all};
ghost use Rattle.flat_policy.specs.Texts.SetupLines.{field_of, is_version_two, numbers_of, only_keys, rows_of, times_field, times_of_other, times_rows, whole_number};
ghost use Rattle.serde_json.specs.Find.{get_member};
ghost use Rattle.serde_json.specs.View.{members_view, view};
ghost use Rattle.setup_json.specs.Numbers.{names_field, numbers_said};
ghost use Rattle.setup_json.specs.Reads.{Reads};

use crate::fault::SetupError;
use crate::shapes::{TimesRows, rows, times};
use flat_policy::setup::Field;
use serde_json::{Map, Value};
use std::alloc::{AllocError, Global};

/// The members of the line's object.
pub(crate) type Members = Map<String, Value>;

/// The numbers of a setup line, by field. Times are there in version 2 alone.
#[derive(Drop)]
pub(crate) struct Numbers {
    pub(crate) clusters: Vec<[u64; 2]>,
    pub(crate) edges: Vec<[u64; 5]>,
    pub(crate) groups: Vec<[u64; 6]>,
    pub(crate) threads: u64,
    pub(crate) times: Option<Vec<TimesRows>>,
    pub(crate) version: u64,
}

/// Whether a setup line has a field under this key.
#[tactic(auto, unfolding(crate::specs::Numbers::names_field))]
fn is_key(key: &str) -> bool
    ensures { result ≡ names_field key.now }
{
    key == "clusters"
        || key == "edges"
        || key == "groups"
        || key == "threads"
        || key == "times"
        || key == "version"
}

/// Whether each key is that of a field.
fn are_fields(members: &Members) -> bool
    ensures { result ≡ list_all (λ k. names_field (string_bytes k)) (keys members.now) }
{
    members.keys().all(|key| is_key(key.as_str()))
}

/// Whether there are no keys beside those of the fields.
pub(crate) fn has_only_keys(members: &Members) -> bool
    ensures { result ≡ only_keys (members_view members.now.entries) }
{
    are_fields(members)
}

/// The value under a key.
fn member<'v>(members: &'v Members, key: &str) -> Option<&'v Value>
    ensures { option_map (λ v. view v.now) result ≡ get_member key.now (members_view members.now.entries) }
{
    members.get(key)
}

/// The whole number under a key.
fn number_at(members: &Members, key: &str) -> Option<u64>
    ensures { result ≡ option_and_then whole_number (get_member key.now (members_view members.now.entries)) }
{
    match member(members, key) {
        Some(value) => value.as_u64(),
        None => None,
    }
}

/// A field that is a number.
fn number_field(members: &Members, key: &str, field: Field) -> Result<u64, SetupError>
    ensures { Reads (λ n. n) result (field_of field key.now whole_number (members_view members.now.entries)) }
{
    match number_at(members, key) {
        Some(number) => Ok(number),
        None => Err(SetupError::shape(field)),
    }
}

/// The rows of N numbers under a key.
fn rows_at<const N: usize>(
    alloc: Global,
    members: &Members,
    key: &str,
) -> Result<Option<Vec<[u64; N]>>, AllocError>
    ensures { IfOk result (λ rows. option_map (λ v. v.items) rows
        ≡ option_and_then (rows_of N) (get_member key.now (members_view members.now.entries))) }
{
    match member(members, key) {
        Some(value) => rows(alloc, value),
        None => Ok(None),
    }
}

/// A field that is a list of rows of N numbers.
fn rows_field<const N: usize>(
    alloc: Global,
    members: &Members,
    key: &str,
    field: Field,
) -> Result<Vec<[u64; N]>, SetupError>
    ensures { Reads (λ v. v.items) result (field_of field key.now (rows_of N) (members_view members.now.entries)) }
{
    match rows_at(alloc, members, key)? {
        Some(found) => Ok(found),
        None => Err(SetupError::shape(field)),
    }
}

fn is_version_two(members: &Members) -> bool
    ensures { result ≡ is_version_two (members_view members.now.entries) }
{
    match number_at(members, "version") {
        Some(version) => version == 2,
        None => false,
    }
}

fn times_at(alloc: Global, members: &Members) -> Result<Option<Vec<TimesRows>>, AllocError>
    ensures { IfOk result (λ times. option_map (λ v. v.items) times
        ≡ option_and_then times_rows (get_member (codes "times") (members_view members.now.entries))) }
{
    match member(members, "times") {
        Some(value) => times(alloc, value),
        None => Ok(None),
    }
}

/// The times, which version 2 must have.
fn times_of_two(alloc: Global, members: &Members) -> Result<Vec<TimesRows>, SetupError>
    ensures { Reads (λ v. v.items) result (field_of Field.Times (codes "times") times_rows (members_view members.now.entries)) }
{
    match times_at(alloc, members)? {
        Some(found) => Ok(found),
        None => Err(SetupError::shape(Field::Times)),
    }
}

/// The times, which no other version may have.
fn times_of_other(members: &Members) -> Result<Option<Vec<TimesRows>>, SetupError>
    ensures { Reads (option_map (λ v. v.items)) result (times_of_other (get_member (codes "times") (members_view members.now.entries))) }
{
    match member(members, "times") {
        Some(_) => Err(SetupError::shape(Field::Times)),
        None => Ok(None),
    }
}

#[tactic(auto, using(crate::proofs::Meanings::fails_on))]
fn times_field(alloc: Global, members: &Members) -> Result<Option<Vec<TimesRows>>, SetupError>
    ensures { Reads (option_map (λ v. v.items)) result (times_field (members_view members.now.entries)) }
{
    if is_version_two(members) {
        let found = times_of_two(alloc, members)?;
        Ok(Some(found))
    } else {
        times_of_other(members)
    }
}

/// The numbers of all fields, or the first field whose shape is wrong.
#[tactic(auto, using(crate::proofs::Meanings::fails_on))]
pub(crate) fn numbers_of(alloc: Global, members: &Members) -> Result<Numbers, SetupError>
    ensures { Reads numbers_said result (numbers_of (members_view members.now.entries)) }
{
    let clusters = rows_field(alloc, members, "clusters", Field::Clusters)?;
    let edges = rows_field(alloc, members, "edges", Field::Edges)?;
    let groups = rows_field(alloc, members, "groups", Field::Groups)?;
    let threads = number_field(members, "threads", Field::Threads)?;
    let times = times_field(alloc, members)?;
    let version = number_field(members, "version", Field::Version)?;
    Ok(Numbers {
        clusters,
        edges,
        groups,
        threads,
        times,
        version,
    })
}
