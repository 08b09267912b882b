//! The shapes of the fields: numbers, and lists of rows of numbers.

ghost use Rattle.std.specs.Prelude.{◌≡◌, IfOk, option_and_then, option_map};
ghost use Rattle.flat_policy.specs.Texts.SetupLines.{array_of_length, each_item, rows_of, times_rows, whole_number, with_length};
ghost use Rattle.serde_json.specs.View.{items_view, view};

use serde_json::Value;
use std::alloc::{AllocError, Global};

/// The rows of a cluster's times, WCEL, WARP and QUANTUM in microseconds, each by bucket index.
pub(crate) type TimesRows = [[u64; 6]; 3];

/// The numbers of some items, if there are N.
fn numbers_among<const N: usize>(items: &[Value]) -> Option<[u64; N]>
    ensures { result ≡ option_and_then (with_length N) (each_item whole_number (items_view items.now)) }
{
    if items.len() != N {
        return None;
    }
    let mut row = [0; N];
    for (k, item) in items.iter().enumerate() {
        row[k] = item.as_u64()?;
    }
    Some(row)
}

/// An array of N whole numbers.
fn row<const N: usize>(value: &Value) -> Option<[u64; N]>
    ensures { result ≡ array_of_length N whole_number (view value.now) }
{
    numbers_among(value.as_array()?)
}

fn rows_among<const N: usize>(
    alloc: Global,
    items: &[Value],
) -> Result<Option<Vec<[u64; N]>>, AllocError>
    ensures { IfOk result (λ rows. option_map (λ v. v.items) rows
        ≡ each_item (array_of_length N whole_number) (items_view items.now)) }
{
    let mut rows = Vec::new(alloc);
    for item in items {
        let Some(numbers) = row(item) else {
            return Ok(None);
        };
        rows.push(numbers)?;
    }
    Ok(Some(rows))
}

/// An array of rows of N whole numbers.
pub(crate) fn rows<const N: usize>(
    alloc: Global,
    value: &Value,
) -> Result<Option<Vec<[u64; N]>>, AllocError>
    ensures { IfOk result (λ rows. option_map (λ v. v.items) rows ≡ rows_of N (view value.now)) }
{
    match value.as_array() {
        Some(items) => rows_among(alloc, items),
        None => Ok(None),
    }
}

/// Three rows of six numbers, among some items.
fn three_rows(items: &[Value]) -> Option<TimesRows>
    ensures { result ≡ option_and_then (with_length 3) (each_item (array_of_length 6 whole_number) (items_view items.now)) }
{
    match items {
        [wcel, warp, quantum] => Some([row(wcel)?, row(warp)?, row(quantum)?]),
        _ => None,
    }
}

/// The times of one cluster: an array of three arrays of six numbers.
fn cluster_times(value: &Value) -> Option<TimesRows>
    ensures { result ≡ array_of_length 3 (array_of_length 6 whole_number) (view value.now) }
{
    three_rows(value.as_array()?)
}

fn times_among(alloc: Global, items: &[Value]) -> Result<Option<Vec<TimesRows>>, AllocError>
    ensures { IfOk result (λ times. option_map (λ v. v.items) times
        ≡ each_item (array_of_length 3 (array_of_length 6 whole_number)) (items_view items.now)) }
{
    let mut times = Vec::new(alloc);
    for item in items {
        let Some(of_cluster) = cluster_times(item) else {
            return Ok(None);
        };
        times.push(of_cluster)?;
    }
    Ok(Some(times))
}

/// An array of the times of clusters.
pub(crate) fn times(alloc: Global, value: &Value) -> Result<Option<Vec<TimesRows>>, AllocError>
    ensures { IfOk result (λ times. option_map (λ v. v.items) times ≡ times_rows (view value.now)) }
{
    match value.as_array() {
        Some(items) => times_among(alloc, items),
        None => Ok(None),
    }
}
