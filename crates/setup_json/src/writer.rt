//! Writing a setup's canonical text.

ghost use Rattle.std.specs.Prelude.{◌≡◌, ◌++◌, ◌<◌, decimal, IfOk, OnOk, map, slice_index_or, []};
ghost use Rattle.flat_policy.specs.Policy.Setup.{group_count};
ghost use Rattle.flat_policy.specs.Texts.SetupLines.{bracketed, cluster_text, cluster_times_text, edge_text, numbers_text, setup_text, times_member};
ghost use Rattle.flat_policy.specs.declared.setup.Times.{Times};
ghost use Rattle.setup_json.specs.Writes.{comma_before};

use flat_policy::setup::{EdgeSpec, Setup, Times};
use itoa::Buffer;
use sched_base::Bucket;
use sched_base::limits::BUCKET_COUNT;
use std::alloc::{AllocError, Global};

/// The canonical text of a setup, without a newline: the fields in order, plain decimal numbers
/// and no space. Times stand in a setup of version 2 alone.
pub fn write_setup(alloc: Global, s: &Setup) -> Result<Vec<u8>, AllocError>
    ensures { IfOk result (λ text. text.items ≡ setup_text s.now) }
{
    let mut text = Vec::from_slice(alloc, b"{\"clusters\":")?;
    push_clusters(&mut text, s)?;
    text.extend_from_slice(b",\"edges\":")?;
    push_edges(&mut text, s)?;
    text.extend_from_slice(b",\"groups\":")?;
    push_groups(&mut text, s)?;
    text.extend_from_slice(b",\"threads\":")?;
    push_number(&mut text, s.threads() as u64)?;
    push_times(&mut text, s)?;
    text.extend_from_slice(b",\"version\":")?;
    push_number(&mut text, s.version() as u64)?;
    text.push(b'}')?;
    Ok(text)
}

/// A number, in decimal.
fn push_number(text: &mut Vec<u8>, n: u64) -> Result<(), AllocError>
    ensures { OnOk result (text.new.items ≡ text.old.items ++ decimal n) }
{
    let mut buffer = Buffer::new();
    text.extend_from_slice(buffer.format(n).as_bytes())
}

/// The comma before the item at place k of a list.
fn push_comma(text: &mut Vec<u8>, k: usize) -> Result<(), AllocError>
    ensures { OnOk result (text.new.items ≡ text.old.items ++ comma_before k) }
{
    if k > 0 {
        text.push(b',')?;
    }
    Ok(())
}

/// A list of numbers in brackets.
fn push_numbers(text: &mut Vec<u8>, numbers: &[u64]) -> Result<(), AllocError>
    ensures { OnOk result (text.new.items ≡ text.old.items ++ numbers_text numbers.now) }
{
    text.push(b'[')?;
    for (k, number) in numbers.iter().enumerate() {
        push_comma(text, k)?;
        push_number(text, *number)?;
    }
    text.push(b']')?;
    Ok(())
}

fn push_clusters(text: &mut Vec<u8>, s: &Setup) -> Result<(), AllocError>
    ensures { OnOk result (text.new.items ≡ text.old.items ++ bracketed (map cluster_text s.now.clusters)) }
{
    text.push(b'[')?;
    for c in 0..s.clusters() {
        push_comma(text, c as usize)?;
        push_numbers(text, &[s.cpus(c) as u64, s.rate(c) as u64])?;
    }
    text.push(b']')?;
    Ok(())
}

fn push_edges(text: &mut Vec<u8>, s: &Setup) -> Result<(), AllocError>
    ensures { OnOk result (text.new.items ≡ text.old.items ++ bracketed (map edge_text s.now.edges)) }
{
    text.push(b'[')?;
    for k in 0..s.edge_count() {
        push_comma(text, k as usize)?;
        push_numbers(text, &edge_numbers(s.edge_at(k)))?;
    }
    text.push(b']')?;
    Ok(())
}

fn edge_numbers(edge: EdgeSpec) -> [u64; 5]
    ensures { numbers_text result ≡ edge_text edge }
{
    [
        edge.from as u64,
        edge.to as u64,
        edge.weight as u64,
        edge.migrate as u64,
        edge.steal as u64,
    ]
}

fn push_groups(text: &mut Vec<u8>, s: &Setup) -> Result<(), AllocError>
    ensures { OnOk result (text.new.items ≡ text.old.items ++ bracketed (map numbers_text s.now.groups)) }
{
    text.push(b'[')?;
    for g in 0..s.groups() {
        push_comma(text, g as usize)?;
        push_numbers(text, &group_numbers(s, g))?;
    }
    text.push(b']')?;
    Ok(())
}

/// The preferred clusters of a group, by bucket index.
fn group_numbers(s: &Setup, g: u8) -> [u64; BUCKET_COUNT]
    requires { g < group_count s.now }
    ensures { result ≡ slice_index_or s.now.groups g [] }
{
    s.keeps_ranges();
    [
        s.prefer(g, Bucket::Ui) as u64,
        s.prefer(g, Bucket::Fg) as u64,
        s.prefer(g, Bucket::Ini) as u64,
        s.prefer(g, Bucket::Df) as u64,
        s.prefer(g, Bucket::Ut) as u64,
        s.prefer(g, Bucket::Bg) as u64,
    ]
}

/// The member of the times, which version 2 has and no other.
fn push_times(text: &mut Vec<u8>, s: &Setup) -> Result<(), AllocError>
    ensures { OnOk result (text.new.items ≡ text.old.items ++ times_member s.now) }
{
    if s.version() == 2 {
        text.extend_from_slice(b",\"times\":")?;
        push_each_times(text, s)?;
    }
    Ok(())
}

fn push_each_times(text: &mut Vec<u8>, s: &Setup) -> Result<(), AllocError>
    ensures { OnOk result (text.new.items ≡ text.old.items ++ bracketed (map cluster_times_text s.now.times)) }
{
    s.keeps_ranges();
    text.push(b'[')?;
    for c in 0..s.clusters() {
        push_comma(text, c as usize)?;
        push_cluster_times(text, &s.cluster_times(c))?;
    }
    text.push(b']')?;
    Ok(())
}

/// The rows WCEL, WARP and QUANTUM of a cluster.
fn push_cluster_times(text: &mut Vec<u8>, times: &[Times; BUCKET_COUNT]) -> Result<(), AllocError>
    ensures { OnOk result (text.new.items ≡ text.old.items ++ cluster_times_text times.now) }
{
    text.push(b'[')?;
    push_numbers(text, &wcels(times))?;
    text.push(b',')?;
    push_numbers(text, &warps(times))?;
    text.push(b',')?;
    push_numbers(text, &quanta(times))?;
    text.push(b']')?;
    Ok(())
}

fn wcels(times: &[Times; BUCKET_COUNT]) -> [u64; BUCKET_COUNT]
    ensures { result ≡ map (λ (t : Times). t.wcel) times.now }
{
    times.map(|t| t.wcel as u64)
}

fn warps(times: &[Times; BUCKET_COUNT]) -> [u64; BUCKET_COUNT]
    ensures { result ≡ map (λ (t : Times). t.warp) times.now }
{
    times.map(|t| t.warp as u64)
}

fn quanta(times: &[Times; BUCKET_COUNT]) -> [u64; BUCKET_COUNT]
    ensures { result ≡ map (λ (t : Times). t.quantum) times.now }
{
    times.map(|t| t.quantum as u64)
}
