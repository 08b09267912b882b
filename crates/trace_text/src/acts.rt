//! Acts, read.

ghost use Rattle.std.specs.Prelude.{◌≡◌};
ghost use Rattle.flat_policy.specs.Texts.Steps.{
  act_at,
  make_at,
  enter_at,
  offer_at,
  pull_at,
  looks_at,
  ran_at,
  wake_at,
  off_at,
  on_at,
};
ghost use Rattle.flat_policy.specs.Texts.Pieces.{pieces};
ghost use Rattle.trace_text.specs.Naming.{NoFrequentAct};
ghost use Rattle.trace_text.specs.Reading.{Gives, left};

use crate::fields::{base_at, bound_at, bucket_at, cluster_at, end_at, group_at, wide_at};
use crate::pieces::{Pieces, behind_word};
use flat_policy::texts::LineFault;
use sched_base::Act;

#[inline(always)]
fn make_at(pieces: Pieces<'_>) -> Result<(Act, Pieces<'_>), LineFault>
    ensures { Gives (λ x. (x.0, left x.1)) result (make_at (left pieces.entry)) }
{
    let (name, rest) = wide_at(pieces)?;
    let (group, rest) = group_at(rest)?;
    let (bucket, rest) = bucket_at(rest)?;
    let (base, rest) = base_at(rest)?;
    let (bound, rest) = bound_at(rest)?;
    let act = Act::Make {
        name,
        group,
        bucket,
        base,
        bound,
    };
    Ok((act, rest))
}

#[inline(always)]
fn enter_at(pieces: Pieces<'_>) -> Result<(Act, Pieces<'_>), LineFault>
    ensures { Gives (λ x. (x.0, left x.1)) result (enter_at (left pieces.entry)) }
{
    let (cluster, rest) = cluster_at(pieces)?;
    let (head, rest) = end_at(rest)?;
    Ok((Act::Enter { cluster, head }, rest))
}

#[inline(always)]
fn offer_at(pieces: Pieces<'_>) -> Result<(Act, Pieces<'_>), LineFault>
    ensures { Gives (λ x. (x.0, left x.1)) result (offer_at (left pieces.entry)) }
{
    let (cluster, rest) = cluster_at(pieces)?;
    Ok((Act::Offer { cluster }, rest))
}

#[inline(always)]
fn pull_at(pieces: Pieces<'_>) -> Result<(Act, Pieces<'_>), LineFault>
    ensures { Gives (λ x. (x.0, left x.1)) result (pull_at (left pieces.entry)) }
{
    let (name, rest) = wide_at(pieces)?;
    Ok((Act::Pull { name }, rest))
}

#[inline(always)]
fn look_at(pieces: Pieces<'_>) -> Result<(Act, Pieces<'_>), LineFault>
    ensures { Gives (λ x. (x.0, left x.1)) result (looks_at (left pieces.entry)) }
{
    let (cluster, rest) = cluster_at(pieces)?;
    Ok((Act::Look { cluster }, rest))
}

#[inline(always)]
fn ran_at(pieces: Pieces<'_>) -> Result<(Act, Pieces<'_>), LineFault>
    ensures { Gives (λ x. (x.0, left x.1)) result (ran_at (left pieces.entry)) }
{
    let (us, rest) = wide_at(pieces)?;
    Ok((Act::Ran { us }, rest))
}

#[inline(always)]
fn wake_at(pieces: Pieces<'_>) -> Result<(Act, Pieces<'_>), LineFault>
    ensures { Gives (λ x. (x.0, left x.1)) result (wake_at (left pieces.entry)) }
{
    let (name, rest) = wide_at(pieces)?;
    Ok((Act::Wake { name }, rest))
}

#[inline(always)]
fn off_at(pieces: Pieces<'_>) -> Result<(Act, Pieces<'_>), LineFault>
    ensures { Gives (λ x. (x.0, left x.1)) result (off_at (left pieces.entry)) }
{
    let (cluster, rest) = cluster_at(pieces)?;
    Ok((Act::Off { cluster }, rest))
}

#[inline(always)]
fn on_at(pieces: Pieces<'_>) -> Result<(Act, Pieces<'_>), LineFault>
    ensures { Gives (λ x. (x.0, left x.1)) result (on_at (left pieces.entry)) }
{
    let (cluster, rest) = cluster_at(pieces)?;
    Ok((Act::On { cluster }, rest))
}

/// An act with one of the words that are rare, or the fault that none of the words stands here.
#[inline(never)]
#[tactic(auto, using(crate::proofs::NoAct::no_act))]
fn rare_act_at(text: &[u8]) -> Result<(Act, Pieces<'_>), LineFault>
    ensures { NoFrequentAct (pieces text.now) → Gives (λ x. (x.0, left x.1)) result (act_at (pieces text.now)) }
{
    if let Some(rest) = behind_word(text, b"blocked") {
        return Ok((Act::Blocked, rest));
    }
    if let Some(rest) = behind_word(text, b"refresh") {
        return Ok((Act::Refresh, rest));
    }
    if let Some(rest) = behind_word(text, b"make") {
        return make_at(rest);
    }
    if let Some(rest) = behind_word(text, b"end") {
        return Ok((Act::End, rest));
    }
    if let Some(rest) = behind_word(text, b"pull") {
        return pull_at(rest);
    }
    if let Some(rest) = behind_word(text, b"on") {
        return on_at(rest);
    }
    if let Some(rest) = behind_word(text, b"off") {
        return off_at(rest);
    }
    Err(LineFault::Word)
}

/// An act, from its word on. The words that come most often are looked for first.
#[inline(never)]
pub fn act_at(text: &[u8]) -> Result<(Act, Pieces<'_>), LineFault>
    ensures { Gives (λ x. (x.0, left x.1)) result (act_at (pieces text.now)) }
{
    if let Some(rest) = behind_word(text, b"select") {
        return Ok((Act::Select, rest));
    }
    if let Some(rest) = behind_word(text, b"enter") {
        return enter_at(rest);
    }
    if let Some(rest) = behind_word(text, b"look") {
        return look_at(rest);
    }
    if let Some(rest) = behind_word(text, b"ran") {
        return ran_at(rest);
    }
    if let Some(rest) = behind_word(text, b"aim") {
        return Ok((Act::Aim, rest));
    }
    if let Some(rest) = behind_word(text, b"sleep") {
        return Ok((Act::Sleep, rest));
    }
    if let Some(rest) = behind_word(text, b"wake") {
        return wake_at(rest);
    }
    if let Some(rest) = behind_word(text, b"offer") {
        return offer_at(rest);
    }
    rare_act_at(text)
}
