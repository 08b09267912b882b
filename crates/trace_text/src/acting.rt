//! Acts, read into a place, and what stands behind them. The acts that come most often are looked for by their first
//! byte, and no value of many bytes is handed on: so each is written once, where it is wanted.

ghost use Rattle.flat_policy.specs.Texts.Pieces.{pieces};
ghost use Rattle.trace_text.specs.Acting.{ReadsAct};

use crate::acts::act_at;
use crate::fields::{cluster_at, end_at, wide_at};
use crate::lines::read_rest;
use crate::pieces::behind_word;
use flat_policy::texts::{Given, LineFault};
use sched_base::Act;

/// Any act.
#[inline(never)]
fn by_any(given: &mut Given, text: &[u8]) -> Result<(), LineFault>
    ensures { ReadsAct given.old given.new result (pieces text.now) }
{
    let (act, rest) = act_at(text)?;
    given.step.act = act;
    read_rest(given, rest)
}

#[inline(always)]
fn by_sleep(given: &mut Given, text: &[u8]) -> Result<(), LineFault>
    ensures { ReadsAct given.old given.new result (pieces text.now) }
{
    match behind_word(text, b"sleep") {
        Some(rest) => {
            given.step.act = Act::Sleep;
            read_rest(given, rest)
        }
        None => by_any(given, text),
    }
}

#[inline(always)]
fn by_select(given: &mut Given, text: &[u8]) -> Result<(), LineFault>
    ensures { ReadsAct given.old given.new result (pieces text.now) }
{
    match behind_word(text, b"select") {
        Some(rest) => {
            given.step.act = Act::Select;
            read_rest(given, rest)
        }
        None => by_sleep(given, text),
    }
}

#[inline(always)]
fn by_enter(given: &mut Given, text: &[u8]) -> Result<(), LineFault>
    ensures { ReadsAct given.old given.new result (pieces text.now) }
{
    match behind_word(text, b"enter") {
        Some(rest) => {
            let (cluster, rest) = cluster_at(rest)?;
            let (head, rest) = end_at(rest)?;
            given.step.act = Act::Enter { cluster, head };
            read_rest(given, rest)
        }
        None => by_any(given, text),
    }
}

#[inline(always)]
fn by_look(given: &mut Given, text: &[u8]) -> Result<(), LineFault>
    ensures { ReadsAct given.old given.new result (pieces text.now) }
{
    match behind_word(text, b"look") {
        Some(rest) => {
            let (cluster, rest) = cluster_at(rest)?;
            given.step.act = Act::Look { cluster };
            read_rest(given, rest)
        }
        None => by_any(given, text),
    }
}

#[inline(always)]
fn by_ran(given: &mut Given, text: &[u8]) -> Result<(), LineFault>
    ensures { ReadsAct given.old given.new result (pieces text.now) }
{
    match behind_word(text, b"ran") {
        Some(rest) => {
            let (us, rest) = wide_at(rest)?;
            given.step.act = Act::Ran { us };
            read_rest(given, rest)
        }
        None => by_any(given, text),
    }
}

#[inline(always)]
fn by_aim(given: &mut Given, text: &[u8]) -> Result<(), LineFault>
    ensures { ReadsAct given.old given.new result (pieces text.now) }
{
    match behind_word(text, b"aim") {
        Some(rest) => {
            given.step.act = Act::Aim;
            read_rest(given, rest)
        }
        None => by_any(given, text),
    }
}

#[inline(always)]
fn by_wake(given: &mut Given, text: &[u8]) -> Result<(), LineFault>
    ensures { ReadsAct given.old given.new result (pieces text.now) }
{
    match behind_word(text, b"wake") {
        Some(rest) => {
            let (name, rest) = wide_at(rest)?;
            given.step.act = Act::Wake { name };
            read_rest(given, rest)
        }
        None => by_any(given, text),
    }
}

#[inline(always)]
fn by_offer(given: &mut Given, text: &[u8]) -> Result<(), LineFault>
    ensures { ReadsAct given.old given.new result (pieces text.now) }
{
    match behind_word(text, b"offer") {
        Some(rest) => {
            let (cluster, rest) = cluster_at(rest)?;
            given.step.act = Act::Offer { cluster };
            read_rest(given, rest)
        }
        None => by_any(given, text),
    }
}

#[inline(always)]
fn by_blocked(given: &mut Given, text: &[u8]) -> Result<(), LineFault>
    ensures { ReadsAct given.old given.new result (pieces text.now) }
{
    match behind_word(text, b"blocked") {
        Some(rest) => {
            given.step.act = Act::Blocked;
            read_rest(given, rest)
        }
        None => by_any(given, text),
    }
}

/// Reads what a line gives behind its moment and its actor, which stand in the place already.
#[inline(always)]
pub fn acted(given: &mut Given, text: &[u8]) -> Result<(), LineFault>
    ensures { ReadsAct given.old given.new result (pieces text.now) }
{
    match text {
        [b's', ..] => by_select(given, text),
        [b'e', ..] => by_enter(given, text),
        [b'l', ..] => by_look(given, text),
        [b'r', ..] => by_ran(given, text),
        [b'a', ..] => by_aim(given, text),
        [b'w', ..] => by_wake(given, text),
        [b'o', ..] => by_offer(given, text),
        [b'b', ..] => by_blocked(given, text),
        _ => by_any(given, text),
    }
}
