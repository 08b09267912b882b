//! The summary of a load.

ghost use Rattle.std.specs.Prelude.{◌≡◌, ◌++◌, IfOk, OnOk, decimal};
ghost use Rattle.flat_policy.specs.Runs.LoadTrace.{share_line, summary_line};
ghost use Rattle.flat_policy.specs.Texts.Lines.{newline};
ghost use Rattle.trace_replay.specs.LoadsSoFar.{first_lines, head_line, last_lines, summary_of, tally_in};

use super::counts::Counts;
use itoa::Buffer;
use std::alloc::{AllocError, Global};

/// A number, in decimal.
fn push_number(text: &mut Vec<u8>, n: u64) -> Result<(), AllocError>
    ensures { OnOk result (text.new.items ≡ text.old.items ++ decimal n) }
{
    let mut buffer = Buffer::new();
    text.extend_from_slice(buffer.format(n).as_bytes())
}

/// Words and a number.
fn push_words(text: &mut Vec<u8>, words: &[u8], n: u64) -> Result<(), AllocError>
    ensures { OnOk result (text.new.items ≡ text.old.items ++ words.now ++ decimal n) }
{
    text.extend_from_slice(words)?;
    push_number(text, n)
}

/// A line of words and a number.
fn push_line(text: &mut Vec<u8>, words: &[u8], n: u64) -> Result<(), AllocError>
    ensures { OnOk result (text.new.items ≡ text.old.items ++ summary_line words.now n) }
{
    push_words(text, words, n)?;
    text.push(b'\n')?;
    Ok(())
}

/// A line of words, and a number of another.
fn push_share(text: &mut Vec<u8>, words: &[u8], n: u64, of: u64) -> Result<(), AllocError>
    ensures { OnOk result (text.new.items ≡ text.old.items ++ share_line words.now n of) }
{
    push_words(text, words, n)?;
    push_words(text, b" of ", of)?;
    text.push(b'\n')?;
    Ok(())
}

/// The first line: the seed, and how many steps.
fn push_head(text: &mut Vec<u8>, seed: u32, steps: u32) -> Result<(), AllocError>
    ensures { OnOk result (text.new.items ≡ text.old.items ++ head_line seed steps) }
{
    push_words(text, b"load ", seed as u64)?;
    push_words(text, b" steps ", steps as u64)?;
    text.push(b'\n')?;
    Ok(())
}

/// The lines of makes, enters, selects and offers.
fn push_first(text: &mut Vec<u8>, counts: &Counts) -> Result<(), AllocError>
    ensures { OnOk result (text.new.items ≡ text.old.items ++ first_lines (tally_in counts.now)) }
{
    push_line(text, b"make ", counts.makes as u64)?;
    push_line(text, b"enter ", counts.enters as u64)?;
    push_share(
        text,
        b"select ",
        counts.selected as u64,
        counts.selects as u64,
    )?;
    push_share(text, b"offer ", counts.offered as u64, counts.offers as u64)
}

/// The lines of the other kinds, and of the queued threads.
fn push_last(text: &mut Vec<u8>, counts: &Counts, queued: u64) -> Result<(), AllocError>
    ensures { OnOk result (text.new.items ≡ text.old.items ++ last_lines (tally_in counts.now) queued) }
{
    push_line(text, b"ran ", counts.rans as u64)?;
    push_line(text, b"sleep ", counts.sleeps as u64)?;
    push_line(text, b"wake ", counts.wakes as u64)?;
    push_line(text, b"end ", counts.ends as u64)?;
    push_line(text, b"refresh ", counts.refreshes as u64)?;
    push_line(text, b"queued ", queued)
}

/// The summary of so many steps from a seed. An error is want of memory.
pub(crate) fn summary(
    alloc: Global,
    seed: u32,
    steps: u32,
    counts: &Counts,
    queued: u64,
) -> Result<Vec<u8>, AllocError>
    ensures { IfOk result (λ text. text.items ≡ summary_of seed steps (tally_in counts.now) queued) }
{
    let mut text = Vec::new(alloc);
    push_head(&mut text, seed, steps)?;
    push_first(&mut text, counts)?;
    push_last(&mut text, counts, queued)?;
    Ok(text)
}
