//! Lists made by a fixed generator: whole histories are stitched again, and short lists with one
//! slip are stitched exactly where a search over all orders of their logs finds a history.

ghost use Rattle.std.specs.Prelude.{◌<◌};

use super::{listed, stitched};
use crate::StitchError;
use crate::lines::line_after;
use flat_policy::journal::{Journal, Line};
use sched_base::{Act, Answer, Entry, Step};
use std::alloc::{AllocError, Global};
use std::test::Fail;

/// The clusters whose journals the actors' selects are in.
const HOMES: [usize; 3] = [0, 1, 0];

/// How many short lists are searched.
const SHORT: u32 = 10_000;

/// How many long histories are stitched.
const LONG: u32 = 20_000;

/// Numbers from a fixed seed.
#[derive(Drop)]
struct Numbers {
    state: u64,
}

impl Numbers {
    /// The next number, below `limit`.
    fn below(&mut self, limit: u64) -> u64
        requires { 0 < limit }
    {
        let product = self.state.wrapping_mul(6_364_136_223_846_793_005);
        self.state = product.wrapping_add(1_442_695_040_888_963_407);
        (self.state >> 33) % limit
    }

    fn act(&mut self) -> Act {
        let cluster = if self.below(2) == 0 { 0 } else { 1 };
        match self.below(8) {
            0 | 1 => Act::Select,
            2 => Act::Offer { cluster },
            3 => Act::Enter {
                cluster,
                head: true,
            },
            4 => Act::Look { cluster },
            5 => Act::Blocked,
            6 => Act::Aim,
            _ => Act::Ran { us: 10 },
        }
    }

    /// A line of one of three actors.
    fn line(&mut self) -> Line {
        let actor = match self.below(3) {
            0 => 0,
            1 => 1,
            _ => 2,
        };
        let act = self.act();
        let moment = self.below(3);
        let step = Step { moment, actor, act };
        Line {
            entry: Entry {
                step,
                answer: Answer::Yes,
                thread: None,
            },
            mark: None,
        }
    }

    fn slip(&mut self) -> Slip {
        match self.below(5) {
            0 => Slip::Dropped,
            1 => Slip::Doubled,
            2 => Slip::Moved,
            3 => Slip::Late,
            _ => Slip::Marked,
        }
    }
}

/// What goes wrong with one line of a journal.
#[derive(Clone, Copy)]
enum Slip {
    Dropped,
    Doubled,
    /// Into another journal.
    Moved,
    /// To the end of its journal.
    Late,
    Marked,
}

/// Whether a journal holds a select of an actor.
fn has_select(journal: &Journal, actor: usize) -> bool {
    for i in 0..journal.len() {
        let step = journal.line(i).entry.step;
        if matches!(step.act, Act::Select) && step.actor as usize == actor {
            return true;
        }
    }
    false
}

/// The home of an actor by the journals: the first of two clusters with a select of it.
fn home(journals: &[Journal], actor: usize) -> usize {
    match (journals.get(0), journals.get(1)) {
        (Some(first), Some(second)) => {
            (!has_select(first, actor) && has_select(second, actor)) as usize
        }
        _ => 0,
    }
}

/// The place among two clusters and the yard where a line happens.
fn place(homes: [usize; 3], line: &Line) -> Option<usize> {
    match line.entry.step.act {
        Act::Select => homes.get(line.entry.step.actor as usize).copied(),
        Act::Offer { cluster } | Act::Enter { cluster, .. } | Act::Look { cluster } => {
            Some(cluster as usize)
        }
        Act::Blocked => Some(2),
        _ => None,
    }
}

fn empty_lists(alloc: Global) -> Result<Vec<Journal>, AllocError> {
    let mut lists = Vec::new(alloc);
    for _ in 0..3u8 {
        lists.push(Journal::new(alloc))?;
    }
    Ok(lists)
}

/// Adds a line to one of some lists.
fn add(lists: &mut [Journal], place: usize, line: Line) -> Result<(), AllocError> {
    if place < lists.len() {
        let list = &mut lists[place];
        list.reserve(1)?;
        list.push(line);
    }
    Ok(())
}

/// Adds a line with its slip, but for one that comes late.
fn add_slipped(
    lists: &mut [Journal],
    place: usize,
    line: Line,
    slip: Slip,
) -> Result<(), AllocError> {
    let entry = line.entry;
    match slip {
        Slip::Dropped | Slip::Late => Ok(()),
        Slip::Doubled => {
            add(lists, place, line)?;
            add(lists, place, line)
        }
        Slip::Moved => add(lists, if place == 0 { 1 } else { 0 }, line),
        Slip::Marked => add(
            lists,
            place,
            Line {
                entry,
                mark: Some(1),
            },
        ),
    }
}

/// The lines of a history.
fn history(alloc: Global, numbers: &mut Numbers, count: u64) -> Result<Vec<Line>, AllocError> {
    let mut lines = Vec::new(alloc);
    for _ in 0..count {
        lines.push(numbers.line())?;
    }
    Ok(lines)
}

/// The logs of a history.
fn logs_of(alloc: Global, lines: &[Line]) -> Result<Vec<Journal>, AllocError> {
    let mut logs = empty_lists(alloc)?;
    for line in lines {
        add(&mut logs, line.entry.step.actor as usize, *line)?;
    }
    Ok(logs)
}

/// The journals of a history, with a slip of the line at a place of it, where it has one.
fn journals_of(
    alloc: Global,
    lines: &[Line],
    slipping: usize,
    slip: Slip,
) -> Result<Vec<Journal>, AllocError> {
    let mut journals = empty_lists(alloc)?;
    let mut k = 0usize;
    for line in lines {
        if let Some(place) = place(HOMES, line) {
            if k == slipping {
                add_slipped(&mut journals, place, *line, slip)?;
            } else {
                add(&mut journals, place, *line)?;
            }
        }
        k = k.saturating_add(1);
    }
    if let (Slip::Late, Some(line)) = (slip, lines.get(slipping)) {
        if let Some(place) = place(HOMES, line) {
            add(&mut journals, place, *line)?;
        }
    }
    Ok(journals)
}

/// How many of some lines are of an actor.
fn count_of(lines: &[Line], actor: usize) -> u64 {
    let mut count = 0u64;
    for line in lines {
        if line.entry.step.actor as usize == actor {
            count = count.saturating_add(1);
        }
    }
    count
}

/// The first lines of the logs in an order: two bits of the code are the actor of each line, the
/// first line's the highest and those behind `count` lines 0. `None` where a log has no line left.
fn order(
    alloc: Global,
    logs: &[Journal],
    code: u16,
    count: usize,
) -> Result<Option<Vec<Line>>, AllocError> {
    let mut lines = Vec::new(alloc);
    for k in 0..6u16 {
        let actor = ((code >> (10 - 2 * k)) % 4) as usize;
        let next = match logs.get(actor) {
            Some(log) => line_after(log, count_of(&lines, actor)),
            None => None,
        };
        match next {
            Some(line) if lines.len() < count => lines.push(line)?,
            _ => {
                if lines.len() < count || actor != 0 {
                    return Ok(None);
                }
            }
        }
    }
    Ok(Some(lines))
}

/// Whether the lines at each place are those of its journal.
fn has_journals(alloc: Global, journals: &[Journal], lines: &[Line]) -> Result<bool, AllocError> {
    let homes = [home(journals, 0), home(journals, 1), home(journals, 2)];
    let mut p = 0usize;
    for journal in journals {
        let mut there = Vec::new(alloc);
        for line in lines {
            if place(homes, line) == Some(p) {
                there.push(*line)?;
            }
        }
        if there != listed(alloc, journal)? {
            return Ok(false);
        }
        p = p.saturating_add(1);
    }
    Ok(true)
}

/// Whether the lines of each actor are those of its log.
fn has_logs(alloc: Global, logs: &[Journal], lines: &[Line]) -> Result<bool, AllocError> {
    let mut a = 0usize;
    for log in logs {
        let mut told = Vec::new(alloc);
        for line in lines {
            if line.entry.step.actor as usize == a {
                told.push(*line)?;
            }
        }
        if told != listed(alloc, log)? {
            return Ok(false);
        }
        a = a.saturating_add(1);
    }
    Ok(true)
}

/// Whether a line can go ahead of others: none is of its actor or at its place.
fn can_pass(line: &Line, others: &[Line]) -> bool {
    let there = place(HOMES, line);
    for other in others {
        let shares = there.is_some() && place(HOMES, other) == there;
        if shares || other.entry.step.actor == line.entry.step.actor {
            return false;
        }
    }
    true
}

/// Whether no line of a lower actor can go ahead of the first of some lines.
fn begins_lowest(lines: &[Line]) -> bool {
    let first = match lines.get(0) {
        Some(line) => line.entry.step.actor,
        None => return true,
    };
    for j in 0..lines.len() {
        if lines[j].entry.step.actor < first && can_pass(&lines[j], &lines[..j]) {
            return false;
        }
    }
    true
}

/// Whether the lowest actor that can go is taken each time.
fn is_lowest(lines: &[Line]) -> bool {
    for k in 0..lines.len() {
        if !begins_lowest(&lines[k..]) {
            return false;
        }
    }
    true
}

/// The first interleaving in the order of actors, by a search over all orders.
fn searched(
    alloc: Global,
    journals: &[Journal],
    logs: &[Journal],
    count: usize,
) -> Result<Option<Vec<Line>>, AllocError> {
    for code in 0..4096u16 {
        if let Some(lines) = order(alloc, logs, code, count)? {
            if has_journals(alloc, journals, &lines)? {
                return Ok(Some(lines));
            }
        }
    }
    Ok(None)
}

/// Whether the line at a place of a history is one of a journal.
fn is_in_a_journal(lines: &[Line], k: usize) -> bool {
    match lines.get(k) {
        Some(line) => place(HOMES, line).is_some(),
        None => false,
    }
}

#[test]
fn as_a_search_over_all_orders(rt: HostRuntime) -> Result<(), Fail> {
    let mut numbers = Numbers { state: 7 };
    let mut found = 0u32;
    for _ in 0..SHORT {
        let count = numbers.below(7);
        let lines = history(rt.alloc(), &mut numbers, count)?;
        let slipping = numbers.below(8) as usize;
        let journals = journals_of(rt.alloc(), &lines, slipping, numbers.slip())?;
        let logs = logs_of(rt.alloc(), &lines)?;
        let told = stitched(rt.alloc(), &journals, &logs);
        match searched(rt.alloc(), &journals, &logs, lines.len())? {
            Some(lines) => {
                assert_eq!(rt; told, Ok(Some(lines)));
                found = found.saturating_add(1);
            }
            None => assert!(rt; matches!(told, Err(StitchError::Astray(_)))),
        }
    }
    assert!(rt; found > SHORT / 4 && found < SHORT / 8 * 7);
    Ok(())
}

#[test]
fn whole_histories_again(rt: HostRuntime) -> Result<(), Fail> {
    let mut numbers = Numbers { state: 11 };
    for _ in 0..LONG {
        let count = numbers.below(24).saturating_add(24);
        let lines = history(rt.alloc(), &mut numbers, count)?;
        let journals = journals_of(rt.alloc(), &lines, usize::MAX, Slip::Dropped)?;
        let logs = logs_of(rt.alloc(), &lines)?;
        match stitched(rt.alloc(), &journals, &logs) {
            Ok(Some(lines)) => {
                assert!(rt; has_journals(rt.alloc(), &journals, &lines)?);
                assert!(rt; has_logs(rt.alloc(), &logs, &lines)?);
                assert!(rt; is_lowest(&lines));
            }
            _ => assert!(rt; false),
        }
    }
    Ok(())
}

/// A line that is dropped, doubled or marked in its journal fits no history; one that is moved can.
#[test]
fn long_histories_with_a_slip(rt: HostRuntime) -> Result<(), Fail> {
    let mut numbers = Numbers { state: 13 };
    let mut found = 0u32;
    for _ in 0..LONG {
        let count = numbers.below(24).saturating_add(24);
        let lines = history(rt.alloc(), &mut numbers, count)?;
        let slipping = numbers.below(24) as usize;
        let slip = numbers.slip();
        let journals = journals_of(rt.alloc(), &lines, slipping, slip)?;
        let logs = logs_of(rt.alloc(), &lines)?;
        let slips = is_in_a_journal(&lines, slipping);
        match stitched(rt.alloc(), &journals, &logs) {
            Ok(Some(lines)) => {
                assert!(rt; !slips || matches!(slip, Slip::Moved | Slip::Late));
                assert!(rt; has_journals(rt.alloc(), &journals, &lines)?);
                assert!(rt; has_logs(rt.alloc(), &logs, &lines)?);
                found = found.saturating_add(1);
            }
            Err(StitchError::Astray(_)) => assert!(rt; slips),
            _ => assert!(rt; false),
        }
    }
    assert!(rt; found > LONG / 8 && found < LONG / 8 * 7);
    Ok(())
}
