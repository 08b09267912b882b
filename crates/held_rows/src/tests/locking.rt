//! Two threads stand behind two locks at one time, and a third waits for a lock that is held.
ghost use Rattle.std.specs.Prelude.{◌≡◌, ◌<◌, ◌≤◌, IfOk, length};
ghost use Rattle.flat_policy.specs.Policy.Setup.{actor_count};
ghost use Rattle.cells.specs.Desks.{AreFresh, desk_count};
ghost use Rattle.held_rows.specs.Rows.{HasTwo, IsPair, row_programs};

use super::moving::eight_turns;
use super::*;
use ports::{Gate, Point};
use std::sync::atomic::{AtomicBool, Ordering};
use std::thread::{Threads, join};

// How often a thread looks for another before it gives up.
const LOOKS: u32 = 10_000_000;

// Who stands where: actor 0 holds the lock of cluster 0 until actor 2 holds that of cluster 1 and actor 1 has asked for that of
// cluster 0.
#[derive(Drop)]
struct Meeting {
    first_holds: AtomicBool,
    second_holds: AtomicBool,
    third_asks: AtomicBool,
    third_holds: AtomicBool,
    failed: AtomicBool,
}

impl Meeting {
    fn new() -> Meeting {
        Meeting {
            first_holds: AtomicBool::new(false),
            second_holds: AtomicBool::new(false),
            third_asks: AtomicBool::new(false),
            third_holds: AtomicBool::new(false),
            failed: AtomicBool::new(false),
        }
    }

    // Looks until a thread stands where it should, or gives up.
    fn look_for(&self, there: &AtomicBool) {
        for _ in 0..LOOKS {
            if there.load(Ordering::SeqCst) {
                return;
            }
        }
        self.failed.store(true, Ordering::SeqCst);
    }

    // Looks for a while whether the third got a lock that is held.
    fn watch(&self) {
        for _ in 0..100_000 {
            if self.third_holds.load(Ordering::SeqCst) {
                self.failed.store(true, Ordering::SeqCst);
                return;
            }
        }
    }
}

impl Gate for Meeting {
    fn pass(&self, actor: u8, point: Point) {
        match (actor, point) {
            (0, Point::Holding(_)) => {
                self.first_holds.store(true, Ordering::SeqCst);
                self.look_for(&self.second_holds);
                self.look_for(&self.third_asks);
                self.watch();
            }
            (2, Point::Holding(_)) => {
                self.second_holds.store(true, Ordering::SeqCst);
                self.look_for(&self.first_holds);
            }
            (1, Point::BeforeStep) => {
                self.look_for(&self.first_holds);
                self.third_asks.store(true, Ordering::SeqCst);
            }
            (1, Point::Holding(_)) => self.third_holds.store(true, Ordering::SeqCst),
            _ => (),
        }
    }
}

// An actor selects at its home, where nothing is queued or what is picked ends: the answer.
fn selected<N: RunName, R: Wait>(
    rt: &R,
    gate: &Meeting,
    floor: &Floor<PlainCluster, N>,
    actor: u8,
    lines: Lines<N>,
) -> Answer
    requires actor { actor < actor_count N.setup }
    requires lines { HasTwo N.setup actor lines }
{
    let mut lines = lines;
    let Done { entry, value } = floor.select(rt, gate, actor, 0, &mut lines);
    if let Some(rider) = value {
        floor.end(rt, gate, actor, rider, 0, &mut lines);
    }
    entry.answer
}

// Three actors select, each in a thread of its own.
fn selected_by_three<N: RunName + Send + Sync, R: Threads + Wait + Sync>(
    rt: &R,
    gate: &Meeting,
    floor: &Floor<PlainCluster, N>,
    lines: (Lines<N>, Lines<N>, Lines<N>),
) -> (Answer, Answer, Answer)
    requires actors { actor_count N.setup ≡ 3 }
    requires first { HasTwo N.setup 0 lines.0 }
    requires third { HasTwo N.setup 1 lines.1 }
    requires second { HasTwo N.setup 2 lines.2 }
{
    let (for_first, for_third, for_second) = lines;
    let (first, (third, second)) = join(
        rt,
        move || -> Answer
            requires { (0 < actor_count N.setup) × (HasTwo N.setup 0 for_first) }
        { selected(rt, gate, floor, 0, for_first) },
        move || -> (Answer, Answer)
            requires { (actor_count N.setup ≡ 3) × (HasTwo N.setup 1 for_third) × (HasTwo N.setup 2 for_second) }
        { two_selected(rt, gate, floor, for_third, for_second) },
    );
    (first, third, second)
}

// Actors 1 and 2 select, each in a thread of its own.
fn two_selected<N: RunName + Send + Sync, R: Threads + Wait + Sync>(
    rt: &R,
    gate: &Meeting,
    floor: &Floor<PlainCluster, N>,
    for_third: Lines<N>,
    for_second: Lines<N>,
) -> (Answer, Answer)
    requires actors { actor_count N.setup ≡ 3 }
    requires third { HasTwo N.setup 1 for_third }
    requires second { HasTwo N.setup 2 for_second }
{
    join(
        rt,
        move || -> Answer
            requires { (1 < actor_count N.setup) × (HasTwo N.setup 1 for_third) }
        { selected(rt, gate, floor, 1, for_third) },
        move || -> Answer
            requires { (2 < actor_count N.setup) × (HasTwo N.setup 2 for_second) }
        { selected(rt, gate, floor, 2, for_second) },
    )
}

// Three threads on a floor: their answers, and what its end tells.
fn tried<N: RunName + Send + Sync, R: Threads + Wait + Sync>(
    rt: &R,
    gate: &Meeting,
    alloc: Global,
    setup: Setup,
    desks: DeskSet,
    books: Vec<Book>,
) -> Result<((Answer, Answer, Answer), Closed), AllocError>
    requires setup { setup ≡ N.setup }
    requires pair { IsPair N.setup }
    requires programs { N.programs ≡ row_programs }
    requires desks { desks ≡ N.desks }
    requires fresh { AreFresh desks books.items }
    requires len { length books.items ≡ desk_count }
{
    let mut still = held::<N>(alloc, setup, desks, books)?;
    match three_lots(&mut still) {
        Ok(lines) => {
            let floor = still.start();
            let answers = selected_by_three(rt, gate, &floor, lines);
            Ok((answers, floor.still().close()))
        }
        Err(failed) => {
            still.close();
            Err(failed)
        }
    }
}

// Line rights for three.
fn three_lots<N: RunName>(
    still: &mut Still<PlainCluster, N>,
) -> Result<(Lines<N>, Lines<N>, Lines<N>), AllocError>
    requires pair { IsPair N.setup }
    ensures first { IfOk result (λ r. HasTwo N.setup 0 r.0) }
    ensures third { IfOk result (λ r. HasTwo N.setup 1 r.1) }
    ensures second { IfOk result (λ r. HasTwo N.setup 2 r.2) }
{
    let first = eight_turns(still)?;
    let third = eight_turns(still)?;
    let second = eight_turns(still)?;
    Ok((first, third, second))
}

#[test]
fn two_hold_two_locks_and_a_third_waits(rt: HostRuntime) -> Result<(), Fail> {
    let alloc = rt.alloc();
    let setup = pair(alloc)?;
    let (desks, books) = DeskSet::new(alloc)?;
    let gate = Meeting::new();
    let (answers, closed) = tried::<Brand, _>(&rt, &gate, alloc, setup, desks, books)?;
    assert_eq!(rt; answers, (Answer::Empty, Answer::Empty, Answer::Empty));
    assert!(rt; tells(&closed, 0, &[Answer::Empty, Answer::Empty]));
    assert!(rt; tells(&closed, 1, &[Answer::Empty]));
    assert!(rt; !gate.failed.load(Ordering::SeqCst));
    assert!(rt; gate.third_holds.load(Ordering::SeqCst));
    Ok(())
}
