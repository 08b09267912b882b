//! The windows of one lane: how each ends, begins and changes.

ghost use Rattle.std.specs.Prelude.{◌≡◌, ◌<◌, ◌^◌, List, if◌then◌else◌};
ghost use Rattle.bucket_tables.specs.declared.Lane.{Lane};
ghost use Rattle.flat_policy.specs.declared.setup.Times.{Times};
ghost use Rattle.flat_policy.specs.Policy.Setup.{times_for};
ghost use Rattle.flat_policy.specs.Policy.Windows.{begun_warp, expired_window, may_pass, opened_window, renewed_deadline, window_after, window_over};
ghost use Rattle.windows.specs.OneLane.{IsChange, is_running, lane_window, warp_ends};

use flat_policy::lanes::{Kind, Starved, Warp};
use flat_policy::setup::Times;

/// The deadline, the warp and the starvation window of one lane.
#[derive(Clone, Copy, Drop)]
pub struct Window {
    pub deadline: u64,
    pub warp: Warp,
    pub starved: Starved,
}

/// Whether the end of a warp has come.
fn has_ended(warp: Warp, now: u64) -> bool
    ensures { result ≡ warp_ends now warp }
{
    match warp {
        Warp::Until(end) => end <= now,
        Warp::Unused | Warp::Spent => false,
    }
}

/// Whether a starvation window has lasted for the quantum.
fn is_over(starved: Starved, quantum: u32, now: u64) -> bool
    ensures { result ≡ window_over quantum now starved }
{
    match starved {
        Starved::No => false,
        Starved::Since(start) => start <= now && u64::from(quantum) <= now - start,
    }
}

impl Window {
    /// The lane gets a new deadline and loses its starvation window.
    pub fn renewed(self, times: Times, now: u64) -> Window
        requires { now < 2 ^ 40 }
        ensures { (at : Lane) (ts : List Times) → times_for ts at.bucket ≡ times
            → lane_window at result ≡ renewed_deadline ts now (lane_window at self) }
    {
        Window {
            deadline: now + u64::from(times.wcel),
            warp: self.warp,
            starved: Starved::No,
        }
    }

    /// The lane after its windows expire; `None` where they stay: the warp is spent where its end has
    /// come, and the deadline is renewed where the starvation window has lasted for QUANTUM.
    pub fn expired(self, times: Times, now: u64) -> Option<Window>
        requires { now < 2 ^ 40 }
        ensures { (at : Lane) (ts : List Times) → times_for ts at.bucket ≡ times
            → IsChange at self result (expired_window ts now (lane_window at self)) }
    {
        if has_ended(self.warp, now) {
            let spent = Window {
                deadline: self.deadline,
                warp: Warp::Spent,
                starved: self.starved,
            };
            return Some(spent.renewed_if_over(times, now));
        }
        if is_over(self.starved, times.quantum, now) {
            Some(self.renewed(times, now))
        } else {
            None
        }
    }

    /// The lane with a new deadline and no starvation window where that has lasted for QUANTUM, else as
    /// it is.
    fn renewed_if_over(self, times: Times, now: u64) -> Window
        requires { now < 2 ^ 40 }
        ensures { (at : Lane) (ts : List Times) → times_for ts at.bucket ≡ times
            → lane_window at result ≡ (if window_over times.quantum now self.starved
            then renewed_deadline ts now (lane_window at self) else lane_window at self) }
    {
        if is_over(self.starved, times.quantum, now) {
            self.renewed(times, now)
        } else {
            self
        }
    }

    /// Whether its warp or its starvation window runs.
    pub fn is_running(self) -> bool
        ensures { result ≡ is_running self.warp self.starved }
    {
        matches!(self.warp, Warp::Until(_)) || matches!(self.starved, Starved::Since(_))
    }

    /// Whether the lane may pass an earlier deadline: it has a warp, and that isn't spent.
    pub fn may_pass(self, times: Times) -> bool
        ensures { (at : Lane) (ts : List Times) → times_for ts at.bucket ≡ times
            → result ≡ may_pass ts (lane_window at self) }
    {
        times.warp != 0 && !matches!(self.warp, Warp::Spent)
    }

    /// The lane after it was chosen in this way; `None` where its windows stay. A warp that began
    /// before, and a starvation window that is open, stay.
    pub fn chosen(self, kind: Kind, times: Times, now: u64) -> Option<Window>
        requires { now < 2 ^ 40 }
        ensures { (at : Lane) (ts : List Times) → times_for ts at.bucket ≡ times
            → IsChange at self result (window_after ts now kind (lane_window at self)) }
    {
        match kind {
            Kind::Pass => self.passed(times.warp, now),
            Kind::Starve => self.served_behind(now),
            Kind::Natural => Some(self.served(times, now)),
        }
    }

    /// The lane passed an earlier deadline: an unused warp begins.
    fn passed(self, span: u32, now: u64) -> Option<Window>
        requires { now < 2 ^ 40 }
        ensures { (at : Lane) → IsChange at self result
            (record (lane_window at self) { warp = begun_warp span now self.warp }) }
    {
        match self.warp {
            Warp::Unused => Some(Window {
                deadline: self.deadline,
                warp: Warp::Until(now + u64::from(span)),
                starved: self.starved,
            }),
            Warp::Until(_) | Warp::Spent => None,
        }
    }

    /// The lane was served behind a higher one: a starvation window opens where there is none.
    fn served_behind(self, now: u64) -> Option<Window>
        ensures { (at : Lane) → IsChange at self result
            (record (lane_window at self) { starved = opened_window now self.starved }) }
    {
        match self.starved {
            Starved::No => Some(Window {
                deadline: self.deadline,
                warp: self.warp,
                starved: Starved::Since(now),
            }),
            Starved::Since(_) => None,
        }
    }

    /// The lane was served by its deadline: it gets a new one, and its windows end.
    fn served(self, times: Times, now: u64) -> Window
        requires { now < 2 ^ 40 }
        ensures { (at : Lane) (ts : List Times) → times_for ts at.bucket ≡ times
            → lane_window at result ≡ window_after ts now Kind.Natural (lane_window at self) }
    {
        Window {
            deadline: self.deadline,
            warp: Warp::Unused,
            starved: self.starved,
        }
        .renewed(times, now)
    }
}
