//! Lists of lines.

use flat_policy::journal::{Journal, Line};
use sched_base::{Act, Answer, Entry, Step};
use std::test::Fail;

fn line(moment: u64, mark: Option<u32>) -> Line {
    let step = Step {
        moment,
        actor: 0,
        act: Act::Sleep,
    };
    let answer = Answer::Yes;
    let entry = Entry {
        step,
        answer,
        thread: None,
    };
    Line { entry, mark }
}

#[test]
fn lines_in_their_order(rt: HostRuntime) -> Result<(), Fail> {
    let mut journal = Journal::new(rt.alloc());
    assert!(rt; journal.is_empty());
    journal.reserve(2)?;
    journal.push(line(5, Some(70)));
    journal.push(line(9, None));
    assert_eq!(rt; journal.len(), 2);
    assert_eq!(rt; journal.line(0), line(5, Some(70)));
    assert_eq!(rt; journal.line(1), line(9, None));
    Ok(())
}

#[test]
fn grows_as_it_is_filled(rt: HostRuntime) -> Result<(), Fail> {
    let mut journal = Journal::new(rt.alloc());
    for moment in 0..5000 {
        journal.reserve(1)?;
        journal.push(line(moment, Some(moment as u32)));
    }
    journal.reserve(1 << 20)?;
    assert_eq!(rt; journal.len(), 5000);
    for i in 0..journal.len() {
        assert_eq!(rt; journal.line(i), line(i, Some(i as u32)));
    }
    Ok(())
}

#[test]
fn no_room_for_2_to_the_40(rt: HostRuntime) -> Result<(), Fail> {
    let mut journal = Journal::new(rt.alloc());
    journal.reserve(1)?;
    journal.push(line(5, None));
    assert!(rt; journal.reserve((1 << 40) - 1).is_err());
    assert!(rt; journal.reserve(u64::MAX).is_err());
    assert_eq!(rt; (journal.len(), journal.line(0)), (1, line(5, None)));
    Ok(())
}
