use crate::{Arena, Links};
use std::rc::Rc;
use std::test::Fail;

// Two values go in, links are written, values are changed, and an emptied slot is passed over and given out again.
#[test]
fn slots_values_and_links(rt: HostRuntime) -> Result<(), Fail> {
    let mut arena: Arena<u32> = Arena::new(rt.alloc())?;
    assert_eq!(rt; arena.next_live(0), None);
    arena.reserve()?;
    let spare = arena.spare();
    let a = arena.insert_reserved(10);
    assert_eq!(rt;
        (arena.len(), arena.spare() + 1, arena.is_live(a)),
        (1, spare, true)
    );
    let removed = arena.remove(a);
    assert_eq!(rt; removed, 10);
    assert_eq!(rt;
        (arena.len(), arena.spare(), arena.is_live(a)),
        (0, spare, false)
    );
    assert_eq!(rt; arena.next_live(0), None);
    let b = arena.insert_reserved(20);
    assert_eq!(rt; b, a);
    let chain = Links {
        child: Some(7),
        next: None,
        prev: Some(b),
    };
    arena.set_links(1, b, chain);
    assert_eq!(rt; arena.links(1, b), chain);
    assert_eq!(rt; arena.links(0, b), Links::NONE);
    assert_eq!(rt; arena.replace(b, 21), 20);
    *arena.get_mut(b) = 22;
    assert_eq!(rt; *arena.get(b), 22);
    assert_eq!(rt; arena.next_live(0), Some(b));
    Ok(())
}

// A value that may not be let go of.
struct Mark(u32);

// An arena of such values ends once each was taken out.
#[test]
fn ends_empty(rt: HostRuntime) -> Result<(), Fail> {
    let mut arena = Arena::new(rt.alloc())?;
    arena.reserve().expect(&rt, "room");
    let slot = arena.insert_reserved(Mark(7));
    let Mark(number) = arena.remove(slot);
    assert_eq!(rt; number, 7);
    match arena.next_live(0) {
        None => arena.destroy_empty(),
        Some(_) => panic!(rt; "a slot is live"),
    }
    Ok(())
}

// An arena of values that may be let go of drops those that it still has.
#[test]
fn drops_its_values(rt: HostRuntime) -> Result<(), Fail> {
    let shared = Rc::new(rt.alloc(), 5)?;
    let mut arena = Arena::new(rt.alloc())?;
    arena.reserve()?;
    arena.insert_reserved(shared.clone()?);
    assert_eq!(rt; Rc::strong_count(&shared), 2);
    drop(arena);
    assert_eq!(rt; Rc::strong_count(&shared), 1);
    Ok(())
}
