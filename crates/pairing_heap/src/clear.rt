ghost use Rattle.std.specs.Prelude.{◌≡◌, Some};
ghost use Rattle.pairing_heap.specs.Forest.{Forest, LoosensOne};
ghost use Rattle.pairing_heap.specs.Heap.{ClearsSlots, Stands};

use crate::{HeapKey, Keyed};
use link_arena::{Arena, Links};

/// Takes a heap apart, so that the links of each of its slots lead nowhere.
pub(crate) fn clear_from<V: Keyed<K>, const K: usize>(arena: &mut Arena<V>, root: Option<u32>)
    requires { Stands K V.key_of V.Key.precedes arena.old root }
    ensures { ClearsSlots K V.key_of V.Key.precedes arena.old arena.new root }
{
    let mut first = root;
    while let Some(slot) = first {
        first = loosen_one::<V, K>(arena, slot);
    }
}

/// Takes the first root out of a forest, where it has no child. Otherwise its first child becomes a root before it. Returns
/// the first root of what is left.
fn loosen_one<V: Keyed<K>, const K: usize>(arena: &mut Arena<V>, slot: u32) -> Option<u32>
    requires { Forest K V.key_of arena.old (Some slot) }
    ensures { (was : Forest K V.key_of arena.old (Some slot)) → LoosensOne K V.key_of arena.old arena.new (Some slot) result was.tree }
{
    let links = arena.links(K, slot);
    match links.child {
        None => {
            arena.set_links(K, slot, Links::NONE);
            links.next
        }
        Some(child) => {
            let below = arena.links(K, child);
            arena.set_links(
                K,
                slot,
                Links {
                    child: below.next,
                    ..links
                },
            );
            arena.set_links(
                K,
                child,
                Links {
                    next: Some(slot),
                    ..below
                },
            );
            Some(child)
        }
    }
}
