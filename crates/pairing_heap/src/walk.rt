ghost use Rattle.std.specs.Prelude.{◌≡◌, ◌≢◌, ℕ, ◌+◌, ◌≤◌, List, ◌∷◌, ◌++◌, length, Some, None, vec_len, vec_capacity};
ghost use Rattle.pairing_heap.specs.Heap.{Stands, Holds, tree_at, pairs_at, slots_at, first_slot};
ghost use Rattle.pairing_heap.specs.Walk.{beyond};

use crate::{HeapKey, Keyed};
use link_arena::{Arena, Links};

/// The slot that comes after one in the order of a walk: its first child, or what comes next after it, or after the nearest
/// node above that something comes after.
pub(crate) fn next_slot<V: Keyed<K>, const K: usize>(
    arena: &Arena<V>,
    root: Option<u32>,
    slot: u32,
) -> Option<u32>
    requires stands { Stands K V.key_of V.Key.precedes arena.now root }
    requires held { Holds K V.key_of arena.now root slot }
    ensures { (before after : List ℕ) → slots_at K V.key_of arena.now root ≡ before ++ (slot ∷ after) → result ≡ first_slot after }
{
    let links = arena.links(K, slot);
    if let Some(child) = links.child {
        return Some(child);
    }
    if let Some(next) = links.next {
        return Some(next);
    }
    climb::<V, K>(arena, root, slot)
}

/// What comes after a slot, all that is below it and its siblings.
fn climb<V: Keyed<K>, const K: usize>(arena: &Arena<V>, root: Option<u32>, slot: u32) -> Option<u32>
    requires stands { Stands K V.key_of V.Key.precedes arena.now root }
    requires held { Holds K V.key_of arena.now root slot }
    ensures { result ≡ beyond slot (tree_at K V.key_of arena.now root) None }
{
    let mut at = slot;
    let mut before = arena.links(K, slot).prev;
    while let Some(pred) = before {
        let above = arena.links(K, pred);
        if let Some(next) = past_child(above, at) {
            return Some(next);
        }
        at = pred;
        before = above.prev;
    }
    None
}

/// What comes next after a node, where the slot is its first child.
fn past_child(above: Links, slot: u32) -> Option<u32>
    ensures child { above.child ≡ Some slot → result ≡ above.next }
    ensures sibling { above.child ≢ Some slot → result ≡ None }
{
    if above.child == Some(slot) {
        above.next
    } else {
        None
    }
}

/// Puts the slots of a heap, in the order of a walk, at the end of a list that has room for them.
pub(crate) fn list_slots<V: Keyed<K>, const K: usize>(
    arena: &Arena<V>,
    root: Option<u32>,
    slots: &mut Vec<u32>,
)
    requires stands { Stands K V.key_of V.Key.precedes arena.now root }
    requires room { vec_len slots.old + length (pairs_at K V.key_of arena.now root) ≤ vec_capacity slots.old }
    ensures lists { slots.new.items ≡ slots.old.items ++ slots_at K V.key_of arena.now root }
    ensures room { vec_capacity slots.new ≡ vec_capacity slots.old }
{
    let mut at = root;
    while let Some(slot) = at {
        slots.push_reserved(slot);
        at = next_slot::<V, K>(arena, root, slot);
    }
}
