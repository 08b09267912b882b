ghost use Rattle.std.specs.Prelude.{◌≡◌, ◌≢◌, ℕ, ◌+◌, ◌-◌, ◌/◌, ◌<◌, ◌≤◌, min, length, Some, None};
ghost use Rattle.std.specs.List.{fold};
ghost use Rattle.link_arena.specs.Arena.{IsLive, links_at, value_at, Relinks};
ghost use Rattle.pairing_heap.specs.Chain.{Adopts, CanAdopt, CanUnhook, Unhooks, KeepsRest, CanMeld, Melds, Chained, Split, Resplits, Pairs, Rechains, Merges, Joins, siblings};
ghost use Rattle.pairing_heap.specs.Tree.{leaf, node};
ghost use Rattle.pairing_heap.specs.Melding.{heaps, melded, paired, folded, taken_out};
ghost use Rattle.pairing_heap.specs.Heap.{keys_at, tree_at, pairs_at, Stands, Holds, Lacks, AddsPair, TakesPair};

use crate::{Counted, HeapKey, Keyed, Steps};
use link_arena::{Arena, Links};
use std::sync::ledger::Ledger;

/// Makes one heap of two, each given by its root, and returns the root. The other becomes the first of its children.
pub(crate) fn meld<V: Keyed<K>, const K: usize, L: Ledger>(
    arena: &mut Arena<V>,
    a: u32,
    b: u32,
    steps: &mut Steps<L>,
) -> u32
where
    V::Key: Counted<L>,
    requires { CanMeld K V.key_of V.Key.precedes arena.old a b }
    ensures melds { (both : CanMeld K V.key_of V.Key.precedes arena.old a b) → Melds K V.key_of V.Key.precedes arena.old arena.new a b result both }
    ensures ticks { steps.new ≡ steps.old + 1 }
{
    if is_before::<V, K, L>(arena, b, a, steps) {
        adopt::<V, K>(arena, b, a);
        b
    } else {
        adopt::<V, K>(arena, a, b);
        a
    }
}

/// Adds a slot to the heap with this root, and returns the root.
pub(crate) fn add_root<V: Keyed<K>, const K: usize, L: Ledger>(
    arena: &mut Arena<V>,
    heap: Option<u32>,
    slot: u32,
    steps: &mut Steps<L>,
) -> u32
where
    V::Key: Counted<L>,
    requires stands { Stands K V.key_of V.Key.precedes arena.old heap }
    requires live { IsLive arena.old slot }
    requires lacks { Lacks K V.key_of arena.old heap slot }
    ensures adds { AddsPair K V.key_of V.Key.precedes arena.old arena.new heap (Some result) slot }
    ensures melds { (key : V.Key) → keys_at V.key_of arena.old slot ≡ Some key → tree_at K V.key_of arena.new (Some result) ≡ melded V.Key.precedes (tree_at K V.key_of arena.old heap) (node key slot leaf leaf) }
    ensures ticks { steps.old ≤ steps.new }
    ensures most { steps.new ≤ steps.old + 1 }
    ensures first { heap ≡ None → steps.new ≡ steps.old }
{
    arena.set_links(K, slot, Links::NONE);
    match heap {
        None => slot,
        Some(root) => meld::<V, K, L>(arena, root, slot, steps),
    }
}

/// Takes the root out of a heap, and returns the root that the heap has then.
pub(crate) fn take_root<V: Keyed<K>, const K: usize, L: Ledger>(
    arena: &mut Arena<V>,
    root: u32,
    steps: &mut Steps<L>,
) -> Option<u32>
where
    V::Key: Counted<L>,
    requires { Stands K V.key_of V.Key.precedes arena.old (Some root) }
    ensures takes { TakesPair K V.key_of V.Key.precedes arena.old arena.new (Some root) result root }
    ensures pairs { tree_at K V.key_of arena.new result ≡ taken_out V.Key.precedes root (tree_at K V.key_of arena.old (Some root)) }
    ensures ticks { steps.old ≤ steps.new }
    ensures most { steps.new ≤ steps.old + length (pairs_at K V.key_of arena.old (Some root)) }
{
    let children = arena.links(K, root).child;
    arena.set_links(K, root, Links::NONE);
    merge_children::<V, K, L>(arena, children, steps)
}

/// Takes a slot out of a heap that holds it, and returns the root that the heap has then.
pub(crate) fn take_slot<V: Keyed<K>, const K: usize, L: Ledger>(
    arena: &mut Arena<V>,
    heap: Option<u32>,
    slot: u32,
    steps: &mut Steps<L>,
) -> Option<u32>
where
    V::Key: Counted<L>,
    requires stands { Stands K V.key_of V.Key.precedes arena.old heap }
    requires held { Holds K V.key_of arena.old heap slot }
    ensures takes { TakesPair K V.key_of V.Key.precedes arena.old arena.new heap result slot }
    ensures pairs { tree_at K V.key_of arena.new result ≡ taken_out V.Key.precedes slot (tree_at K V.key_of arena.old heap) }
    ensures ticks { steps.old ≤ steps.new }
    ensures most { steps.new ≤ steps.old + length (pairs_at K V.key_of arena.old heap) }
{
    let root = heap.unwrap();
    if root == slot {
        take_root::<V, K, L>(arena, root, steps)
    } else {
        Some(take_inner::<V, K, L>(arena, root, slot, steps))
    }
}

/// Takes a slot from below the root out of a heap, by its links, and returns the root that the heap has then.
fn take_inner<V: Keyed<K>, const K: usize, L: Ledger>(
    arena: &mut Arena<V>,
    root: u32,
    slot: u32,
    steps: &mut Steps<L>,
) -> u32
where
    V::Key: Counted<L>,
    requires stands { Stands K V.key_of V.Key.precedes arena.old (Some root) }
    requires held { Holds K V.key_of arena.old (Some root) slot }
    requires below { root ≢ slot }
    ensures takes { TakesPair K V.key_of V.Key.precedes arena.old arena.new (Some root) (Some result) slot }
    ensures pairs { tree_at K V.key_of arena.new (Some result) ≡ taken_out V.Key.precedes slot (tree_at K V.key_of arena.old (Some root)) }
    ensures ticks { steps.old ≤ steps.new }
    ensures most { steps.new ≤ steps.old + length (pairs_at K V.key_of arena.old (Some root)) }
{
    let links = arena.links(K, slot);
    let pred = links.prev.unwrap();
    unhook::<V, K>(arena, slot, pred);
    arena.set_links(K, slot, Links::NONE);
    join_children::<V, K, L>(arena, root, links.child, steps)
}

/// Whether the key at one slot precedes that at another.
fn is_before<V: Keyed<K>, const K: usize, L: Ledger>(
    arena: &Arena<V>,
    a: u32,
    b: u32,
    steps: &mut Steps<L>,
) -> bool
where
    V::Key: Counted<L>,
    requires a_live { IsLive arena.now a }
    requires b_live { IsLive arena.now b }
    ensures answer { (x y : V.Key) → keys_at V.key_of arena.now a ≡ Some x → keys_at V.key_of arena.now b ≡ Some y → result ≡ V.Key.precedes x y }
    ensures ticks { steps.new ≡ steps.old + 1 }
{
    arena.get(a).key().before(&arena.get(b).key(), steps)
}

/// Makes a root the first child of another.
fn adopt<V: Keyed<K>, const K: usize>(arena: &mut Arena<V>, parent: u32, child: u32)
    requires { CanAdopt K arena.old parent child }
    ensures links { Adopts (links_at arena.old K) (links_at arena.new K) parent child }
    ensures rest { KeepsRest K arena.old arena.new }
{
    let first = arena.links(K, parent).child;
    if let Some(sibling) = first {
        arena.set_prev(K, sibling, Some(child));
    }
    arena.set_beside(K, child, first, Some(parent));
    arena.set_child(K, parent, Some(child));
}

/// Makes one heap of siblings: they are melded in pairs from left to right, and the pairs then into one.
pub(crate) fn merge_children<V: Keyed<K>, const K: usize, L: Ledger>(
    arena: &mut Arena<V>,
    first: Option<u32>,
    steps: &mut Steps<L>,
) -> Option<u32>
where
    V::Key: Counted<L>,
    requires { Chained K V.key_of V.Key.precedes arena.old first }
    ensures merges { (was : Chained K V.key_of V.Key.precedes arena.old first) → Merges K V.key_of V.Key.precedes arena.old arena.new first result was (folded V.Key.precedes (paired V.Key.precedes (heaps was.tree))) }
    ensures ticks { (was : Chained K V.key_of V.Key.precedes arena.old first) → steps.new ≡ steps.old + (siblings was.tree - 1) }
{
    let paired = pair_up::<V, K, L>(arena, first, steps);
    fold_up::<V, K, L>(arena, paired, steps)
}

/// Merges a chain of heaps into that of a root, and returns the root.
fn join_children<V: Keyed<K>, const K: usize, L: Ledger>(
    arena: &mut Arena<V>,
    root: u32,
    children: Option<u32>,
    steps: &mut Steps<L>,
) -> u32
where
    V::Key: Counted<L>,
    requires { Split K V.key_of V.Key.precedes arena.old root children }
    ensures joins { (was : Split K V.key_of V.Key.precedes arena.old root children) → (links_at arena.old K root).next ≡ None → (links_at arena.old K root).prev ≡ None → Joins K V.key_of V.Key.precedes arena.old arena.new root children result was }
    ensures ticks { steps.old ≤ steps.new }
    ensures most { (was : Split K V.key_of V.Key.precedes arena.old root children) → steps.new ≤ steps.old + (siblings was.left + 1) }
{
    match merge_children::<V, K, L>(arena, children, steps) {
        None => root,
        Some(merged) => meld::<V, K, L>(arena, root, merged, steps),
    }
}

/// Melds siblings in pairs from left to right, and returns the pairs as a chain, the last pair first.
fn pair_up<V: Keyed<K>, const K: usize, L: Ledger>(
    arena: &mut Arena<V>,
    first: Option<u32>,
    steps: &mut Steps<L>,
) -> Option<u32>
where
    V::Key: Counted<L>,
    requires { Chained K V.key_of V.Key.precedes arena.old first }
    ensures rechains { (was : Chained K V.key_of V.Key.precedes arena.old first) → Rechains K V.key_of V.Key.precedes arena.old arena.new first result was }
    ensures ticks { (was : Chained K V.key_of V.Key.precedes arena.old first) → steps.new ≡ steps.old + siblings was.tree / 2 }
{
    let mut rest = first;
    let mut paired = None;
    while let Some(a) = rest {
        let (top, after) = first_pair::<V, K, L>(arena, a, steps);
        set_next::<V, K>(arena, top, paired);
        paired = Some(top);
        rest = after;
    }
    paired
}

/// Melds a chain of heaps into one, from the first on.
fn fold_up<V: Keyed<K>, const K: usize, L: Ledger>(
    arena: &mut Arena<V>,
    first: Option<u32>,
    steps: &mut Steps<L>,
) -> Option<u32>
where
    V::Key: Counted<L>,
    requires { Chained K V.key_of V.Key.precedes arena.old first }
    ensures merges { (was : Chained K V.key_of V.Key.precedes arena.old first) → Merges K V.key_of V.Key.precedes arena.old arena.new first result was (fold (melded V.Key.precedes) leaf (heaps was.tree)) }
    ensures ticks { (was : Chained K V.key_of V.Key.precedes arena.old first) → steps.new ≡ steps.old + (siblings was.tree - 1) }
{
    let mut top = first?;
    let mut rest = arena.links(K, top).next;
    while let Some(other) = rest {
        (top, rest) = meld_next::<V, K, L>(arena, top, other, steps);
    }
    set_next::<V, K>(arena, top, None);
    Some(top)
}

/// Melds the first two heaps of a chain, if there are two, and returns the root and what comes after.
fn first_pair<V: Keyed<K>, const K: usize, L: Ledger>(
    arena: &mut Arena<V>,
    first: u32,
    steps: &mut Steps<L>,
) -> (u32, Option<u32>)
where
    V::Key: Counted<L>,
    requires { Chained K V.key_of V.Key.precedes arena.old (Some first) }
    ensures pairs { (was : Chained K V.key_of V.Key.precedes arena.old (Some first)) → Pairs K V.key_of V.Key.precedes arena.old arena.new first result.0 result.1 was }
    ensures ticks { (was : Chained K V.key_of V.Key.precedes arena.old (Some first)) → steps.new ≡ steps.old + min 1 (siblings was.tree - 1) }
{
    match arena.links(K, first).next {
        None => (first, None),
        Some(second) => meld_next::<V, K, L>(arena, first, second, steps),
    }
}

/// Melds a heap with the first of a chain, and returns the root and what comes after.
fn meld_next<V: Keyed<K>, const K: usize, L: Ledger>(
    arena: &mut Arena<V>,
    top: u32,
    other: u32,
    steps: &mut Steps<L>,
) -> (u32, Option<u32>)
where
    V::Key: Counted<L>,
    requires { Split K V.key_of V.Key.precedes arena.old top (Some other) }
    ensures splits { (was : Split K V.key_of V.Key.precedes arena.old top (Some other)) → Resplits K V.key_of V.Key.precedes arena.old arena.new top other result.0 result.1 was }
    ensures ticks { steps.new ≡ steps.old + 1 }
{
    let rest = arena.links(K, other).next;
    (meld::<V, K, L>(arena, top, other, steps), rest)
}

/// Writes what comes next after a root in a chain, and that nothing comes before.
fn set_next<V: Keyed<K>, const K: usize>(arena: &mut Arena<V>, slot: u32, next: Option<u32>)
    requires set { K < 2 }
    requires live { IsLive arena.old slot }
    ensures relinks { Relinks arena.old arena.new K slot record { child = (links_at arena.old K slot).child; next = next; prev = None } }
    ensures spare { arena.new.spare ≡ arena.old.spare }
{
    arena.set_beside(K, slot, next, None);
}

/// Joins the slot before another, and the one after it, past it.
fn unhook<V: Keyed<K>, const K: usize>(arena: &mut Arena<V>, slot: u32, pred: u32)
    requires { CanUnhook K arena.old slot pred }
    ensures links { Unhooks (links_at arena.old K) (links_at arena.new K) slot pred }
    ensures rest { KeepsRest K arena.old arena.new }
{
    let after = arena.links(K, slot).next;
    skip_slot::<V, K>(arena, slot, pred, after);
    if let Some(after) = after {
        arena.set_prev(K, after, Some(pred));
    }
}

/// Writes what comes after a slot in its place, at what comes before it.
fn skip_slot<V: Keyed<K>, const K: usize>(
    arena: &mut Arena<V>,
    slot: u32,
    pred: u32,
    after: Option<u32>,
)
    requires set { K < 2 }
    requires live { IsLive arena.old pred }
    ensures child { (links_at arena.old K pred).child ≡ Some slot → Relinks arena.old arena.new K pred (record (links_at arena.old K pred) { child = after }) }
    ensures next { (links_at arena.old K pred).child ≢ Some slot → Relinks arena.old arena.new K pred (record (links_at arena.old K pred) { next = after }) }
    ensures spare { arena.new.spare ≡ arena.old.spare }
{
    let above = arena.links(K, pred);
    if above.child == Some(slot) {
        arena.set_child(K, pred, after);
    } else {
        arena.set_beside(K, pred, after, above.prev);
    }
}
