//! The interface of each level of the tree. Contracts see a node as a list whose numbers count from 0 inside it.
ghost use Rattle.std.specs.Prelude.{◌≡◌, ℕ, ◌+◌, ◌^◌, ◌<◌, ◌≤◌, [], ◌∷◌, ◌++◌, length, map, IfOk, OnOk};
ghost use Rattle.hls_blocks.specs.Numbered.{Numbered, next_of, with_item, from_number, items_starting_at, list_limit};

use hls_time::Ticks;
use std::alloc::{AllocError, Global};
use std::sync::Arc;

pub trait Node: Drop {
    type Item: Drop;

    // the items with their numbers inside the node
    ghost value_of: { Self → Numbered Self.Item };

    // the invariant of every node of a tree
    ghost sound: { Self → Type 0 };

    // the number of items of a full node
    ghost max_items: { ℕ };

    // the maximum number of slots that a push writes
    ghost max_writes: { ℕ };

    /// The number of items of a full node.
    fn capacity() -> u64
        requires { max_items ≤ list_limit }
        ensures value { result ≡ max_items }
        ensures some { 0 < result };

    /// A node with one item, which has number `n`.
    fn new_with_item(
        alloc: Global,
        n: u64,
        item: Arc<Self::Item>,
        ticks: &mut Ticks,
    ) -> Result<Self, AllocError>
        requires small { max_items ≤ list_limit }
        requires place { n < max_items }
        requires count { ticks.old + max_writes ≤ 2 ^ 63 }
        ensures value_of { IfOk result (λ s. value_of s ≡ record { first = n; items = item.value ∷ [] }) }
        ensures sound { IfOk result sound }
        ensures rises { ticks.old ≤ ticks.new }
        ensures wrote { OnOk result (ticks.old < ticks.new) }
        ensures count { ticks.new ≤ ticks.old + max_writes };

    /// The node with the item appended; `n` is the item's number.
    fn push_item(
        &self,
        alloc: Global,
        n: u64,
        item: Arc<Self::Item>,
        ticks: &mut Ticks,
    ) -> Result<Self, AllocError>
        requires small { max_items ≤ list_limit }
        requires sound { sound self.now }
        requires next { n ≡ next_of (value_of self.now) }
        requires place { n < max_items }
        requires count { ticks.old + max_writes ≤ 2 ^ 63 }
        ensures value_of { IfOk result (λ s. value_of s ≡ with_item (value_of self.now) item.value) }
        ensures sound { IfOk result sound }
        ensures rises { ticks.old ≤ ticks.new }
        ensures wrote { OnOk result (ticks.old < ticks.new) }
        ensures count { ticks.new ≤ ticks.old + max_writes };

    /// The node without the items below number `n`. At least one remains.
    fn drop_front(&self, alloc: Global, n: u64) -> Result<Self, AllocError>
        requires small { max_items ≤ list_limit }
        requires sound { sound self.now }
        requires low { (value_of self.now).first ≤ n }
        requires high { n < next_of (value_of self.now) }
        ensures value_of { IfOk result (λ s. value_of s ≡ from_number (value_of self.now) n) }
        ensures sound { IfOk result sound };

    /// The items from number `n` to the end of their part of the leaf.
    fn run_at(&self, n: u64) -> &[Arc<Self::Item>]
        requires small { max_items ≤ list_limit }
        requires sound { sound self.now }
        requires low { (value_of self.now).first ≤ n }
        requires high { n < next_of (value_of self.now) }
        ensures some { 0 < length result.now }
        ensures run { items_starting_at (value_of self.now) n ≡ map (λ x. x.value) result.now ++ items_starting_at (value_of self.now) (n + length result.now) };
}
