//! Pushes to lists and drops from them with failing allocations.
ghost use Rattle.std.specs.Prelude.{◌≡◌, ◌<◌, ◌≤◌, IfOk};
ghost use Rattle.hls_blocks.specs.Numbered.{next_of, with_item, from_number, list_limit};

use super::trees::assert_tree;
use hls_blocks::Shared;
use std::alloc::{AllocError, Global};
use std::test::Fail;

/// A push, repeated after an allocation failure.
fn push_with_retry(alloc: Global, list: &Shared<u64>, item: u64) -> Result<Shared<u64>, AllocError>
    requires { next_of list.now < list_limit }
    ensures { IfOk result (λ s. s ≡ with_item list.now item) }
{
    match list.pushed(alloc, item) {
        Ok(next) => Ok(next),
        Err(_) => list.pushed(alloc, item),
    }
}

/// The list from number `n`, repeated after an allocation failure.
fn drop_front_with_retry(
    alloc: Global,
    list: &Shared<u64>,
    n: u64,
) -> Result<Shared<u64>, AllocError>
    requires { (list.now.first ≤ n) × (n ≤ next_of list.now) }
    ensures { IfOk result (λ s. s ≡ from_number list.now n) }
{
    match list.dropped_front(alloc, n) {
        Ok(rest) => Ok(rest),
        Err(_) => list.dropped_front(alloc, n),
    }
}

/// With any one allocation failing, a second attempt returns the new list, and the list before it is unchanged.
#[test]
fn out_of_memory_changes_nothing(rt: HostRuntime) -> Result<(), Fail> {
    let alloc = rt.alloc();
    let mut list = Shared::empty(alloc);
    for n in 0..130 {
        let next = push_with_retry(alloc, &list, n)?;
        assert_tree(&rt, &list, 0, n);
        list = next;
    }
    let rest = drop_front_with_retry(alloc, &list, 60)?;
    assert_eq!(rt; rest.next(), 130);
    let last = drop_front_with_retry(alloc, &rest, 128)?;
    assert_tree(&rt, &list, 0, 130);
    assert_tree(&rt, &rest, 60, 130);
    assert_tree(&rt, &last, 128, 130);
    Ok(())
}
