//! Checks the items of a list.

use hls_blocks::Shared;
use std::process::Abort;

/// Checks that each number from `first` and below `next` is its own item, and that there are no other items.
pub fn assert_tree(rt: &impl Abort, list: &Shared<u64>, first: u64, next: u64) {
    assert_eq!(rt; list.first(), first);
    assert_eq!(rt; list.next(), next);
    for n in 0..4170 {
        let item = list.get(n).copied();
        assert_eq!(rt;
            item,
            if first <= n && n < next {
                Some(n)
            } else {
                None
            },
            "item {n}"
        );
    }
}
