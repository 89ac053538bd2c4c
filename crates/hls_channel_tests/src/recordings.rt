//! After an allocation failure a recording is unchanged, and the same call again succeeds.

ghost use Rattle.std.specs.Prelude.{◌<◌, ◌^◌, length, IfOk};
ghost use Rattle.hls_record.specs.IsRecorded.{IsRecorded};

use super::two_units::{Observed, TWO, observe, resource_bytes, two_units, with_sample};
use hls_record::{RangeFault, RecordFault, Recording};
use std::alloc::{AllocError, Global};
use std::test::Fail;

/// Whether the third unit is appended, in a second call if the first failed to allocate.
fn appends_with_retry(alloc: Global, two: &Recording) -> bool {
    let expected = Observed {
        count: 3,
        floor: 0,
        total: 966,
        last_end: 1080000,
    };
    match with_sample(alloc, two, 720000, 130) {
        Ok(three) => observe(&three) == expected,
        Err(RecordFault::Memory) => {
            with_sample(alloc, two, 720000, 130).is_ok_and(|three| observe(&three) == expected)
        }
        Err(_) => false,
    }
}

/// Whether the first unit is trimmed, with the same retry.
fn trims_with_retry(alloc: Global, two: &Recording) -> bool {
    if two.count() != 2 || two.floor() != 0 {
        return false;
    }
    let expected = Observed { floor: 1, ..TWO };
    match two.trimmed(alloc, 1) {
        Ok(second) => observe(&second) == expected,
        Err(_) => two
            .trimmed(alloc, 1)
            .is_ok_and(|second| observe(&second) == expected),
    }
}

/// Whether a range of the init section and the first unit is copied, with the same retry.
fn copies_with_retry(alloc: Global, two: &Recording, expected_bytes: &[u8]) -> bool {
    match two.copy_range(alloc, 599, 717) {
        Ok(copied) => copied.as_slice() == expected_bytes,
        Err(RangeFault::Memory) => two
            .copy_range(alloc, 599, 717)
            .is_ok_and(|copied| copied.as_slice() == expected_bytes),
        Err(_) => false,
    }
}

/// Makes the initial recording of a test, and retries once if an allocation failed.
fn two_with_retry(alloc: Global) -> Result<Recording, RecordFault>
    ensures { IfOk result IsRecorded }
{
    match two_units(alloc) {
        Ok(two) => Ok(two),
        Err(_) => two_units(alloc),
    }
}

fn resource_with_retry(alloc: Global) -> Result<Vec<u8>, AllocError>
    ensures { IfOk result (λ all. length all.items < 2 ^ 64) }
{
    match resource_bytes(alloc) {
        Ok(all) => Ok(all),
        Err(_) => resource_bytes(alloc),
    }
}

/// After each failure the recording is unchanged.
#[test]
fn out_of_memory_changes_no_recording(rt: HostRuntime) -> Result<(), Fail> {
    let alloc = rt.alloc();
    let all = resource_with_retry(alloc)?;
    let two = two_with_retry(alloc)?;
    let expected_bytes = all.get(599..717).expect(&rt, "the resource of two units");
    assert!(rt; appends_with_retry(alloc, &two));
    assert_eq!(rt; observe(&two), TWO);
    assert!(rt; trims_with_retry(alloc, &two));
    assert_eq!(rt; observe(&two), TWO);
    assert!(rt; copies_with_retry(alloc, &two, expected_bytes));
    Ok(())
}
