//! The metric of refused bodies.

ghost use Rattle.std.specs.Prelude.{◌≡◌, ◌++◌, OnOk};
ghost use Rattle.hls_metrics.specs.Refusals as spec;

use crate::lines::push_description;
use crate::refusal_kinds::refusal_name;
use hls_text::push_number;
use std::alloc::AllocError;

/// Appends the name of the metric of refusals, and the label with a refusal.
#[tactic(auto, unfolding(crate::specs::Refusals::refusal_label))]
fn push_refusal_label(out: &mut Vec<u8>, number: usize) -> Result<(), AllocError>
    ensures { OnOk result (out.new.items ≡ out.old.items ++ spec.refusal_label number) }
{
    out.extend_from_slice(b"hls_refusals_total{refusal=\"")?;
    out.extend_from_slice(refusal_name(number))?;
    Ok(())
}

/// Appends the row of a refusal.
#[tactic(auto, unfolding(crate::specs::Refusals::refusal_row))]
fn push_refusal_row(out: &mut Vec<u8>, number: usize, count: u64) -> Result<(), AllocError>
    ensures { OnOk result (out.new.items ≡ out.old.items ++ spec.refusal_row number count) }
{
    push_refusal_label(out, number)?;
    out.extend_from_slice(b"\"} ")?;
    push_number(out, count)?;
    out.push(b'\n')?;
    Ok(())
}

/// Appends the rows of the refusals.
fn push_refusal_rows(out: &mut Vec<u8>, counts: &[u64]) -> Result<(), AllocError>
    ensures { OnOk result (out.new.items ≡ out.old.items ++ spec.refusal_rows_from 0 counts.now) }
{
    for (number, count) in counts.iter().enumerate() {
        push_refusal_row(out, number, *count)?;
    }
    Ok(())
}

/// Appends the metric of refusals.
#[tactic(auto, unfolding(crate::specs::Refusals::refusal_metrics))]
pub(crate) fn push_refusal_metrics(out: &mut Vec<u8>, counts: &[u64]) -> Result<(), AllocError>
    ensures { OnOk result (out.new.items ≡ out.old.items ++ spec.refusal_metrics counts.now) }
{
    push_description(
        out,
        b"hls_refusals_total",
        b"counter",
        b"Bodies of encoders that were refused, by the refusal.",
    )?;
    push_refusal_rows(out, counts)?;
    Ok(())
}
