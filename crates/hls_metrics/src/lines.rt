//! Writes the lines of a metric; each function appends to the text.

ghost use Rattle.std.specs.Prelude.{◌≡◌, ◌++◌, OnOk};
ghost use Rattle.hls_metrics.specs.Lines as spec;

use hls_text::push_number;
use std::alloc::AllocError;

/// Appends the line that says what a metric is.
#[tactic(auto, unfolding(crate::specs::Lines::help_line))]
fn push_help_line(out: &mut Vec<u8>, name: &[u8], help: &[u8]) -> Result<(), AllocError>
    ensures { OnOk result (out.new.items ≡ out.old.items ++ spec.help_line name.now help.now) }
{
    out.extend_from_slice(b"# HELP ")?;
    out.extend_from_slice(name)?;
    out.push(b' ')?;
    out.extend_from_slice(help)?;
    out.push(b'\n')?;
    Ok(())
}

/// Appends the line with a metric's type.
#[tactic(auto, unfolding(crate::specs::Lines::type_line))]
fn push_type_line(out: &mut Vec<u8>, name: &[u8], kind: &[u8]) -> Result<(), AllocError>
    ensures { OnOk result (out.new.items ≡ out.old.items ++ spec.type_line name.now kind.now) }
{
    out.extend_from_slice(b"# TYPE ")?;
    out.extend_from_slice(name)?;
    out.push(b' ')?;
    out.extend_from_slice(kind)?;
    out.push(b'\n')?;
    Ok(())
}

/// Appends the two lines that describe a metric.
pub(crate) fn push_description(
    out: &mut Vec<u8>,
    name: &[u8],
    kind: &[u8],
    help: &[u8],
) -> Result<(), AllocError>
    ensures { OnOk result (out.new.items ≡ out.old.items ++ spec.description name.now kind.now help.now) }
{
    push_help_line(out, name, help)?;
    push_type_line(out, name, kind)?;
    Ok(())
}

/// Appends a row with a name and a number.
#[tactic(auto, unfolding(crate::specs::Lines::row))]
fn push_row(out: &mut Vec<u8>, name: &[u8], number: u64) -> Result<(), AllocError>
    ensures { OnOk result (out.new.items ≡ out.old.items ++ spec.row name.now number) }
{
    out.extend_from_slice(name)?;
    out.push(b' ')?;
    push_number(out, number)?;
    out.push(b'\n')?;
    Ok(())
}

/// Appends a row with a name and a time in microseconds, in seconds.
#[tactic(auto, unfolding(crate::specs::Lines::seconds_row))]
fn push_seconds_row(out: &mut Vec<u8>, name: &[u8], us: u64) -> Result<(), AllocError>
    ensures { OnOk result (out.new.items ≡ out.old.items ++ spec.seconds_row name.now us) }
{
    out.extend_from_slice(name)?;
    out.push(b' ')?;
    push_number(out, us)?;
    out.extend_from_slice(b"e-6\n")?;
    Ok(())
}

/// Appends a metric that may rise and fall.
#[tactic(auto, unfolding(crate::specs::Lines::gauge))]
pub(crate) fn push_gauge(
    out: &mut Vec<u8>,
    name: &[u8],
    help: &[u8],
    number: u64,
) -> Result<(), AllocError>
    ensures { OnOk result (out.new.items ≡ out.old.items ++ spec.gauge name.now help.now number) }
{
    push_description(out, name, b"gauge", help)?;
    push_row(out, name, number)?;
    Ok(())
}

/// Appends a metric that only rises.
#[tactic(auto, unfolding(crate::specs::Lines::counter))]
pub(crate) fn push_counter(
    out: &mut Vec<u8>,
    name: &[u8],
    help: &[u8],
    number: u64,
) -> Result<(), AllocError>
    ensures { OnOk result (out.new.items ≡ out.old.items ++ spec.counter name.now help.now number) }
{
    push_description(out, name, b"counter", help)?;
    push_row(out, name, number)?;
    Ok(())
}

/// Appends a metric of a time in microseconds, in seconds.
#[tactic(auto, unfolding(crate::specs::Lines::seconds_gauge))]
pub(crate) fn push_seconds_gauge(
    out: &mut Vec<u8>,
    name: &[u8],
    help: &[u8],
    us: u64,
) -> Result<(), AllocError>
    ensures { OnOk result (out.new.items ≡ out.old.items ++ spec.seconds_gauge name.now help.now us) }
{
    push_description(out, name, b"gauge", help)?;
    push_seconds_row(out, name, us)?;
    Ok(())
}

/// Appends a metric of a time in microseconds that only rises, in seconds.
#[tactic(auto, unfolding(crate::specs::Lines::seconds_counter))]
pub(crate) fn push_seconds_counter(
    out: &mut Vec<u8>,
    name: &[u8],
    help: &[u8],
    us: u64,
) -> Result<(), AllocError>
    ensures { OnOk result (out.new.items ≡ out.old.items ++ spec.seconds_counter name.now help.now us) }
{
    push_description(out, name, b"counter", help)?;
    push_seconds_row(out, name, us)?;
    Ok(())
}
