//! The rows of a `trun`, read field by field (ISO/IEC 14496-12 8.8.8).

ghost use Rattle.std.specs.Prelude.{◌≡◌, ◌*◌, ◌≤◌, length, IfOk};
ghost use Rattle.hls_media_laws.specs.Fields.{field_width};
ghost use Rattle.hls_mend_laws.specs.FragmentsRead.{field_value, after_field, row_sample, after_row, row_width, rows_samples};

use hls_boxes::numbers::u32_at;
use hls_mend_laws::row_format::{Column, RowFormat};
use hls_mend_laws::sample::Sample;
use std::alloc::{AllocError, Global};

/// The value of a field, and the bytes after it.
#[derive(Clone, Copy)]
struct Field<'a> {
    value: u32,
    rest: &'a [u8],
}

/// A sample, and the bytes after its row.
#[derive(Clone, Copy)]
struct Row<'a> {
    sample: Sample,
    rest: &'a [u8],
}

/// Reads the field at the start of the bytes, or takes its default.
fn read_field(bytes: &[u8], column: Column) -> Field<'_>
    requires { field_width column.present ≤ length bytes.now }
    ensures value { result.value ≡ field_value column bytes.now }
    ensures rest { result.rest.now ≡ after_field column bytes.now }
{
    if column.present {
        Field {
            value: u32_at(bytes, 0),
            rest: &bytes[4..],
        }
    } else {
        Field {
            value: column.default,
            rest: bytes,
        }
    }
}

/// Reads the row at the start of the bytes.
fn read_row(bytes: &[u8], format: RowFormat) -> Row<'_>
    requires { row_width format ≤ length bytes.now }
    ensures sample { result.sample ≡ row_sample format bytes.now }
    ensures rest { result.rest.now ≡ after_row format bytes.now }
{
    let duration = read_field(bytes, format.duration);
    let size = read_field(duration.rest, format.size);
    let flags = read_field(size.rest, format.flags);
    let offset = read_field(flags.rest, format.offset);
    Row {
        sample: Sample {
            duration: duration.value,
            size: size.value,
            flags: flags.value,
            offset: offset.value,
        },
        rest: offset.rest,
    }
}

/// The samples of the first `count` rows.
pub fn read_rows(
    alloc: Global,
    rows: &[u8],
    count: u32,
    format: RowFormat,
) -> Result<Vec<Sample>, AllocError>
    requires { count * row_width format ≤ length rows.now }
    ensures { IfOk result (λ v. v.items ≡ rows_samples count format rows.now) }
{
    let mut samples = Vec::new(alloc);
    let mut rest = rows;
    let mut left = count;
    'rows: while left > 0 {
        let row = read_row(rest, format);
        samples.push(row.sample)?;
        rest = row.rest;
        left -= 1;
    }
    Ok(samples)
}
