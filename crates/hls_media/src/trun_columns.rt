//! The values of a run's samples: from the fields of its rows, or by default (ISO/IEC 14496-12 8.8.8).

ghost use Rattle.std.specs.Prelude.{◌≡◌, ◌+◌, ◌*◌, ◌^◌, ◌<◌, ◌≤◌, Option, true, false, length, sum};
ghost use Rattle.hls_media_laws.specs.Fields.{column, values, durations, sizes};
ghost use Rattle.hls_media_laws.specs.Runs.{first_sample_flags};
ghost use Rattle.hls_media.specs.Boxes.{IsRun};
ghost use Rattle.hls_media.specs.ColumnSum.{column_sum};
ghost use Rattle.hls_media.specs.RisesBy.{RisesBy};

use crate::fields::read_u32_field;
use crate::flags::{field_len, read_optional_field};
use crate::trun::Trun;
use hls_media_laws::flags::{SAMPLE_DURATION_PRESENT, SAMPLE_FLAGS_PRESENT, SAMPLE_SIZE_PRESENT};
use hls_time::Ticks;

/// The sum of the values of a run's samples.
#[derive(Clone, Copy)]
pub struct ColumnSum {
    /// The sum of the values that exist.
    pub total: u64,
    /// Whether a value is missing.
    pub lacking: bool,
}

/// The sum of the numbers at `at` in the first `count` rows of `row` bytes.
pub fn sum_column(rows: &[u8], count: u32, row: usize, at: usize, ticks: &mut Ticks) -> u64
    requires in_row { at + 4 ≤ row }
    requires in_rows { count * row ≤ length rows.now }
    requires room { ticks.old < 2 ^ 62 + 2 ^ 61 }
    ensures value { result ≡ sum (column count row at rows.now) }
    ensures counted { ticks.new ≡ ticks.old + count }
{
    let mut total: u64 = 0;
    let mut rest = rows;
    let mut left = count;
    'rows: while left > 0 {
        total += u64::from(read_u32_field(rest, at, ticks));
        rest = &rest[row..];
        left -= 1;
    }
    total
}

/// The sum of the values of a run's samples: the fields at `at` if rows have them, otherwise the default.
///
/// If rows don't have them, the sum is one product, and nothing is read.
pub fn sum_values(
    content: &[u8],
    run: Trun,
    present: bool,
    at: usize,
    default: Option<u32>,
    ticks: &mut Ticks,
) -> ColumnSum
    requires is_run { IsRun run content.now }
    requires in_row { present ≡ true → at + 4 ≤ run.row }
    requires room { ticks.old < 2 ^ 62 + 2 ^ 61 }
    ensures value { result ≡ column_sum (values present at default content.now) }
    ensures counted { RisesBy (length content.now) ticks.old ticks.new }
    ensures by_product { present ≡ false → ticks.new ≡ ticks.old }
{
    if present {
        return ColumnSum {
            total: sum_column(&content[run.rows..], run.count, run.row, at, ticks),
            lacking: false,
        };
    }
    let Some(value) = default else {
        return ColumnSum {
            total: 0,
            lacking: run.count > 0,
        };
    };
    ColumnSum {
        total: u64::from(run.count) * u64::from(value),
        lacking: false,
    }
}

/// The sum of the durations of a run's samples.
pub fn sum_durations(
    content: &[u8],
    run: Trun,
    default: Option<u32>,
    ticks: &mut Ticks,
) -> ColumnSum
    requires is_run { IsRun run content.now }
    requires room { ticks.old < 2 ^ 62 + 2 ^ 61 }
    ensures value { result ≡ column_sum (durations default content.now) }
    ensures counted { RisesBy (length content.now) ticks.old ticks.new }
{
    sum_values(
        content,
        run,
        run.flags & SAMPLE_DURATION_PRESENT != 0,
        0,
        default,
        ticks,
    )
}

/// The sum of the sizes of a run's samples.
pub fn sum_sizes(content: &[u8], run: Trun, default: Option<u32>, ticks: &mut Ticks) -> ColumnSum
    requires is_run { IsRun run content.now }
    requires room { ticks.old < 2 ^ 62 + 2 ^ 61 }
    ensures value { result ≡ column_sum (sizes default content.now) }
    ensures counted { RisesBy (length content.now) ticks.old ticks.new }
{
    sum_values(
        content,
        run,
        run.flags & SAMPLE_SIZE_PRESENT != 0,
        field_len(run.flags, SAMPLE_DURATION_PRESENT),
        default,
        ticks,
    )
}

/// The flags of the first sample of a run, which has one.
pub fn read_first_flags(
    content: &[u8],
    run: Trun,
    default: Option<u32>,
    ticks: &mut Ticks,
) -> Option<u32>
    requires is_run { IsRun run content.now }
    requires some { 0 < run.count }
    requires room { ticks.old < 2 ^ 63 }
    ensures value { result ≡ first_sample_flags default content.now }
    ensures counted { RisesBy 1 ticks.old ticks.new }
{
    let at = run.rows
        + field_len(run.flags, SAMPLE_DURATION_PRESENT)
        + field_len(run.flags, SAMPLE_SIZE_PRESENT);
    run.first_flags.or(read_optional_field(content, run.flags, SAMPLE_FLAGS_PRESENT, at, ticks).or(
        default,
    ))
}
