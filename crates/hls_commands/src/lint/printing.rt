//! The line about a media playlist.
ghost use Rattle.std.specs.Prelude.{◌≡◌, ◌+◌, ◌≤◌, ◌++◌, [], ◌∷◌, Ok, Err, OnOk, IfOk};
ghost use Rattle.arrayvec.specs.ArrayString.{array_string_len};
ghost use Rattle.hls_m3u8.specs.Playlist.{playlist_of};
ghost use Rattle.hls_text.specs.Numbers.{spaced_numbers};
ghost use Rattle.hls_time.specs.Seconds.{seconds_text};
ghost use Rattle.hls_commands.specs.LintAnswer.{count_words, end_words, extent, fault_line_numbers, field, header, kind_words, length_words};
ghost use Rattle.hls_commands.specs.LintAnswer.{longest_us, lint_line, sequences, total_us};

use crate::check::printing::{LINE_LEN, push_number};
use arrayvec::ArrayString;
use hls_m3u8::{ListFault, MediaPlaylist, MediaSegment, PlaylistKind};
use hls_time::write_seconds;
use std::alloc::{AllocError, Global};

/// The longest time that is printed, in microseconds.
const LONGEST_US: u64 = (1 << 53) - 1;

/// Returns the total length of the segments in microseconds, capped at the longest time that is printed.
fn total_us(segments: &[MediaSegment]) -> u64
    ensures { result ≡ total_us segments.now }
{
    let mut total = 0u64;
    for segment in segments {
        total = total.saturating_add(segment.us).min(LONGEST_US);
    }
    total
}

/// Appends a label and a number.
fn push_field(out: &mut Vec<u8>, label: &[u8], number: u64) -> Result<(), AllocError>
    ensures { OnOk result (out.new.items ≡ out.old.items ++ field label.now number) }
{
    out.extend_from_slice(label)?;
    hls_text::push_number(out, number)?;
    Ok(())
}

/// Appends a time in seconds.
fn push_seconds(out: &mut Vec<u8>, us: u64) -> Result<(), AllocError>
    requires { us ≤ longest_us }
    ensures { OnOk result (out.new.items ≡ out.old.items ++ seconds_text us) }
{
    let mut seconds = [0; 24];
    let len = write_seconds(us, &mut seconds);
    out.extend_from_slice(&seconds[..len])?;
    Ok(())
}

/// Appends the number of segments.
fn push_count(out: &mut Vec<u8>, segments: &[MediaSegment]) -> Result<(), AllocError>
    ensures { OnOk result (out.new.items ≡ out.old.items ++ count_words segments.now) }
{
    push_field(out, b"media playlist: ", segments.len() as u64)
}

/// Appends the total length.
fn push_length(out: &mut Vec<u8>, us: u64) -> Result<(), AllocError>
    requires { us ≤ longest_us }
    ensures { OnOk result (out.new.items ≡ out.old.items ++ length_words us) }
{
    out.extend_from_slice(b" segments, ")?;
    push_seconds(out, us)?;
    Ok(())
}

/// Appends the number of segments and their total length.
fn push_extent(out: &mut Vec<u8>, segments: &[MediaSegment]) -> Result<(), AllocError>
    ensures { OnOk result (out.new.items ≡ out.old.items ++ extent segments.now) }
{
    push_count(out, segments)?;
    push_length(out, total_us(segments))?;
    out.extend_from_slice(b" seconds")?;
    Ok(())
}

/// Appends the target duration and the version.
fn push_header(out: &mut Vec<u8>, list: &MediaPlaylist) -> Result<(), AllocError>
    ensures { OnOk result (out.new.items ≡ out.old.items ++ header (playlist_of list.now)) }
{
    push_field(out, b", target ", list.target)?;
    push_field(out, b", version ", list.version)?;
    Ok(())
}

/// Appends the two sequence numbers.
fn push_sequences(out: &mut Vec<u8>, list: &MediaPlaylist) -> Result<(), AllocError>
    ensures { OnOk result (out.new.items ≡ out.old.items ++ sequences (playlist_of list.now)) }
{
    push_field(out, b", media sequence ", list.media_sequence)?;
    push_field(
        out,
        b", discontinuity sequence ",
        list.discontinuity_sequence,
    )?;
    Ok(())
}

/// Appends the four numbers of a playlist.
fn push_numbers(out: &mut Vec<u8>, list: &MediaPlaylist) -> Result<(), AllocError>
    ensures { OnOk result (out.new.items ≡ out.old.items ++ (header (playlist_of list.now) ++ sequences (playlist_of list.now))) }
{
    push_header(out, list)?;
    push_sequences(out, list)?;
    Ok(())
}

/// Appends the playlist's type.
fn push_kind(out: &mut Vec<u8>, kind: Option<PlaylistKind>) -> Result<(), AllocError>
    ensures { OnOk result (out.new.items ≡ out.old.items ++ kind_words kind) }
{
    match kind {
        None => out.extend_from_slice(b", live"),
        Some(PlaylistKind::Vod) => out.extend_from_slice(b", VOD"),
        Some(PlaylistKind::Event) => out.extend_from_slice(b", EVENT"),
    }
}

/// Appends whether the playlist has ended.
fn push_end(out: &mut Vec<u8>, ended: bool) -> Result<(), AllocError>
    ensures { OnOk result (out.new.items ≡ out.old.items ++ end_words ended) }
{
    if ended {
        out.extend_from_slice(b", ended")?;
    }
    Ok(())
}

/// Writes the line of a playlist.
pub fn write_list_line(alloc: Global, list: &MediaPlaylist) -> Result<Vec<u8>, AllocError>
    ensures { IfOk result (λ line. line.items ≡ lint_line (Ok (playlist_of list.now))) }
{
    let mut out = Vec::new(alloc);
    push_extent(&mut out, list.segments.as_slice())?;
    push_numbers(&mut out, list)?;
    push_kind(&mut out, list.kind)?;
    push_end(&mut out, list.ended)?;
    out.push(b'\n')?;
    Ok(out)
}

/// Appends the number of the refused line, with a space before it.
fn push_fault_line_number(line: &mut ArrayString<LINE_LEN>, fault: ListFault)
    requires { array_string_len line.old + 21 ≤ LINE_LEN }
    ensures bytes { line.new.bytes ≡ line.old.bytes ++ spaced_numbers (fault_line_numbers fault) }
    ensures len { array_string_len line.new ≤ array_string_len line.old + 21 }
{
    match fault {
        ListFault::BadTag { line: number } => push_number(line, number as u64),
        ListFault::NotM3u
        | ListFault::Utf8
        | ListFault::MissingTag
        | ListFault::TooLong
        | ListFault::Memory => {}
    }
}

/// Writes the line of a refusal: `refused`, the fault's name, and the number of the line in the playlist's text, if there is one.
/// Doesn't allocate.
pub fn write_fault_line(fault: ListFault) -> ArrayString<LINE_LEN>
    ensures { result.bytes ≡ lint_line (Err fault) }
{
    let mut line = ArrayString::new();
    line.push_str("refused ");
    line.push_str(fault.name());
    push_fault_line_number(&mut line, fault);
    line.push_str("\n");
    line
}
