//! Writes the lines of a playlist; each function appends to the text.

ghost use Rattle.std.specs.Prelude.{◌≡◌, ℕ, ◌^◌, ◌<◌, List, [], ◌∷◌, ◌++◌, Option, Some, codes, decimal, OnOk};
ghost use Rattle.hls_m3u8.specs.HasText.{IsDate};
ghost use Rattle.hls_m3u8.specs.Lines.{text_of_lines, quoted, range_text, kind_lines, map_range, map_lines, mark_lines, date_lines, extinf_line, range_lines, segment_lines, end_lines};

use crate::playlist::{ByteRange, InitSection, MediaSegment, PlaylistKind};
use hls_instants::format_instant;
use hls_text::push_number;
use hls_time::write_seconds;
use std::alloc::AllocError;

// Writes this line.
pub(crate) fn push_line(out: &mut Vec<u8>, line: &[u8]) -> Result<(), AllocError>
    ensures { OnOk result (out.new.items ≡ out.old.items ++ text_of_lines (line.now ∷ [])) }
{
    out.extend_from_slice(line)?;
    out.push(b'\n')?;
    Ok(())
}

// Writes a line of a tag's name and a number.
pub(crate) fn push_number_line(out: &mut Vec<u8>, tag: &[u8], n: u64) -> Result<(), AllocError>
    ensures { OnOk result (out.new.items ≡ out.old.items ++ text_of_lines ((tag.now ++ decimal n) ∷ [])) }
{
    out.extend_from_slice(tag)?;
    push_number(out, n)?;
    out.push(b'\n')?;
    Ok(())
}

fn push_range(out: &mut Vec<u8>, range: ByteRange) -> Result<(), AllocError>
    ensures { OnOk result (out.new.items ≡ out.old.items ++ range_text range) }
{
    push_number(out, range.length)?;
    out.push(b'@')?;
    push_number(out, range.offset)
}

pub(crate) fn push_kind(out: &mut Vec<u8>, kind: Option<PlaylistKind>) -> Result<(), AllocError>
    ensures { OnOk result (out.new.items ≡ out.old.items ++ text_of_lines (kind_lines kind)) }
{
    match kind {
        None => Ok(()),
        Some(PlaylistKind::Vod) => push_line(out, b"#EXT-X-PLAYLIST-TYPE:VOD"),
        Some(PlaylistKind::Event) => push_line(out, b"#EXT-X-PLAYLIST-TYPE:EVENT"),
    }
}

pub(crate) fn push_quoted(out: &mut Vec<u8>, text: &[u8]) -> Result<(), AllocError>
    ensures { OnOk result (out.new.items ≡ out.old.items ++ quoted text.now) }
{
    out.push(b'"')?;
    out.extend_from_slice(text)?;
    out.push(b'"')?;
    Ok(())
}

fn push_quoted_range(out: &mut Vec<u8>, range: ByteRange) -> Result<(), AllocError>
    ensures { OnOk result (out.new.items ≡ out.old.items ++ quoted (range_text range)) }
{
    out.push(b'"')?;
    push_range(out, range)?;
    out.push(b'"')?;
    Ok(())
}

fn push_map_range(out: &mut Vec<u8>, range: Option<ByteRange>) -> Result<(), AllocError>
    ensures { OnOk result (out.new.items ≡ out.old.items ++ map_range range) }
{
    match range {
        None => Ok(()),
        Some(bytes) => {
            out.extend_from_slice(b",BYTERANGE=")?;
            push_quoted_range(out, bytes)
        }
    }
}

fn push_map_uri(out: &mut Vec<u8>, uri: &[u8]) -> Result<(), AllocError>
    ensures { OnOk result (out.new.items ≡ out.old.items ++ (codes "#EXT-X-MAP:URI=" ++ quoted uri.now)) }
{
    out.extend_from_slice(b"#EXT-X-MAP:URI=")?;
    push_quoted(out, uri)
}

fn push_map(out: &mut Vec<u8>, map: &InitSection) -> Result<(), AllocError>
    ensures { OnOk result (out.new.items ≡ out.old.items ++ text_of_lines (map_lines (Some map.now))) }
{
    push_map_uri(out, map.uri.as_bytes().as_slice())?;
    push_map_range(out, map.range)?;
    out.push(b'\n')?;
    Ok(())
}

pub(crate) fn push_optional_map(
    out: &mut Vec<u8>,
    map: &Option<InitSection>,
) -> Result<(), AllocError>
    ensures { OnOk result (out.new.items ≡ out.old.items ++ text_of_lines (map_lines map.now)) }
{
    match map {
        None => Ok(()),
        Some(m) => push_map(out, m),
    }
}

fn push_extinf(out: &mut Vec<u8>, us: u64) -> Result<(), AllocError>
    requires { us < 2 ^ 53 }
    ensures { OnOk result (out.new.items ≡ out.old.items ++ text_of_lines (extinf_line us ∷ [])) }
{
    let mut seconds = [0; 24];
    let len = write_seconds(us, &mut seconds);
    out.extend_from_slice(b"#EXTINF:")?;
    out.extend_from_slice(&seconds[..len])?;
    out.extend_from_slice(b",\n")?;
    Ok(())
}

fn push_optional_range(out: &mut Vec<u8>, range: Option<ByteRange>) -> Result<(), AllocError>
    ensures { OnOk result (out.new.items ≡ out.old.items ++ text_of_lines (range_lines range)) }
{
    match range {
        None => Ok(()),
        Some(bytes) => {
            out.extend_from_slice(b"#EXT-X-BYTERANGE:")?;
            push_range(out, bytes)?;
            out.push(b'\n')?;
            Ok(())
        }
    }
}

fn push_mark(out: &mut Vec<u8>, mark: bool) -> Result<(), AllocError>
    ensures { OnOk result (out.new.items ≡ out.old.items ++ text_of_lines (mark_lines mark)) }
{
    if mark {
        return push_line(out, b"#EXT-X-DISCONTINUITY");
    }
    Ok(())
}

fn push_date(out: &mut Vec<u8>, date: Option<i64>) -> Result<(), AllocError>
    requires { IsDate date }
    ensures { OnOk result (out.new.items ≡ out.old.items ++ text_of_lines (date_lines date)) }
{
    match date {
        None => Ok(()),
        Some(us) => {
            out.extend_from_slice(b"#EXT-X-PROGRAM-DATE-TIME:")?;
            out.extend_from_slice(&format_instant(us))?;
            out.push(b'\n')?;
            Ok(())
        }
    }
}

/// Appends the lines of a segment. Its length must be below 2^53 microseconds, and its date a whole number of milliseconds that
/// `hls_instants::format_instant` can write.
pub fn push_segment(out: &mut Vec<u8>, segment: &MediaSegment) -> Result<(), AllocError>
    requires length { segment.now.us < 2 ^ 53 }
    requires date { IsDate segment.now.date }
    ensures { OnOk result (out.new.items ≡ out.old.items ++ text_of_lines (segment_lines segment.now)) }
{
    push_mark(out, segment.mark)?;
    push_date(out, segment.date)?;
    push_extinf(out, segment.us)?;
    push_optional_range(out, segment.range)?;
    push_line(out, segment.uri.as_bytes().as_slice())?;
    Ok(())
}

/// Appends the line after the last segment, if the playlist has ended (RFC 8216 section 4.3.3.4).
pub fn push_end(out: &mut Vec<u8>, ended: bool) -> Result<(), AllocError>
    ensures { OnOk result (out.new.items ≡ out.old.items ++ text_of_lines (end_lines ended)) }
{
    if ended {
        return push_line(out, b"#EXT-X-ENDLIST");
    }
    Ok(())
}
