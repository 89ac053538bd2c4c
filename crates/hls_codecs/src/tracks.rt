//! Reads what an init section says of its tracks.

ghost use Rattle.std.specs.Prelude.{◌≡◌, ◌≤◌, ℕ, List, length, option_map};
ghost use Rattle.std.specs.Borrow.{Bor};
ghost use Rattle.hls_codecs.specs.Tracks.{audio_boxes_offset, original_format, format_behind, is_encrypted, video_of_boxes, video_at, some_entry_channels, audio_of_boxes, audio_at, first_entry, is_letter, is_language, language_in, entry_format, format_of_stsd, stsd_of, format_of_media, format_of_trak, format_of, entry_of_trak, is_encrypted_in};

use crate::audio::some_channels;
use crate::boxes::{byte_or_zero, find_box, read_box_header};
use crate::kinds::{ENCA, ENCV, FRMA, MINF, SINF, STBL, STSD};
use crate::sound::read_audio_entry;
use crate::track_format::{Channels, TrackFormat, TrackKind, VideoFormat};
use crate::video::{display_size, is_turned, read_video_entry, u16_at};
use hls_boxes::kinds::MOOV;
use hls_boxes::numbers::u32_at;
use hls_media_laws::kinds::{MDHD, MDIA, TKHD, TRAK};

/// The packed code of "und": the language isn't determined.
const UNDETERMINED: u16 = 0x55c4;

/// The original format of an encrypted entry, with the boxes in it.
#[tactic(auto, unfolding(crate::specs::Tracks::original_format))]
fn original_format(boxes: &[u8]) -> Option<u32>
    ensures { result ≡ original_format boxes.now }
{
    let Some(sinf) = find_box(boxes, SINF, 0) else {
        return None;
    };
    let Some(frma) = find_box(sinf, FRMA, 0) else {
        return None;
    };
    if frma.len() < 4 {
        return None;
    }
    Some(u32_at(frma, 0))
}

/// The format of an entry of a type, where `protected` is the type of encrypted ones.
fn format_behind(protected: u32, kind: u32, boxes: &[u8]) -> Option<u32>
    ensures { result ≡ format_behind protected kind boxes.now }
{
    if kind == protected {
        return original_format(boxes);
    }
    Some(kind)
}

/// A video entry, with the boxes in it.
fn video_of_boxes(turned: bool, kind: u32, entry: &[u8], boxes: &[u8]) -> Option<TrackFormat>
    requires { 78 ≤ length entry.now }
    ensures { result ≡ video_of_boxes turned kind entry.now boxes.now }
{
    let format = format_behind(ENCV, kind, boxes)?;
    let video = read_video_entry(format, boxes)?;
    Some(TrackFormat {
        codec: video.codec,
        kind: TrackKind::Video(VideoFormat {
            size: display_size(turned, entry, boxes),
            range: video.range,
        }),
        frames: None,
        language: None,
        encrypted: false,
    })
}

#[tactic(auto, unfolding(crate::specs::Tracks::video_at))]
fn read_video(turned: bool, kind: u32, entry: &[u8]) -> Option<TrackFormat>
    ensures { result ≡ video_at turned kind entry.now }
{
    if entry.len() < 78 {
        return None;
    }
    video_of_boxes(turned, kind, entry, &entry[78..])
}

fn audio_of_boxes(kind: u32, channels: Option<Channels>, boxes: &[u8]) -> Option<TrackFormat>
    ensures { result ≡ audio_of_boxes kind channels boxes.now }
{
    let format = format_behind(ENCA, kind, boxes)?;
    let audio = read_audio_entry(format, channels, boxes)?;
    Some(TrackFormat {
        codec: audio.codec,
        kind: TrackKind::Audio(audio.channels),
        frames: audio.frames,
        language: None,
        encrypted: false,
    })
}

fn audio_boxes_offset(version: u8, entry_version: u16) -> usize
    ensures { result ≡ audio_boxes_offset version entry_version }
{
    if version != 0 {
        return 28;
    }
    match entry_version {
        1 => 44,
        2 => 64,
        _ => 28,
    }
}

/// The number of channels in an audio entry.
fn entry_channels(count: u16) -> Option<Channels>
    ensures { result ≡ some_entry_channels count }
{
    if count >= 256 {
        return None;
    }
    some_channels(count as u8)
}

#[tactic(auto, unfolding(crate::specs::Tracks::audio_at))]
fn read_audio(version: u8, kind: u32, entry: &[u8]) -> Option<TrackFormat>
    ensures { result ≡ audio_at version kind entry.now }
{
    if entry.len() < 28 {
        return None;
    }
    let at = audio_boxes_offset(version, u16_at(entry, 8));
    if entry.len() < at {
        return None;
    }
    audio_of_boxes(kind, entry_channels(u16_at(entry, 16)), &entry[at..])
}

/// The first sample entry of an `stsd` box: its type and its content.
#[tactic(auto, unfolding(crate::specs::Tracks::first_entry))]
fn first_entry(stsd: &[u8]) -> Option<(u32, &[u8])>
    ensures { option_map (λ (found : ℕ × Bor (List ℕ)). (found.0, found.1.now)) result ≡ first_entry stsd.now }
{
    if stsd.len() < 8 || u32_at(stsd, 4) == 0 {
        return None;
    }
    let entries = &stsd[8..];
    let Some(header) = read_box_header(entries) else {
        return None;
    };
    Some((
        header.kind,
        &entries[header.head as usize..header.size as usize],
    ))
}

fn is_letter(n: u16) -> bool
    ensures { result ≡ is_letter n }
{
    n > 0 && n < 27
}

fn is_language(packed: u16) -> bool
    ensures { result ≡ is_language packed }
{
    is_letter(packed / 1024)
        && is_letter(packed / 32 % 32)
        && is_letter(packed % 32)
        && packed != UNDETERMINED
}

/// The language of an `mdhd` box.
#[tactic(auto, unfolding(crate::specs::Tracks::language_in))]
fn read_language(mdhd: Option<&[u8]>) -> Option<u16>
    ensures { result ≡ language_in (option_map (λ box. box.now) mdhd.entry) }
{
    let Some(mdhd) = mdhd else {
        return None;
    };
    if mdhd.len() < 22 {
        return None;
    }
    let at = if mdhd[0] == 1 { 32 } else { 20 };
    if mdhd.len() < at + 2 {
        return None;
    }
    let packed = u16_at(mdhd, at);
    if is_language(packed) {
        Some(packed)
    } else {
        None
    }
}

fn is_encrypted(kind: u32) -> bool
    ensures { result ≡ is_encrypted kind }
{
    kind == ENCV || kind == ENCA
}

/// The format of a track whose `stsd` has this version, from its first entry.
fn entry_format(turned: bool, version: u8, kind: u32, entry: &[u8]) -> Option<TrackFormat>
    ensures { result ≡ entry_format turned version (kind, entry.now) }
{
    match read_video(turned, kind, entry) {
        Some(format) => Some(format),
        None => read_audio(version, kind, entry),
    }
}

#[tactic(auto, unfolding(crate::specs::Tracks::format_of_stsd))]
fn read_stsd(turned: bool, language: Option<u16>, stsd: &[u8]) -> Option<TrackFormat>
    ensures { result ≡ format_of_stsd turned language stsd.now }
{
    let Some((kind, entry)) = first_entry(stsd) else {
        return None;
    };
    let format = entry_format(turned, byte_or_zero(stsd, 0), kind, entry)?;
    Some(TrackFormat {
        codec: format.codec,
        kind: format.kind,
        frames: format.frames,
        language,
        encrypted: is_encrypted(kind),
    })
}

/// The content of the `stsd` box of an `mdia`.
#[tactic(auto, unfolding(crate::specs::Tracks::stsd_of))]
fn find_stsd(mdia: &[u8]) -> Option<&[u8]>
    ensures { option_map (λ content. content.now) result ≡ stsd_of mdia.now }
{
    let Some(minf) = find_box(mdia, MINF, 0) else {
        return None;
    };
    let Some(stbl) = find_box(minf, STBL, 0) else {
        return None;
    };
    find_box(stbl, STSD, 0)
}

fn read_media(turned: bool, mdia: &[u8]) -> Option<TrackFormat>
    ensures { result ≡ format_of_media turned mdia.now }
{
    let Some(stsd) = find_stsd(mdia) else {
        return None;
    };
    read_stsd(turned, read_language(find_box(mdia, MDHD, 0)), stsd)
}

#[tactic(auto, unfolding(crate::specs::Tracks::format_of_trak))]
fn read_trak(trak: &[u8]) -> Option<TrackFormat>
    ensures { result ≡ format_of_trak trak.now }
{
    let Some(mdia) = find_box(trak, MDIA, 0) else {
        return None;
    };
    read_media(is_turned(find_box(trak, TKHD, 0)), mdia)
}

/// Reads what an init section says of track `n`, in the order of its `trak` boxes. None if there is no such track, its sample entry is of a
/// type that isn't known, or a box that is needed is missing or too short.
#[tactic(auto, unfolding(crate::specs::Tracks::format_of))]
pub fn read_track_format(init: &[u8], n: usize) -> Option<TrackFormat>
    ensures { result ≡ format_of n init.now }
{
    let Some(moov) = find_box(init, MOOV, 0) else {
        return None;
    };
    let Some(trak) = find_box(moov, TRAK, n) else {
        return None;
    };
    read_trak(trak)
}

/// The type of the first sample entry of a `trak`.
#[tactic(auto, unfolding(crate::specs::Tracks::entry_of_trak))]
fn find_entry_kind(trak: &[u8]) -> Option<u32>
    ensures { result ≡ option_map (λ (e : ℕ × List ℕ). e.0) (entry_of_trak trak.now) }
{
    let Some(mdia) = find_box(trak, MDIA, 0) else {
        return None;
    };
    let Some(stsd) = find_stsd(mdia) else {
        return None;
    };
    match first_entry(stsd) {
        Some((kind, _)) => Some(kind),
        None => None,
    }
}

/// Whether the first sample entry of track `n` says that its samples are encrypted (`encv`, `enca`), even if it isn't understood.
#[tactic(auto, unfolding(crate::specs::Tracks::is_encrypted_in, crate::specs::Tracks::entry_of_trak))]
pub fn is_track_encrypted(init: &[u8], n: usize) -> bool
    ensures { result ≡ is_encrypted_in n init.now }
{
    let Some(moov) = find_box(init, MOOV, 0) else {
        return false;
    };
    let Some(trak) = find_box(moov, TRAK, n) else {
        return false;
    };
    match find_entry_kind(trak) {
        Some(kind) => is_encrypted(kind),
        None => false,
    }
}
