//! The types of boxes that are compared in a way of their own, as big-endian numbers of their four letters.

ghost use Rattle.std.specs.Prelude.{◌≡◌, ◌≤◌, ℕ, IfSome};
ghost use Rattle.hls_mend.specs.InitSections.{is_ignored as is_ignored_type, is_container as is_container_type, has_times as has_times_type, is_visual as is_visual_type, is_audio as is_audio_type, boxes_at as boxes_by_type};

/// Sample description box (ISO/IEC 14496-12 8.5.2).
pub const STSD: u32 = 0x73747364;

/// Handler reference box (ISO/IEC 14496-12 8.4.3).
pub const HDLR: u32 = 0x68646c72;

/// Elementary stream descriptor box (ISO/IEC 14496-14 6.7.2).
pub const ESDS: u32 = 0x65736473;

/// Whether no decoder reads boxes of this type: `btrt`, `udta`, `meta`.
#[tactic(auto, unfolding(crate::specs::InitSections::is_ignored))]
pub fn is_ignored(kind: u32) -> bool
    ensures { result ≡ is_ignored_type kind }
{
    matches!(kind, 0x62747274 | 0x75647461 | 0x6d657461)
}

/// Whether boxes of this type hold boxes only: `moov`, `trak`, `mdia`, `minf`, `stbl`.
#[tactic(auto, unfolding(crate::specs::InitSections::is_container))]
pub fn is_container(kind: u32) -> bool
    ensures { result ≡ is_container_type kind }
{
    matches!(
        kind,
        0x6d6f6f76 | 0x7472616b | 0x6d646961 | 0x6d696e66 | 0x7374626c
    )
}

/// Whether boxes of this type begin with a creation and a modification time: `mvhd`, `tkhd`, `mdhd`.
#[tactic(auto, unfolding(crate::specs::InitSections::has_times))]
pub fn has_times(kind: u32) -> bool
    ensures { result ≡ has_times_type kind }
{
    matches!(kind, 0x6d766864 | 0x746b6864 | 0x6d646864)
}

/// Whether it is a sample entry of video: `avc1`, `avc3`, `hvc1`, `hev1`, `av01`, `vp09`, `encv`.
#[tactic(auto, unfolding(crate::specs::InitSections::is_visual))]
pub fn is_visual(kind: u32) -> bool
    ensures { result ≡ is_visual_type kind }
{
    matches!(
        kind,
        0x61766331 | 0x61766333 | 0x68766331 | 0x68657631 | 0x61763031 | 0x76703039 | 0x656e6376
    )
}

/// Whether it is a sample entry of audio: `mp4a`, `ac-3`, `ec-3`, `Opus`, `fLaC`, `alac`, `enca`.
#[tactic(auto, unfolding(crate::specs::InitSections::is_audio))]
pub fn is_audio(kind: u32) -> bool
    ensures { result ≡ is_audio_type kind }
{
    matches!(
        kind,
        0x6d703461 | 0x61632d33 | 0x65632d33 | 0x4f707573 | 0x664c6143 | 0x616c6163 | 0x656e6361
    )
}

/// Where the boxes in a box of this type begin, or None if it has none that are compared on their own.
#[tactic(auto, unfolding(crate::specs::InitSections::boxes_at))]
pub fn boxes_at(kind: u32) -> Option<usize>
    ensures value { result ≡ boxes_by_type kind }
    ensures small { IfSome result (λ (at : ℕ). at ≤ 78) }
{
    if is_container(kind) {
        return Some(0);
    }
    if kind == STSD {
        return Some(8);
    }
    if is_visual(kind) {
        return Some(78);
    }
    if is_audio(kind) { Some(28) } else { None }
}
