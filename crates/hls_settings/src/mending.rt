//! How far units are mended.
ghost use Rattle.std.specs.Prelude.{◌≡◌, map};
ghost use Rattle.hls_settings.specs.Settings.{mending_of, text_of, wait_of};
ghost use Rattle.hls_settings.specs.ReadSettings.{tolerant, with_tolerance};

use crate::cut_options::is_set;
use crate::fault::SettingsFault;
use crate::number::number_or_default;
use hls_core_laws::rendition::Rendition;
use hls_mend_laws::settings::MendSettings;

/// Reads whether units are mended, and how far, with the defaults. If they aren't, none of the other options may be given.
pub fn read_mending(
    mend: Option<&str>,
    snap: Option<&str>,
    fill: Option<&str>,
    wait: Option<&str>,
) -> Result<Option<MendSettings>, SettingsFault>
    ensures { result ≡ mending_of (text_of mend.entry) (text_of snap.entry) (text_of fill.entry) (text_of wait.entry) }
{
    let Some(snap_us) = number_or_default(0, 250_000, 5000, snap) else {
        return Err(SettingsFault::Snap);
    };
    let Some(fill_us) = number_or_default(0, 3_600_000_000, 10_000_000, fill) else {
        return Err(SettingsFault::Fill);
    };
    if !is_set(mend) {
        return if snap.is_some() || fill.is_some() || wait.is_some() {
            Err(SettingsFault::Unmended)
        } else {
            Ok(None)
        };
    }
    Ok(Some(MendSettings {
        snap_us: snap_us as u32,
        fill_us: fill_us as u32,
    }))
}

/// Reads for how long nothing may be heard of an encoder before its rendition is filled, in seconds, with the default.
pub fn read_wait(text: Option<&str>) -> Option<u32>
    ensures { result ≡ wait_of (text_of text.entry) }
{
    let seconds = number_or_default(1, 3600, 5, text)?;
    Some(seconds as u32)
}

/// Raises the tolerance of a rendition to at least this many microseconds.
fn raise_tolerance(rendition: &mut Rendition, least: u64)
    ensures { rendition.new ≡ with_tolerance least rendition.old }
{
    rendition.tolerance = rendition.tolerance.max(least);
}

fn raise_all(renditions: &mut [Rendition], least: u64)
    ensures { renditions.new ≡ map (with_tolerance least) renditions.old }
{
    for rendition in renditions.iter_mut() {
        raise_tolerance(rendition, least);
    }
}

/// Raises the tolerances of all renditions but the first to twice the distance by which starts are moved: two that are moved in opposite
/// directions would have no boundary in common otherwise.
pub fn raise_tolerances(mending: Option<MendSettings>, renditions: &mut [Rendition])
    ensures { renditions.new ≡ tolerant mending renditions.old }
{
    let Some(settings) = mending else {
        return;
    };
    if !renditions.is_empty() {
        raise_all(&mut renditions[1..], 2 * u64::from(settings.snap_us));
    }
}
