//! Compares values without allocating; used only by `follows`.

ghost use Rattle.std.specs.Prelude.{◌≡◌, ◌↔◌, IsTrue, length, take};
ghost use Rattle.hls_blocks.specs.Numbered.{Numbered};

use crate::config::Config;
use crate::snapshot::{entry_at, entry_count};
use hls_blocks::Shared;
use hls_core_laws::event::{Entry, LoggedEvent};
use hls_core_laws::rendition::Rendition;
use hls_media_laws::init::Init;
use hls_media_laws::track::Track;

pub(crate) fn same_config(a: &Config, b: &Config) -> bool
    ensures { IsTrue result ↔ (a.now ≡ b.now) }
{
    a.target() == b.target()
        && a.preferred() == b.preferred()
        && same_renditions(a.renditions(), b.renditions())
        && a.epoch() == b.epoch()
        && a.base().equals(b.base())
}

fn same_renditions(a: &[Rendition], b: &[Rendition]) -> bool
    ensures { IsTrue result ↔ (a.now ≡ b.now) }
{
    if a.len() != b.len() {
        return false;
    }
    for i in 0..a.len() {
        if !same_rendition(&a[i], &b[i]) {
            return false;
        }
    }
    true
}

fn same_rendition(a: &Rendition, b: &Rendition) -> bool
    ensures { IsTrue result ↔ (a.now ≡ b.now) }
{
    a.name == b.name
        && a.video == b.video
        && a.bandwidth == b.bandwidth
        && a.tolerance == b.tolerance
}

/// Whether the first log is a prefix of the second.
pub(crate) fn is_prefix(a: &Shared<Entry>, b: &Shared<Entry>) -> bool
    requires first { a.now.first ≡ 0 }
    requires other { b.now.first ≡ 0 }
    ensures { IsTrue result ↔ (take (length a.now.items) b.now.items ≡ a.now.items) }
{
    if entry_count(b) < entry_count(a) {
        return false;
    }
    for n in 0..entry_count(a) {
        let Some(x) = entry_at(a, n) else {
            unreachable!()
        };
        let Some(y) = entry_at(b, n) else {
            unreachable!()
        };
        if !same_entry(x, y) {
            return false;
        }
    }
    true
}

fn same_entry(a: &Entry, b: &Entry) -> bool
    ensures { IsTrue result ↔ (a.now ≡ b.now) }
{
    a.by == b.by && same_logged_event(&a.event, &b.event)
}

fn same_logged_event(a: &LoggedEvent, b: &LoggedEvent) -> bool
    ensures { IsTrue result ↔ (a.now ≡ b.now) }
{
    match (a, b) {
        (
            LoggedEvent::Begun {
                rendition: r,
                init: x,
                len: n,
            },
            LoggedEvent::Begun {
                rendition: s,
                init: y,
                len: m,
            },
        ) => *r == *s && same_init(x, y) && *n == *m,
        (
            LoggedEvent::Accepted {
                rendition: r,
                facts: f,
            },
            LoggedEvent::Accepted {
                rendition: s,
                facts: g,
            },
        ) => *r == *s && *f == *g,
        (LoggedEvent::Finished { rendition: r }, LoggedEvent::Finished { rendition: s }) => *r
            == *s,
        (LoggedEvent::Slid { count: n }, LoggedEvent::Slid { count: m }) => *n == *m,
        (
            LoggedEvent::Trimmed {
                rendition: r,
                floor: n,
            },
            LoggedEvent::Trimmed {
                rendition: s,
                floor: m,
            },
        ) => *r == *s && *n == *m,
        _ => false,
    }
}

fn same_init(a: &Init, b: &Init) -> bool
    ensures { IsTrue result ↔ (a.now ≡ b.now) }
{
    a.timing() == b.timing() && same_tracks(a.tracks(), b.tracks())
}

fn same_tracks(a: &[Track], b: &[Track]) -> bool
    ensures { IsTrue result ↔ (a.now ≡ b.now) }
{
    if a.len() != b.len() {
        return false;
    }
    for i in 0..a.len() {
        if !same_track(&a[i], &b[i]) {
            return false;
        }
    }
    true
}

fn same_track(a: &Track, b: &Track) -> bool
    ensures { IsTrue result ↔ (a.now ≡ b.now) }
{
    *a == *b
}
