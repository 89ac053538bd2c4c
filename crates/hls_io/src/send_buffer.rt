//! The output that waits to be sent.

ghost use Rattle.std.specs.Prelude.{◌≡◌, ◌≤◌, ◌==◌, [], ◌++◌, length, drop};
ghost use Rattle.bytes.specs.Unread.{IsChunkOf};
ghost use Rattle.hls_io.specs.HeadTexts.{bytes_of};

use crate::resource::Resource;
use crate::resource_range::ResourceRange;
use crate::small_slices::gather_slices;
use std::marker::Model;

/// A text.
#[derive(Drop)]
enum HeadText {
    /// A static text, which needs no memory.
    Fixed(&'static [u8]),
    /// An owned text.
    Owned(Vec<u8>),
}

impl HeadText {
    fn as_slice(&self) -> &[u8]
        ensures { result.now ≡ bytes_of self.now }
    {
        match self {
            HeadText::Fixed(text) => text,
            HeadText::Owned(text) => text.as_slice(),
        }
    }
}

/// A text, followed by at most one range of a resource. Contracts see the bytes that remain.
///
/// Small slices of the resource, of at most 16384 bytes, are copied after the text as far as its buffer has room for them, and into that
/// buffer after the text was sent, so that many are sent at once. A larger slice is sent as it is. Doesn't allocate.
#[derive(Drop)]
pub struct SendBuffer<R: Resource> {
    text: HeadText,
    /// The number of bytes of the text that were sent.
    sent: usize,
    media: Option<ResourceRange<R>>,
}

impl<R: Resource> Model for SendBuffer<R> {
    ghost use Rattle.std.specs.Prelude.{ℕ, ◌≤◌, List, [], ◌++◌, length, drop, unwrap_or};
    ghost use Rattle.hls_io.specs.HeadTexts.{bytes_of};

    ghost Value = { List ℕ };

    ghost view = { λ o. drop o.sent (bytes_of o.text) ++ unwrap_or o.media [] };

    ghost invariant = { λ o. o.sent ≤ length (bytes_of o.text) };
}

impl<R: Resource + Drop> SendBuffer<R> {
    /// Replaces the contents, which must be empty, by `next`.
    pub fn replace(&mut self, next: SendBuffer<R>)
        requires { length self.old ≡ 0 }
        ensures { self.new ≡ next }
    {
        *self = next;
    }
}

impl<R: Resource> SendBuffer<R> {
    /// An empty buffer.
    pub fn new() -> SendBuffer<R>
        ensures { result ≡ [] }
    {
        SendBuffer {
            text: HeadText::Fixed(b""),
            sent: 0,
            media: None,
        }
    }

    /// A static text.
    pub fn from_static(text: &'static [u8]) -> SendBuffer<R>
        ensures { result ≡ text.entry.now }
    {
        SendBuffer {
            text: HeadText::Fixed(text),
            sent: 0,
            media: None,
        }
    }

    /// An owned text.
    pub fn from_text(text: Vec<u8>) -> SendBuffer<R>
        ensures { result ≡ text.items }
    {
        SendBuffer {
            text: HeadText::Owned(text),
            sent: 0,
            media: None,
        }
    }

    /// A text, followed by a range of a resource. The spare capacity of the text is the room for small slices.
    pub fn from_range(text: Vec<u8>, media: ResourceRange<R>) -> SendBuffer<R>
        ensures { result ≡ text.items ++ media }
    {
        let mut text = text;
        let mut media = media;
        gather_slices(&mut text, &mut media);
        SendBuffer {
            text: HeadText::Owned(text),
            sent: 0,
            media: Some(media),
        }
    }

    /// Whether no bytes remain.
    pub fn is_empty(&self) -> bool
        ensures { result ≡ (length self.now == 0) }
    {
        if self.sent < self.text.as_slice().len() {
            return false;
        }
        match &self.media {
            None => true,
            Some(media) => media.is_empty(),
        }
    }

    /// The next bytes.
    pub fn chunk(&self) -> &[u8]
        ensures { IsChunkOf result.now self.now }
    {
        let text = self.text.as_slice();
        if self.sent < text.len() {
            return &text[self.sent..];
        }
        match &self.media {
            Some(media) => media.chunk(),
            None => b"",
        }
    }

    /// Removes the first `count` bytes.
    pub fn advance(&mut self, count: usize)
        requires { count ≤ length self.old }
        ensures { self.new ≡ drop count self.old }
    {
        let unsent = self.text.as_slice().len() - self.sent;
        if count < unsent {
            self.sent += count;
            return;
        }
        let Some(media) = &mut self.media else {
            self.sent += count;
            return;
        };
        media.advance((count - unsent) as u64);
        match &mut self.text {
            HeadText::Fixed(text) => self.sent = text.len(),
            HeadText::Owned(text) => {
                text.clear();
                gather_slices(text, media);
                self.sent = 0;
            }
        }
    }
}
