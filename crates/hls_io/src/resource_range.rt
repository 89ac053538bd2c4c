//! A range of a resource, whose front may already have been sent.

ghost use Rattle.std.specs.{Prelude.{◌≡◌, ◌+◌, ◌<◌, ◌≤◌, ◌==◌, ◌^◌, [], length, take, drop, get_or}, List.concat};
ghost use Rattle.bytes.specs.Unread.{IsChunkOf};
ghost use Rattle.hls_io.specs.Slices.{part_at, rest_at};

use crate::resource::Resource;
use std::marker::Model;

/// A range of a resource: the given number of bytes from a position in its slices. Contracts see the bytes that remain.
///
/// It continues from one slice to the next by their numbers, without a search.
#[derive(Drop)]
pub struct ResourceRange<R: Resource> {
    resource: R,
    /// The number of the slice that contains the next byte.
    number: u64,
    /// The offset of the next byte in that slice.
    within: u64,
    /// The length of that slice.
    len: u64,
    /// The number of bytes that remain.
    left: u64,
}

impl<R: Resource> Model for ResourceRange<R> {
    ghost use Rattle.std.specs.Prelude.{ℕ, List};
    ghost use Rattle.hls_io.specs.Slices.{IsPosition, part_at};

    ghost Value = { List ℕ };

    ghost view = { λ m. part_at (R.slices m.resource) m.number m.within m.left };

    ghost invariant = { λ m. IsPosition (R.slices m.resource) m.number m.within m.len m.left };
}

/// The first `most` bytes, or all.
fn take_front(bytes: &[u8], most: u64) -> &[u8]
    ensures { result.now ≡ take most bytes.entry.now }
{
    if most < bytes.len() as u64 {
        &bytes[..most as usize]
    } else {
        bytes
    }
}

/// The position of a byte that is given relative to an earlier slice, whose length is `len`: the number of the byte's slice, the offset in
/// it, and the slice's length. Slices that end before the byte, or are empty, are skipped.
fn locate_byte<R: Resource>(resource: &R, number: u64, within: u64, len: u64) -> (u64, u64, u64)
    requires enough { within < length (concat (drop number (R.slices resource.now))) }
    requires slice_len { len ≡ length (get_or (R.slices resource.now) number []) }
    requires few { length (R.slices resource.now) < 2 ^ 64 }
    ensures rest { rest_at (R.slices resource.now) result.0 result.1 ≡ rest_at (R.slices resource.now) number within }
    ensures inside { result.1 < result.2 }
    ensures slice_len { result.2 ≡ length (get_or (R.slices resource.now) result.0 []) }
    ensures back { result.1 ≤ within }
{
    let mut number = number;
    let mut within = within;
    let mut len = len;
    while len <= within {
        within -= len;
        number += 1;
        len = resource.slice(number).len() as u64;
    }
    (number, within, len)
}

impl<R: Resource> ResourceRange<R> {
    /// The range of `len` bytes from a position: the number of a slice, and the offset in it.
    pub fn new(resource: R, number: u64, within: u64, len: u64) -> ResourceRange<R>
        requires room { within + len < 2 ^ 64 }
        requires enough { len ≤ length (rest_at (R.slices resource) number within) }
        ensures { result ≡ part_at (R.slices resource) number within len }
    {
        if len == 0 {
            return ResourceRange {
                resource,
                number,
                within,
                len: 0,
                left: 0,
            };
        }
        let slice_len = resource.slice(number).len() as u64;
        let (number, within, slice_len) = locate_byte(&resource, number, within, slice_len);
        ResourceRange {
            resource,
            number,
            within,
            len: slice_len,
            left: len,
        }
    }

    /// The number of bytes that remain.
    pub fn len(&self) -> u64
        ensures { result ≡ length self.now }
    {
        self.left
    }

    /// Whether no bytes remain.
    pub fn is_empty(&self) -> bool
        ensures { result ≡ (length self.now == 0) }
    {
        self.left == 0
    }

    /// The next bytes, up to the end of their slice.
    pub fn chunk(&self) -> &[u8]
        ensures { IsChunkOf result.now self.now }
    {
        if self.left == 0 {
            return b"";
        }
        let slice = self.resource.slice(self.number);
        take_front(&slice[self.within as usize..], self.left)
    }

    /// Removes the first `count` bytes.
    pub fn advance(&mut self, count: u64)
        requires { count ≤ length self.old }
        ensures { self.new ≡ drop count self.old }
    {
        self.left -= count;
        if self.left > 0 {
            let (number, within, len) = locate_byte(
                &self.resource,
                self.number,
                self.within + count,
                self.len,
            );
            self.number = number;
            self.within = within;
            self.len = len;
        }
    }
}
