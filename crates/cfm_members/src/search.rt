ghost use Rattle.std.specs.Prelude.{◌≡◌, ◌+◌, ◌<◌, ◌≤◌, ◌^◌, length, drop};
ghost use Rattle.cfm_members.specs.Search.{begins_container, containers_in};
ghost use Rattle.cfm_members.specs.Kept.Places.{SkipsTo, TestsFirst};

use crate::layout::{CONTAINER_HEADER_SIZE, CONTAINER_TAGS};
use memchr::memchr;

/// An iterator over the places in some bytes where a container begins: `Joy!peff` is there, and the 40 bytes of a container
/// header follow from there.
#[derive(Clone, Copy, Debug)]
pub struct Containers<'a> {
    rest: &'a [u8],
    /// Where the rest begins.
    offset: usize,
    ghost within: { offset + length rest.now < 2 ^ 63 },
}

impl<'a> Containers<'a> {
    ghost use Rattle.cfm_members.specs.Views.{places_left};

    /// Returns an iterator over the containers in some bytes.
    #[tactic(auto, using(crate::proofs::SearchLemmas::places_few))]
    pub fn new(bytes: &'a [u8]) -> Containers<'a>
        ensures places { places_left result ≡ containers_in bytes.entry.now 0 }
        ensures few { length (places_left result) ≤ length bytes.entry.now }
    {
        Containers {
            rest: bytes,
            offset: 0,
        }
    }
}

impl<'a> Iterator for Containers<'a> {
    ghost use Rattle.std.specs.Iterator.{YieldsFirst, item_count};
    ghost use Rattle.cfm_members.specs.Views.{places_left};

    type Item = usize;

    ghost next_gives = { YieldsFirst places_left };

    ghost remaining = { item_count places_left };

    fn next(&mut self) -> Option<usize> {
        'tags: loop {
            match first_tag(self.rest) {
                Some(at) => match self.test_at(at) {
                    Some(place) => return Some(place),
                    None => {}
                },
                None => {
                    let (none, _) = self.rest.split_at(0);
                    self.rest = none;
                    return None;
                }
            }
        }
    }
}

impl<'a> Containers<'a> {
    /// Moves on to the byte after the one at `at`, and returns the place of that one if a container begins there.
    fn test_at(&mut self, at: usize) -> Option<usize>
        requires { at < length self.old.rest.now }
        ensures value { TestsFirst (drop at self.old.rest.now) (self.old.offset + at) self.new.rest.now self.new.offset result }
        ensures shorter { length self.new.rest.now < length self.old.rest.now }
    {
        let (_, rest) = self.rest.split_at(at);
        let (_, others) = rest.split_at(1);
        let place = self.offset + at;
        *self = Containers {
            rest: others,
            offset: place + 1,
        };
        if begins_container(rest) {
            Some(place)
        } else {
            None
        }
    }
}

/// Returns the first place that has the first byte of a container's tags. No container begins before it.
///
/// `memmem` of the same crate would find all eight bytes at once, but it can own its needle, and what may free memory
/// isn't compiled for a browser.
fn first_tag(bytes: &[u8]) -> Option<usize>
    ensures { SkipsTo bytes.now result }
{
    memchr(CONTAINER_TAGS[0], bytes)
}

/// Returns whether some bytes begin with the tags of a container, and have the 40 bytes of its header.
pub(crate) fn begins_container(bytes: &[u8]) -> bool
    ensures { result ≡ begins_container bytes.now }
{
    bytes.len() >= CONTAINER_HEADER_SIZE && bytes[..8] == CONTAINER_TAGS[..]
}
