//! What the containers of a file leave to the ones after them.
ghost use Rattle.std.specs.Prelude.{◌≡◌, ◌+◌, ◌<◌, ◌^◌, length, nat_lt};
ghost use Rattle.cfm_members.specs.Contents.{all_from};
ghost use Rattle.mac_report.specs.Containers.{cost, file_limits, first_turn, headers_cost, loader_length, rest_for, turn_after};
ghost use Rattle.pef_views.specs.Partial.{partial_of};

use cfm_members::Contents;
use mac_rows::resource_rows;
use pef_inspect::{Limits, MAX_PACKED_BYTES, MAX_PROGRAM_BYTES, MAX_STEPS, MAX_WORDS, left_after};
use pef_views::PartialContainer;
use pef_words::Cut;

/// The budget of a file with few resources, besides its own length.
const BUDGET: u64 = 0x0400_0000;

/// How many rows of resources halve the budget.
const ROWS: u64 = 512;

/// What an inspection takes from the budget of its file, besides the bytes of the container's headers and its loader section.
const INSPECTION_COST: u64 = 0x2000;

/// The lengths of a container's header and of a section's header, and where the first has the number of sections.
const CONTAINER_HEADER_SIZE: u64 = 40;

const SECTION_HEADER_SIZE: u64 = 28;

const SECTION_COUNT_AT: usize = 32;

/// What the containers before one leave of a file's budget and its limits, and how many they are. The counts stay at the greatest
/// number of 64 bits.
#[derive(Clone, Copy, Debug)]
pub struct Turn {
    pub budget: u64,
    /// What may still be spent to verify containers.
    pub limits: Limits,
    pub containers: u64,
    /// How many of them weren't inspected, for want of a budget.
    pub skipped: u64,
}

impl Turn {
    /// Returns what is left for the first container of a file.
    pub fn first(bytes: &[u8]) -> Turn
        ensures { result ≡ first_turn bytes.now }
    {
        Turn {
            budget: BUDGET / (1 + resource_rows(bytes) / ROWS) + bytes.len() as u64,
            limits: file_limits(bytes),
            containers: 0,
            skipped: 0,
        }
    }

    /// Returns what is left after a container that begins these bytes, which are all that it can have.
    pub fn after(self, rest: &[u8]) -> Turn
        ensures { result ≡ turn_after self rest.now }
    {
        let containers = self.containers.saturating_add(1);
        if self.is_exceeded_by(rest) {
            return Turn {
                budget: 0,
                limits: self.limits,
                containers,
                skipped: self.skipped.saturating_add(1),
            };
        }
        Turn {
            budget: self.budget.saturating_sub(cost(rest)),
            limits: left_after(self.limits, rest),
            containers,
            skipped: self.skipped,
        }
    }

    /// Returns the bytes of a container at a place of a file. All that follow it are these if the budget is spent.
    #[tactic(auto, unfolding(crate::specs::Containers::rest_for))]
    pub fn rest<'a>(self, bytes: &'a [u8], place: usize) -> &'a [u8]
        ensures { result.now ≡ rest_for bytes.entry.now self place }
    {
        if self.is_spent() {
            all_from(bytes, place)
        } else {
            Contents::of(bytes).rest_from(place)
        }
    }

    /// Does the same in a file whose forks are known.
    #[tactic(auto, unfolding(crate::specs::Containers::rest_for))]
    pub(crate) fn rest_of<'a>(self, contents: &Contents<'a>, place: usize) -> &'a [u8]
        ensures { result.now ≡ rest_for contents.now.bytes.now self place }
    {
        if self.is_spent() {
            all_from(contents.bytes, place)
        } else {
            contents.rest_from(place)
        }
    }

    /// Returns whether too little of the budget is left for any container.
    fn is_spent(self) -> bool
        ensures { result ≡ nat_lt self.budget (2 ^ 13 + 40) }
    {
        self.budget < INSPECTION_COST + CONTAINER_HEADER_SIZE
    }

    /// Returns whether the inspection of a container costs more than what is left of the budget. The sections of a container are
    /// looked at if there is enough for their headers.
    #[tactic(auto, unfolding(crate::specs::Containers::cost))]
    pub(crate) fn is_exceeded_by(self, rest: &[u8]) -> bool
        ensures { result ≡ nat_lt self.budget (cost rest.now) }
    {
        if headers_cost(rest) > self.budget {
            return true;
        }
        cost(rest) > self.budget
    }
}

/// Returns all bytes from a place on.
fn all_from<'a>(bytes: &'a [u8], place: usize) -> &'a [u8]
    ensures { result.now ≡ all_from bytes.entry.now place }
{
    let (_, rest) = bytes.split_at(place.min(bytes.len()));
    rest
}

/// Returns the limits of a file. With its length they are enough for each file whose containers share no bytes and repeat
/// little. Words are kept while they are compared, each in about 40 bytes.
fn file_limits(bytes: &[u8]) -> Limits
    ensures { result ≡ file_limits (length bytes.now) }
{
    let len = bytes.len() as u64;
    Limits {
        program_bytes: MAX_PROGRAM_BYTES + len,
        steps: MAX_STEPS + len,
        packed_bytes: MAX_PACKED_BYTES + len,
        words: MAX_WORDS + len / 64,
    }
}

/// Returns what the inspection of the container that begins some bytes takes from the budget.
#[tactic(auto, unfolding(crate::specs::Containers::cost))]
fn cost(rest: &[u8]) -> u64
    ensures { result ≡ cost rest.now }
{
    headers_cost(rest) + loader_length(rest)
}

/// Returns what the inspection takes from the budget for the headers of the container and its sections.
#[tactic(auto, unfolding(crate::specs::Containers::headers_cost))]
fn headers_cost(rest: &[u8]) -> u64
    ensures value { result ≡ headers_cost rest.now }
    ensures small { result < 2 ^ 32 }
{
    let sections = Cut::new(rest).u16_at(SECTION_COUNT_AT).unwrap_or(0);
    INSPECTION_COST + CONTAINER_HEADER_SIZE + SECTION_HEADER_SIZE * u64::from(sections)
}

/// Returns the length of the loader section of the container that begins some bytes, as far as it is there.
fn loader_length(rest: &[u8]) -> u64
    ensures value { result ≡ loader_length (partial_of rest.now) }
    ensures small { result < 2 ^ 63 }
{
    match PartialContainer::read(rest) {
        Ok(container) => container.loader_bytes().len() as u64,
        Err(_) => 0,
    }
}
