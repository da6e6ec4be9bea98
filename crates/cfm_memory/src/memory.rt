ghost use Rattle.std.specs.Prelude.{◌≡◌, ℕ, ◌+◌, ◌*◌, ◌/◌, ◌^◌, ◌<◌, ◌≤◌, [], insert, length, leb, map, take, IfOk, IfSome, MatchOption, IsTrue, OnOk, OnSome, Some, false, true};
ghost use Rattle.std.specs.Option.{IfNone, option_copied};
ghost use Rattle.std.specs.Result.{IfErr, OnErr};
ghost use Rattle.std.specs.Borrow.{sem};
ghost use Rattle.cfm_memory.specs.Extents.{empty_memory, no_instances};
ghost use Rattle.cfm_memory.specs.Instances.{bytes_at, holds_place, range_at, with_instances, without};
ghost use Rattle.cfm_memory.specs.Lending.{LendsPart};
ghost use Rattle.cfm_memory.specs.Limits.{first_address, greatest_alignment};
ghost use Rattle.cfm_memory.specs.Placement.{taken, AreClear, AreInTurn, IsClear, IsFree, IsInOrder, IsLowest, IsRoom, MayRefuse, MayRefuseAt, with_image, with_new};
ghost use Rattle.cfm_memory.specs.Reservation.{IsNoRange, IsVacant, MayNotReserve, Reserves, Unreserves, reserved_range, with_range};
ghost use Rattle.cfm_memory.specs.declared.place.MemoryFault.TheVariants.{OutOfMemory};
ghost use Rattle.pef_words.specs.Bytes.{filled};
ghost use Rattle.cfm_memory.specs.Kept.Searches.{AllPassed, IsBarren, IsFirstFree, IsFirstVacant, IsPast, part_of, range_number};

use crate::granule::{Granule, step_by, taken_by};
use crate::hints::{FIRST_ADDRESS, Hint, Hints};
use crate::place::{MemoryFault, Place, Reserved};
use std::alloc::{AllocError, Global};
use std::collections::BTreeMap;
use std::fmt;
use std::marker::Model;

/// The ends of reserved ranges are multiples of this.
const GRAIN: u64 = 16;

/// The address after the last one.
const GREATEST_END: u64 = 1 << 32;

/// Memory that holds instances of sections, each at an address of its own.
///
/// Addresses have 32 bits, and sizes count bytes.
#[derive(Drop)]
pub struct Memory {
    alloc: Global,
    granule: Granule,
    limit: u32,
    /// Where the last searches for room ended.
    hints: Hints,
    /// The readable bytes of the instances, by their addresses.
    instances: BTreeMap<u32, Vec<u8>>,
    /// The reserved ranges, in the order of their addresses.
    reserved: Vec<Reserved>,
}

impl Model for Memory {
    ghost use Rattle.cfm_memory.specs.Instances.{Layout};

    ghost Value = { Layout };

    ghost use Rattle.std.specs.Prelude.{map};
    ghost use Rattle.cfm_memory.specs.Kept.Searches.{IsKept};
    ghost use Rattle.cfm_memory.specs.Views.{instance_seen, layout};

    ghost view = { layout };

    ghost invariant = { λ m. IsKept m.granule.bytes m.limit (map instance_seen m.instances.entries) m.reserved.items m.hints.rows };
}

/// Prints the limit and the number of instances, without their bytes.
impl fmt::Debug for Memory {
    fn fmt<W: fmt::Write>(&self, f: &mut fmt::Formatter<W>) -> fmt::Result {
        f.debug_struct("Memory")
            .field("limit", &self.limit)
            .field("instances", &self.instances.len())
            .finish()
    }
}

impl Memory {
    /// Returns memory without instances and reserved ranges, in which none may exceed the address `limit`.
    pub fn new(alloc: Global, limit: u32) -> Memory
        ensures { result ≡ no_instances limit }
    {
        Memory::with_granule(alloc, limit, Granule::least())
    }

    /// Returns memory without instances and reserved ranges. None may exceed the address `limit`. Each instance begins at
    /// a multiple of the granule, and takes a multiple of it.
    pub fn with_granule(alloc: Global, limit: u32, granule: Granule) -> Memory
        ensures { result ≡ empty_memory granule.bytes limit }
    {
        Memory {
            alloc,
            granule,
            limit,
            hints: Hints::new(),
            instances: BTreeMap::new(alloc),
            reserved: Vec::new(alloc),
        }
    }

    /// Returns the granule: instances begin at multiples of it, and take multiples of it.
    pub fn granule(&self) -> Granule
        ensures { result.bytes ≡ self.now.granule }
    {
        self.granule
    }

    /// Places a new instance of `size` zero bytes at the lowest address that has room for it.
    ///
    /// An instance takes at least one byte, rounded up to a multiple of the granule. Its address is a multiple
    /// of the granule and of 2^`alignment`, from 00010000 (hex) on. `alignment` is an exponent of two, at most
    /// 31, as in a section header.
    ///
    /// # Errors
    ///
    /// `NoRoom` if no address has room below the limit; otherwise `OutOfMemory` if an allocation
    /// fails. Neither changes the memory.
    #[tactic(auto, using(crate::proofs::Changes::in_order_seen))]
    pub fn place(&mut self, size: u32, alignment: u8) -> Result<Place, MemoryFault>
        requires { alignment ≤ greatest_alignment }
        ensures lowest { IfOk result (λ place. IsLowest self.old size alignment place.address) }
        ensures size { IfOk result (λ place. place.size ≡ size) }
        ensures placed { IfOk result (λ place. self.new ≡ with_new self.old place) }
        ensures refused { IfErr result (λ fault. MayRefuse self.old size alignment fault) }
        ensures unchanged { OnErr result (self.new ≡ self.old) }
        ensures in_order { IsInOrder self.old }
    {
        self.place_image(size, alignment, &[])
    }

    /// Places a new instance of `size` bytes as [`place`](Self::place) does. It begins with an image, which has at most `size`
    /// bytes, and zeros follow.
    ///
    /// # Errors
    ///
    /// Those of `place`.
    #[tactic(auto, using(crate::proofs::Changes::in_order_seen))]
    pub fn place_image(
        &mut self,
        size: u32,
        alignment: u8,
        image: &[u8],
    ) -> Result<Place, MemoryFault>
        requires alignment { alignment ≤ greatest_alignment }
        requires image { length image.now ≤ size }
        ensures lowest { IfOk result (λ place. IsLowest self.old size alignment place.address) }
        ensures size { IfOk result (λ place. place.size ≡ size) }
        ensures placed { IfOk result (λ place. self.new ≡ with_image self.old place image.now) }
        ensures refused { IfErr result (λ fault. MayRefuse self.old size alignment fault) }
        ensures unchanged { OnErr result (self.new ≡ self.old) }
        ensures in_order { IsInOrder self.old }
    {
        let address = match self.lowest_room(size, alignment) {
            Some(address) => address,
            None => return Err(MemoryFault::NoRoom),
        };
        self.put(size, alignment, address, image)
    }

    /// Places a new instance of `size` zero bytes at an address that is given.
    ///
    /// The instance takes as many bytes as one that [`place`](Self::place) places, and its address has to be one that the
    /// other could get.
    ///
    /// # Errors
    ///
    /// `NoRoom` if the address is below 00010000 (hex), or isn't a multiple of the granule and of 2^`alignment`, or the
    /// instance would pass the limit, or meet another one or a reserved range; otherwise `OutOfMemory` if an allocation
    /// fails. Neither changes the memory.
    pub fn place_at(&mut self, size: u32, alignment: u8, address: u32) -> Result<Place, MemoryFault>
        requires { alignment ≤ greatest_alignment }
        ensures room { OnOk result (IsRoom self.old size alignment address) }
        ensures here { IfOk result (λ place. place ≡ record { address = address; size = size }) }
        ensures placed { IfOk result (λ place. self.new ≡ with_new self.old place) }
        ensures refused { IfErr result (λ fault. MayRefuseAt self.old size alignment address fault) }
        ensures unchanged { OnErr result (self.new ≡ self.old) }
    {
        self.place_image_at(size, alignment, address, &[])
    }

    /// Places a new instance of `size` bytes as [`place_at`](Self::place_at) does. It begins with an image, which has at most `size`
    /// bytes, and zeros follow.
    ///
    /// # Errors
    ///
    /// Those of `place_at`.
    pub fn place_image_at(
        &mut self,
        size: u32,
        alignment: u8,
        address: u32,
        image: &[u8],
    ) -> Result<Place, MemoryFault>
        requires alignment { alignment ≤ greatest_alignment }
        requires image { length image.now ≤ size }
        ensures room { OnOk result (IsRoom self.old size alignment address) }
        ensures here { IfOk result (λ place. place ≡ record { address = address; size = size }) }
        ensures placed { IfOk result (λ place. self.new ≡ with_image self.old place image.now) }
        ensures refused { IfErr result (λ fault. MayRefuseAt self.old size alignment address fault) }
        ensures unchanged { OnErr result (self.new ≡ self.old) }
    {
        if !self.has_room(size, alignment, address) {
            return Err(MemoryFault::NoRoom);
        }
        self.put(size, alignment, address, image)
    }

    /// Returns whether an address has room for an instance of `size` bytes.
    fn has_room(&self, size: u32, alignment: u8, address: u32) -> bool
        requires { alignment ≤ greatest_alignment }
        ensures yes { result ≡ true → IsRoom self.now size alignment address }
        ensures no { result ≡ false → IsRoom self.now size alignment address → ⊥ }
    {
        let from = u64::from(address);
        let range = Reserved {
            from,
            to: from + taken_by(self.granule, u64::from(size)),
        };
        from >= FIRST_ADDRESS
            && from % step_by(self.granule, alignment) == 0
            && range.to <= u64::from(self.limit)
            && self.is_free(range)
            && rank_of(&self.reserved, range).is_some()
    }

    /// Puts a new instance of `size` bytes, an image and zeros, at an address that has room for it.
    #[tactic(auto, using(crate::proofs::Changes::in_order_seen))]
    fn put(
        &mut self,
        size: u32,
        alignment: u8,
        address: u32,
        image: &[u8],
    ) -> Result<Place, MemoryFault>
        requires room { IsRoom self.old size alignment address }
        requires image { length image.now ≤ size }
        ensures here { IfOk result (λ place. place ≡ record { address = address; size = size }) }
        ensures placed { IfOk result (λ place. self.new ≡ with_image self.old place image.now) }
        ensures refused { IfErr result (λ fault. fault ≡ OutOfMemory) }
        ensures unchanged { OnErr result (self.new ≡ self.old) }
        ensures in_order { IsInOrder self.old }
    {
        let bytes = filled(self.alloc, image, size as usize)?;
        self.instances.insert(address, bytes)?;
        Ok(Place { address, size })
    }

    /// Returns the lowest address that has room for an instance of `size` bytes.
    #[tactic(auto, using(crate::proofs::Changes::in_order_seen))]
    fn lowest_room(&mut self, size: u32, alignment: u8) -> Option<u32>
        requires { alignment ≤ greatest_alignment }
        ensures lowest { MatchOption result ((address : ℕ) → IsRoom self.old size alignment address → ⊥) (λ address. IsLowest self.old size alignment address) }
        ensures same { self.new ≡ self.old }
        ensures in_order { IsInOrder self.old }
    {
        let taken = taken_by(self.granule, u64::from(size));
        let step = step_by(self.granule, alignment);
        // Holes that are too small for half as much are passed once for all sizes of this class.
        self.search(class_of(taken), step);
        let address = self.search(taken, step);
        if address + taken > u64::from(self.limit) {
            return None;
        }
        Some(address as u32)
    }

    /// Returns the lowest multiple of `step` from which `taken` bytes meet no instance and no reserved range, and remembers
    /// it for the next search.
    fn search(&mut self, taken: u64, step: u64) -> u64
        requires taken { (0 < taken) × (taken ≤ 2 ^ 33) }
        requires step { (0 < step) × (step ≤ 2 ^ 32) }
        ensures first { IsFirstVacant self.old.granule taken step first_address self.old.instances self.old.reserved result }
        ensures bound { result < 2 ^ 33 }
        ensures same { self.new ≡ self.old }
    {
        let from = self.past_instance(self.hints.start(taken, step));
        let address = self.first_vacant(from, taken, step);
        self.hints.keep(Hint {
            from: address.min(GREATEST_END),
            taken,
            step,
        });
        address
    }

    /// Returns the first address from `from` on across which no instance lies.
    fn past_instance(&self, from: u64) -> u64
        requires { from ≤ 2 ^ 32 }
        ensures past { IsPast self.now.granule from self.now.instances result }
        ensures bound { result ≤ 2 ^ 32 }
    {
        if from > u64::from(self.limit) {
            return from;
        }
        match self.instances.range(..=from as u32).next_back() {
            Some((start, bytes)) => {
                from.max(u64::from(*start) + taken_by(self.granule, bytes.len() as u64))
            }
            None => from,
        }
    }

    /// Returns the lowest multiple of `step` from which `taken` bytes meet no instance and no reserved range. None may be
    /// below `from`, and no instance may lie across it.
    fn first_vacant(&self, from: u64, taken: u64, step: u64) -> u64
        requires from { (first_address ≤ from) × (from ≤ 2 ^ 32) }
        requires barren { IsBarren self.now.granule self.now.instances self.now.reserved (record { from = from; taken = taken; step = step }) }
        requires between { IsFree self.now.granule from from self.now.instances }
        requires taken { (0 < taken) × (taken ≤ 2 ^ 33) }
        requires step { (0 < step) × (step ≤ 2 ^ 32) }
        ensures first { IsFirstVacant self.now.granule taken step first_address self.now.instances self.now.reserved result }
        ensures bound { result < 2 ^ 33 }
    {
        let passed = passed_by(&self.reserved, from);
        let (_, ranges) = self.reserved.split_at(passed);
        self.vacant_among(ranges, from, taken, step)
    }

    /// Returns the lowest multiple of `step` from `from` on from which `taken` bytes meet no instance and none of some
    /// ranges. No instance may lie across `from`.
    fn vacant_among(&self, ranges: &[Reserved], from: u64, taken: u64, step: u64) -> u64
        requires in_turn { AreInTurn 0 ranges.now }
        requires clear { AreClear self.now.granule self.now.instances ranges.now }
        requires from { from ≤ 2 ^ 32 }
        requires between { IsFree self.now.granule from from self.now.instances }
        requires taken { (0 < taken) × (taken ≤ 2 ^ 33) }
        requires step { (0 < step) × (step ≤ 2 ^ 32) }
        ensures first { IsFirstVacant self.now.granule taken step from self.now.instances ranges.now result }
        ensures bound { result < 2 ^ 33 }
    {
        let mut address = self.first_free(from, taken, step);
        for range in ranges {
            if address + taken <= range.from {
                return address;
            }
            if address < range.to {
                address = self.first_free(range.to, taken, step);
            }
        }
        address
    }

    /// Returns the lowest multiple of `step` from `from` on at which `taken` bytes overlap no instance. No instance may
    /// lie across `from`.
    fn first_free(&self, from: u64, taken: u64, step: u64) -> u64
        requires from { from ≤ 2 ^ 32 }
        requires between { IsFree self.now.granule from from self.now.instances }
        requires taken { (0 < taken) × (taken ≤ 2 ^ 33) }
        requires step { (0 < step) × (step ≤ 2 ^ 32) }
        ensures first { IsFirstFree self.now.granule taken step from self.now.instances result }
        ensures bound { result < 2 ^ 33 }
    {
        let mut address = from.next_multiple_of(step);
        if from > u64::from(self.limit) {
            return address;
        }
        for (start, bytes) in self.instances.range(from as u32..) {
            let start = u64::from(*start);
            if address + taken <= start {
                return address;
            }
            let end = start + taken_by(self.granule, bytes.len() as u64);
            address = address.max(end.next_multiple_of(step));
        }
        address
    }

    /// Takes `size` addresses from `address` on out of use, until they are given back by [`unreserve`](Self::unreserve). No
    /// instance is placed there.
    ///
    /// The range begins at the multiple of 16 at or below `address`, and ends at the one at or above its end. If `size` is
    /// 0, nothing is taken.
    ///
    /// # Errors
    ///
    /// `NoRoom` if the range meets the addresses that an instance takes, or another range, or passes the last address.
    /// Otherwise `OutOfMemory` if an allocation fails. Neither changes the memory.
    pub fn reserve(&mut self, address: u32, size: u32) -> Result<(), MemoryFault>
        ensures reserved { OnOk result (Reserves self.old address size self.new) }
        ensures refused { IfErr result (λ fault. MayNotReserve self.old address size fault) }
        ensures unchanged { OnErr result (self.new ≡ self.old) }
    {
        if size == 0 {
            return Ok(());
        }
        let range = rounded(address, size);
        if range.to > GREATEST_END || !self.is_free(range) {
            return Err(MemoryFault::NoRoom);
        }
        let Some(rank) = rank_of(&self.reserved, range) else {
            return Err(MemoryFault::NoRoom);
        };
        self.reserved.insert(rank, range)?;
        Ok(())
    }

    /// Gives a reserved range back: instances can be placed there again. Returns whether there was one.
    ///
    /// It is exactly the range that [`reserve`](Self::reserve) takes out of use for the same numbers. If the addresses aren't
    /// such a range, also if they are a part of one or several, nothing changes. If `size` is 0, nothing changes, and the
    /// answer is `true`.
    pub fn unreserve(&mut self, address: u32, size: u32) -> bool
        ensures freed { result ≡ true → Unreserves self.old address size self.new }
        ensures refused { result ≡ false → IsNoRange self.old address size × (self.new ≡ self.old) }
    {
        if size == 0 {
            return true;
        }
        let range = rounded(address, size);
        let Some(number) = number_of(&self.reserved, range) else {
            return false;
        };
        self.reserved.remove(number);
        self.hints.lower(range.from);
        true
    }

    /// Returns whether no instance takes an address of a range.
    fn is_free(&self, range: Reserved) -> bool
        requires some { range.from < range.to }
        requires inside { range.to ≤ 2 ^ 32 }
        ensures yes { result ≡ true → IsFree self.now.granule range.from range.to self.now.instances }
        ensures no { result ≡ false → IsFree self.now.granule range.from range.to self.now.instances → ⊥ }
    {
        let last = (range.to - 1) as u32;
        match self.instances.range(..=last).next_back() {
            Some((start, bytes)) => {
                u64::from(*start) + taken_by(self.granule, bytes.len() as u64) <= range.from
            }
            None => true,
        }
    }

    /// Returns whether an instance has exactly this address and size.
    #[tactic(auto, using(crate::proofs::Changes::in_order_seen))]
    pub fn holds(&self, place: Place) -> bool
        ensures held { result ≡ holds_place self.now place }
        ensures clear { result ≡ true → IsClear place.address (place.address + taken self.now.granule place.size) self.now.reserved }
        ensures in_order { IsInOrder self.now }
    {
        match self.instances.get(&place.address) {
            Some(bytes) => bytes.len() == place.size as usize,
            None => false,
        }
    }

    /// Returns the bytes of the instance at `place`.
    #[tactic(auto, using(crate::proofs::Changes::in_order_seen))]
    pub fn part(&self, place: Place) -> &[u8]
        requires { IsTrue (holds_place self.now place) }
        ensures bytes { bytes_at self.now.instances place.address ≡ Some result.now }
        ensures len { length result.now ≡ place.size }
        ensures in_order { IsInOrder self.now }
    {
        self.instances[&place.address].as_slice()
    }

    /// Returns the bytes of the instance at `place`, to be written. The bytes of all others are
    /// unchanged.
    pub fn part_mut(&mut self, place: Place) -> &mut [u8]
        requires { IsTrue (holds_place self.old place) }
        ensures* writes_back { sem 𝓛 (LendsPart self.entry place.address result) }
        ensures bytes { bytes_at self.old.instances place.address ≡ Some result.now }
        ensures len { length result.now ≡ place.size }
    {
        let bytes = self.instances.get_mut(&place.address).unwrap();
        bytes.as_mut_slice()
    }

    /// Removes the instance at `place`. The addresses and bytes of all others are unchanged.
    #[tactic(auto, using(crate::proofs::Changes::in_order_seen))]
    pub fn give_back(&mut self, place: Place)
        requires { IsTrue (holds_place self.old place) }
        ensures given_back { self.new ≡ with_instances self.old (without self.old.instances place.address) }
        ensures in_order { IsInOrder self.old }
    {
        self.instances.remove(&place.address);
        self.hints.lower(u64::from(place.address));
    }

    /// Returns the `len` bytes from `address` on, or `None` if they don't lie inside one instance. An
    /// empty range may also be at an instance's end. No address inside a reserved range has bytes.
    #[tactic(auto, using(crate::proofs::Changes::in_order_seen))]
    pub fn at(&self, address: u32, len: u32) -> Option<&[u8]>
        ensures range { option_copied result ≡ range_at self.now.instances address len }
        ensures clear { OnSome result (IsClear address (address + len) self.now.reserved) }
        ensures in_order { IsInOrder self.now }
    {
        let (start, bytes) = self.instances.range(..=address).next_back()?;
        range_of(bytes, address - *start, len)
    }
}

/// Returns how many of some ranges, which lie in the order of their addresses, end up to an address.
fn passed_by(ranges: &[Reserved], address: u64) -> usize
    requires { AreInTurn 0 ranges.now }
    ensures inside { result ≤ length ranges.now }
    ensures passed { AllPassed address (take result ranges.now) }
{
    ranges.partition_point(
        |range: &Reserved| -> bool
            ensures { result ≡ leb range.now.to address }
        { range.to <= address },
    )
}

/// Returns the greatest power of two up to a number of bytes.
fn class_of(taken: u64) -> u64
    requires { (0 < taken) × (taken ≤ 2 ^ 33) }
    ensures { (0 < result) × (result ≤ 2 ^ 33) }
{
    (taken / 2 + 1).next_power_of_two().min(taken)
}

/// Returns the range that `size` bytes from `address` on take.
#[tactic(auto, unfolding(crate::specs::Reservation::reserved_range))]
fn rounded(address: u32, size: u32) -> Reserved
    requires { 0 < size }
    ensures range { result ≡ reserved_range address size }
    ensures some { result.from < result.to }
    ensures bound { result.to < 2 ^ 34 }
{
    let address = u64::from(address);
    Reserved {
        from: address - address % GRAIN,
        to: (address + u64::from(size)).next_multiple_of(GRAIN),
    }
}

/// Returns how many of some ranges, which lie in the order of their addresses, end before another one. `None` if one of
/// them meets it.
fn rank_of(ranges: &[Reserved], range: Reserved) -> Option<usize>
    requires in_turn { AreInTurn 0 ranges.now }
    requires some { range.from < range.to }
    ensures inside { IfSome result (λ rank. rank ≤ length ranges.now) }
    ensures clear { IfSome result (λ rank. IsClear range.from range.to ranges.now) }
    ensures inserted { IfSome result (λ rank. insert ranges.now rank range ≡ with_range ranges.now range) }
    ensures meets { IfNone result (IsClear range.from range.to ranges.now → ⊥) }
{
    let mut rank = 0;
    for other in ranges {
        if range.to <= other.from {
            return Some(rank);
        }
        if range.from < other.to {
            return None;
        }
        rank += 1;
    }
    Some(rank)
}

/// Returns the number of a range among some.
fn number_of(ranges: &[Reserved], range: Reserved) -> Option<usize>
    ensures { result ≡ range_number ranges.now range 0 }
{
    let mut number = 0;
    for other in ranges {
        if other.from == range.from && other.to == range.to {
            return Some(number);
        }
        number += 1;
    }
    None
}

/// Returns the `len` bytes of an instance from an offset on, if they lie inside it.
fn range_of(bytes: &[u8], from: u32, len: u32) -> Option<&[u8]>
    ensures { option_copied result ≡ part_of bytes.now from len }
{
    let from = from as usize;
    let len = len as usize;
    if from > bytes.len() || len > bytes.len() - from {
        return None;
    }
    Some(&bytes[from..from + len])
}

/// Returns an image and the zeros after it, `len` bytes together.
fn filled(alloc: Global, image: &[u8], len: usize) -> Result<Vec<u8>, AllocError>
    requires { length image.now ≤ len }
    ensures { IfOk result (λ bytes. bytes.items ≡ filled image.now len) }
{
    let mut bytes = Vec::with_capacity(alloc, len)?;
    bytes.extend_from_slice(image)?;
    bytes.resize(len, 0)?;
    Ok(bytes)
}
