use cfm_memory::{Memory, MemoryFault, Place};
use std::process::Abort;

/// Size, alignment and address of an instance. An address of 0 means the refusal `NoRoom`.
type Row = (u32, u8, u32);

/// Places an instance.
fn test_place(rt: &impl Abort, memory: &mut Memory, row: Row) {
    let (size, alignment, address) = row;
    assert!(rt; alignment <= 31);
    match memory.place(size, alignment) {
        Ok(place) => {
            let want = Place { address, size };
            assert!(rt; place == want, "size {size}, alignment {alignment}");
            assert!(rt; memory.holds(place));
        }
        Err(fault) => {
            assert!(rt; fault == MemoryFault::NoRoom);
            assert!(rt; address == 0, "size {size}, alignment {alignment}");
        }
    }
}

/// Places instances in turn.
fn place_all(rt: &impl Abort, memory: &mut Memory, rows: &[Row]) {
    for row in rows {
        test_place(rt, memory, *row);
    }
}

fn give_back(rt: &impl Abort, memory: &mut Memory, address: u32, size: u32) {
    let place = Place { address, size };
    assert!(rt; memory.holds(place));
    memory.give_back(place);
    assert!(rt; !memory.holds(place));
}

const FIRST: &[Row] = &[(8, 4, 0x1_0000), (0, 17, 0x2_0000), (20, 4, 0x1_0010)];

fn test_place_and_give_back(rt: &impl Abort, memory: &mut Memory) {
    place_all(rt, memory, FIRST);
    give_back(rt, memory, 0x1_0000, 8);
    test_place(rt, memory, (16, 0, 0x1_0000));
}

#[test]
fn place_and_give_back(rt: HostRuntime) {
    test_place_and_give_back(&rt, &mut Memory::new(rt.alloc(), 0x0100_0000));
}

#[test]
fn place_below_a_limit(rt: HostRuntime) {
    let mut memory = Memory::new(rt.alloc(), 0x1_0020);
    place_all(&rt, &mut memory, &[(17, 4, 0x1_0000), (0, 4, 0)]);
}

/// A range of 16 bytes keeps an instance out.
#[test]
fn place_after_a_range(rt: HostRuntime) {
    let mut memory = Memory::new(rt.alloc(), 0x1_0020);
    memory.reserve(0x1_0000, 16).expect(&rt, "room");
    test_place(&rt, &mut memory, (1, 0, 0x1_0010));
}

/// Returns how many bytes an instance takes.
fn taken(size: u32) -> u64 {
    u64::from(size).max(1).next_multiple_of(16)
}

/// Returns whether a new instance at an address overlaps none of some.
fn is_free(instances: &[Place], address: u32, size: u32) -> bool {
    let start = u64::from(address);
    let end = start.saturating_add(taken(size));
    for other in instances {
        let begin = u64::from(other.address);
        if begin < end && start < begin.saturating_add(taken(other.size)) {
            return false;
        }
    }
    true
}

/// Returns the lowest address with room below 00020000 (hex). Each address is tried against all
/// instances.
fn lowest(instances: &[Place], size: u32, alignment: u32) -> Option<u32> {
    for grain in 0x1000..0x2000u32 {
        let address = grain * 16;
        let inside = u64::from(address).saturating_add(taken(size)) <= 0x2_0000;
        if inside && address.trailing_zeros() >= alignment && is_free(instances, address, size) {
            return Some(address);
        }
    }
    None
}

/// Places an instance, if a scan of all instances places it.
fn place_as_scanned(
    rt: &impl Abort,
    memory: &mut Memory,
    instances: &mut Vec<Place>,
    call: u32,
    state: u32,
) {
    let (size, alignment) = ((state >> 8) % 101, (state >> 12) % 9);
    let want = lowest(instances, size, alignment);
    match memory.place(size, alignment as u8) {
        Ok(place) => {
            assert!(rt;
                (Some(place.address), place.size) == (want, size),
                "call {call}"
            );
            instances.push(place).expect(rt, "memory");
        }
        Err(fault) => {
            assert!(rt; (fault, want) == (MemoryFault::NoRoom, None), "call {call}");
        }
    }
}

/// Removes an instance, or places one.
fn come_or_go(
    rt: &impl Abort,
    memory: &mut Memory,
    instances: &mut Vec<Place>,
    call: u32,
    state: u32,
) {
    let index = (state >> 20) as usize % 160;
    if index < instances.len() {
        let place = instances.remove(index);
        give_back(rt, memory, place.address, place.size);
    } else {
        place_as_scanned(rt, memory, instances, call, state);
    }
}

fn test_against_a_scan(rt: &impl Abort, memory: &mut Memory, instances: &mut Vec<Place>) {
    let mut state = 1u32;
    for call in 0..2_000 {
        state = state.wrapping_mul(1_664_525).wrapping_add(1_013_904_223);
        come_or_go(rt, memory, instances, call, state);
    }
    // The walk leaves some tens of instances, with gaps between them.
    assert!(rt; instances.len() > 40 && instances.len() < 160);
}

/// Instances of many sizes and alignments are placed and removed. Each is placed exactly if a scan of
/// all instances places it.
#[test]
fn place_against_a_scan(rt: HostRuntime) {
    let mut memory = Memory::new(rt.alloc(), 0x2_0000);
    let mut instances = Vec::new(rt.alloc());
    test_against_a_scan(&rt, &mut memory, &mut instances);
}
