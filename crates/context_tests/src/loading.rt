//! The examples of `docs/EMBEDDING.md`: `store_of`, `load`, `load_in_pages` and `prepare_app` have its lines word for word.

use cfm_prepare::{Context, Granule, Options, Store};
use std::alloc::Global;
use std::process::Abort;
use std::test::Fail;
use test_links::link_text;

/// The memory of a machine, from the address 00010000 on.
#[derive(Drop)]
struct Machine {
    memory: [u8; 24],
}

impl Machine {
    /// Copies bytes to an address, if the machine has memory for them.
    fn write(&mut self, address: u32, bytes: &[u8]) {
        let from = address.saturating_sub(0x0001_0000) as usize;
        if from <= 24 && bytes.len() <= 24 - from {
            self.memory[from..from + bytes.len()].copy_from_slice(bytes);
        }
    }
}

/// Prepares an application, and copies its sections into the memory of a machine.
fn prepare_app(context: &mut Context<'_>, machine: &mut Machine) -> Result<(), Fail> {
    let app = context.prepare(b"App")?;
    for position in context.new_fragments(app).unwrap_or(&[]) {
        // copy each section to where the machine has it
        for (address, bytes) in context.sections(*position) {
            machine.write(address, bytes);
        }
    }
    // then run the initialization routines of these in this order, and the main routine
    context.close(app)?;
    Ok(())
}

/// Returns a store of an application and its library.
fn store_of<'a>(
    alloc: Global,
    tools_bytes: &'a [u8],
    app_bytes: &'a [u8],
) -> Result<Store<'a>, Fail> {
    let mut store = Store::new(alloc);
    store.add(b"Tools", tools_bytes)?;
    store.add(b"App", app_bytes)?;
    Ok(store)
}

/// Loads an application and its library into a machine.
fn load(
    alloc: Global,
    tools_bytes: &[u8],
    app_bytes: &[u8],
    machine: &mut Machine,
) -> Result<(), Fail> {
    let store = store_of(alloc, tools_bytes, app_bytes)?;
    let mut context = Context::new(alloc, store, 0x1000_0000);
    prepare_app(&mut context, machine)
}

/// The same with options: each section has pages of its own, and what a preparation takes is bounded.
fn load_in_pages(
    alloc: Global,
    tools_bytes: &[u8],
    app_bytes: &[u8],
    machine: &mut Machine,
) -> Result<(), Fail> {
    let store = store_of(alloc, tools_bytes, app_bytes)?;
    let options = Options {
        granule: Granule::new(4_096)?,
        steps: Some(50_000_000),
        bytes: Some(0x0400_0000),
        ..Options::new()
    };
    let mut context = Context::with_options(alloc, store, options);
    prepare_app(&mut context, machine)
}

const TOOLS: &[u8] =
    b"versions 1 0 0\nsection data data process 4 4\nbytes data 0000002A\nexport answer data data 0\n";

const APP: &[u8] =
    b"library Tools 1 0 -\nimport answer data strong\nsection data data process 4 8\nbytes data 0000000000000004\nfix data 0 import answer\nfix data 4 section data\nmain data 0\n";

/// Tests what `load` copies: the library lies at 00010000, and the application after it, at 00010010.
fn test_load(rt: &impl Abort, alloc: Global, tools: &[u8], app: &[u8]) -> Result<(), Fail> {
    let mut machine = Machine { memory: [0xEE; 24] };
    load(alloc, tools, app, &mut machine)?;
    let mut wanted = [0xEE; 24];
    wanted[..4].copy_from_slice(&[0, 0, 0, 0x2A]);
    wanted[16..].copy_from_slice(&[0, 1, 0, 0, 0, 1, 0, 0x14]);
    assert!(rt; machine.memory == wanted);
    Ok(())
}

/// The machine has memory for the library alone, which is in the first page.
fn test_load_in_pages(
    rt: &impl Abort,
    alloc: Global,
    tools: &[u8],
    app: &[u8],
) -> Result<(), Fail> {
    let mut machine = Machine { memory: [0xEE; 24] };
    load_in_pages(alloc, tools, app, &mut machine)?;
    let mut wanted = [0xEE; 24];
    wanted[..4].copy_from_slice(&[0, 0, 0, 0x2A]);
    assert!(rt; machine.memory == wanted);
    Ok(())
}

#[test]
fn loading(rt: HostRuntime) -> Result<(), Fail> {
    let tools = link_text(rt.alloc(), TOOLS).expect(&rt, "a container");
    let app = link_text(rt.alloc(), APP).expect(&rt, "a container");
    test_load(&rt, rt.alloc(), tools.bytes(), app.bytes())?;
    test_load_in_pages(&rt, rt.alloc(), tools.bytes(), app.bytes())
}
