ghost use Rattle.std.specs.Prelude.{◌≡◌, ◌<◌, ◌≤◌, ◌^◌, IfErr, IfOk, codes};
ghost use Rattle.cfm_prepare.specs.Contexts.{fresh_state};
ghost use Rattle.cfm_prepare.specs.Steps.{MayNotPrepare, Prepares};
ghost use Rattle.pef_tool.specs.Answers.Answers.{IsDelivered, answer_done};
ghost use Rattle.pef_ports.specs.Sent.{Sends};
ghost use Rattle.pef_tool.specs.Fragment.{entry_text, sections_text};
ghost use Rattle.pef_tool.specs.Kept.Rooted.{RootEnds, RootOutcome, root_answer};
ghost use Rattle.pef_tool.specs.Kept.Routines.{address_in, place_of, routine_text, routines_text, word_of};
ghost use Rattle.pef_tool.specs.Limits.{memory_limit};
ghost use Rattle.pef_tool.specs.Loaded.{entry_label, fragment_name, fragment_text, fragments_text, init_order_in, loaded_text, order_in, sections_in};

use crate::answers::{Outcome, Reply, deliver, print_name_end};
use crate::fragment::print_bytes;
use cfm_closure::Store;
use cfm_prepare::{Connection, Context, Entries, PrepareFault};
use pef_faults::Fault;
use pef_ports::{Page, Piece, Sink, StreamFault, print_pieces, send};
use std::alloc::Global;

/// The exclusive upper limit of the addresses of a fragment's memory.
const MEMORY_LIMIT: u32 = 0x1000_0000;

/// A connection to the requested fragment, in a context of its own.
#[derive(Drop)]
pub struct Loaded<'a> {
    pub context: Context<'a>,
    pub connection: Connection,
    ghost low: { context.memory.limit ≤ 2 ^ 32 },
}

/// Prepares the fragment with a name, in a context of its own.
pub fn prepare_root<'a>(
    alloc: Global,
    store: Store<'a>,
    name: &[u8],
) -> Result<Loaded<'a>, PrepareFault<'a>>
    ensures prepared { IfOk result (λ loaded. Prepares (fresh_state store.entry memory_limit) name.now loaded.connection.0 loaded.context) }
    ensures refused { IfErr result (λ fault. MayNotPrepare (fresh_state store.entry memory_limit) name.now fault) }
{
    let mut context = Context::new(alloc, store, MEMORY_LIMIT);
    match context.prepare(name) {
        Ok(connection) => Ok(Loaded {
            context,
            connection,
        }),
        Err(fault) => Err(fault),
    }
}

/// Prepares the fragment with a name, and prints the memory of its closure or the reason why it isn't prepared.
pub fn deliver_root<W: Sink>(alloc: Global, store: Store<'_>, name: &[u8], out: &mut W) -> Outcome
    ensures { (outcome : RootOutcome)
        × RootEnds store.entry name.now outcome
        × IsDelivered (W.stream out.old) (W.stream out.new) (root_answer outcome) result }
{
    match prepare_root(alloc, store, name) {
        Ok(loaded) => deliver(out, &loaded),
        Err(fault) => deliver(out, &Fault::Prepare(fault)),
    }
}

impl<'a> Reply for Loaded<'a> {
    ghost answer = { λ loaded. answer_done (loaded_text loaded.context loaded.connection.0) };

    fn outcome(&self) -> Outcome {
        Outcome::Done
    }

    fn print<W: Sink>(&self, out: &mut W, page: &mut Page) -> Result<(), StreamFault> {
        print_loaded(out, page, self)
    }
}

/// A routine that a fragment may have: libraries initialize themselves first and terminate last.
#[derive(Clone, Copy)]
enum Routine {
    Init,
    Term,
}

impl Routine {
    /// Returns the start of the routine's line.
    fn word(self) -> &'static [u8]
        ensures { result.now ≡ word_of self }
    {
        match self {
            Routine::Init => b"init ",
            Routine::Term => b"term ",
        }
    }

    /// Returns the address of a fragment's routine, if it has one.
    fn address(self, entries: Entries) -> Option<u32>
        ensures { result ≡ address_in self entries }
    {
        match self {
            Routine::Init => entries.init,
            Routine::Term => entries.term,
        }
    }

    /// Returns the position, in initialization order, of the fragment whose routine runs after the routines of `i`
    /// others.
    fn place(self, i: usize, count: usize) -> usize
        requires { i < count }
        ensures place { result ≡ place_of self count i }
        ensures inside { result < count }
    {
        match self {
            Routine::Init => i,
            Routine::Term => count - 1 - i,
        }
    }
}

/// Prints the fragments of a connection's closure with their sections, and then their entry points.
pub fn print_loaded<W: Sink>(
    out: &mut W,
    page: &mut Page,
    loaded: &Loaded<'_>,
) -> Result<(), StreamFault>
    ensures { Sends result (W.stream out.old) (W.stream out.new) page.old.items page.new.items (loaded_text loaded.now.context loaded.now.connection.0) }
{
    let context = &loaded.context;
    print_fragments(out, page, context, order_of(context, loaded.connection))?;
    let init_order = init_order_of(context, loaded.connection);
    print_routines(out, page, loaded, Routine::Init, init_order)?;
    print_main(out, page, context.main(loaded.connection))?;
    print_routines(out, page, loaded, Routine::Term, init_order)
}

/// Returns the fragments of a connection in closure order.
pub fn order_of<'r>(context: &'r Context<'_>, connection: Connection) -> &'r [usize]
    ensures { result.now ≡ order_in context.now connection.0 }
{
    match context.fragments(connection) {
        Some(order) => order,
        None => &[],
    }
}

/// Returns the fragments of a connection in the order of their initialization.
fn init_order_of<'r>(context: &'r Context<'_>, connection: Connection) -> &'r [usize]
    ensures { result.now ≡ init_order_in context.now connection.0 }
{
    match context.init_order(connection) {
        Some(order) => order,
        None => &[],
    }
}

/// Returns the name of the fragment at a position in the store.
fn name_of<'a>(context: &Context<'a>, position: usize) -> &'a [u8]
    ensures { result.now ≡ fragment_name context.now position }
{
    match context.name(position) {
        Some(name) => name,
        None => b"",
    }
}

/// Prints some fragments with their sections.
fn print_fragments<W: Sink>(
    out: &mut W,
    page: &mut Page,
    context: &Context<'_>,
    order: &[usize],
) -> Result<(), StreamFault>
    requires { context.now.memory.limit ≤ 2 ^ 32 }
    ensures { Sends result (W.stream out.old) (W.stream out.new) page.old.items page.new.items (fragments_text context.now order.now) }
{
    for position in order {
        print_fragment(out, page, context, *position)?;
    }
    Ok(())
}

/// Prints a fragment's name and its sections.
fn print_fragment<W: Sink>(
    out: &mut W,
    page: &mut Page,
    context: &Context<'_>,
    position: usize,
) -> Result<(), StreamFault>
    requires { context.now.memory.limit ≤ 2 ^ 32 }
    ensures { Sends result (W.stream out.old) (W.stream out.new) page.old.items page.new.items (fragment_text context.now position) }
{
    send(out, page, b"fragment ")?;
    print_name_end(out, page, name_of(context, position))?;
    print_sections(out, page, context, position)
}

/// Prints a fragment's sections, numbered from 0.
fn print_sections<W: Sink>(
    out: &mut W,
    page: &mut Page,
    context: &Context<'_>,
    position: usize,
) -> Result<(), StreamFault>
    requires { context.now.memory.limit ≤ 2 ^ 32 }
    ensures { Sends result (W.stream out.old) (W.stream out.new) page.old.items page.new.items (sections_text 0 (sections_in context.now position)) }
{
    let count = context.section_count(position);
    for i in 0..count {
        let Some((address, bytes)) = context.fragment_section(position, i) else {
            unreachable!()
        };
        print_bytes(out, page, i, address, bytes)?;
    }
    Ok(())
}

/// Prints the addresses of a routine of some fragments, in the order in which they run. `order` is the order of
/// initialization.
fn print_routines<W: Sink>(
    out: &mut W,
    page: &mut Page,
    loaded: &Loaded<'_>,
    routine: Routine,
    order: &[usize],
) -> Result<(), StreamFault>
    ensures { Sends result (W.stream out.old) (W.stream out.new) page.old.items page.new.items (routines_text routine loaded.now.context loaded.now.connection.0 order.now) }
{
    for i in 0..order.len() {
        let position = order[routine.place(i, order.len())];
        print_routine(out, page, loaded, routine, position)?;
    }
    Ok(())
}

/// Prints the address of a fragment's routine, if it has one.
fn print_routine<W: Sink>(
    out: &mut W,
    page: &mut Page,
    loaded: &Loaded<'_>,
    routine: Routine,
    position: usize,
) -> Result<(), StreamFault>
    ensures { Sends result (W.stream out.old) (W.stream out.new) page.old.items page.new.items (routine_text routine loaded.now.context loaded.now.connection.0 position) }
{
    let context = &loaded.context;
    match context.fragment_entries(loaded.connection, position) {
        Some(entries) => print_entry(
            out,
            page,
            routine.word(),
            name_of(context, position),
            routine.address(entries),
        ),
        None => Ok(()),
    }
}

/// Prints the line of a fragment's routine, if it has one: a word, the fragment's name and the address.
fn print_entry<'t, W: Sink>(
    out: &mut W,
    page: &mut Page,
    word: &'t [u8],
    name: &'t [u8],
    address: Option<u32>,
) -> Result<(), StreamFault>
    ensures { Sends result (W.stream out.old) (W.stream out.new) page.old.items page.new.items (entry_text (entry_label word.now name.now) address) }
{
    match address {
        Some(address) => print_pieces(
            out,
            page,
            &[
                Piece::Text(word),
                Piece::Name(name),
                Piece::Text(b" "),
                Piece::Word(address),
                Piece::Text(b"\n"),
            ],
        ),
        None => Ok(()),
    }
}

/// Prints the line of the main entry point, if there is one.
fn print_main<W: Sink>(
    out: &mut W,
    page: &mut Page,
    address: Option<u32>,
) -> Result<(), StreamFault>
    ensures { Sends result (W.stream out.old) (W.stream out.new) page.old.items page.new.items (entry_text (codes "main ") address) }
{
    match address {
        Some(address) => {
            print_pieces(
                out,
                page,
                &[
                    Piece::Text(b"main "),
                    Piece::Word(address),
                    Piece::Text(b"\n"),
                ],
            )
        }
        None => Ok(()),
    }
}
