ghost use Rattle.std.specs.Prelude.{◌≡◌, IfOk};
ghost use Rattle.pef_tool.specs.Answers.Answers.{Answer, IsDelivered};
ghost use Rattle.pef_script.specs.Script.{DescribedScript};
ghost use Rattle.pef_write.specs.Linked.{IsLinkedContainer};
ghost use Rattle.pef_tool.specs.Kept.Showing.{ScriptEnds};
ghost use Rattle.pef_tool.specs.Show.{ShowAnswers, ShowOutcome, single_store, show_answer};

use crate::answers::{Outcome, deliver};
use crate::linking::link_text;
use crate::loaded::deliver_root;
use cfm_closure::{Store, StoreFault};
use pef_faults::Fault;
use pef_ports::{Sink, Source, read_input};
use pef_write::LinkedContainer;
use std::alloc::Global;

/// The most bytes of an input that are read.
const INPUT_LIMIT: usize = 536_870_912;

/// Links the script on the input, prepares it alone, and shows its memory.
pub fn show_input<R: Source, W: Sink>(alloc: Global, input: &mut R, out: &mut W) -> Outcome
    ensures { (answer : Answer)
        × ShowAnswers (R.stream input.old) (R.stream input.new) answer
        × IsDelivered (W.stream out.old) (W.stream out.new) answer result }
{
    let text = match read_input(alloc, input, INPUT_LIMIT) {
        Ok(text) => text,
        Err(fault) => return deliver(out, &Fault::Input(fault)),
    };
    match link_text(alloc, text.as_slice()) {
        Ok(linked) => show_linked(alloc, &linked, out),
        Err(fault) => deliver(out, &fault),
    }
}

/// Prepares a linked container alone under the name `it`, and shows it. The fragment may have no closure, and there may
/// be no room for its sections. The only other fault of preparation is a failed allocation, since packed images expand
/// and the relocation programs are sound.
fn show_linked<W: Sink>(alloc: Global, linked: &LinkedContainer, out: &mut W) -> Outcome
    ensures { (script : DescribedScript) → IsLinkedContainer script linked.now → (outcome : ShowOutcome)
        × ScriptEnds script outcome
        × IsDelivered (W.stream out.old) (W.stream out.new) (show_answer outcome) result }
{
    let Ok(store) = single_store(alloc, linked.bytes()) else {
        return deliver(out, &Fault::OutOfMemory);
    };
    deliver_root(alloc, store, b"it", out)
}

/// Returns the store that has the fragment `it` and no other.
fn single_store<'a>(alloc: Global, bytes: &'a [u8]) -> Result<Store<'a>, StoreFault>
    ensures { IfOk result (λ store. store ≡ single_store bytes.now) }
{
    let mut store = Store::new(alloc);
    store.add(b"it", bytes)?;
    Ok(store)
}
