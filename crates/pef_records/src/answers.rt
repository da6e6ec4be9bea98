//! The numbers that calls return, and copying into the caller's buffer.
ghost use Rattle.std.specs.Prelude.{◌≡◌, ◌==◌, false};
ghost use Rattle.std.specs.Option.{option_copied};
ghost use Rattle.pef_records.specs.Buffers.{CopiesOut, IsCopied};
ghost use Rattle.pef_listing.specs.Faults as listing;
ghost use Rattle.pef_loader.specs.Faults as loader;
ghost use Rattle.pef_pidata.specs.Faults as pidata;
ghost use Rattle.pef_script.specs.Text.Faults as script;
ghost use Rattle.pef_views.specs.Faults as views;

use pef_listing::ListFault;
use pef_loader::LoaderFault;
use pef_pidata::PackFault;
use pef_script::LineFault;
use pef_views::ViewFault;

/// An allocation failed.
pub const OUT_OF_MEMORY: u32 = 99;

/// The caller's buffer is too small.
pub const ROOM_TOO_SMALL: u32 = 200;

/// There is nothing under this number.
pub const NOT_THERE: u32 = 201;

/// A context isn't open: it never was, or it was freed.
pub const NOT_OPEN: u32 = 202;

/// The options have another size than this library's struct.
pub const BAD_OPTIONS: u32 = 206;

/// A fragment with this name is there already.
pub const NAME_TAKEN: u32 = 209;

/// Returns the items that C passed, or the empty slice if there are none: C may then have passed a null pointer, which no slice
/// has.
pub fn given<'a, T>(items: &'a [T]) -> &'a [T]
    ensures { result.now ≡ items.entry.now }
{
    if items.is_empty() {
        return &[];
    }
    items
}

/// Copies items to the front of the caller's buffer, if they fit. Writes how many they are, also if they don't fit.
pub fn copy_out<T: Copy>(items: &[T], buffer: &mut [T], written: &mut usize) -> Option<()>
    ensures { IsCopied items.now buffer.old buffer.new written.new result }
{
    *written = items.len();
    if items.is_empty() {
        // The buffer may be null.
        return Some(());
    }
    let (front, _) = buffer.split_at_mut_checked(items.len())?;
    front.copy_from_slice(items);
    Some(())
}

/// Copies items to the front of the caller's buffer.
///
/// Returns 0, or 200 if the buffer is too small, or 201 if there are no items to copy.
pub fn copy_answer<T: Copy>(items: Option<&[T]>, buffer: &mut [T], count: &mut usize) -> u32
    ensures { CopiesOut (option_copied items.entry) buffer.old buffer.new count.old count.new result }
{
    let Some(items) = items else {
        return NOT_THERE;
    };
    match copy_out(items, buffer, count) {
        Some(()) => 0,
        None => ROOM_TOO_SMALL,
    }
}

/// Returns the number of a line's refusal. It is never one of this crate's.
pub fn line_number(fault: LineFault) -> u32
    ensures number { result ≡ script.fault_number fault }
    ensures refused { (result == 0) ≡ false }
    ensures foreign { (result == 200) ≡ false }
{
    fault.number()
}

/// Returns the number of a listing's refusal. It is never one of this crate's.
pub fn list_number(fault: ListFault) -> u32
    ensures number { result ≡ listing.fault_number fault }
    ensures refused { (result == 0) ≡ false }
    ensures foreign { (result == 200) ≡ false }
{
    fault.number()
}

/// Returns the number of a container's refusal, which isn't 0.
pub fn view_number(fault: ViewFault) -> u32
    ensures number { result ≡ views.fault_number fault }
    ensures refused { (result == 0) ≡ false }
{
    fault.number()
}

/// Returns the number of the refusal of packed bytes, which isn't 0.
pub fn pack_number(fault: PackFault) -> u32
    ensures number { result ≡ pidata.fault_number fault }
    ensures refused { (result == 0) ≡ false }
{
    fault.number()
}

/// Returns the number of a loader section's refusal, which isn't 0.
pub fn loader_number(fault: LoaderFault) -> u32
    ensures number { result ≡ loader.fault_number fault }
    ensures refused { (result == 0) ≡ false }
{
    fault.number()
}
