//! The handle by which C holds a text that it reads part by part: a pointer that owns what is left of it, or nothing.
ghost use Rattle.std.specs.Prelude.{◌≡◌, None, Some, Option, option_map, true};
ghost use Rattle.std.specs.Option.{is_some};
ghost use Rattle.pef_c.specs.Handles.{text_owns};
ghost use Rattle.pef_c.specs.declared.reports.unread.Unread.{Unread};

use crate::pointer::Pointer;
use crate::reports::unread::Unread;
use std::alloc::Global;
use std::marker::Model;
use std::mem::replace;

/// A pointer to a text on the heap, which it owns. It is typed as a pointer to a byte, since C doesn't know the type of a text.
#[repr(C)]
#[derive(Drop)]
pub struct TextHandle {
    at: *mut u8,
    pub ghost value: { Option Unread },
}

impl Model for TextHandle {
    ghost also_owns = { λ h. text_owns h.at h.value };
}

/// Turns a pointer to a text into a handle.
fn seal(pointer: Pointer<Unread<'static>>) -> TextHandle
    ensures { result.value ≡ pointer.entry.value }
{
    let Pointer { at } = pointer;
    TextHandle { at: at as *mut u8 }
}

/// Turns a handle back into the pointer to its text.
fn unseal(handle: TextHandle) -> Pointer<Unread<'static>>
    ensures { result.value ≡ handle.value }
{
    let TextHandle { at } = handle;
    Pointer {
        at: at as *mut Unread<'static>,
    }
}

/// A listing or a report as C holds it. Zero bytes are one that isn't open.
#[repr(C)]
#[derive(Drop)]
pub struct PefText {
    handle: TextHandle,
    is_open: bool,
    ghost agrees: { is_open ≡ is_some handle.value },
}

/// Returns a text that isn't open.
pub(crate) fn none() -> PefText
    ensures { result.handle.value ≡ None }
{
    PefText {
        handle: seal(Pointer::none()),
        is_open: false,
    }
}

/// Takes the text out of what C holds, which is then not open.
pub(crate) fn take(alloc: Global, text: &mut PefText) -> Option<Box<Unread<'static>, Global>>
    ensures taken { option_map (λ b. b.value) result ≡ text.old.handle.value }
    ensures left { text.new.handle.value ≡ None }
{
    let PefText { handle, is_open } = replace(text, none());
    if !is_open {
        return None;
    }
    Some(unseal(handle).into_box(alloc))
}

/// Puts a text into what C holds.
pub(crate) fn put(text: &mut PefText, boxed: Box<Unread<'static>, Global>)
    ensures { text.new.handle.value ≡ Some boxed.entry.value }
{
    *text = PefText {
        handle: seal(Pointer::from_box(boxed)),
        is_open: true,
    };
}
