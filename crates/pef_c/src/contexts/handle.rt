//! The handle by which C holds a context: a pointer that owns it, or nothing.
ghost use Rattle.std.specs.Prelude.{◌≡◌, None, Some, Option, option_map, true};
ghost use Rattle.std.specs.Option.{is_some};
ghost use Rattle.cfm_prepare.specs.Contexts.{ContextState};
ghost use Rattle.pef_c.specs.Handles.{handle_owns};

use crate::pointer::Pointer;
use cfm_prepare::Context;
use std::alloc::Global;
use std::marker::Model;
use std::mem::replace;

/// A pointer to a context on the heap, which it owns. It is typed as a pointer to a byte, since C doesn't know the
/// type of a context.
#[repr(C)]
#[derive(Drop)]
pub struct Handle {
    at: *mut u8,
    pub ghost value: { Option ContextState },
}

impl Model for Handle {
    ghost also_owns = { λ h. handle_owns h.at h.value };
}

/// Turns a pointer to a context into a handle.
fn seal(pointer: Pointer<Context<'static>>) -> Handle
    ensures { result.value ≡ pointer.entry.value }
{
    let Pointer { at } = pointer;
    Handle { at: at as *mut u8 }
}

/// Turns a handle back into the pointer to its context.
fn unseal(handle: Handle) -> Pointer<Context<'static>>
    ensures { result.value ≡ handle.value }
{
    let Handle { at } = handle;
    Pointer {
        at: at as *mut Context<'static>,
    }
}

/// A context as C holds it. Zero bytes are a context that isn't open.
#[repr(C)]
#[derive(Drop)]
pub struct PefContext {
    handle: Handle,
    is_open: bool,
    ghost agrees: { is_open ≡ is_some handle.value },
}

/// Returns a context that isn't open.
pub(crate) fn none() -> PefContext
    ensures { result.handle.value ≡ None }
{
    PefContext {
        handle: seal(Pointer::none()),
        is_open: false,
    }
}

/// Takes the context out of what C holds, which is then not open.
pub(crate) fn take(alloc: Global, context: &mut PefContext) -> Option<Box<Context<'static>, Global>>
    ensures taken { option_map (λ b. b.value) result ≡ context.old.handle.value }
    ensures left { context.new.handle.value ≡ None }
{
    let PefContext { handle, is_open } = replace(context, none());
    if !is_open {
        return None;
    }
    Some(unseal(handle).into_box(alloc))
}

/// Puts a context into what C holds.
pub(crate) fn put(context: &mut PefContext, boxed: Box<Context<'static>, Global>)
    ensures { context.new.handle.value ≡ Some boxed.entry.value }
{
    *context = PefContext {
        handle: seal(Pointer::from_box(boxed)),
        is_open: true,
    };
}
