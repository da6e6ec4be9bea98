ghost use Rattle.std.specs.Prelude.{◌≡◌, ℕ, ◌<◌, ◌≤◌, ◌==◌, None, Contains, IfOk, IfSome, OnOk, length};
ghost use Rattle.std.specs.Option.{is_some};
ghost use Rattle.cfm_closure.specs.Faults.{Answers};
ghost use Rattle.cfm_closure.specs.Fragments.{library_count};
ghost use Rattle.cfm_closure.specs.Walk.{joining, marking};
ghost use Rattle.cfm_closure.specs.Initialization.{awaited, awaits, before_of, first_left, init_order_of, is_ready, next_ready, taken_all};
ghost use Rattle.cfm_closure.specs.Kept.Taken.{IsFresh, IsInitState, taken_of};

use crate::bindings::Bindings;
use crate::fault::BindFault;
use pef_format::layout::LIBRARY_OPTIONS_AT;
use std::alloc::{AllocError, Global};

/// The order of initialization so far.
#[derive(Drop)]
struct InitState {
    /// The fragments of the store that were taken.
    taken: Vec<bool>,
    /// For each fragment the number of library entries that wait for nothing any more.
    passed: Vec<usize>,
    /// The fragments that were taken, in order.
    order: Vec<usize>,
}

/// Returns the fragment that must be initialized before another one, by its library entry `l`.
fn before<'a>(bindings: &Bindings<'a>, p: usize, l: usize) -> Option<usize>
    requires place { Contains bindings.now.order p }
    requires library { l < library_count bindings.now.pairs p }
    ensures before { result ≡ before_of bindings.now.pairs p l }
    ensures inside { IfSome result (λ q. Contains bindings.now.order q) }
{
    match bindings.fragment(p).loader.library(l) {
        Some(library) => {
            if library.fields.options().init_before {
                bindings.library(p, l)
            } else {
                None
            }
        }
        None => None,
    }
}

impl InitState {
    /// Returns the state in which no fragment of `len` was taken.
    fn new(alloc: Global, len: usize) -> Result<InitState, AllocError>
        ensures { IfOk result (λ t. IsFresh t len) }
    {
        let taken = vec![in alloc; false; len]?;
        let passed = vec![in alloc; 0; len]?;
        Ok(InitState {
            taken,
            passed,
            order: Vec::new(alloc),
        })
    }

    /// Returns whether library entry `l` of a fragment is one of a fragment that must come first and
    /// wasn't taken.
    fn awaits<'a>(&self, bindings: &Bindings<'a>, p: usize, l: usize) -> bool
        requires place { Contains bindings.now.order p }
        requires library { l < library_count bindings.now.pairs p }
        requires taking { IsInitState bindings.now.pairs bindings.now.order self.now }
        ensures { result ≡ is_some (awaits bindings.now.pairs (taken_of self.now) p l) }
    {
        match before(bindings, p, l) {
            Some(q) => !self.taken[q],
            None => false,
        }
    }

    /// Returns how many library entries of a fragment wait for nothing, from the first one on. Those
    /// that were passed before aren't tested again.
    fn passed<'a>(&self, bindings: &Bindings<'a>, p: usize) -> usize
        requires place { Contains bindings.now.order p }
        requires taking { IsInitState bindings.now.pairs bindings.now.order self.now }
        ensures passed { (k : ℕ) → k < result → awaits bindings.now.pairs (taken_of self.now) p k ≡ None }
        ensures ready { is_ready bindings.now.pairs (taken_of self.now) p ≡ (result == library_count bindings.now.pairs p) }
        ensures awaited { result ≡ awaited bindings.now.pairs (taken_of self.now) p }
        ensures few { result ≤ library_count bindings.now.pairs p }
    {
        let libraries = bindings.libraries(p);
        for l in self.passed[p]..libraries {
            if self.awaits(bindings, p, l) {
                return l;
            }
        }
        libraries
    }

    /// Returns whether all fragments that must come before another one were taken.
    fn is_ready<'a>(&mut self, bindings: &Bindings<'a>, p: usize) -> bool
        requires place { Contains bindings.now.order p }
        requires taking { IsInitState bindings.now.pairs bindings.now.order self.old }
        ensures ready { result ≡ is_ready bindings.now.pairs (taken_of self.old) p }
        ensures taking { IsInitState bindings.now.pairs bindings.now.order self.new }
        ensures same { taken_of self.new ≡ taken_of self.old }
    {
        let passed = self.passed(bindings, p);
        self.passed[p] = passed;
        passed == bindings.libraries(p)
    }

    /// Returns the first fragment in closure order that wasn't taken and is ready.
    fn next_ready<'a>(&mut self, bindings: &Bindings<'a>) -> Option<usize>
        requires { IsInitState bindings.now.pairs bindings.now.order self.old }
        ensures next { result ≡ next_ready bindings.now.pairs (taken_of self.old) bindings.now.order }
        ensures inside { IfSome result (λ p. p < length bindings.now.pairs) }
        ensures taking { IsInitState bindings.now.pairs bindings.now.order self.new }
        ensures same { taken_of self.new ≡ taken_of self.old }
    {
        for p in bindings.order() {
            if !self.taken[*p] && self.is_ready(bindings, *p) {
                return Some(*p);
            }
        }
        None
    }

    /// Takes a fragment.
    fn take<'a>(&mut self, bindings: &Bindings<'a>, p: usize) -> Result<(), AllocError>
        requires place { p < length bindings.now.pairs }
        requires taking { IsInitState bindings.now.pairs bindings.now.order self.old }
        ensures taking { OnOk result (IsInitState bindings.now.pairs bindings.now.order self.new) }
        ensures state { OnOk result (taken_of self.new ≡ joining p (marking p (taken_of self.old))) }
    {
        self.taken[p] = true;
        self.order.push(p)?;
        Ok(())
    }

    /// Returns the whole order, or the refusal if the first fragment that is left waits without end.
    fn end<'a>(self, bindings: &Bindings<'a>) -> Result<Vec<usize>, BindFault<'a>>
        requires { IsInitState bindings.now.pairs bindings.now.order self }
        ensures { Answers (λ order. order.items) result (taken_all bindings.now.pairs (taken_of self) (first_left (taken_of self) bindings.now.order)) }
    {
        for p in bindings.order() {
            if !self.taken[*p] {
                let fragment = bindings.fragment(*p);
                let awaited = self.passed(bindings, *p);
                return Err(BindFault::InitLoop {
                    fragment: fragment.name,
                    place: fragment.library_place(awaited, LIBRARY_OPTIONS_AT),
                });
            }
        }
        let InitState { order, .. } = self;
        Ok(order)
    }
}

/// Returns the order in which the fragments of a closure are initialized: repeatedly the first in
/// closure order for which all libraries that must come first were taken.
pub(crate) fn initialized<'a>(
    alloc: Global,
    bindings: &Bindings<'a>,
) -> Result<Vec<usize>, BindFault<'a>>
    ensures { Answers (λ order. order.items) result (init_order_of bindings.now.pairs bindings.now.order) }
{
    let mut taking = InitState::new(alloc, bindings.places())?;
    for _turn in 0..bindings.order().len() {
        match taking.next_ready(bindings) {
            Some(p) => taking.take(bindings, p)?,
            None => return taking.end(bindings),
        }
    }
    taking.end(bindings)
}
