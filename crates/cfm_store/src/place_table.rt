ghost use Rattle.std.specs.Prelude.{◌≡◌, ◌<◌, ◌^◌, ◌++◌, ◌-◌, [], None, Some, length, replicate, slice_index_or, slice_set, IfOk, IsSome, OnOk, OnErr};
ghost use Rattle.std.specs.Option.{option_copied};
ghost use Rattle.std.specs.Borrow.{sem};
ghost use Rattle.cfm_store.specs.Lending.{LendsValue};

use std::alloc::{AllocError, Global};
use std::marker::Model;

/// A value, or none, at each of some places, which count from 0.
///
/// A place takes two bytes. Only those that have a value take more.
#[derive(Drop)]
pub struct PlaceTable<T> {
    /// For each place one more than the index of its value, or 0 if it has none.
    numbers: Vec<u16>,
    /// The values, in the order in which they were added.
    values: Vec<T>,
}

impl<T> Model for PlaceTable<T> {
    ghost use Rattle.std.specs.Prelude.{List, Option};
    ghost use Rattle.std.specs.Coded.{coded_list, coded_option};

    ghost Value = { List (Option T) };

    ghost coded = { coded_list (coded_option T.code) };

    ghost use Rattle.cfm_store.specs.Kept.Numbers.{IsSound, values_at};

    ghost view = { λ t. values_at t.numbers.items t.values.items };

    ghost invariant = { λ t. IsSound t.numbers.items t.values.items };
}

impl<T: Drop> PlaceTable<T> {
    /// Returns the table without places. Nothing is allocated yet.
    pub fn empty(alloc: Global) -> PlaceTable<T>
        ensures { result ≡ [] }
    {
        PlaceTable {
            numbers: Vec::new(alloc),
            values: Vec::new(alloc),
        }
    }

    /// Returns a table of `len` places without values.
    ///
    /// # Errors
    ///
    /// `AllocError` if an allocation fails.
    pub fn new(alloc: Global, len: usize) -> Result<PlaceTable<T>, AllocError>
        requires { len < 2 ^ 16 }
        ensures { IfOk result (λ table. table ≡ replicate len None) }
    {
        let numbers = vec![in alloc; 0; len]?;
        let values = Vec::new(alloc);
        Ok(PlaceTable { numbers, values })
    }

    /// Adds places without values, up to `len` places. If there are as many already, none is added.
    ///
    /// # Errors
    ///
    /// `AllocError` if an allocation fails. The table is then unchanged.
    pub fn grow(&mut self, len: usize) -> Result<(), AllocError>
        requires { len < 2 ^ 16 }
        ensures ok { OnOk result (self.new ≡ self.old ++ replicate (len - length self.old) None) }
        ensures err { OnErr result (self.new ≡ self.old) }
    {
        if self.numbers.len() < len {
            self.numbers.resize(len, 0)?;
        }
        Ok(())
    }

    /// Returns how many places there are.
    pub fn len(&self) -> usize
        ensures { result ≡ length self.now }
    {
        self.numbers.len()
    }

    /// Returns the value at place `p`, or `None` if there is none.
    pub fn get(&self, p: usize) -> Option<&T>
        ensures { option_copied result ≡ slice_index_or self.now p None }
    {
        let number = usize::from(*self.numbers.get(p)?);
        self.values.get(number.checked_sub(1)?)
    }

    /// Returns the value at place `p`, which has one, to be written.
    pub fn value_mut(&mut self, p: usize) -> &mut T
        requires { IsSome (slice_index_or self.old p None) }
        ensures* writes_back { sem 𝓛 (LendsValue T.row self.entry p result) }
        ensures value { slice_index_or self.old p None ≡ Some result.now }
    {
        let number = usize::from(self.numbers[p]);
        &mut self.values[number - 1]
    }

    /// Puts a value at place `p`. A value that was there is dropped.
    ///
    /// # Errors
    ///
    /// `AllocError` if an allocation fails. The table is then unchanged.
    pub fn put(&mut self, p: usize, value: T) -> Result<(), AllocError>
        requires { p < length self.old }
        ensures ok { OnOk result (self.new ≡ slice_set self.old p (Some value)) }
        ensures err { OnErr result (self.new ≡ self.old) }
    {
        let number = usize::from(self.numbers[p]);
        if number > 0 {
            self.values[number - 1] = value;
            return Ok(());
        }
        self.values.push(value)?;
        self.numbers[p] = self.values.len() as u16;
        Ok(())
    }
}
