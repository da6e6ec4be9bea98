ghost use Rattle.std.specs.Prelude.{◌≡◌, ◌^◌, ◌<◌, ◌≤◌};
ghost use Rattle.cfm_memory.specs.Placement.{step_of, taken};
ghost use Rattle.pef_words.specs.Refusals.{result_map};
ghost use Rattle.cfm_memory.specs.Faults.{granule_fault_name, granule_fault_number};
ghost use Rattle.cfm_memory.specs.Granules.{granule_of};
ghost use Rattle.cfm_memory.specs.Limits.{IsGranule, grain, greatest_alignment};

use std::fmt;
use thiserror::Error;

/// The unit of placement: each section begins at a multiple of it, and takes a multiple of it. It is a
/// power of two from 16 on.
#[derive(Clone, Copy, Debug)]
pub struct Granule {
    bytes: u32,
    ghost is_granule: { IsGranule bytes },
}

impl Granule {
    /// Returns the granule of this many bytes.
    ///
    /// # Errors
    ///
    /// `BadGranule` if it isn't a power of two, or is below 16.
    pub fn new(bytes: u32) -> Result<Granule, GranuleFault>
        ensures { result_map (λ g. g.bytes) result ≡ granule_of bytes }
    {
        if !bytes.is_power_of_two() || bytes < 16 {
            return Err(GranuleFault::BadGranule);
        }
        Ok(Granule { bytes })
    }

    /// Returns the granule of 16 bytes, the least one. [`Memory::new`](crate::Memory::new) has it.
    pub fn least() -> Granule
        ensures { result.bytes ≡ grain }
    {
        Granule { bytes: 16 }
    }

    /// Returns how many bytes a section of `size` bytes takes: at least one, rounded up to a multiple of the granule.
    pub fn taken(&self, size: u32) -> u64
        ensures { result ≡ taken self.now.bytes size }
    {
        taken_by(*self, u64::from(size))
    }

    /// Returns the number of which the address of a section is a multiple: the greater of the granule and of 2^`alignment`.
    /// `alignment` is at most 31.
    pub fn step(&self, alignment: u8) -> u64
        requires { alignment ≤ greatest_alignment }
        ensures { result ≡ step_of self.now.bytes alignment }
    {
        step_by(*self, alignment)
    }

    /// Returns the granule in bytes.
    pub fn bytes(&self) -> u32
        ensures { result ≡ self.now.bytes }
    {
        self.bytes
    }
}

/// Returns how many bytes an instance of `size` bytes takes.
#[tactic(auto, unfolding(crate::specs::Placement::taken))]
pub(crate) fn taken_by(granule: Granule, size: u64) -> u64
    requires { size ≤ 2 ^ 32 }
    ensures { result ≡ taken granule.bytes size }
{
    size.max(1).next_multiple_of(u64::from(granule.bytes))
}

/// Returns the number of which an instance's address is a multiple.
#[tactic(auto, unfolding(crate::specs::Placement::step_of))]
pub(crate) fn step_by(granule: Granule, alignment: u8) -> u64
    requires { alignment ≤ greatest_alignment }
    ensures value { result ≡ step_of granule.bytes alignment }
    ensures bounds { (0 < result) × (result ≤ 2 ^ 32) }
{
    u64::from(granule.bytes()).max(1 << alignment)
}

/// Why a number is no granule. The text is the refusal's name.
#[derive(Clone, Copy, Debug, PartialEq, Eq, Error)]
pub enum GranuleFault {
    /// It isn't a power of two, or is below 16.
    BadGranule,
}

impl GranuleFault {
    /// Returns the refusal's number.
    pub fn number(&self) -> u32
        ensures { result ≡ granule_fault_number self.now }
    {
        match self {
            GranuleFault::BadGranule => 205,
        }
    }

    /// Returns the refusal's name, which is its text.
    pub fn name(&self) -> &'static str
        ensures { result.now ≡ granule_fault_name self.now }
    {
        match self {
            GranuleFault::BadGranule => "BadGranule",
        }
    }
}

impl fmt::Display for GranuleFault {
    ghost use Rattle.std.specs.Prelude.{Some};
    ghost use Rattle.cfm_memory.specs.Faults.{granule_fault_name};

    ghost output = { λ fault. Some (granule_fault_name fault) };

    fn fmt<W: fmt::Write>(&self, f: &mut fmt::Formatter<W>) -> fmt::Result {
        f.write_str(self.name())
    }
}
