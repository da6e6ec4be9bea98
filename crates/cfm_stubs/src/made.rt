ghost use Rattle.std.specs.Prelude.{◌≡◌, length, option_map, slice_get};
ghost use Rattle.pef_format.specs.Exports.{export_seen};

use pef_format::ExportView;
use std::marker::Model;

/// A stub: its library's name, its exports in order, and its container.
#[derive(Drop)]
pub struct Stub<'a> {
    pub(crate) name: &'a [u8],
    pub(crate) exports: Vec<ExportView<'a>>,
    pub(crate) bytes: Vec<u8>,
}

impl<'a> Model for Stub<'a> {
    ghost use Rattle.std.specs.Prelude.{map};
    ghost use Rattle.pef_format.specs.Exports.{export_seen};
    ghost use Rattle.cfm_stubs.specs.NumberStubs.{MadeStub};

    ghost Value = { MadeStub };

    ghost view = { λ s. record { name = s.name.now; exports = map export_seen s.exports.items; bytes = s.bytes.items } };
}

impl<'a> Stub<'a> {
    /// Returns the library's name.
    pub fn name(&self) -> &'a [u8]
        ensures { result.now ≡ self.now.name }
    {
        self.name
    }

    /// Returns how many symbols there are.
    pub fn len(&self) -> usize
        ensures { result ≡ length self.now.exports }
    {
        self.exports.len()
    }

    /// Returns symbol `k` as the container exports it, or `None` past the last one. A number is an absolute value.
    pub fn export(&self, k: usize) -> Option<ExportView<'a>>
        ensures { option_map export_seen result ≡ slice_get self.now.exports k }
    {
        self.exports.get(k).copied()
    }

    /// Returns the container.
    pub fn bytes(&self) -> &[u8]
        ensures { result.now ≡ self.now.bytes }
    {
        &self.bytes
    }

    /// Returns the container.
    pub fn into_bytes(self) -> Vec<u8>
        ensures { result.items ≡ self.entry.bytes }
    {
        self.bytes
    }
}
