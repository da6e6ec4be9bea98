/// What the symbols of stubs are.
#[derive(Clone, Copy, Debug, PartialEq, Eq)]
pub enum StubValues {
    /// Absolute numbers: the first symbol has `first`, and each later one `step` more than the one before it.
    Numbers { first: u32, step: u32 },
    /// Memory: a symbol of code is a word, which an emulator catches, and a `blr`. A transition vector leads to such code. A symbol
    /// of data or TOC is `size` zeros.
    Memory { word: u32, size: u32 },
}
