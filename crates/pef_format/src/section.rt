ghost use Rattle.std.specs.Prelude.{◌≡◌};
ghost use Rattle.pef_format.specs.Sections.{is_instantiable, is_loader, is_packed, kind_code, kind_of, share_code, share_of};

use crate::layout::{
    CODE_SECTION, CONSTANT_SECTION, DEBUG_SECTION, EXCEPTION_SECTION, EXECUTABLE_DATA_SECTION,
    GLOBAL_SHARE, LOADER_SECTION, PATTERN_DATA_SECTION, PROCESS_SHARE, PROTECTED_SHARE,
    TRACEBACK_SECTION, UNPACKED_DATA_SECTION,
};

/// What a section is for (sectionKind of PEFSectionHeader).
#[derive(Clone, Copy, Debug, PartialEq, Eq)]
pub enum SectionKind {
    /// Code that isn't written to.
    Code,
    /// Data whose image is in the container as it is.
    UnpackedData,
    /// Data whose image is packed.
    PatternData,
    /// Data that isn't written to.
    Constant,
    /// Imports, exports and relocations.
    Loader,
    /// For debuggers.
    Debug,
    /// Code that is written to.
    ExecutableData,
    /// For exceptions.
    Exception,
    /// For tracebacks.
    Traceback,
    /// A code that the format doesn't name.
    Other(u8),
}

impl SectionKind {
    /// Returns the kind with a code.
    #[tactic(auto, unfolding(crate::specs::Sections::kind_of))]
    pub fn from_code(code: u8) -> SectionKind
        ensures { result ≡ kind_of code }
    {
        match code {
            CODE_SECTION => SectionKind::Code,
            UNPACKED_DATA_SECTION => SectionKind::UnpackedData,
            PATTERN_DATA_SECTION => SectionKind::PatternData,
            CONSTANT_SECTION => SectionKind::Constant,
            LOADER_SECTION => SectionKind::Loader,
            DEBUG_SECTION => SectionKind::Debug,
            EXECUTABLE_DATA_SECTION => SectionKind::ExecutableData,
            EXCEPTION_SECTION => SectionKind::Exception,
            TRACEBACK_SECTION => SectionKind::Traceback,
            _ => SectionKind::Other(code),
        }
    }

    /// Returns the code of a kind.
    pub fn code(self) -> u8
        ensures { result ≡ kind_code self }
    {
        match self {
            SectionKind::Code => CODE_SECTION,
            SectionKind::UnpackedData => UNPACKED_DATA_SECTION,
            SectionKind::PatternData => PATTERN_DATA_SECTION,
            SectionKind::Constant => CONSTANT_SECTION,
            SectionKind::Loader => LOADER_SECTION,
            SectionKind::Debug => DEBUG_SECTION,
            SectionKind::ExecutableData => EXECUTABLE_DATA_SECTION,
            SectionKind::Exception => EXCEPTION_SECTION,
            SectionKind::Traceback => TRACEBACK_SECTION,
            SectionKind::Other(code) => code,
        }
    }

    /// Returns whether sections of a kind may be instantiated.
    pub fn is_instantiable(self) -> bool
        ensures { result ≡ is_instantiable self }
    {
        match self {
            SectionKind::Code
            | SectionKind::UnpackedData
            | SectionKind::PatternData
            | SectionKind::Constant
            | SectionKind::ExecutableData => true,
            SectionKind::Loader
            | SectionKind::Debug
            | SectionKind::Exception
            | SectionKind::Traceback
            | SectionKind::Other(_) => false,
        }
    }

    /// Returns whether the raw bytes of a section of a kind are its image packed.
    pub fn is_packed(self) -> bool
        ensures { result ≡ is_packed self }
    {
        matches!(self, SectionKind::PatternData)
    }

    /// Returns whether a section of a kind has imports, exports and relocations.
    pub fn is_loader(self) -> bool
        ensures { result ≡ is_loader self }
    {
        matches!(self, SectionKind::Loader)
    }
}

/// How instances of a section are shared (shareKind of PEFSectionHeader).
#[derive(Clone, Copy, Debug, PartialEq, Eq)]
pub enum Share {
    /// The connections of one process.
    Process,
    /// All processes.
    Global,
    /// All processes, and only privileged code may write to it.
    Protected,
    /// A code that the format doesn't name.
    Other(u8),
}

impl Share {
    /// Returns the share with a code.
    #[tactic(auto, unfolding(crate::specs::Sections::share_of))]
    pub fn from_code(code: u8) -> Share
        ensures { result ≡ share_of code }
    {
        match code {
            PROCESS_SHARE => Share::Process,
            GLOBAL_SHARE => Share::Global,
            PROTECTED_SHARE => Share::Protected,
            _ => Share::Other(code),
        }
    }

    /// Returns the code of a share.
    pub fn code(self) -> u8
        ensures { result ≡ share_code self }
    {
        match self {
            Share::Process => PROCESS_SHARE,
            Share::Global => GLOBAL_SHARE,
            Share::Protected => PROTECTED_SHARE,
            Share::Other(code) => code,
        }
    }
}
