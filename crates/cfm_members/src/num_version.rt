ghost use Rattle.std.specs.Prelude.{◌≡◌};
ghost use Rattle.cfm_members.specs.Versions.{stage_of, version_of};

/// How finished a version is.
#[derive(Clone, Copy, Debug, PartialEq, Eq)]
pub enum Stage {
    Development,
    Alpha,
    Beta,
    Final,
    /// Another code.
    Other(u8),
}

/// The parts of a version number, as they are by custom (NumVersion): 01206003 (hexadecimal) is 1.2b3.
#[derive(Clone, Copy, Debug, PartialEq, Eq)]
pub struct NumVersion {
    /// Two decimal digits. A digit above 9 counts as it is.
    pub major: u8,
    pub minor: u8,
    pub bug: u8,
    pub stage: Stage,
    /// The number of the version before the final one.
    pub release: u8,
}

impl NumVersion {
    /// Returns the parts of a version number.
    pub fn from_number(number: u32) -> NumVersion
        ensures { result ≡ version_of number }
    {
        NumVersion {
            major: (number / 0x1000_0000 * 10 + number / 0x0100_0000 % 16) as u8,
            minor: (number / 0x0010_0000 % 16) as u8,
            bug: (number / 0x0001_0000 % 16) as u8,
            stage: Stage::from_code((number / 256 % 256) as u8),
            release: (number % 256) as u8,
        }
    }
}

impl Stage {
    /// Returns the stage with a code.
    pub fn from_code(code: u8) -> Stage
        ensures { result ≡ stage_of code }
    {
        match code {
            0x20 => Stage::Development,
            0x40 => Stage::Alpha,
            0x60 => Stage::Beta,
            0x80 => Stage::Final,
            other => Stage::Other(other),
        }
    }
}
