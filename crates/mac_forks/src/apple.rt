ghost use Rattle.std.specs.Prelude.{◌≡◌, option_map};
ghost use Rattle.pef_words.specs.Refusals.{result_map};
ghost use Rattle.mac_forks.specs.Apple.{
  apple_of,
  contents_in,
  contents_of,
  dates_in,
  dates_of,
  entry_at,
  entry_in,
  entry_of,
  finder_information_in,
  header_of,
  id_here,
  is_apple,
  is_double,
  macintosh_information_in,
  number_of,
  part_with,
  with_dates,
  with_finder_information,
  with_macintosh_information,
};
ghost use Rattle.mac_forks.specs.Views.{apple_seen, part_seen};

use crate::fault::{ForkFault, entry_at};
use crate::finder::{FinderInfo, read_finder};
use crate::fork_bytes::{ForkBytes, part_in};
use crate::layout::{
    APPLE_DOUBLE, APPLE_ENTRY_COUNT_AT, APPLE_FILLER_AT, APPLE_FILLER_SIZE, APPLE_SIGNATURE_AT,
    APPLE_SINGLE, APPLE_VERSION_1, APPLE_VERSION_2, APPLE_VERSION_AT, ENTRY_ID_AT, ENTRY_LENGTH_AT,
    ENTRY_OFFSET_AT, FILE_DATES, FINDER_INFORMATION, MACINTOSH_INFORMATION,
};
use pef_words::Cut;

/// The header of an AppleSingle or AppleDouble file, field by field, without its filler.
#[derive(Clone, Copy, Debug, PartialEq, Eq)]
pub struct AppleHeader {
    pub signature: u32,
    pub version: u32,
    pub entry_count: u16,
}

impl AppleHeader {
    /// Returns whether the file has all but the data fork.
    pub fn is_double(self) -> bool
        ensures { result ≡ is_double self }
    {
        self.signature == APPLE_DOUBLE
    }
}

/// The row of an entry, field by field: what it is, and where its bytes are in the file.
#[derive(Clone, Copy, Debug, PartialEq, Eq)]
pub struct AppleEntry {
    pub id: u32,
    pub offset: u32,
    pub length: u32,
}

/// The dates of a file: seconds since the first of January 2000, GMT.
#[derive(Clone, Copy, Debug, PartialEq, Eq)]
pub struct AppleDates {
    pub created: i32,
    pub modified: i32,
    pub backed_up: i32,
    pub accessed: i32,
}

/// A file in AppleSingle or AppleDouble. Each of its entries is read when it is asked for.
#[derive(Clone, Copy, Debug)]
pub struct AppleFile<'a> {
    cut: Cut<'a>,
    header: AppleHeader,
    filler: &'a [u8],
}

impl<'a> AppleFile<'a> {
    /// Returns whether some bytes begin as AppleSingle or AppleDouble.
    pub fn has_signature(bytes: &[u8]) -> bool
        ensures { result ≡ is_apple bytes.now }
    {
        match Cut::new(bytes).u32_at(APPLE_SIGNATURE_AT) {
            Some(signature) => signature == APPLE_SINGLE || signature == APPLE_DOUBLE,
            None => false,
        }
    }

    /// Reads the header of a file with such a signature.
    ///
    /// # Errors
    ///
    /// The header passes the end, or its version is unknown.
    #[tactic(auto, unfolding(crate::specs::Apple::apple_of))]
    pub fn read(bytes: &'a [u8]) -> Result<AppleFile<'a>, ForkFault>
        ensures { result_map apple_seen result ≡ apple_of bytes.entry.now }
    {
        let cut = Cut::new(bytes);
        let header = read_header(cut).ok_or(ForkFault::AppleHeaderCut)?;
        let filler = cut
            .part(APPLE_FILLER_AT, APPLE_FILLER_SIZE)
            .ok_or(ForkFault::AppleHeaderCut)?
            .bytes();
        if header.version != APPLE_VERSION_1 && header.version != APPLE_VERSION_2 {
            return Err(ForkFault::BadAppleVersion);
        }
        Ok(AppleFile {
            cut,
            header,
            filler,
        })
    }

    /// Returns the header.
    pub fn header(&self) -> AppleHeader
        ensures { result ≡ (apple_seen self.now).header }
    {
        self.header
    }

    /// Returns the 16 bytes between the version and the number of entries.
    pub fn filler(&self) -> &'a [u8]
        ensures { result.now ≡ (apple_seen self.now).filler }
    {
        self.filler
    }

    /// Returns entry `i`, or the error of its row. `None` past the last one.
    #[tactic(auto, unfolding(crate::specs::Apple::entry_of))]
    pub fn entry(&self, i: u16) -> Option<Result<AppleEntry, ForkFault>>
        ensures { result ≡ entry_of (apple_seen self.now) i }
    {
        if i >= self.header.entry_count {
            return None;
        }
        Some(read_entry(self.cut, i))
    }

    /// Returns the bytes of entry `i`, or the error of its row. `None` past the last one.
    #[tactic(auto, unfolding(crate::specs::Apple::contents_of))]
    pub fn contents(&self, i: u16) -> Option<Result<ForkBytes<'a>, ForkFault>>
        ensures { option_map (result_map part_seen) result ≡ contents_of (apple_seen self.now) i }
    {
        if i >= self.header.entry_count {
            return None;
        }
        Some(read_contents(self.cut, i))
    }

    /// Returns the number of the first entry with an id.
    pub fn position(&self, id: u32) -> Option<u16>
        ensures { result ≡ number_of (apple_seen self.now) id }
    {
        for i in 0..self.header.entry_count {
            match number_if(self.cut, id, i) {
                Some(number) => return Some(number),
                None => {}
            }
        }
        None
    }

    /// Returns the bytes of the first entry with an id, or its error. `None` if no entry has the id.
    pub fn find(&self, id: u32) -> Option<Result<ForkBytes<'a>, ForkFault>>
        ensures { option_map (result_map part_seen) result ≡ part_with (apple_seen self.now) id }
    {
        let i = self.position(id)?;
        Some(read_contents(self.cut, i))
    }

    /// Returns the dates, or the error of their entry. `None` if there is no entry.
    pub fn dates(&self) -> Option<Result<AppleDates, ForkFault>>
        ensures { result ≡ with_dates (apple_seen self.now) }
    {
        let i = self.position(FILE_DATES)?;
        Some(dates_in(self.cut, i))
    }

    /// Returns the Finder information, or the error of its entry. `None` if there is no entry.
    pub fn finder(&self) -> Option<Result<FinderInfo, ForkFault>>
        ensures { result ≡ with_finder_information (apple_seen self.now) }
    {
        let i = self.position(FINDER_INFORMATION)?;
        Some(finder_in(self.cut, i))
    }

    /// Returns the attributes of the file on a Macintosh, or the error of their entry. `None` if there is no entry.
    pub fn attributes(&self) -> Option<Result<u32, ForkFault>>
        ensures { result ≡ with_macintosh_information (apple_seen self.now) }
    {
        let i = self.position(MACINTOSH_INFORMATION)?;
        Some(attributes_in(self.cut, i))
    }
}

/// Reads a header, or returns `None` if it passes the end.
#[tactic(auto, unfolding(crate::specs::Apple::header_of))]
fn read_header(cut: Cut<'_>) -> Option<AppleHeader>
    ensures { result ≡ header_of cut.entry.bytes.now }
{
    Some(AppleHeader {
        signature: cut.u32_at(APPLE_SIGNATURE_AT)?,
        version: cut.u32_at(APPLE_VERSION_AT)?,
        entry_count: cut.u16_at(APPLE_ENTRY_COUNT_AT)?,
    })
}

/// Reads the row of entry `i`.
fn read_entry(cut: Cut<'_>, i: u16) -> Result<AppleEntry, ForkFault>
    ensures { result ≡ entry_in cut.entry.bytes.now i }
{
    entry_row(cut, i).ok_or(ForkFault::AppleEntryCut { entry: i })
}

/// Reads the row of entry `i`, or returns `None` if it passes the end.
#[tactic(auto, unfolding(crate::specs::Apple::entry_at))]
fn entry_row(cut: Cut<'_>, i: u16) -> Option<AppleEntry>
    ensures { result ≡ entry_at cut.entry.bytes.now i }
{
    let at = entry_at(i);
    Some(AppleEntry {
        id: cut.u32_at(at + ENTRY_ID_AT)?,
        offset: cut.u32_at(at + ENTRY_OFFSET_AT)?,
        length: cut.u32_at(at + ENTRY_LENGTH_AT)?,
    })
}

/// Returns `i` if entry `i` has an id.
fn number_if(cut: Cut<'_>, id: u32, i: u16) -> Option<u16>
    ensures { result ≡ id_here cut.entry.bytes.now id i }
{
    let entry = entry_row(cut, i)?;
    if entry.id == id { Some(i) } else { None }
}

/// Returns the bytes of entry `i`.
fn read_contents<'a>(cut: Cut<'a>, i: u16) -> Result<ForkBytes<'a>, ForkFault>
    ensures { result_map part_seen result ≡ contents_in cut.entry.bytes.now i }
{
    let entry = read_entry(cut, i)?;
    part_in(cut, entry.offset as usize, entry.length as usize).ok_or(ForkFault::AppleEntryOutside {
        entry: i,
    })
}

/// Reads the dates in the bytes of entry `i`.
fn dates_in(cut: Cut<'_>, i: u16) -> Result<AppleDates, ForkFault>
    ensures { result ≡ dates_in cut.entry.bytes.now i }
{
    let part = read_contents(cut, i)?;
    read_dates(part.bytes).ok_or(ForkFault::AppleEntryShort { entry: i })
}

/// Reads the Finder information in the bytes of entry `i`.
fn finder_in(cut: Cut<'_>, i: u16) -> Result<FinderInfo, ForkFault>
    ensures { result ≡ finder_information_in cut.entry.bytes.now i }
{
    let part = read_contents(cut, i)?;
    read_finder(part.bytes).ok_or(ForkFault::AppleEntryShort { entry: i })
}

/// Reads the attributes in the bytes of entry `i`.
fn attributes_in(cut: Cut<'_>, i: u16) -> Result<u32, ForkFault>
    ensures { result ≡ macintosh_information_in cut.entry.bytes.now i }
{
    let part = read_contents(cut, i)?;
    Cut::new(part.bytes)
        .u32_at(0)
        .ok_or(ForkFault::AppleEntryShort { entry: i })
}

/// Reads dates, or returns `None` if they pass the end.
#[tactic(auto, unfolding(crate::specs::Apple::dates_of))]
fn read_dates(bytes: &[u8]) -> Option<AppleDates>
    ensures { result ≡ dates_of bytes.now }
{
    let cut = Cut::new(bytes);
    Some(AppleDates {
        created: cut.i32_at(0)?,
        modified: cut.i32_at(4)?,
        backed_up: cut.i32_at(8)?,
        accessed: cut.i32_at(12)?,
    })
}
