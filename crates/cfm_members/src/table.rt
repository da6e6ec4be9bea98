ghost use Rattle.std.specs.Prelude.{◌≡◌, ◌<◌, ◌≤◌, ◌∷◌, length};
ghost use Rattle.pef_words.specs.Refusals.{result_map};
ghost use Rattle.cfm_members.specs.Members.{all_members, next_place, table_of};
ghost use Rattle.cfm_members.specs.Views.{left, row_seen, table_seen};

use crate::fault::MemberFault;
use crate::layout::{MEMBER_COUNT_AT, TABLE_HEADER_SIZE, TABLE_VERSION, TABLE_VERSION_AT};
use crate::member::{Member, MemberHeader};
use crate::reading::{member_at, read_header, size_fits};
use pef_words::Cut;

/// A table of fragments: the bytes of a resource `cfrg`. Its members are read when they are asked for.
#[derive(Clone, Copy, Debug)]
pub struct FragmentTable<'a> {
    cut: Cut<'a>,
    version: u16,
    member_count: u16,
}

impl<'a> FragmentTable<'a> {
    /// Reads the header of a table.
    ///
    /// # Errors
    ///
    /// The header passes the end, or else its version isn't 1.
    #[tactic(auto, unfolding(crate::specs::Members::table_of))]
    pub fn read(bytes: &'a [u8]) -> Result<FragmentTable<'a>, MemberFault>
        ensures { result_map table_seen result ≡ table_of bytes.entry.now }
    {
        let cut = Cut::new(bytes);
        let version = cut
            .u16_at(TABLE_VERSION_AT)
            .ok_or(MemberFault::FragmentTableCut)?;
        let member_count = cut
            .u16_at(MEMBER_COUNT_AT)
            .ok_or(MemberFault::FragmentTableCut)?;
        if version != TABLE_VERSION {
            return Err(MemberFault::BadFragmentTable);
        }
        Ok(FragmentTable {
            cut,
            version,
            member_count,
        })
    }

    /// Returns the version of the table.
    pub fn version(self) -> u16
        ensures { result ≡ (table_seen self.entry).version }
    {
        self.version
    }

    /// Returns how many members the table says that it has.
    pub fn member_count(self) -> u16
        ensures { result ≡ (table_seen self.entry).member_count }
    {
        self.member_count
    }

    /// Returns an iterator over the members. One whose fields pass the end is an error, and the last.
    pub fn members(self) -> Members<'a>
        ensures rows { left result ≡ all_members (table_seen self.entry) }
        ensures few { length (left result) ≤ (table_seen self.entry).member_count }
    {
        Members {
            table: self,
            at: TABLE_HEADER_SIZE,
            member: 0,
        }
    }
}

/// An iterator over the members of a table and their errors. [`FragmentTable::members`] makes it.
#[derive(Clone, Copy, Debug)]
pub struct Members<'a> {
    table: FragmentTable<'a>,
    /// Where the next member begins.
    at: usize,
    /// The number of the next member.
    member: u16,
}

impl<'a> Members<'a> {
    /// Returns the next member, or its error, which is the last.
    #[tactic(auto, using(crate::proofs::MemberLemmas::header_inside))]
    fn next_member(&mut self) -> Result<Member<'a>, MemberFault>
        requires { self.old.member < self.old.table.member_count }
        ensures { left self.old ≡ row_seen result ∷ left self.new }
    {
        let member = self.member;
        let cut = self.table.cut;
        let at = self.at;
        match read_header(cut, at) {
            Some(header) => {
                self.at = next_place(cut, at, header);
                self.member += 1;
                Ok(member_at(cut, at, member, header))
            }
            None => {
                self.member = self.table.member_count;
                Err(MemberFault::MemberCut { member, offset: at })
            }
        }
    }
}

/// Returns where the member after one begins. If the size doesn't lead to it, it is at the end, and so isn't there.
fn next_place(cut: Cut<'_>, at: usize, header: MemberHeader) -> usize
    requires { at ≤ length cut.bytes.now }
    ensures { result ≡ next_place cut.entry.bytes.now at header }
{
    if size_fits(cut, at, header) {
        at + usize::from(header.size)
    } else {
        cut.len()
    }
}

impl<'a> Iterator for Members<'a> {
    ghost use Rattle.std.specs.Iterator.{YieldsFirstBy, item_count};
    ghost use Rattle.cfm_members.specs.Views.{left, row_seen};

    type Item = Result<Member<'a>, MemberFault>;

    ghost next_gives = { YieldsFirstBy row_seen left };

    ghost remaining = { item_count left };

    fn next(&mut self) -> Option<Result<Member<'a>, MemberFault>> {
        if self.member >= self.table.member_count {
            return None;
        }
        Some(self.next_member())
    }
}
