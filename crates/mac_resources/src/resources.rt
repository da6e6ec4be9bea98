ghost use Rattle.std.specs.Prelude.{◌≡◌, ◌<◌, ◌≤◌, ◌∷◌, Err, MatchOption};
ghost use Rattle.pef_words.specs.Refusals.{result_map};
ghost use Rattle.mac_resources.specs.Resources.{all_resources};
ghost use Rattle.mac_resources.specs.References.{list_count};
ghost use Rattle.mac_resources.specs.Views.{fork_seen, left, resource_seen};

use crate::fault::ResourceFault;
use crate::fork::ResourceFork;
use crate::layout::{LAST_AT, REFERENCE_SIZE};
use crate::reference::ResourceType;
use crate::resource::{ReferenceList, Resource};
use pef_words::Cut;

/// An iterator over the resources of a fork and their errors. [`ResourceFork::resources`] makes it.
#[derive(Clone, Copy, Debug)]
pub struct Resources<'a> {
    fork: ResourceFork<'a>,
    /// The list that is being read, and the next row of it.
    list: ReferenceList,
    row: u16,
    /// The next type.
    type_row: u16,
    /// How many references the lists that follow may have.
    budget: usize,
}

impl<'a> Resources<'a> {
    /// Returns an iterator over the resources of a fork.
    pub(crate) fn new(fork: ResourceFork<'a>) -> Resources<'a>
        ensures { left result ≡ all_resources (fork_seen fork.entry) }
    {
        let none = ResourceType {
            code: 0,
            last: 0xFFFF,
            list_offset: 0,
        };
        Resources {
            fork,
            list: ReferenceList {
                type_row: 0,
                kind: none,
            },
            row: 0,
            type_row: 0,
            budget: fork.map.len() / REFERENCE_SIZE,
        }
    }

    /// Begins the list of the next type, or returns its error.
    fn begin_list(&mut self) -> Option<ResourceFault>
        requires done { list_count self.old.list.kind ≤ self.old.row }
        requires more { self.old.type_row < self.old.fork.type_count }
        ensures value { MatchOption result (left self.new ≡ left self.old)
            (λ fault. left self.old ≡ Err fault ∷ left self.new) }
        ensures on { self.old.type_row < self.new.type_row }
        ensures same { self.new.fork ≡ self.old.fork }
    {
        let type_row = self.type_row;
        let kind = match self.fork.type_at(type_row) {
            Ok(kind) => kind,
            Err(fault) => {
                self.type_row = self.fork.type_count;
                return Some(fault);
            }
        };
        self.type_row += 1;
        let count = usize::from(kind.count());
        if count > self.budget {
            return Some(ResourceFault::TooManyReferences {
                type_row,
                offset: self.fork.header.map_offset as usize
                    + self.fork.type_place(type_row)
                    + LAST_AT,
            });
        }
        self.budget -= count;
        self.list = ReferenceList { type_row, kind };
        self.row = 0;
        None
    }

    /// Returns the resource in the next row of the list, or its error, which ends the list.
    fn next_row(&mut self) -> Result<Resource<'a>, ResourceFault>
        requires { self.old.row < list_count self.old.list.kind }
        ensures { left self.old ≡ result_map resource_seen result ∷ left self.new }
    {
        let next = self.fork.resource_at(self.list, self.row);
        match next {
            Ok(_) => self.row += 1,
            Err(_) => self.row = self.list.kind.count(),
        }
        next
    }
}

impl<'a> Iterator for Resources<'a> {
    ghost use Rattle.std.specs.Iterator.{YieldsFirstBy, item_count};
    ghost use Rattle.mac_resources.specs.Views.{left, row_seen};

    type Item = Result<Resource<'a>, ResourceFault>;

    ghost next_gives = { YieldsFirstBy row_seen left };

    ghost remaining = { item_count left };

    fn next(&mut self) -> Option<Result<Resource<'a>, ResourceFault>> {
        'lists: while self.row >= self.list.kind.count() {
            if self.type_row >= self.fork.type_count {
                return None;
            }
            match self.begin_list() {
                Some(fault) => return Some(Err(fault)),
                None => {}
            }
        }
        Some(self.next_row())
    }
}
