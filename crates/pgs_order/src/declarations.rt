use crate::members::{choose_fails, find_group};
use pgs_lines::Call;
use sqlite_items::Items;
use std::alloc::{AllocError, Global};

/// An OSD that a script declares.
#[derive(Clone, Copy, Drop)]
pub struct Osd {
    /// Its number.
    pub osd: u32,
    /// How many scrubs may run on it at once.
    pub slots: u32,
}

/// A group that a script declares.
#[derive(Drop)]
pub struct Group {
    /// Its number.
    pub group: u32,
    /// The epoch in which it begins.
    pub epoch: u32,
    /// Its members, all of them acting. The first is the primary.
    pub members: Items<u32>,
}

/// A call of a device that is declared to fail.
#[derive(Clone, Copy, Drop)]
pub struct Fail {
    /// The group that the device stores.
    pub group: u32,
    /// The OSD whose device it is.
    pub osd: u32,
    /// What the call does.
    pub call: Call,
    /// Which call of those that do this, from 1.
    pub number: u32,
}

/// What a script declares before its steps.
#[derive(Drop)]
pub struct Declarations {
    /// The bits of the pool, once they are declared.
    pub bits: Option<u32>,
    /// The OSDs, in order.
    pub osds: Items<Osd>,
    /// The groups, in order.
    pub groups: Items<Group>,
    /// The calls that fail, in order.
    pub fails: Items<Fail>,
}

impl Declarations {
    ghost use Rattle.std.specs.Prelude.{◌≡◌, IfOk};
    ghost use Rattle.std.specs.Option.{option_copied};
    ghost use Rattle.pgs_order.specs.Order.{nothing_declared, group_of, fails_of};

    /// Nothing is declared. It takes no memory.
    pub fn new(alloc: Global) -> Declarations
        ensures { result ≡ nothing_declared }
    {
        Declarations {
            bits: None,
            osds: Items::new(alloc),
            groups: Items::new(alloc),
            fails: Items::new(alloc),
        }
    }

    /// The group of this number.
    pub fn group(&self, number: u32) -> Option<&Group>
        ensures { option_copied result ≡ group_of self.now.groups number }
    {
        find_group(self.groups.as_slice(), number)
    }

    /// The calls that fail of the device by which an OSD stores a group, in order.
    pub fn failing(&self, alloc: Global, group: u32, osd: u32) -> Result<Items<Fail>, AllocError>
        ensures { IfOk result (λ fails. fails ≡ fails_of group osd self.now.fails) }
    {
        choose_fails(alloc, self.fails.as_slice(), group, osd)
    }
}
