//! Lists of what the scrubs of a group found.
ghost use Rattle.std.specs.Prelude.{◌≡◌, OnOk};
ghost use Rattle.pgs_placement.specs.Lists as lists;

use super::PlacementGroup;
use pgs_bytes::Bytes;
use pgs_done::Done;
use pgs_list_json::{list_obj, list_snap};
use std::alloc::AllocError;

impl PlacementGroup {
    // Keeps a list as what was done.
    fn keep_list(&mut self, text: Bytes) -> Result<(), AllocError>
        ensures { OnOk result (self.new ≡ lists.after_listing text self.old) }
    {
        self.done.push(Done::Listed { text })?;
        Ok(())
    }

    /// Lists what was found of the copies of objects.
    pub fn list_obj(&mut self) -> Result<(), AllocError>
        ensures { OnOk result (self.new ≡ lists.after_listing (lists.obj_text self.old) self.old) }
    {
        let text = list_obj(self.alloc, self.group.epoch(), self.group.findings().list())?;
        self.keep_list(text)
    }

    /// Lists what was found of the snapshots of objects.
    pub fn list_snap(&mut self) -> Result<(), AllocError>
        ensures { OnOk result (self.new ≡ lists.after_listing (lists.snap_text self.old) self.old) }
    {
        let text = list_snap(
            self.alloc,
            self.group.epoch(),
            self.group.findings().list_snaps(),
        )?;
        self.keep_list(text)
    }
}
