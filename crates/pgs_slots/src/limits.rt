/// The most slots that an OSD has.
pub const MOST_SLOTS: u8 = 8;
