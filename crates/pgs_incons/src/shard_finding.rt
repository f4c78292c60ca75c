use pgs_find::ShardErrors;

/// What was found of one acting OSD's copy.
#[derive(Clone, Copy, Drop)]
pub struct ShardFinding {
    pub osd: u32,
    /// Whether the OSD was the primary.
    pub primary: bool,
    pub errors: ShardErrors,
    /// How many bytes its data had, where that was told.
    pub size: Option<u64>,
    pub data_digest: Option<u32>,
    pub omap_digest: Option<u32>,
}
