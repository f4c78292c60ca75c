use sqlite_items::Items;

/// Which members act, and since which epoch.
#[derive(Drop)]
pub struct Acting {
    /// The epoch.
    pub epoch: u32,
    /// Those members, in order, where the list changed; else all members act.
    pub osds: Option<Items<u32>>,
}
