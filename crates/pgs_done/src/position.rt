use pgs_lines::Object;

/// An object's head, or one of its clones: the words SPACE KEY NAME SNAP.
#[derive(Drop)]
pub struct Position {
    /// The object.
    pub object: Object,
    /// The clone's snap, and none for the head.
    pub snap: Option<u64>,
}
