/// The word SNAP of a line.
#[derive(Clone, Copy, Drop)]
pub enum Snap {
    /// `head`: the object itself and none of its clones.
    Head,
    /// One of its clones.
    Clone {
        /// The clone's snap, from 1.
        snap: u32,
    },
}
