//! Copies of the object `a` as plain values.
use pgs_name::HEAD;
use pgs_request::Version;

/// The digest that good copies have of their data and record. Digests are only compared, so any number serves.
pub const DATA: u32 = 11;

/// That of their omap.
pub const OMAP: u32 = 22;

/// A digest that no good copy has.
pub const OTHER: u32 = 99;

/// What a copy's info records.
#[derive(Clone, Copy, Drop)]
pub struct InfoSketch {
    /// The snap of the position that it names.
    pub snap: u64,
    pub version: Version,
    /// The number of the version before it, in the epoch 4.
    pub prior: u64,
    pub size: u64,
    pub data_digest: Option<u32>,
    pub omap_digest: Option<u32>,
}

/// What the attribute `_` of a copy is.
#[derive(Clone, Copy, Drop)]
pub enum InfoAttr {
    Absent,
    /// It is there, and doesn't spell an info.
    Garbled,
    Spelled { info: InfoSketch },
}

/// The snap and the size of a clone that a snapset lists. The clone holds the object for its own snap.
pub type Listed = (u64, u64);

/// What the attribute `snapset` of a copy is.
#[derive(Clone, Copy, Drop)]
pub enum SnapsetAttr {
    Absent,
    /// It is there, and doesn't spell a snapset.
    Garbled,
    Spelled {
        seq: u64,
        clones: [Option<Listed>; 3],
    },
}

/// What a member tells of one copy.
#[derive(Clone, Copy, Drop)]
pub struct Sketch {
    pub snap: u64,
    pub stat_failed: bool,
    pub read_failed: bool,
    pub size: u64,
    pub info: InfoAttr,
    pub snapset: SnapsetAttr,
    /// The user attribute `_color`.
    pub color: Option<&'static str>,
    /// Whether it has the user attribute `_more`.
    pub more: bool,
    pub data_digest: Option<u32>,
    pub omap_digest: Option<u32>,
}

/// What is recorded of a good copy: the version 4'2, the one before it, 7 bytes, and both digests.
pub fn recorded(snap: u64) -> InfoSketch {
    InfoSketch {
        snap,
        version: Version {
            epoch: 4,
            number: 2,
        },
        prior: 1,
        size: 7,
        data_digest: Some(DATA),
        omap_digest: Some(OMAP),
    }
}

/// A good copy of the head, which has no clones.
pub fn head() -> Sketch {
    Sketch {
        snap: HEAD,
        stat_failed: false,
        read_failed: false,
        size: 7,
        info: InfoAttr::Spelled {
            info: recorded(HEAD),
        },
        snapset: SnapsetAttr::Spelled {
            seq: 0,
            clones: [None, None, None],
        },
        color: Some("red"),
        more: false,
        data_digest: Some(DATA),
        omap_digest: Some(OMAP),
    }
}

/// A good copy of a clone.
pub fn clone_at(snap: u64) -> Sketch {
    Sketch {
        snap,
        info: InfoAttr::Spelled {
            info: recorded(snap),
        },
        snapset: SnapsetAttr::Absent,
        ..head()
    }
}

impl Sketch {
    /// It has the mark that the device failed at its size and attributes.
    pub fn marked_unstated(self) -> Sketch {
        Sketch {
            stat_failed: true,
            ..self
        }
    }

    /// The device failed at its size and attributes, so nothing else is told.
    pub fn unstated(self) -> Sketch {
        Sketch {
            size: 0,
            ..self.without_attrs().without_digests().marked_unstated()
        }
    }

    /// It has no attribute.
    pub fn without_attrs(self) -> Sketch {
        Sketch {
            info: InfoAttr::Absent,
            snapset: SnapsetAttr::Absent,
            color: None,
            more: false,
            ..self
        }
    }

    /// The device failed at its data or omap, so there are no digests.
    pub fn unread(self) -> Sketch {
        Sketch {
            read_failed: true,
            ..self.without_digests()
        }
    }

    /// Its data and omap weren't read, as in a shallow scrub.
    pub fn without_digests(self) -> Sketch {
        self.with_digests(None, None)
    }

    /// It has these digests.
    pub fn with_digests(self, data_digest: Option<u32>, omap_digest: Option<u32>) -> Sketch {
        Sketch {
            data_digest,
            omap_digest,
            ..self
        }
    }

    /// Its data has another digest.
    pub fn with_other_data(self) -> Sketch {
        self.with_digests(Some(OTHER), self.omap_digest)
    }

    /// Its omap has another digest.
    pub fn with_other_omap(self) -> Sketch {
        self.with_digests(self.data_digest, Some(OTHER))
    }

    pub fn with_size(self, size: u64) -> Sketch {
        Sketch { size, ..self }
    }

    pub fn with_info(self, info: InfoSketch) -> Sketch {
        self.with_info_attr(InfoAttr::Spelled { info })
    }

    pub fn with_info_attr(self, info: InfoAttr) -> Sketch {
        Sketch { info, ..self }
    }

    /// A snapset that lists these clones.
    pub fn with_clones(self, seq: u64, clones: [Option<Listed>; 3]) -> Sketch {
        self.with_snapset_attr(SnapsetAttr::Spelled { seq, clones })
    }

    pub fn with_snapset_attr(self, snapset: SnapsetAttr) -> Sketch {
        Sketch { snapset, ..self }
    }

    pub fn with_color(self, color: Option<&'static str>) -> Sketch {
        Sketch { color, ..self }
    }

    /// It has the attribute `_more`.
    pub fn with_more(self) -> Sketch {
        Sketch { more: true, ..self }
    }
}

impl InfoSketch {
    /// The version before has another number.
    pub fn after(self, prior: u64) -> InfoSketch {
        InfoSketch { prior, ..self }
    }

    pub fn at_version(self, epoch: u32, number: u64) -> InfoSketch {
        InfoSketch {
            version: Version { epoch, number },
            ..self
        }
    }

    pub fn of_size(self, size: u64) -> InfoSketch {
        InfoSketch { size, ..self }
    }

    pub fn with_digests(self, data_digest: Option<u32>, omap_digest: Option<u32>) -> InfoSketch {
        InfoSketch {
            data_digest,
            omap_digest,
            ..self
        }
    }
}
