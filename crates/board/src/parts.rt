// What a line can spoil.

// Some of the parts of what lines lend and set, a bit each.
#[derive(Clone, Copy)]
pub struct Parts(u32);

impl Parts {
    pub const NONE: Parts = Parts(0);

    pub const ELEMENTS: Parts = Parts(1);

    pub const BUFFER: Parts = Parts(2);
    // both of these
    pub const PACKED: Parts = Parts(Parts::ELEMENTS.0 | Parts::BUFFER.0);

    pub const SAMPLES: Parts = Parts(4);
    // the region table
    pub const TABLE: Parts = Parts(8);
    // the settings of the lookup
    pub const X: Parts = Parts(16);

    pub const Y: Parts = Parts(32);

    pub const PRIORITIES: Parts = Parts(64);

    pub const SETTINGS: Parts = Parts(Parts::X.0 | Parts::Y.0 | Parts::PRIORITIES.0);

    pub const COUNTERS: Parts = Parts(128);

    pub const ALL: Parts = Parts(255);

    // These and others.
    pub fn with(self, others: Parts) -> Parts {
        Parts(self.0 | others.0)
    }

    // These without others.
    pub fn without(self, others: Parts) -> Parts {
        Parts(self.0 & !others.0)
    }

    // Whether others are among these.
    pub fn meets(self, others: Parts) -> bool {
        self.0 & others.0 != 0
    }
}
