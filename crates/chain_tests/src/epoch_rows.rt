//! Plans with switches, what `remux` writes of their inputs and what is received of it, as rows of tables.

use crate::plans::{
    DEEP, PARTIAL_AND_WIDE, PlanRow, SECOND_MODE, SHALLOW, SINGLE, SwitchRow, THREE_DEEP,
    THREE_QUARTERS, THREE_SHALLOW,
};
use isdbt_base::{Guard, Mode};

/// Frames one behind the other: how many, their slots, and the input packets of each layer in each of them.
pub struct FramesRow {
    pub frames: usize,
    pub slots: usize,
    pub placed: [usize; 3],
}

/// The frames of an epoch that are there: how many, their slots, and how many frames late each layer's packets are received.
#[derive(Clone, Copy)]
pub struct DelaysRow {
    pub frames: usize,
    pub slots: usize,
    pub delays: [usize; 3],
}

/// A plan with switches, the packets of each layer's input, the frames that are written, and its epochs.
pub struct EpochsRow {
    pub first: PlanRow,
    pub switches: &'static [SwitchRow],
    pub packets: [usize; 3],
    pub frames: &'static [FramesRow],
    pub epochs: &'static [DelaysRow],
}

/// An announced switch; a mode that changes; empty inputs; a switch one frame after another; an epoch shorter than the delay;
/// two layers with delays of their own; three layers from deep time interleaving to none, over all modes, with an epoch of
/// one frame.
pub const EPOCHS: [EpochsRow; 7] = [
    EpochsRow {
        first: SINGLE,
        switches: &[SwitchRow {
            frame: 20,
            to: THREE_QUARTERS,
        }],
        packets: [3000, 0, 0],
        frames: &[
            FramesRow {
                frames: 18,
                slots: 1280,
                placed: [156, 0, 0],
            },
            FramesRow {
                frames: 2,
                slots: 1280,
                placed: [0, 0, 0],
            },
            FramesRow {
                frames: 1,
                slots: 1280,
                placed: [192, 0, 0],
            },
            FramesRow {
                frames: 4,
                slots: 1280,
                placed: [0, 0, 0],
            },
        ],
        epochs: &[
            DelaysRow {
                frames: 20,
                slots: 1280,
                delays: [2, 0, 0],
            },
            DelaysRow {
                frames: 5,
                slots: 1280,
                delays: [4, 0, 0],
            },
        ],
    },
    EpochsRow {
        first: SINGLE,
        switches: &[SwitchRow {
            frame: 4,
            to: SECOND_MODE,
        }],
        packets: [400, 0, 0],
        frames: &[
            FramesRow {
                frames: 2,
                slots: 1280,
                placed: [156, 0, 0],
            },
            FramesRow {
                frames: 2,
                slots: 1280,
                placed: [0, 0, 0],
            },
            FramesRow {
                frames: 1,
                slots: 2304,
                placed: [88, 0, 0],
            },
            FramesRow {
                frames: 2,
                slots: 2304,
                placed: [0, 0, 0],
            },
        ],
        epochs: &[
            DelaysRow {
                frames: 4,
                slots: 1280,
                delays: [2, 0, 0],
            },
            DelaysRow {
                frames: 3,
                slots: 2304,
                delays: [2, 0, 0],
            },
        ],
    },
    EpochsRow {
        first: SINGLE,
        switches: &[
            SwitchRow {
                frame: 3,
                to: SECOND_MODE,
            },
            SwitchRow {
                frame: 5,
                to: SINGLE,
            },
        ],
        packets: [0, 0, 0],
        frames: &[
            FramesRow {
                frames: 3,
                slots: 1280,
                placed: [0, 0, 0],
            },
            FramesRow {
                frames: 2,
                slots: 2304,
                placed: [0, 0, 0],
            },
        ],
        epochs: &[
            DelaysRow {
                frames: 3,
                slots: 1280,
                delays: [2, 0, 0],
            },
            DelaysRow {
                frames: 2,
                slots: 2304,
                delays: [2, 0, 0],
            },
        ],
    },
    EpochsRow {
        first: SINGLE,
        switches: &[
            SwitchRow {
                frame: 3,
                to: THREE_QUARTERS,
            },
            SwitchRow {
                frame: 4,
                to: SINGLE,
            },
        ],
        packets: [1000, 0, 0],
        frames: &[
            FramesRow {
                frames: 1,
                slots: 1280,
                placed: [156, 0, 0],
            },
            FramesRow {
                frames: 3,
                slots: 1280,
                placed: [0, 0, 0],
            },
            FramesRow {
                frames: 5,
                slots: 1280,
                placed: [156, 0, 0],
            },
            FramesRow {
                frames: 1,
                slots: 1280,
                placed: [64, 0, 0],
            },
            FramesRow {
                frames: 2,
                slots: 1280,
                placed: [0, 0, 0],
            },
        ],
        epochs: &[
            DelaysRow {
                frames: 3,
                slots: 1280,
                delays: [2, 0, 0],
            },
            DelaysRow {
                frames: 1,
                slots: 1280,
                delays: [4, 0, 0],
            },
            DelaysRow {
                frames: 8,
                slots: 1280,
                delays: [2, 0, 0],
            },
        ],
    },
    EpochsRow {
        first: DEEP,
        switches: &[SwitchRow {
            frame: 5,
            to: SINGLE,
        }],
        packets: [1, 0, 0],
        frames: &[
            FramesRow {
                frames: 5,
                slots: 1280,
                placed: [0, 0, 0],
            },
            FramesRow {
                frames: 1,
                slots: 1280,
                placed: [1, 0, 0],
            },
            FramesRow {
                frames: 2,
                slots: 1280,
                placed: [0, 0, 0],
            },
        ],
        epochs: &[
            DelaysRow {
                frames: 5,
                slots: 1280,
                delays: [10, 0, 0],
            },
            DelaysRow {
                frames: 3,
                slots: 1280,
                delays: [2, 0, 0],
            },
        ],
    },
    EpochsRow {
        first: PARTIAL_AND_WIDE,
        switches: &[SwitchRow {
            frame: 6,
            to: SHALLOW,
        }],
        packets: [200, 6000, 0],
        frames: &[
            FramesRow {
                frames: 2,
                slots: 4608,
                placed: [64, 2592, 0],
            },
            FramesRow {
                frames: 1,
                slots: 4608,
                placed: [0, 816, 0],
            },
            FramesRow {
                frames: 3,
                slots: 4608,
                placed: [0, 0, 0],
            },
            FramesRow {
                frames: 1,
                slots: 4608,
                placed: [64, 0, 0],
            },
            FramesRow {
                frames: 1,
                slots: 4608,
                placed: [8, 0, 0],
            },
            FramesRow {
                frames: 2,
                slots: 4608,
                placed: [0, 0, 0],
            },
        ],
        epochs: &[
            DelaysRow {
                frames: 6,
                slots: 4608,
                delays: [4, 3, 0],
            },
            DelaysRow {
                frames: 4,
                slots: 4608,
                delays: [2, 2, 0],
            },
        ],
    },
    EpochsRow {
        first: THREE_DEEP,
        switches: &[
            SwitchRow {
                frame: 12,
                to: PlanRow {
                    mode: Mode::M2,
                    guard: Guard::G16,
                    ..THREE_SHALLOW
                },
            },
            SwitchRow {
                frame: 13,
                to: PlanRow {
                    mode: Mode::M3,
                    guard: Guard::G32,
                    ..THREE_SHALLOW
                },
            },
        ],
        packets: [40, 600, 3500],
        frames: &[
            FramesRow {
                frames: 2,
                slots: 1280,
                placed: [16, 96, 432],
            },
            FramesRow {
                frames: 4,
                slots: 1280,
                placed: [0, 96, 432],
            },
            FramesRow {
                frames: 2,
                slots: 1280,
                placed: [0, 0, 432],
            },
            FramesRow {
                frames: 4,
                slots: 1280,
                placed: [0, 0, 0],
            },
            FramesRow {
                frames: 1,
                slots: 2176,
                placed: [0, 0, 0],
            },
            FramesRow {
                frames: 1,
                slots: 4224,
                placed: [8, 24, 44],
            },
            FramesRow {
                frames: 2,
                slots: 4224,
                placed: [0, 0, 0],
            },
        ],
        epochs: &[
            DelaysRow {
                frames: 12,
                slots: 1280,
                delays: [10, 6, 4],
            },
            DelaysRow {
                frames: 1,
                slots: 2176,
                delays: [2, 2, 2],
            },
            DelaysRow {
                frames: 3,
                slots: 4224,
                delays: [2, 2, 2],
            },
        ],
    },
];

/// The frames that are received of the announced switch: each packet as many frames later as its delay, which is 2 and then 4.
pub const RECEIVED: [FramesRow; 4] = [
    FramesRow {
        frames: 2,
        slots: 1280,
        placed: [0, 0, 0],
    },
    FramesRow {
        frames: 18,
        slots: 1280,
        placed: [156, 0, 0],
    },
    FramesRow {
        frames: 4,
        slots: 1280,
        placed: [0, 0, 0],
    },
    FramesRow {
        frames: 1,
        slots: 1280,
        placed: [192, 0, 0],
    },
];

/// The frames that are received where the mode changes: the delay is 2 in both epochs.
pub const RECEIVED_MODES: [FramesRow; 4] = [
    FramesRow {
        frames: 2,
        slots: 1280,
        placed: [0, 0, 0],
    },
    FramesRow {
        frames: 2,
        slots: 1280,
        placed: [156, 0, 0],
    },
    FramesRow {
        frames: 2,
        slots: 2304,
        placed: [0, 0, 0],
    },
    FramesRow {
        frames: 1,
        slots: 2304,
        placed: [88, 0, 0],
    },
];
