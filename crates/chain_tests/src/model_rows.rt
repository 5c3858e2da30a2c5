//! Twelve settings of all kinds, whose cells are compared with those of the second coder.

use crate::plans::{LayerRow, PlanRow};
use isdbt_base::{DepthCode, Guard, Mode, Modulation, Rate};

/// A plan, the data carriers of its segments, the slots of its frames, and the frames that are coded.
pub struct CellRow {
    pub plan: PlanRow,
    pub carriers: usize,
    pub slots: usize,
    pub frames: usize,
}

pub const SHALLOW: [CellRow; 4] = [
    CellRow {
        plan: PlanRow {
            mode: Mode::M1,
            guard: Guard::G4,
            is_partial: false,
            layers: &[LayerRow {
                segments: 13,
                modulation: Modulation::Qpsk,
                rate: Rate::R12,
                depth: DepthCode::D0,
            }],
        },
        carriers: 96,
        slots: 1280,
        frames: 2,
    },
    CellRow {
        plan: PlanRow {
            mode: Mode::M1,
            guard: Guard::G8,
            is_partial: true,
            layers: &[
                LayerRow {
                    segments: 1,
                    modulation: Modulation::Qpsk,
                    rate: Rate::R23,
                    depth: DepthCode::D1,
                },
                LayerRow {
                    segments: 5,
                    modulation: Modulation::Qam16,
                    rate: Rate::R34,
                    depth: DepthCode::D2,
                },
                LayerRow {
                    segments: 7,
                    modulation: Modulation::Qam64,
                    rate: Rate::R78,
                    depth: DepthCode::D0,
                },
            ],
        },
        carriers: 96,
        slots: 1152,
        frames: 3,
    },
    CellRow {
        plan: PlanRow {
            mode: Mode::M1,
            guard: Guard::G16,
            is_partial: false,
            layers: &[
                LayerRow {
                    segments: 2,
                    modulation: Modulation::Qam64,
                    rate: Rate::R56,
                    depth: DepthCode::D0,
                },
                LayerRow {
                    segments: 3,
                    modulation: Modulation::Qpsk,
                    rate: Rate::R78,
                    depth: DepthCode::D1,
                },
                LayerRow {
                    segments: 8,
                    modulation: Modulation::Qam16,
                    rate: Rate::R12,
                    depth: DepthCode::D2,
                },
            ],
        },
        carriers: 96,
        slots: 1088,
        frames: 3,
    },
    CellRow {
        plan: PlanRow {
            mode: Mode::M1,
            guard: Guard::G32,
            is_partial: false,
            layers: &[
                LayerRow {
                    segments: 5,
                    modulation: Modulation::Qam16,
                    rate: Rate::R23,
                    depth: DepthCode::D2,
                },
                LayerRow {
                    segments: 4,
                    modulation: Modulation::Qam64,
                    rate: Rate::R12,
                    depth: DepthCode::D1,
                },
                LayerRow {
                    segments: 4,
                    modulation: Modulation::Qpsk,
                    rate: Rate::R56,
                    depth: DepthCode::D1,
                },
            ],
        },
        carriers: 96,
        slots: 1056,
        frames: 3,
    },
];

pub const DEEP_LAYERS: [CellRow; 3] = [
    CellRow {
        plan: PlanRow {
            mode: Mode::M1,
            guard: Guard::G4,
            is_partial: true,
            layers: &[
                LayerRow {
                    segments: 1,
                    modulation: Modulation::Qam64,
                    rate: Rate::R34,
                    depth: DepthCode::D3,
                },
                LayerRow {
                    segments: 11,
                    modulation: Modulation::Qpsk,
                    rate: Rate::R34,
                    depth: DepthCode::D3,
                },
                LayerRow {
                    segments: 1,
                    modulation: Modulation::Qam16,
                    rate: Rate::R56,
                    depth: DepthCode::D3,
                },
            ],
        },
        carriers: 96,
        slots: 1280,
        frames: 4,
    },
    CellRow {
        plan: PlanRow {
            mode: Mode::M1,
            guard: Guard::G8,
            is_partial: false,
            layers: &[
                LayerRow {
                    segments: 6,
                    modulation: Modulation::Qam16,
                    rate: Rate::R78,
                    depth: DepthCode::D3,
                },
                LayerRow {
                    segments: 7,
                    modulation: Modulation::Qam64,
                    rate: Rate::R23,
                    depth: DepthCode::D2,
                },
            ],
        },
        carriers: 96,
        slots: 1152,
        frames: 3,
    },
    CellRow {
        plan: PlanRow {
            mode: Mode::M1,
            guard: Guard::G32,
            is_partial: false,
            layers: &[
                LayerRow {
                    segments: 1,
                    modulation: Modulation::Qam16,
                    rate: Rate::R34,
                    depth: DepthCode::D1,
                },
                LayerRow {
                    segments: 1,
                    modulation: Modulation::Qpsk,
                    rate: Rate::R12,
                    depth: DepthCode::D0,
                },
                LayerRow {
                    segments: 11,
                    modulation: Modulation::Qam64,
                    rate: Rate::R56,
                    depth: DepthCode::D0,
                },
            ],
        },
        carriers: 96,
        slots: 1056,
        frames: 2,
    },
];

pub const MODE_2: [CellRow; 3] = [
    CellRow {
        plan: PlanRow {
            mode: Mode::M2,
            guard: Guard::G16,
            is_partial: true,
            layers: &[
                LayerRow {
                    segments: 1,
                    modulation: Modulation::Qam16,
                    rate: Rate::R78,
                    depth: DepthCode::D1,
                },
                LayerRow {
                    segments: 4,
                    modulation: Modulation::Qpsk,
                    rate: Rate::R12,
                    depth: DepthCode::D2,
                },
                LayerRow {
                    segments: 8,
                    modulation: Modulation::Qam64,
                    rate: Rate::R34,
                    depth: DepthCode::D3,
                },
            ],
        },
        carriers: 192,
        slots: 2176,
        frames: 2,
    },
    CellRow {
        plan: PlanRow {
            mode: Mode::M2,
            guard: Guard::G32,
            is_partial: false,
            layers: &[
                LayerRow {
                    segments: 7,
                    modulation: Modulation::Qpsk,
                    rate: Rate::R23,
                    depth: DepthCode::D0,
                },
                LayerRow {
                    segments: 6,
                    modulation: Modulation::Qam16,
                    rate: Rate::R56,
                    depth: DepthCode::D3,
                },
            ],
        },
        carriers: 192,
        slots: 2112,
        frames: 2,
    },
    CellRow {
        plan: PlanRow {
            mode: Mode::M2,
            guard: Guard::G4,
            is_partial: false,
            layers: &[LayerRow {
                segments: 13,
                modulation: Modulation::Qam64,
                rate: Rate::R12,
                depth: DepthCode::D1,
            }],
        },
        carriers: 192,
        slots: 2560,
        frames: 2,
    },
];

pub const MODE_3: [CellRow; 2] = [
    CellRow {
        plan: PlanRow {
            mode: Mode::M3,
            guard: Guard::G16,
            is_partial: false,
            layers: &[
                LayerRow {
                    segments: 3,
                    modulation: Modulation::Qam64,
                    rate: Rate::R12,
                    depth: DepthCode::D1,
                },
                LayerRow {
                    segments: 5,
                    modulation: Modulation::Qpsk,
                    rate: Rate::R56,
                    depth: DepthCode::D2,
                },
                LayerRow {
                    segments: 5,
                    modulation: Modulation::Qam16,
                    rate: Rate::R23,
                    depth: DepthCode::D3,
                },
            ],
        },
        carriers: 384,
        slots: 4352,
        frames: 2,
    },
    CellRow {
        plan: PlanRow {
            mode: Mode::M3,
            guard: Guard::G8,
            is_partial: true,
            layers: &[
                LayerRow {
                    segments: 1,
                    modulation: Modulation::Qpsk,
                    rate: Rate::R23,
                    depth: DepthCode::D3,
                },
                LayerRow {
                    segments: 12,
                    modulation: Modulation::Qam64,
                    rate: Rate::R34,
                    depth: DepthCode::D0,
                },
            ],
        },
        carriers: 384,
        slots: 4608,
        frames: 2,
    },
];
