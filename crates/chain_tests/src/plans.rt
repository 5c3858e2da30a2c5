//! Plans as rows of tables.

use isdbt_base::{DepthCode, Guard, LayerSetting, Mode, Modulation, Plan, Rate, Setting};
use std::test::Fail;

/// The numbers of a layer.
#[derive(Clone, Copy)]
pub struct LayerRow {
    pub segments: u32,
    pub modulation: Modulation,
    pub rate: Rate,
    pub depth: DepthCode,
}

/// A mode, a guard interval and a setting of up to three layers.
#[derive(Clone, Copy)]
pub struct PlanRow {
    pub mode: Mode,
    pub guard: Guard,
    pub is_partial: bool,
    pub layers: &'static [LayerRow],
}

/// QPSK, rate 1/2, no time interleaving.
pub const PLAIN: LayerRow = LayerRow {
    segments: 13,
    modulation: Modulation::Qpsk,
    rate: Rate::R12,
    depth: DepthCode::D0,
};

/// One layer of thirteen segments, of 156 packets a frame.
pub const SINGLE: PlanRow = PlanRow {
    mode: Mode::M1,
    guard: Guard::G4,
    is_partial: false,
    layers: &[PLAIN],
};

/// The same with the deepest time interleaving.
pub const DEEP: PlanRow = PlanRow {
    layers: &[LayerRow {
        depth: DepthCode::D3,
        ..PLAIN
    }],
    ..SINGLE
};

/// A partial layer of one segment and a layer of twelve, of 64 and 2592 packets a frame, with delays of 4 and 3 frames.
pub const PARTIAL_AND_WIDE: PlanRow = PlanRow {
    mode: Mode::M3,
    guard: Guard::G8,
    is_partial: true,
    layers: &[
        LayerRow {
            segments: 1,
            modulation: Modulation::Qpsk,
            rate: Rate::R23,
            depth: DepthCode::D3,
        },
        LayerRow {
            segments: 12,
            modulation: Modulation::Qam64,
            rate: Rate::R34,
            depth: DepthCode::D2,
        },
    ],
};

/// Two layers of mode 1.
pub const TWO_LAYERS: PlanRow = PlanRow {
    layers: &[
        LayerRow {
            segments: 1,
            modulation: Modulation::Qpsk,
            rate: Rate::R23,
            depth: DepthCode::D1,
        },
        LayerRow {
            segments: 12,
            modulation: Modulation::Qam16,
            rate: Rate::R34,
            depth: DepthCode::D0,
        },
    ],
    ..SINGLE
};

/// Rate 3/4 with time interleaving, of 234 packets a frame.
pub const THREE_QUARTERS: PlanRow = PlanRow {
    layers: &[LayerRow {
        rate: Rate::R34,
        depth: DepthCode::D1,
        ..PLAIN
    }],
    ..SINGLE
};

/// The single layer in mode 2 with guard interval 1/8, of 312 packets a frame.
pub const SECOND_MODE: PlanRow = PlanRow {
    mode: Mode::M2,
    guard: Guard::G8,
    ..SINGLE
};

/// One segment of QPSK.
const NARROW: LayerRow = LayerRow {
    segments: 1,
    rate: Rate::R23,
    ..PLAIN
};

/// Four segments of 16QAM.
const MIDDLE: LayerRow = LayerRow {
    segments: 4,
    modulation: Modulation::Qam16,
    ..PLAIN
};

/// Eight segments of 64QAM.
const WIDE: LayerRow = LayerRow {
    segments: 8,
    modulation: Modulation::Qam64,
    rate: Rate::R34,
    ..PLAIN
};

/// The partial and the wide layer without time interleaving, with delays of 2 frames.
pub const SHALLOW: PlanRow = PlanRow {
    layers: &[
        LayerRow {
            segments: 1,
            modulation: Modulation::Qpsk,
            rate: Rate::R23,
            depth: DepthCode::D0,
        },
        LayerRow {
            segments: 12,
            modulation: Modulation::Qam64,
            rate: Rate::R34,
            depth: DepthCode::D0,
        },
    ],
    ..PARTIAL_AND_WIDE
};

/// Three layers with time interleaving, the first with the deepest, of 16, 96 and 432 packets a frame.
pub const THREE_DEEP: PlanRow = PlanRow {
    layers: &[
        LayerRow {
            depth: DepthCode::D3,
            ..NARROW
        },
        LayerRow {
            depth: DepthCode::D2,
            ..MIDDLE
        },
        LayerRow {
            depth: DepthCode::D1,
            ..WIDE
        },
    ],
    ..SINGLE
};

/// The same three layers without time interleaving, with delays of 2 frames.
pub const THREE_SHALLOW: PlanRow = PlanRow {
    layers: &[NARROW, MIDDLE, WIDE],
    ..SINGLE
};

/// The layer of a row.
fn layer_of(row: &LayerRow) -> Result<LayerSetting, Fail> {
    match LayerSetting::new(row.segments, row.modulation, row.rate, row.depth) {
        Some(layer) => Ok(layer),
        None => Err(Fail::from("no such count of segments")),
    }
}

/// The layer at a place of a row, where there is one.
fn layer_at(row: &PlanRow, place: usize) -> Result<Option<LayerSetting>, Fail> {
    match row.layers.get(place) {
        Some(layer) => Ok(Some(layer_of(layer)?)),
        None => Ok(None),
    }
}

/// The setting of a row.
fn setting_of(row: &PlanRow) -> Result<Setting, Fail> {
    let Some(a) = layer_at(row, 0)? else {
        return Err(Fail::from("no layer A"));
    };
    Ok(Setting::new(row.is_partial, a, layer_at(row, 1)?, layer_at(row, 2)?)?)
}

/// The plan of a row.
pub fn plan_of(row: &PlanRow) -> Result<Plan, Fail> {
    Ok(Plan::new(row.mode, row.guard, setting_of(row)?))
}

/// From this frame on a plan sends what the row says.
#[derive(Clone, Copy)]
pub struct SwitchRow {
    pub frame: u32,
    pub to: PlanRow,
}

/// The plan of a row, with switches behind it.
pub fn plan_with(row: &PlanRow, switches: &[SwitchRow]) -> Result<Plan, Fail> {
    let mut plan = plan_of(row)?;
    for switch in switches {
        let to = &switch.to;
        plan.add_switch_at(switch.frame, to.mode, to.guard, setting_of(to)?)?;
    }
    Ok(plan)
}
