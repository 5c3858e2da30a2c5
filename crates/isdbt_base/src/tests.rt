//! Tables of the standard and worked settings.

use crate::{
    DepthCode, Guard, Layer, LayerSetting, Mode, Modulation, Rate, Setting, SettingFault,
    adjust_of, bits_per_cell, carriers, depth_of, frames_over, put, rate_pair, slots,
    symbol_clocks, symbol_size, zeros,
};
use std::test::Fail;

/// The parameters of a layer that a test knows to be accepted.
pub fn layer(
    segments: u32,
    modulation: Modulation,
    rate: Rate,
    depth: DepthCode,
) -> Result<LayerSetting, Fail> {
    match LayerSetting::new(segments, modulation, rate, depth) {
        Some(made) => Ok(made),
        None => Err(Fail::from("no such count of segments")),
    }
}

/// A mode's data carriers of a segment, and its slots with each guard interval.
#[derive(Clone, Copy)]
struct ModeRow {
    mode: Mode,
    carriers: u32,
    slots: [u32; 4],
}

#[test]
fn modes_and_guards(rt: HostRuntime) {
    let guards = [Guard::G4, Guard::G8, Guard::G16, Guard::G32];
    let rows = [
        ModeRow {
            mode: Mode::M1,
            carriers: 96,
            slots: [1280, 1152, 1088, 1056],
        },
        ModeRow {
            mode: Mode::M2,
            carriers: 192,
            slots: [2560, 2304, 2176, 2112],
        },
        ModeRow {
            mode: Mode::M3,
            carriers: 384,
            slots: [5120, 4608, 4352, 4224],
        },
    ];
    for row in rows {
        assert_eq!(rt; carriers(row.mode), row.carriers);
        for (guard, n) in guards.iter().zip(row.slots.iter()) {
            assert_eq!(rt; slots(row.mode, *guard), *n);
            assert_eq!(rt; symbol_clocks(row.mode, *guard) / 2, *n);
        }
    }
}

/// A mode's time interleaving length, its adjustment and the frames that both take, for each code.
#[derive(Clone, Copy)]
struct DepthRow {
    mode: Mode,
    depths: [u32; 4],
    adjusts: [u32; 4],
    frames: [u32; 4],
}

#[test]
fn depths(rt: HostRuntime) {
    let codes = [DepthCode::D0, DepthCode::D1, DepthCode::D2, DepthCode::D3];
    let rows = [
        DepthRow {
            mode: Mode::M1,
            depths: [0, 4, 8, 16],
            adjusts: [0, 28, 56, 112],
            frames: [0, 2, 4, 8],
        },
        DepthRow {
            mode: Mode::M2,
            depths: [0, 2, 4, 8],
            adjusts: [0, 14, 28, 56],
            frames: [0, 1, 2, 4],
        },
        DepthRow {
            mode: Mode::M3,
            depths: [0, 1, 2, 4],
            adjusts: [0, 109, 14, 28],
            frames: [0, 1, 1, 2],
        },
    ];
    for row in rows {
        assert_eq!(rt; codes.map(|code| depth_of(row.mode, code)), row.depths);
        assert_eq!(rt; codes.map(|code| adjust_of(row.mode, code)), row.adjusts);
        assert_eq!(rt; codes.map(|code| frames_over(row.mode, code)), row.frames);
    }
}

/// An inner rate as two numbers, and the packets of a segment of QPSK in mode 1.
#[derive(Clone, Copy)]
struct RateRow {
    rate: Rate,
    pair: (u32, u32),
    packets: u64,
}

/// A modulation, and the axes' bits of its cells.
#[derive(Clone, Copy)]
struct ModulationRow {
    modulation: Modulation,
    bits_of_axis: u64,
}

#[test]
fn packets_of_one_segment(rt: HostRuntime) -> Result<(), Fail> {
    let rates = [
        RateRow {
            rate: Rate::R12,
            pair: (1, 2),
            packets: 12,
        },
        RateRow {
            rate: Rate::R23,
            pair: (2, 3),
            packets: 16,
        },
        RateRow {
            rate: Rate::R34,
            pair: (3, 4),
            packets: 18,
        },
        RateRow {
            rate: Rate::R56,
            pair: (5, 6),
            packets: 20,
        },
        RateRow {
            rate: Rate::R78,
            pair: (7, 8),
            packets: 21,
        },
    ];
    let modulations = [
        ModulationRow {
            modulation: Modulation::Qpsk,
            bits_of_axis: 1,
        },
        ModulationRow {
            modulation: Modulation::Qam16,
            bits_of_axis: 2,
        },
        ModulationRow {
            modulation: Modulation::Qam64,
            bits_of_axis: 3,
        },
    ];
    for row in rates {
        assert_eq!(rt; rate_pair(row.rate), row.pair);
        for ModulationRow {
            modulation,
            bits_of_axis,
        } in modulations {
            let one = layer(1, modulation, row.rate, DepthCode::D0)?;
            assert_eq!(rt; u64::from(bits_per_cell(modulation)), 2 * bits_of_axis);
            assert_eq!(rt;
                u64::from(one.packets(Mode::M1)),
                row.packets * bits_of_axis
            );
        }
    }
    Ok(())
}

#[test]
fn two_layers(rt: HostRuntime) -> Result<(), Fail> {
    let a = layer(1, Modulation::Qpsk, Rate::R23, DepthCode::D3)?;
    let b = layer(12, Modulation::Qam64, Rate::R34, DepthCode::D2)?;
    let setting = Setting::new(true, a, Some(b), None)?;
    assert_eq!(rt; a.packets(Mode::M3), 64);
    assert_eq!(rt; b.packets(Mode::M3), 2592);
    assert_eq!(rt; setting.total(Mode::M3), 2656);
    assert_eq!(rt; (a.delay(Mode::M3), b.delay(Mode::M3)), (4, 3));
    assert_eq!(rt; setting.max_delay(Mode::M3), 4);
    assert_eq!(rt; setting.layer(Layer::B), Some(b));
    assert_eq!(rt; setting.layer(Layer::C), None);
    assert!(rt; setting.is_equal(&setting));
    assert!(rt; !setting.is_equal(&Setting::new(false, a, Some(b), None)?));
    assert_eq!(rt; setting.cells(Layer::B, Mode::M3), 4608);
    assert_eq!(rt; setting.cells(Layer::C, Mode::M3), 0);
    assert_eq!(rt; symbol_size(Mode::M3), 9985);
    Ok(())
}

/// A setting that is refused, and why.
#[derive(Clone, Copy)]
struct RefusedSetting {
    partial: bool,
    a: LayerSetting,
    b: Option<LayerSetting>,
    c: Option<LayerSetting>,
    fault: SettingFault,
}

#[test]
fn refused_settings(rt: HostRuntime) -> Result<(), Fail> {
    let with = |segments: u32| layer(segments, Modulation::Qpsk, Rate::R12, DepthCode::D0);
    let rows = [
        RefusedSetting {
            partial: false,
            a: with(6)?,
            b: None,
            c: Some(with(7)?),
            fault: SettingFault::LayerGap,
        },
        RefusedSetting {
            partial: true,
            a: with(13)?,
            b: None,
            c: None,
            fault: SettingFault::PartialNotOne(13),
        },
        RefusedSetting {
            partial: true,
            a: with(6)?,
            b: None,
            c: None,
            fault: SettingFault::Segments(6),
        },
        RefusedSetting {
            partial: false,
            a: with(6)?,
            b: Some(with(6)?),
            c: None,
            fault: SettingFault::Segments(12),
        },
        RefusedSetting {
            partial: false,
            a: with(13)?,
            b: Some(with(13)?),
            c: Some(with(13)?),
            fault: SettingFault::Segments(39),
        },
        RefusedSetting {
            partial: true,
            a: with(6)?,
            b: None,
            c: Some(with(7)?),
            fault: SettingFault::PartialNotOne(6),
        },
    ];
    for row in rows {
        assert_eq!(rt;
            Setting::new(row.partial, row.a, row.b, row.c),
            Err(row.fault)
        );
    }
    for segments in [0, 14, u32::MAX] {
        let refused = LayerSetting::new(segments, Modulation::Qpsk, Rate::R12, DepthCode::D0);
        assert!(rt; refused.is_none());
    }
    Ok(())
}

#[test]
fn pieces_of_a_buffer(rt: HostRuntime) -> Result<(), Fail> {
    let mut bytes = zeros(rt.alloc(), 5)?;
    assert_eq!(rt; put(&mut bytes, 1, &[7, 8, 9]), 4);
    assert_eq!(rt; bytes.as_slice(), [0, 7, 8, 9, 0].as_slice());
    let mut bits = [false; 3];
    assert_eq!(rt; put(&mut bits, 0, &[true; 2]), 2);
    assert_eq!(rt; bits, [true, true, false]);
    Ok(())
}
