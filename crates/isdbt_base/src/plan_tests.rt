//! Worked plans with switches.

use crate::tests::layer;
use crate::{At, DepthCode, Guard, Layer, Mode, Modulation, Plan, PlanFault, Rate, Setting};
use std::test::Fail;

/// The setting of one layer of 13 segments with QPSK.
fn one_layer(rate: Rate, depth: DepthCode) -> Result<Setting, Fail> {
    Ok(Setting::new(false, layer(13, Modulation::Qpsk, rate, depth)?, None, None)?)
}

/// A switch that is asked for, and why it is refused, if it is.
#[derive(Clone, Copy)]
struct AskedSwitch {
    frame: u32,
    setting: Setting,
    fault: Option<PlanFault>,
}

#[test]
fn refused_switches(rt: HostRuntime) -> Result<(), Fail> {
    let one = one_layer(Rate::R12, DepthCode::D0)?;
    let part = |segments: u32| layer(segments, Modulation::Qpsk, Rate::R12, DepthCode::D0);
    let two = Setting::new(false, part(6)?, Some(part(7)?), None)?;
    let three = Setting::new(true, part(1)?, Some(part(5)?), Some(part(7)?))?;
    let mut plan = Plan::new(Mode::M1, Guard::G4, one);
    let rows = [
        AskedSwitch {
            frame: 0,
            setting: two,
            fault: Some(PlanFault::OutOfRange(0)),
        },
        AskedSwitch {
            frame: 16_777_216,
            setting: one,
            fault: Some(PlanFault::OutOfRange(16_777_216)),
        },
        AskedSwitch {
            frame: 20,
            setting: one,
            fault: None,
        },
        AskedSwitch {
            frame: 20,
            setting: one,
            fault: Some(PlanFault::NotRising(20)),
        },
        AskedSwitch {
            frame: 19,
            setting: three,
            fault: Some(PlanFault::NotRising(20)),
        },
        AskedSwitch {
            frame: 21,
            setting: two,
            fault: Some(PlanFault::OtherLayers(Layer::B)),
        },
        AskedSwitch {
            frame: 21,
            setting: three,
            fault: Some(PlanFault::OtherLayers(Layer::B)),
        },
        AskedSwitch {
            frame: 16_777_215,
            setting: one,
            fault: None,
        },
        AskedSwitch {
            frame: 16_777_215,
            setting: one,
            fault: Some(PlanFault::NotRising(16_777_215)),
        },
    ];
    for row in rows {
        let before = [plan.at(19), plan.at(20), plan.at(16_777_215)];
        let answer = plan.add_switch(row.frame, row.setting);
        assert_eq!(rt; answer.err(), row.fault);
        if row.fault.is_some() {
            let after = [plan.at(19), plan.at(20), plan.at(16_777_215)];
            assert_eq!(rt; after, before);
        }
    }
    let mut plan = Plan::new(Mode::M1, Guard::G4, three);
    assert_eq!(rt;
        plan.add_switch(1, two),
        Err(PlanFault::OtherLayers(Layer::C))
    );
    for frame in 1..8 {
        plan.add_switch(frame, three)?;
    }
    assert_eq!(rt; plan.add_switch(0, two), Err(PlanFault::TooMany));
    assert_eq!(rt; plan.at(7).start, 7);
    Ok(())
}

/// A frame of a plan, where its epoch begins and ends, and its countdown.
#[derive(Clone, Copy)]
struct FrameRow {
    frame: u32,
    start: u32,
    end: Option<u32>,
    countdown: u8,
}

/// Frames of a plan with switches at frames 20, 22 and 23.
fn epoch_rows() -> [FrameRow; 9] {
    [
        FrameRow {
            frame: 0,
            start: 0,
            end: Some(20),
            countdown: 15,
        },
        FrameRow {
            frame: 4,
            start: 0,
            end: Some(20),
            countdown: 15,
        },
        FrameRow {
            frame: 5,
            start: 0,
            end: Some(20),
            countdown: 14,
        },
        FrameRow {
            frame: 19,
            start: 0,
            end: Some(20),
            countdown: 0,
        },
        FrameRow {
            frame: 20,
            start: 20,
            end: Some(22),
            countdown: 1,
        },
        FrameRow {
            frame: 21,
            start: 20,
            end: Some(22),
            countdown: 0,
        },
        FrameRow {
            frame: 22,
            start: 22,
            end: Some(23),
            countdown: 0,
        },
        FrameRow {
            frame: 23,
            start: 23,
            end: None,
            countdown: 15,
        },
        FrameRow {
            frame: 16_777_215,
            start: 23,
            end: None,
            countdown: 15,
        },
    ]
}

#[test]
fn epochs_of_a_plan(rt: HostRuntime) -> Result<(), Fail> {
    let first = one_layer(Rate::R12, DepthCode::D0)?;
    let second = one_layer(Rate::R34, DepthCode::D1)?;
    let mut plan = Plan::new(Mode::M1, Guard::G4, first);
    assert!(rt; !plan.changes_mode());
    plan.add_switch(20, second)?;
    assert!(rt; !plan.changes_mode());
    plan.add_switch_at(22, Mode::M2, Guard::G8, first)?;
    assert!(rt; plan.changes_mode());
    plan.add_switch(23, second)?;
    for row in epoch_rows() {
        let at = plan.at(row.frame);
        assert_eq!(rt; (at.start, at.end), (row.start, row.end));
        assert_eq!(rt; at.countdown, row.countdown);
    }
    let wanted = At {
        mode: Mode::M1,
        guard: Guard::G4,
        setting: second,
        start: 20,
        end: Some(22),
        next: Some(first),
        next_mode: Some(Mode::M2),
        next_guard: Some(Guard::G8),
        countdown: 0,
    };
    assert_eq!(rt; plan.at(21), wanted);
    let last = plan.at(23);
    assert_eq!(rt; (last.mode, last.guard), (Mode::M2, Guard::G8));
    assert_eq!(rt; (last.next, last.next_mode), (None, None));
    assert_eq!(rt; last.next_guard, None);
    assert_eq!(rt; (plan.mode(), plan.guard()), (Mode::M1, Guard::G4));
    assert_eq!(rt; (plan.most_slots(), plan.most_carriers()), (2304, 192));
    assert_eq!(rt; plan.most_packets(Layer::A), 468);
    assert_eq!(rt; plan.most_packets(Layer::B), 0);
    Ok(())
}
