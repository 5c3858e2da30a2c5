//! Command lines that are commands.

use crate::command::Command;
use crate::testing::{words_in, words_of};
use isdbt_base::{DepthCode, Form, Guard, LayerSetting, Mode, Modulation, Plan, Rate, Setting};
use std::alloc::Global;
use std::process::Abort;
use std::test::Fail;

/// The numbers of a layer.
struct LayerRow {
    segments: u32,
    modulation: Modulation,
    rate: Rate,
    depth: DepthCode,
}

/// Words, the plan that they spell, and the names of their inputs, nothing for an input that they don't name.
struct CommandRow {
    words: &'static [&'static str],
    mode: Mode,
    guard: Guard,
    is_partial: bool,
    layers: &'static [LayerRow],
    names: [&'static str; 3],
}

/// The layer at a place of a row, where there is one.
fn layer_at(row: &CommandRow, place: usize) -> Result<Option<LayerSetting>, Fail> {
    let Some(layer) = row.layers.get(place) else {
        return Ok(None);
    };
    match LayerSetting::new(layer.segments, layer.modulation, layer.rate, layer.depth) {
        Some(made) => Ok(Some(made)),
        None => Err(Fail::from("no such count of segments")),
    }
}

/// The setting of a row.
fn setting_of(row: &CommandRow) -> Result<Setting, Fail> {
    let Some(a) = layer_at(row, 0)? else {
        return Err(Fail::from("no layer A"));
    };
    Ok(Setting::new(row.is_partial, a, layer_at(row, 1)?, layer_at(row, 2)?)?)
}

/// Checks that a plan is that of a row.
fn check_plan(rt: &impl Abort, plan: &Plan, row: &CommandRow) -> Result<(), Fail> {
    assert_eq!(rt; plan.mode(), row.mode);
    assert_eq!(rt; plan.guard(), row.guard);
    assert_eq!(rt; plan.at(0).setting, setting_of(row)?);
    Ok(())
}

/// Checks words that are a `remux`.
fn check_remux(rt: &impl Abort, alloc: Global, row: &CommandRow) -> Result<(), Fail> {
    let words = words_of(alloc, row.words)?;
    let Command::Remux { plan, a, b, c } = words.command()? else {
        return Err(Fail::from("the words are another command"));
    };
    check_plan(rt, &plan, row)?;
    assert!(rt; a == row.names[0]);
    assert!(rt; b.unwrap_or("") == row.names[1]);
    assert!(rt; c.unwrap_or("") == row.names[2]);
    assert_eq!(rt; b.is_some(), row.layers.len() > 1);
    assert_eq!(rt; c.is_some(), row.layers.len() > 2);
    Ok(())
}

const ONE_LAYER: CommandRow = CommandRow {
    words: &["remux", "2", "1/16", "A:13:16qam:5/6:2", "A=-"],
    mode: Mode::M2,
    guard: Guard::G16,
    is_partial: false,
    layers: &[LayerRow {
        segments: 13,
        modulation: Modulation::Qam16,
        rate: Rate::R56,
        depth: DepthCode::D1,
    }],
    names: ["-", "", ""],
};

#[test]
fn one_layer(rt: HostRuntime) -> Result<(), Fail> {
    check_remux(&rt, rt.alloc(), &ONE_LAYER)
}

/// A partial layer of one segment and a layer of twelve.
const TWO_LAYERS: &[LayerRow] = &[
    LayerRow {
        segments: 1,
        modulation: Modulation::Qpsk,
        rate: Rate::R23,
        depth: DepthCode::D3,
    },
    LayerRow {
        segments: 12,
        modulation: Modulation::Qam64,
        rate: Rate::R34,
        depth: DepthCode::D2,
    },
];

const PARTIAL_AND_WIDE: CommandRow = CommandRow {
    words: &[
        "remux",
        "3",
        "1/8",
        "A:1:qpsk:2/3:4:partial,B:12:64qam:3/4:2",
        "A=a",
        "B=b",
    ],
    mode: Mode::M3,
    guard: Guard::G8,
    is_partial: true,
    layers: TWO_LAYERS,
    names: ["a", "b", ""],
};

#[test]
fn partial_and_wide_layer(rt: HostRuntime) -> Result<(), Fail> {
    check_remux(&rt, rt.alloc(), &PARTIAL_AND_WIDE)
}

const THREE_LAYERS: CommandRow = CommandRow {
    words: &[
        "remux",
        "1",
        "1/32",
        "A:1:qpsk:1/2:0,B:6:16qam:2/3:8,C:6:64qam:7/8:16",
        "A=x",
        "B=B=",
        "C=,:",
    ],
    mode: Mode::M1,
    guard: Guard::G32,
    is_partial: false,
    layers: &[
        LayerRow {
            segments: 1,
            modulation: Modulation::Qpsk,
            rate: Rate::R12,
            depth: DepthCode::D0,
        },
        LayerRow {
            segments: 6,
            modulation: Modulation::Qam16,
            rate: Rate::R23,
            depth: DepthCode::D2,
        },
        LayerRow {
            segments: 6,
            modulation: Modulation::Qam64,
            rate: Rate::R78,
            depth: DepthCode::D3,
        },
    ],
    names: ["x", "B=", ",:"],
};

#[test]
fn three_layers(rt: HostRuntime) -> Result<(), Fail> {
    check_remux(&rt, rt.alloc(), &THREE_LAYERS)
}

const CODINGS: [CommandRow; 2] = [
    CommandRow {
        words: &["code", "3", "1/8", "A:13:qpsk:1/2:0", "IN=x"],
        mode: Mode::M3,
        guard: Guard::G8,
        is_partial: false,
        layers: &[LayerRow {
            segments: 13,
            modulation: Modulation::Qpsk,
            rate: Rate::R12,
            depth: DepthCode::D0,
        }],
        names: ["x", "", ""],
    },
    CommandRow {
        words: &[
            "code",
            "3",
            "1/8",
            "A:1:qpsk:2/3:4:partial,B:12:64qam:3/4:2",
            "IN=IN=",
        ],
        mode: Mode::M3,
        guard: Guard::G8,
        is_partial: true,
        layers: TWO_LAYERS,
        names: ["IN=", "", ""],
    },
];

#[test]
fn coding(rt: HostRuntime) -> Result<(), Fail> {
    for row in &CODINGS {
        let words = words_of(rt.alloc(), row.words)?;
        let Command::Code { plan, name, .. } = words.command()? else {
            return Err(Fail::from("the words are another command"));
        };
        check_plan(&rt, &plan, row)?;
        assert!(rt; name == row.names[0]);
    }
    Ok(())
}

/// Lines of codings, and whether their streams are of version 2.
const VERSIONS: [(&str, bool); 6] = [
    ("code 3 1/8 A:13:qpsk:1/2:0 IN=x", false),
    ("code 3 1/8 A:13:qpsk:1/2:0 IN=x v2", true),
    (
        "code 1 1/4 A:13:qpsk:1/2:0 @3 1 1/4 A:13:qpsk:1/2:16 IN=v2",
        false,
    ),
    (
        "code 1 1/4 A:13:qpsk:1/2:0 @3 1 1/4 A:13:qpsk:1/2:16 IN=v2 v2",
        true,
    ),
    (
        "code 1 1/4 A:13:qpsk:1/2:0 @3 1 1/8 A:13:qpsk:1/2:0 IN=x v2",
        true,
    ),
    (
        "code 1 1/4 A:13:qpsk:1/2:0 @3 2 1/4 A:13:qpsk:1/2:0 @4 1 1/4 A:13:qpsk:1/2:0 IN=x v2",
        true,
    ),
];

#[test]
fn versions(rt: HostRuntime) -> Result<(), Fail> {
    for (line, v2) in VERSIONS {
        let words = words_in(rt.alloc(), &[line])?;
        let Command::Code { how, .. } = words.command()? else {
            return Err(Fail::from("the words are another command"));
        };
        assert_eq!(rt; how.v2, v2);
    }
    Ok(())
}

const MODES: [(&str, Mode); 3] = [("1", Mode::M1), ("2", Mode::M2), ("3", Mode::M3)];

const GUARDS: [(&str, Guard); 4] = [
    ("1/4", Guard::G4),
    ("1/8", Guard::G8),
    ("1/16", Guard::G16),
    ("1/32", Guard::G32),
];

/// The input's word and its name.
const INPUTS: [(&str, &str); 3] = [("IN=x", "x"), ("IN=IN=", "IN="), ("IN=-", "-")];

/// Checks words that are a `receive` of a stream of this version.
fn check_receive(
    rt: &impl Abort,
    alloc: Global,
    list: &[&str],
    version: Form,
    input: &str,
) -> Result<(), Fail> {
    let words = words_of(alloc, list)?;
    let Command::Receive { how, partial, name } = words.command()? else {
        return Err(Fail::from("the words are another command"));
    };
    assert_eq!(rt; (how.form, how.fix, partial), (version, false, false));
    assert!(rt; name == input);
    Ok(())
}

/// Checks the words of both versions, of version 1 for each mode and guard interval.
fn check_versions(rt: &impl Abort, alloc: Global, input: (&str, &str)) -> Result<(), Fail> {
    check_receive(rt, alloc, &["receive", input.0], Form::V2, input.1)?;
    for number in 0..12usize {
        let (mode_word, mode) = MODES[number % 3];
        let (guard_word, guard) = GUARDS[number / 3];
        let list = ["receive", mode_word, guard_word, input.0];
        check_receive(rt, alloc, &list, Form::V1 { mode, guard }, input.1)?;
    }
    Ok(())
}

#[test]
fn receiving(rt: HostRuntime) -> Result<(), Fail> {
    for input in INPUTS {
        check_versions(&rt, rt.alloc(), input)?;
    }
    Ok(())
}

/// What a line's plan has at a frame: the start of its epoch, its mode, its guard interval and whether partial reception is set.
struct SwitchedRow {
    line: &'static str,
    frame: u32,
    start: u32,
    mode: Mode,
    guard: Guard,
    is_partial: bool,
}

/// One layer in mode 1 that is switched once, at a frame before.
const BEFORE: SwitchedRow = SwitchedRow {
    line: "remux 1 1/4 A:13:qpsk:1/2:0 @20 A:13:qpsk:3/4:4 A=a",
    frame: 19,
    start: 0,
    mode: Mode::M1,
    guard: Guard::G4,
    is_partial: false,
};

/// Lines with switches.
const SWITCHED: [SwitchedRow; 14] = [
    BEFORE,
    SwitchedRow {
        frame: 20,
        start: 20,
        ..BEFORE
    },
    SwitchedRow {
        line: "remux 1 1/4 A:13:qpsk:1/2:0 @1 1 1/4 A:13:qpsk:1/2:0 A=a",
        frame: 1,
        start: 1,
        ..BEFORE
    },
    SwitchedRow {
        line: "remux 1 1/4 A:13:qpsk:1/2:16 @4 2 1/8 A:13:qpsk:1/2:2 A=a",
        frame: 3,
        ..BEFORE
    },
    SwitchedRow {
        line: "remux 1 1/4 A:13:qpsk:1/2:16 @4 2 1/8 A:13:qpsk:1/2:2 @9 A:13:qpsk:1/2:8 A=a",
        frame: 9,
        start: 9,
        mode: Mode::M2,
        guard: Guard::G8,
        ..BEFORE
    },
    SwitchedRow {
        line: "remux 1 1/4 A:13:qpsk:1/2:0 @4 1 1/32 A:13:qpsk:1/2:16 A=a",
        frame: 4,
        start: 4,
        guard: Guard::G32,
        ..BEFORE
    },
    SwitchedRow {
        line: "remux 1 1/4 A:13:qpsk:1/2:0 @4 3 1/4 A:13:qpsk:1/2:1 @5 1 1/4 A:13:qpsk:1/2:16 A=a",
        frame: 16_777_215,
        start: 5,
        ..BEFORE
    },
    SwitchedRow {
        line: "remux 1 1/4 A:13:qpsk:1/2:0 @16777214 A:13:qpsk:1/2:0 @16777215 3 1/16 A:13:qpsk:1/2:4 A=a",
        frame: 16_777_215,
        start: 16_777_215,
        mode: Mode::M3,
        guard: Guard::G16,
        ..BEFORE
    },
    SwitchedRow {
        line: "remux 1 1/4 A:1:qpsk:1/2:0,B:12:qpsk:1/2:0 @9 A:1:qpsk:1/2:0:partial,B:12:qpsk:1/2:0 A=a B=b",
        frame: 9,
        start: 9,
        is_partial: true,
        ..BEFORE
    },
    SwitchedRow {
        line: "remux 1 1/4 A:1:qpsk:1/2:0:partial,B:12:qpsk:1/2:0 @9 A:3:qpsk:1/2:0,B:10:qpsk:1/2:0 A=a B=b",
        frame: 9,
        start: 9,
        ..BEFORE
    },
    SwitchedRow {
        line: "code 2 1/8 A:13:qpsk:1/2:0 @20 2 1/8 A:13:qpsk:1/2:8 @30 A:13:qpsk:1/2:2 IN=x",
        frame: 30,
        start: 30,
        mode: Mode::M2,
        guard: Guard::G8,
        ..BEFORE
    },
    SwitchedRow {
        line: "code 1 1/4 A:13:qpsk:1/2:0 @3 2 1/8 A:13:qpsk:1/2:0 IN=x v2",
        frame: 3,
        start: 3,
        mode: Mode::M2,
        guard: Guard::G8,
        ..BEFORE
    },
    SwitchedRow {
        line: "code 1 1/4 A:13:qpsk:1/2:0 @20 A:13:qpsk:3/4:4 IN=x",
        frame: 25,
        start: 20,
        ..BEFORE
    },
    SwitchedRow {
        line: "remux 1 1/4 A:13:qpsk:1/2:0 @1 A:13:qpsk:1/2:0 @2 A:13:qpsk:1/2:0 @3 A:13:qpsk:1/2:0 @4 A:13:qpsk:1/2:0 @5 A:13:qpsk:1/2:0 @6 A:13:qpsk:1/2:0 @7 2 1/4 A:13:qpsk:1/2:0 A=a",
        frame: 8,
        start: 7,
        mode: Mode::M2,
        ..BEFORE
    },
];

/// Checks what a plan has at a row's frame.
fn check_switched(rt: &impl Abort, plan: &Plan, row: &SwitchedRow) {
    let at = plan.at(row.frame);
    assert_eq!(rt; at.start, row.start);
    assert_eq!(rt; at.mode, row.mode);
    assert_eq!(rt; at.guard, row.guard);
    assert_eq!(rt; at.setting.partial(), row.is_partial);
}

#[test]
fn switched_plans(rt: HostRuntime) -> Result<(), Fail> {
    for row in &SWITCHED {
        let words = words_in(rt.alloc(), &[row.line])?;
        match words.command()? {
            Command::Remux { plan, .. } | Command::Code { plan, .. } => check_switched(
                &rt, &plan, row,
            ),
            _ => return Err(Fail::from("the words are another command")),
        }
    }
    Ok(())
}
