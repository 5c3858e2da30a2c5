//! Command lines with switches that are refused, and where.

use crate::testing::words_in;
use std::alloc::Global;
use std::process::Abort;
use std::test::Fail;

/// How lines begin, how they go on, each in its way, and the place of the fault that each then has.
struct SwitchRow {
    front: &'static str,
    behind: &'static [&'static str],
    place: u64,
}

/// Checks the places of faults.
fn check_places(rt: &impl Abort, alloc: Global, rows: &[SwitchRow]) -> Result<(), Fail> {
    for row in rows {
        for behind in row.behind {
            let words = words_in(alloc, &[row.front, behind])?;
            match words.command() {
                Ok(_) => return Err(Fail::from("the words are a command")),
                Err(place) => assert_eq!(rt; place, row.place),
            }
        }
    }
    Ok(())
}

/// One layer in mode 1.
const ONE: &str = "remux 1 1/4 A:13:qpsk:1/2:0";

/// One layer in mode 1, and seven switches.
const SEVEN: &str =
    "remux 1 1/4 A:13:qpsk:1/2:0 @1 A:13:qpsk:1/2:0 @2 A:13:qpsk:1/2:0 @3 A:13:qpsk:1/2:0 @4 A:13:qpsk:1/2:0 @5 A:13:qpsk:1/2:0 @6 A:13:qpsk:1/2:0 @7 A:13:qpsk:1/2:0";

/// Frames of switches, and what is left out or too much.
const FRAMES: [SwitchRow; 7] = [
    SwitchRow {
        front: ONE,
        behind: &[
            "@0 A:13:qpsk:1/2:0 A=a",
            "@00 A:13:qpsk:1/2:0 A=a",
            "@01 A:13:qpsk:1/2:0 A=a",
            "@+1 A:13:qpsk:1/2:0 A=a",
            "@-1 A:13:qpsk:1/2:0 A=a",
            "@16777216 A:13:qpsk:1/2:0 A=a",
            "@016777215 A:13:qpsk:1/2:0 A=a",
            "@99999999 A:13:qpsk:1/2:0 A=a",
            "@4294967297 A:13:qpsk:1/2:0 A=a",
            "@18446744073709551617 A:13:qpsk:1/2:0 A=a",
            "@ A:13:qpsk:1/2:0 A=a",
            "@x A:13:qpsk:1/2:0 A=a",
            "@1x A:13:qpsk:1/2:0 A=a",
            "@1.0 A:13:qpsk:1/2:0 A=a",
            "@@1 A:13:qpsk:1/2:0 A=a",
            "@1@ A:13:qpsk:1/2:0 A=a",
            "@ 20 A:13:qpsk:1/2:0 A=a",
            "20 A:13:qpsk:1/2:0 A=a",
            "1 1/4 A:13:qpsk:1/2:0 A=a",
        ],
        place: 4,
    },
    SwitchRow {
        front: ONE,
        behind: &[
            "@20",
            "@20 A=a",
            "@20 @30 A:13:qpsk:1/2:0 A=a",
            "@20 20 A:13:qpsk:1/2:0 A=a",
            "A=a @20 A:13:qpsk:1/2:0",
        ],
        place: 5,
    },
    SwitchRow {
        front: ONE,
        behind: &[
            "@20 A:13:qpsk:1/2:0",
            "@20 A:13:qpsk:1/2:0 A=",
            "@20 A:13:qpsk:1/2:0 B=b",
            "@20 A:13:qpsk:1/2:0 A:13:qpsk:1/2:0 A=a",
            "@20 A:13:qpsk:1/2:0 2 1/4 A:13:qpsk:1/2:0 A=a",
            "@20 A:13:qpsk:1/2:0 @20 A:13:qpsk:1/2:0 A=a",
            "@20 A:13:qpsk:1/2:0 @19 A:13:qpsk:1/2:0 A=a",
            "@20 A:13:qpsk:1/2:0 @1 A:13:qpsk:1/2:0 A=a",
            "@20 A:13:qpsk:1/2:0 @3 A:13:qpsk:1/2:0 A=a",
            "@20 A:13:qpsk:1/2:0 @ A:13:qpsk:1/2:0 A=a",
            "@20 A:13:qpsk:1/2:0 @030 A:13:qpsk:1/2:0 A=a",
            "@16777215 A:13:qpsk:1/2:0 @16777216 A:13:qpsk:1/2:0 A=a",
            "@16777215 A:13:qpsk:1/2:0 @16777215 A:13:qpsk:1/2:0 A=a",
            "@16777215 A:13:qpsk:1/2:0 @1 A:13:qpsk:1/2:0 A=a",
        ],
        place: 6,
    },
    SwitchRow {
        front: ONE,
        behind: &[
            "@20 A:13:qpsk:1/2:0 A=a B=b",
            "@20 A:13:qpsk:1/2:0 A=a @30 A:13:qpsk:1/2:0",
            "@20 A:13:qpsk:1/2:0 @30",
        ],
        place: 7,
    },
    SwitchRow {
        front: ONE,
        behind: &["@20 A:13:qpsk:1/2:0 @30 A:13:qpsk:1/2:0 @25 A:13:qpsk:1/2:0 A=a"],
        place: 8,
    },
    SwitchRow {
        front: SEVEN,
        behind: &[
            "@8 A:13:qpsk:1/2:0 A=a",
            "@7 A:13:qpsk:1/2:0 A=a",
            "@16777215 A:13:qpsk:1/2:0 A=a",
            "A=",
            "B=b",
        ],
        place: 18,
    },
    SwitchRow {
        front: SEVEN,
        behind: &["A=a @8 A:13:qpsk:1/2:0"],
        place: 19,
    },
];

#[test]
fn frames(rt: HostRuntime) -> Result<(), Fail> {
    check_places(&rt, rt.alloc(), &FRAMES)
}

/// Modes and guard intervals of switches.
const MODES: [SwitchRow; 3] = [
    SwitchRow {
        front: ONE,
        behind: &[
            "@20 1/4 A:13:qpsk:1/2:0 A=a",
            "@20 4 1/4 A:13:qpsk:1/2:0 A=a",
            "@20 0 1/4 A:13:qpsk:1/2:0 A=a",
            "@20 01 1/4 A:13:qpsk:1/2:0 A=a",
            "@20 1/4 2 A:13:qpsk:1/2:0 A=a",
        ],
        place: 5,
    },
    SwitchRow {
        front: ONE,
        behind: &[
            "@20 2",
            "@20 2 A:13:qpsk:1/2:0 A=a",
            "@20 2 A=a",
            "@20 2 1/5 A:13:qpsk:1/2:0 A=a",
            "@20 2 1/64 A:13:qpsk:1/2:0 A=a",
            "@20 2 2 1/4 A:13:qpsk:1/2:0 A=a",
            "@20 2 @30 A:13:qpsk:1/2:0 A=a",
        ],
        place: 6,
    },
    SwitchRow {
        front: ONE,
        behind: &[
            "@20 2 1/4",
            "@20 2 1/4 A=a",
            "@20 2 1/4 1/4 A:13:qpsk:1/2:0 A=a",
            "@20 2 1/4 @30 A:13:qpsk:1/2:0 A=a",
        ],
        place: 7,
    },
];

#[test]
fn modes(rt: HostRuntime) -> Result<(), Fail> {
    check_places(&rt, rt.alloc(), &MODES)
}

/// Two layers in mode 3.
const TWO: &str = "remux 3 1/8 A:1:qpsk:1/2:0,B:12:qpsk:1/2:0";

/// Three layers in mode 1.
const THREE: &str = "remux 1 1/4 A:1:qpsk:1/2:0,B:6:16qam:2/3:8,C:6:64qam:7/8:16";

/// Settings of switches: lengths of another mode, and other layers.
const SETTINGS: [SwitchRow; 9] = [
    SwitchRow {
        front: ONE,
        behind: &[
            "@20 A:13:qpsk:1/2:2 A=a",
            "@20 A:13:qpsk:1/2:1 A=a",
            "@20 A:1:qpsk:1/2:0,B:12:qpsk:1/2:0 A=a B=b",
            "@20 A:1:qpsk:1/2:0,C:12:qpsk:1/2:0 A=a",
            "@20 A:12:qpsk:1/2:0 A=a",
            "@20 B:13:qpsk:1/2:0 A=a",
            "@20 A:13:qpsk:1/2:0:partial A=a",
        ],
        place: 5,
    },
    SwitchRow {
        front: ONE,
        behind: &[
            "@20 1 1/4 A:13:qpsk:1/2:2 A=a",
            "@20 2 1/4 A:13:qpsk:1/2:16 A=a",
            "@20 3 1/4 A:13:qpsk:1/2:8 A=a",
            "@20 2 1/4 A:1:qpsk:1/2:0,B:12:qpsk:1/2:0 A=a",
        ],
        place: 7,
    },
    SwitchRow {
        front: ONE,
        behind: &[
            "@20 2 1/4 A:13:qpsk:1/2:0 @30 A:13:qpsk:1/2:16 A=a",
            "@20 3 1/8 A:13:qpsk:1/2:0 @30 A:13:qpsk:1/2:8 A=a",
        ],
        place: 9,
    },
    SwitchRow {
        front: ONE,
        behind: &["@20 2 1/4 A:13:qpsk:1/2:0 @30 1 1/4 A:13:qpsk:1/2:2 A=a"],
        place: 11,
    },
    SwitchRow {
        front: TWO,
        behind: &[
            "@9 A:13:qpsk:1/2:0 A=a",
            "@9 A:13:qpsk:1/2:0 A=a B=b",
            "@9 A:1:qpsk:1/2:0,B:6:qpsk:1/2:0,C:6:qpsk:1/2:0 A=a B=b",
            "@9 A:2:qpsk:1/2:0:partial,B:11:qpsk:1/2:0 A=a B=b",
        ],
        place: 5,
    },
    SwitchRow {
        front: TWO,
        behind: &[
            "@9 A:1:qpsk:1/2:0:partial,B:12:qpsk:1/2:0 A=a",
            "@9 2 1/8 A:1:qpsk:1/2:8,B:12:qpsk:1/2:16 A=a B=b",
            "@9 A:1:qpsk:1/2:0,B:12:qpsk:1/2:0 @10 A:13:qpsk:1/2:0 A=a B=b",
        ],
        place: 7,
    },
    SwitchRow {
        front: THREE,
        behind: &["@9 A:1:qpsk:1/2:0,B:12:qpsk:1/2:0 A=a B=b C=c"],
        place: 5,
    },
    SwitchRow {
        front: THREE,
        behind: &["@9 2 1/4 A:1:qpsk:1/2:0,B:6:qpsk:1/2:0,C:6:qpsk:1/2:16 A=a B=b C=c"],
        place: 7,
    },
    SwitchRow {
        front: THREE,
        behind: &["@9 A:1:qpsk:1/2:0,B:6:qpsk:1/2:0,C:6:qpsk:1/2:0 A=a B=b"],
        place: 8,
    },
];

#[test]
fn settings(rt: HostRuntime) -> Result<(), Fail> {
    check_places(&rt, rt.alloc(), &SETTINGS)
}

/// One layer in mode 2.
const CODE: &str = "code 2 1/8 A:13:qpsk:1/2:0";

/// One layer in mode 2, and seven switches.
const CODE_SEVEN: &str =
    "code 2 1/8 A:13:qpsk:1/2:0 @1 A:13:qpsk:1/2:0 @2 A:13:qpsk:1/2:0 @3 A:13:qpsk:1/2:0 @4 A:13:qpsk:1/2:0 @5 A:13:qpsk:1/2:0 @6 A:13:qpsk:1/2:0 @7 A:13:qpsk:1/2:0";

/// Switches of `code`. Where one changes the mode or the guard interval, the line must end with `v2`.
const CODE_ROWS: [SwitchRow; 11] = [
    SwitchRow {
        front: CODE,
        behind: &[
            "@0 A:13:qpsk:1/2:0 IN=x",
            "@16777216 A:13:qpsk:1/2:0 IN=x",
            "v2 IN=x",
        ],
        place: 4,
    },
    SwitchRow {
        front: CODE,
        behind: &[
            "@20",
            "@20 4 1/8 A:13:qpsk:1/2:0 IN=x v2",
            "@20 1/8 A:13:qpsk:1/2:0 IN=x",
            "@20 1/4 A:13:qpsk:1/2:0 IN=x",
            "@20 A:13:qpsk:1/2:16 IN=x",
            "@20 A:13:qpsk:1/2:1 IN=x",
            "@20 A:1:qpsk:1/2:0,B:12:qpsk:1/2:0 IN=x",
            "@20 v2 A:13:qpsk:1/2:0 IN=x",
        ],
        place: 5,
    },
    SwitchRow {
        front: CODE,
        behind: &[
            "@20 A:13:qpsk:1/2:0",
            "@20 A:13:qpsk:1/2:0 A=x",
            "@20 A:13:qpsk:1/2:0 IN=",
            "@20 A:13:qpsk:1/2:0 v2 IN=x",
            "@20 A:13:qpsk:1/2:0 @20 A:13:qpsk:1/2:0 IN=x",
            "@20 1",
            "@20 2",
            "@20 2 1/9 A:13:qpsk:1/2:0 IN=x",
            "@20 2 A:13:qpsk:1/2:0 IN=x",
        ],
        place: 6,
    },
    SwitchRow {
        front: CODE,
        behind: &[
            "@20 A:13:qpsk:1/2:0 IN=x IN=x",
            "@20 A:13:qpsk:1/2:0 IN=x V2",
            "@20 2 1/8",
            "@20 2 1/4",
            "@20 2 1/8 A:13:qpsk:1/2:16 IN=x",
            "@20 1 1/8 A:13:qpsk:1/2:1 IN=x v2",
        ],
        place: 7,
    },
    SwitchRow {
        front: CODE,
        behind: &[
            "@20 A:13:qpsk:1/2:0 IN=x v2 v2",
            "@20 1 1/8 A:13:qpsk:1/2:0",
            "@20 1 1/8 A:13:qpsk:1/2:0 v2 IN=x",
        ],
        place: 8,
    },
    SwitchRow {
        front: CODE,
        behind: &[
            "@20 1 1/8 A:13:qpsk:1/2:0 IN=x",
            "@20 3 1/8 A:13:qpsk:1/2:0 IN=x",
            "@20 2 1/4 A:13:qpsk:1/2:0 IN=x",
            "@20 2 1/16 A:13:qpsk:1/2:0 IN=x",
            "@20 2 1/4 A:13:qpsk:1/2:0 IN=x V2",
            "@20 2 1/4 A:13:qpsk:1/2:0 IN=x v1",
            "@20 2 1/8 A:13:qpsk:1/2:0 IN=x @30",
        ],
        place: 9,
    },
    SwitchRow {
        front: CODE,
        behind: &["@20 2 1/4 A:13:qpsk:1/2:0 IN=x v2 v2"],
        place: 10,
    },
    SwitchRow {
        front: CODE,
        behind: &[
            "@20 A:13:qpsk:1/2:0 @30 1 1/8 A:13:qpsk:1/2:0 IN=x",
            "@20 A:13:qpsk:1/2:0 @30 2 1/4 A:13:qpsk:1/2:0 IN=x",
        ],
        place: 11,
    },
    SwitchRow {
        front: CODE,
        behind: &[
            "@20 2 1/8 A:13:qpsk:1/2:0 @30 2 1/16 A:13:qpsk:1/2:0 IN=x",
            "@20 1 1/4 A:13:qpsk:1/2:0 @30 2 1/8 A:13:qpsk:1/2:0 IN=x",
        ],
        place: 13,
    },
    SwitchRow {
        front: CODE_SEVEN,
        behind: &["@8 A:13:qpsk:1/2:0 IN=x"],
        place: 18,
    },
    SwitchRow {
        front: "code 1 1/4 A:13:qpsk:1/2:0 @3 2 1/8 A:13:qpsk:1/2:0",
        behind: &["IN=x", "IN=x v1"],
        place: 9,
    },
];

#[test]
fn switches_of_code(rt: HostRuntime) -> Result<(), Fail> {
    check_places(&rt, rt.alloc(), &CODE_ROWS)
}
