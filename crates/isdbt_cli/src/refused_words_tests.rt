//! Command lines that are refused, and where.

use crate::testing::words_of;
use std::alloc::Global;
use std::process::Abort;
use std::test::Fail;

/// A setting of one layer.
const WIDE: &str = "A:13:qpsk:1/2:0";

/// A setting of two layers.
const TWO: &str = "A:1:qpsk:1/2:0,B:12:qpsk:1/2:0";

/// A setting of three layers.
const THREE: &str = "A:1:qpsk:1/2:0,B:6:16qam:2/3:8,C:6:64qam:7/8:16";

/// Words that are no command, and the place of their fault.
struct WordRow {
    words: &'static [&'static str],
    place: u64,
}

/// The place of the words' fault.
fn place_of(alloc: Global, list: &[&str]) -> Result<u64, Fail> {
    let words = words_of(alloc, list)?;
    match words.command() {
        Ok(_) => Err(Fail::from("the words are a command")),
        Err(place) => Ok(place),
    }
}

/// Checks the places of faults.
fn check_places(rt: &impl Abort, alloc: Global, rows: &[WordRow]) -> Result<(), Fail> {
    for row in rows {
        assert_eq!(rt; place_of(alloc, row.words)?, row.place);
    }
    Ok(())
}

/// Words that begin no `remux`.
const REMUX: [WordRow; 24] = [
    WordRow {
        words: &[],
        place: 0,
    },
    WordRow {
        words: &["Remux", "1", "1/4", WIDE, "A=a"],
        place: 0,
    },
    WordRow {
        words: &["remux"],
        place: 1,
    },
    WordRow {
        words: &["remux", "4", "1/4", WIDE, "A=a"],
        place: 1,
    },
    WordRow {
        words: &["remux", "remux", "1", "1/4", WIDE, "A=a"],
        place: 1,
    },
    WordRow {
        words: &["remux", "2"],
        place: 2,
    },
    WordRow {
        words: &["remux", "1", "1/64", WIDE, "A=a"],
        place: 2,
    },
    WordRow {
        words: &["remux", "1", "1", "1/4", WIDE, "A=a"],
        place: 2,
    },
    WordRow {
        words: &["remux", "1", "1/4"],
        place: 3,
    },
    WordRow {
        words: &["remux", "1", "1/4", "A=a"],
        place: 3,
    },
    WordRow {
        words: &["remux", "1", "1/4", WIDE, WIDE, "A=a"],
        place: 4,
    },
    WordRow {
        words: &["remux", "1", "1/4", WIDE],
        place: 4,
    },
    WordRow {
        words: &["remux", "1", "1/4", WIDE, "A="],
        place: 4,
    },
    WordRow {
        words: &["remux", "1", "1/4", WIDE, "a=a"],
        place: 4,
    },
    WordRow {
        words: &["remux", "1", "1/4", WIDE, "A=a", "B=b"],
        place: 5,
    },
    WordRow {
        words: &["remux", "1", "1/4", WIDE, "A=a", "A=a"],
        place: 5,
    },
    WordRow {
        words: &["remux", "1", "1/4", TWO, "A=a"],
        place: 5,
    },
    WordRow {
        words: &["remux", "1", "1/4", TWO, "B=b", "A=a"],
        place: 4,
    },
    WordRow {
        words: &["remux", "1", "1/4", TWO, "A=a", "B="],
        place: 5,
    },
    WordRow {
        words: &["remux", "1", "1/4", TWO, "A=a", "C=c"],
        place: 5,
    },
    WordRow {
        words: &["remux", "1", "1/4", TWO, "A=a", "B=b", "C=c"],
        place: 6,
    },
    WordRow {
        words: &["remux", "1", "1/4", THREE, "A=a", "C=c", "B=b"],
        place: 5,
    },
    WordRow {
        words: &["remux", "1", "1/4", THREE, "A=a", "B=b"],
        place: 6,
    },
    WordRow {
        words: &["remux", "1", "1/4", THREE, "A=a", "B=b", "C=c", ""],
        place: 7,
    },
];

#[test]
fn places_of_faults(rt: HostRuntime) -> Result<(), Fail> {
    check_places(&rt, rt.alloc(), &REMUX)
}

/// Words that begin no `code`.
const CODE: [WordRow; 22] = [
    WordRow {
        words: &["Code", "3", "1/8", WIDE, "IN=x"],
        place: 0,
    },
    WordRow {
        words: &["decode", "3", "1/8", WIDE, "IN=x"],
        place: 0,
    },
    WordRow {
        words: &["code"],
        place: 1,
    },
    WordRow {
        words: &["code", "4", "1/8", WIDE, "IN=x"],
        place: 1,
    },
    WordRow {
        words: &["code", "remux", "3", "1/8", WIDE, "IN=x"],
        place: 1,
    },
    WordRow {
        words: &["code", "3", "1/5", WIDE, "IN=x"],
        place: 2,
    },
    WordRow {
        words: &["code", "3", "1/8"],
        place: 3,
    },
    WordRow {
        words: &["code", "3", "1/8", "A:13:qpsk:1/2:8", "IN=x"],
        place: 3,
    },
    WordRow {
        words: &["code", "3", "1/8", "IN=x"],
        place: 3,
    },
    WordRow {
        words: &["code", "3", "1/8", WIDE],
        place: 4,
    },
    WordRow {
        words: &["code", "3", "1/8", WIDE, "A=x"],
        place: 4,
    },
    WordRow {
        words: &["code", "3", "1/8", WIDE, "in=x"],
        place: 4,
    },
    WordRow {
        words: &["code", "3", "1/8", WIDE, "IN="],
        place: 4,
    },
    WordRow {
        words: &["code", "3", "1/8", TWO, "IN=x", "B=b"],
        place: 5,
    },
    WordRow {
        words: &["code", "3", "1/8", WIDE, "IN=x", ""],
        place: 5,
    },
    WordRow {
        words: &["code", "3", "1/8", WIDE, "v2"],
        place: 4,
    },
    WordRow {
        words: &["code", "3", "1/8", WIDE, "v2", "IN=x"],
        place: 4,
    },
    WordRow {
        words: &["code", "3", "1/8", WIDE, "IN=x", "V2"],
        place: 5,
    },
    WordRow {
        words: &["code", "3", "1/8", WIDE, "IN=x", "v1"],
        place: 5,
    },
    WordRow {
        words: &["code", "3", "1/8", WIDE, "IN=x", "v2", "v2"],
        place: 6,
    },
    WordRow {
        words: &["remux", "3", "1/8", WIDE, "A=x", "v2"],
        place: 5,
    },
    WordRow {
        words: &["remux", "3", "1/8", WIDE, "IN=x"],
        place: 4,
    },
];

#[test]
fn places_of_faults_of_code(rt: HostRuntime) -> Result<(), Fail> {
    check_places(&rt, rt.alloc(), &CODE)
}

/// Words that begin no `receive`.
const RECEIVE: [WordRow; 27] = [
    WordRow {
        words: &["Receive", "1", "1/4", "IN=x"],
        place: 0,
    },
    WordRow {
        words: &["receiv", "1", "1/4", "IN=x"],
        place: 0,
    },
    WordRow {
        words: &["receive "],
        place: 0,
    },
    WordRow {
        words: &["receive"],
        place: 1,
    },
    WordRow {
        words: &["receive", "0", "1/4", "IN=x"],
        place: 1,
    },
    WordRow {
        words: &["receive", "M1", "1/4", "IN=x"],
        place: 1,
    },
    WordRow {
        words: &["receive", "1/4", "1", "IN=x"],
        place: 1,
    },
    WordRow {
        words: &["receive", "IN="],
        place: 1,
    },
    WordRow {
        words: &["receive", "A=x"],
        place: 1,
    },
    WordRow {
        words: &["receive", "v2", "IN=x"],
        place: 1,
    },
    WordRow {
        words: &["receive", "1/4", "IN=x"],
        place: 1,
    },
    WordRow {
        words: &["receive", WIDE, "IN=x"],
        place: 1,
    },
    WordRow {
        words: &["receive", "IN=x", ""],
        place: 2,
    },
    WordRow {
        words: &["receive", "IN=x", "v2"],
        place: 2,
    },
    WordRow {
        words: &["receive", "IN=x", "1", "1/4"],
        place: 2,
    },
    WordRow {
        words: &["receive", "1"],
        place: 2,
    },
    WordRow {
        words: &["receive", "1", "1/2", "IN=x"],
        place: 2,
    },
    WordRow {
        words: &["receive", "1", "IN=x"],
        place: 2,
    },
    WordRow {
        words: &["receive", "1", "1/4"],
        place: 3,
    },
    WordRow {
        words: &["receive", "1", "1/4", "IN="],
        place: 3,
    },
    WordRow {
        words: &["receive", "1", "1/4", "IN"],
        place: 3,
    },
    WordRow {
        words: &["receive", "1", "1/4", "x"],
        place: 3,
    },
    WordRow {
        words: &["receive", "1", "1/4", "A=x"],
        place: 3,
    },
    WordRow {
        words: &["receive", "1", "1/4", WIDE, "IN=x"],
        place: 3,
    },
    WordRow {
        words: &["receive", "1", "1/4", "IN=x", ""],
        place: 4,
    },
    WordRow {
        words: &["receive", "1", "1/4", "IN=x", "IN=x"],
        place: 4,
    },
    WordRow {
        words: &["code", "1", "1/4", "IN=x"],
        place: 3,
    },
];

#[test]
fn places_of_faults_of_receive(rt: HostRuntime) -> Result<(), Fail> {
    check_places(&rt, rt.alloc(), &RECEIVE)
}

/// A mode and a setting that it has not.
struct SettingRow {
    mode: &'static str,
    setting: &'static str,
}

const NO_SETTINGS: [SettingRow; 24] = [
    SettingRow {
        mode: "1",
        setting: "A:1:qpsk:1/2:0",
    },
    SettingRow {
        mode: "1",
        setting: "A:013:qpsk:1/2:0",
    },
    SettingRow {
        mode: "1",
        setting: "A:+13:qpsk:1/2:0",
    },
    SettingRow {
        mode: "1",
        setting: "A:0:qpsk:1/2:0,B:13:qpsk:1/2:0",
    },
    SettingRow {
        mode: "1",
        setting: "A:14:qpsk:1/2:0",
    },
    SettingRow {
        mode: "1",
        setting: "A:13:QPSK:1/2:0",
    },
    SettingRow {
        mode: "1",
        setting: "A:13:qpsk:4/5:0",
    },
    SettingRow {
        mode: "1",
        setting: "A:13:qpsk:1/2:00",
    },
    SettingRow {
        mode: "1",
        setting: "A:13:qpsk:1/2:2",
    },
    SettingRow {
        mode: "2",
        setting: "A:13:qpsk:1/2:16",
    },
    SettingRow {
        mode: "3",
        setting: "A:13:qpsk:1/2:8",
    },
    SettingRow {
        mode: "1",
        setting: "A:13:qpsk:1/2",
    },
    SettingRow {
        mode: "1",
        setting: "A:13:qpsk:1/2:0:0",
    },
    SettingRow {
        mode: "1",
        setting: "A:13:qpsk:1/2:0:",
    },
    SettingRow {
        mode: "1",
        setting: "A:13:qpsk:1/2:0,",
    },
    SettingRow {
        mode: "1",
        setting: "A:13:qpsk:1/2:0:partial",
    },
    SettingRow {
        mode: "1",
        setting: "A:1:qpsk:1/2:0,B:12:qpsk:1/2:0:partial",
    },
    SettingRow {
        mode: "1",
        setting: "A:1:partial:qpsk:1/2:0,B:12:qpsk:1/2:0",
    },
    SettingRow {
        mode: "1",
        setting: "A:1:qpsk:1/2:0,C:12:qpsk:1/2:0",
    },
    SettingRow {
        mode: "1",
        setting: "B:1:qpsk:1/2:0,A:12:qpsk:1/2:0",
    },
    SettingRow {
        mode: "1",
        setting: "A:1:qpsk:1/2:0,B:6:qpsk:1/2:0",
    },
    SettingRow {
        mode: "1",
        setting: "A:1:qpsk:1/2:0,B:6:qpsk:1/2:0,B:6:qpsk:1/2:0",
    },
    SettingRow {
        mode: "1",
        setting: "A:1:qpsk:1/2:0,B:1:qpsk:1/2:0,C:11:qpsk:1/2:0,D:1:qpsk:1/2:0",
    },
    SettingRow {
        mode: "1",
        setting: "",
    },
];

#[test]
fn settings_of_no_mode(rt: HostRuntime) -> Result<(), Fail> {
    for row in &NO_SETTINGS {
        let list = ["remux", row.mode, "1/4", row.setting, "A=a"];
        assert_eq!(rt; place_of(rt.alloc(), &list)?, 3);
    }
    Ok(())
}
