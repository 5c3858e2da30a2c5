//! Words both ways, words that spell no setting, and lines.

use crate::lines::{BtsLine, CellsLine, bts_line, cells_line};
use crate::reading::setting_of;
use crate::writing::setting_word;
use isdbt_base::{DepthCode, LayerSetting, Mode, Modulation, Rate, Setting};
use std::test::Fail;

/// The numbers of a layer.
struct LayerRow {
    segments: u32,
    modulation: Modulation,
    rate: Rate,
    depth: DepthCode,
}

/// A setting and its word in a mode.
struct SettingRow {
    mode: Mode,
    is_partial: bool,
    layers: &'static [LayerRow],
    word: &'static str,
}

const SETTINGS: [SettingRow; 4] = [
    SettingRow {
        mode: Mode::M3,
        is_partial: true,
        layers: &[
            LayerRow {
                segments: 1,
                modulation: Modulation::Qpsk,
                rate: Rate::R23,
                depth: DepthCode::D3,
            },
            LayerRow {
                segments: 12,
                modulation: Modulation::Qam64,
                rate: Rate::R34,
                depth: DepthCode::D2,
            },
        ],
        word: "A:1:qpsk:2/3:4:partial,B:12:64qam:3/4:2",
    },
    SettingRow {
        mode: Mode::M1,
        is_partial: false,
        layers: &[
            LayerRow {
                segments: 2,
                modulation: Modulation::Qam16,
                rate: Rate::R12,
                depth: DepthCode::D3,
            },
            LayerRow {
                segments: 10,
                modulation: Modulation::Qam64,
                rate: Rate::R78,
                depth: DepthCode::D2,
            },
            LayerRow {
                segments: 1,
                modulation: Modulation::Qpsk,
                rate: Rate::R56,
                depth: DepthCode::D0,
            },
        ],
        word: "A:2:16qam:1/2:16,B:10:64qam:7/8:8,C:1:qpsk:5/6:0",
    },
    SettingRow {
        mode: Mode::M1,
        is_partial: false,
        layers: &[LayerRow {
            segments: 13,
            modulation: Modulation::Qpsk,
            rate: Rate::R12,
            depth: DepthCode::D1,
        }],
        word: "A:13:qpsk:1/2:4",
    },
    SettingRow {
        mode: Mode::M2,
        is_partial: false,
        layers: &[LayerRow {
            segments: 13,
            modulation: Modulation::Qpsk,
            rate: Rate::R12,
            depth: DepthCode::D2,
        }],
        word: "A:13:qpsk:1/2:4",
    },
];

/// The layer at a place of a row, where there is one.
fn layer_at(row: &SettingRow, place: usize) -> Result<Option<LayerSetting>, Fail> {
    let Some(layer) = row.layers.get(place) else {
        return Ok(None);
    };
    match LayerSetting::new(layer.segments, layer.modulation, layer.rate, layer.depth) {
        Some(made) => Ok(Some(made)),
        None => Err(Fail::from("no such count of segments")),
    }
}

/// The setting of a row.
fn setting_in(row: &SettingRow) -> Result<Setting, Fail> {
    let Some(a) = layer_at(row, 0)? else {
        return Err(Fail::from("no layer A"));
    };
    Ok(Setting::new(row.is_partial, a, layer_at(row, 1)?, layer_at(row, 2)?)?)
}

#[test]
fn words_both_ways(rt: HostRuntime) -> Result<(), Fail> {
    for row in &SETTINGS {
        let setting = setting_in(row)?;
        assert!(rt;
            setting_word(row.mode, &setting).as_str() == row.word,
            "{}",
            row.word
        );
        assert!(rt;
            setting_of(row.mode, row.word) == Some(setting),
            "{}",
            row.word
        );
    }
    Ok(())
}

/// Words that spell no setting in mode 3.
const NO_SETTINGS: [&str; 8] = [
    "",
    "A:13:qpsk:1/2:16",
    "A:13:qpsk:1/2:0:partial",
    "A:12:qpsk:1/2:0",
    "B:13:qpsk:1/2:0",
    "A:1:qpsk:1/2:0,C:12:qpsk:1/2:0",
    "A:1:qpsk:1/2:0,B:12:qpsk:1/2:0:partial",
    "A:13:qpsk:1/2:0,",
];

#[test]
fn words_of_no_setting(rt: HostRuntime) -> Result<(), Fail> {
    for word in &NO_SETTINGS {
        assert!(rt; setting_of(Mode::M3, word).is_none(), "{word}");
    }
    Ok(())
}

/// A frame of broadcast packets and its line.
struct BtsRow {
    shown: BtsLine,
    line: &'static str,
}

const BTS: [BtsRow; 2] = [
    BtsRow {
        shown: BtsLine {
            frame: 0,
            odd: false,
            countdown: 15,
            a: 64,
            b: 2592,
            c: 0,
            unused: 1952,
        },
        line: "frame 0 even countdown 15 A 64 B 2592 C 0 none 1952\n",
    },
    BtsRow {
        shown: BtsLine {
            frame: 4_294_967_295,
            odd: true,
            countdown: 255,
            a: 4_294_967_291,
            b: 4_294_967_292,
            c: 4_294_967_293,
            unused: 4_294_967_294,
        },
        line: "frame 4294967295 odd countdown 255 A 4294967291 B 4294967292 C 4294967293 none 4294967294\n",
    },
];

#[test]
fn lines_of_broadcast_packets(rt: HostRuntime) -> Result<(), Fail> {
    for row in &BTS {
        assert!(rt; bts_line(&row.shown).as_str() == row.line, "{}", row.line);
    }
    Ok(())
}

/// A frame of cells, by the words of its settings, and its line.
struct CellsRow {
    frame: u32,
    odd: bool,
    countdown: u8,
    mode: Mode,
    now: &'static str,
    next: Option<&'static str>,
    restored: Option<u32>,
    line: &'static str,
}

const CELLS: [CellsRow; 4] = [
    CellsRow {
        frame: 0,
        odd: false,
        countdown: 15,
        mode: Mode::M3,
        now: "A:1:qpsk:2/3:4:partial,B:12:64qam:3/4:2",
        next: None,
        restored: None,
        line: "frame 0 even countdown 15 now A:1:qpsk:2/3:4:partial,B:12:64qam:3/4:2 next -\n",
    },
    CellsRow {
        frame: 1,
        odd: true,
        countdown: 15,
        mode: Mode::M1,
        now: "A:13:qpsk:1/2:0",
        next: None,
        restored: Some(0),
        line: "frame 1 odd countdown 15 now A:13:qpsk:1/2:0 next - restored 0\n",
    },
    CellsRow {
        frame: 7,
        odd: true,
        countdown: 0,
        mode: Mode::M2,
        now: "A:13:qpsk:1/2:8",
        next: Some("A:13:16qam:1/2:2"),
        restored: Some(8),
        line: "frame 7 odd countdown 0 now A:13:qpsk:1/2:8 next A:13:16qam:1/2:2 restored 8\n",
    },
    CellsRow {
        frame: 4_294_967_295,
        odd: false,
        countdown: 255,
        mode: Mode::M1,
        now: "A:1:64qam:1/2:16:partial,B:10:64qam:2/3:16,C:2:64qam:3/4:16",
        next: Some("A:1:16qam:5/6:16:partial,B:11:16qam:7/8:16,C:1:16qam:1/2:16"),
        restored: Some(4_294_967_295),
        line: "frame 4294967295 even countdown 255 now A:1:64qam:1/2:16:partial,B:10:64qam:2/3:16,C:2:64qam:3/4:16 next A:1:16qam:5/6:16:partial,B:11:16qam:7/8:16,C:1:16qam:1/2:16 restored 4294967295\n",
    },
];

/// The setting of a word.
fn spelled(mode: Mode, word: &str) -> Result<Setting, Fail> {
    match setting_of(mode, word) {
        Some(setting) => Ok(setting),
        None => Err(Fail::from("no setting")),
    }
}

#[test]
fn lines_of_cells(rt: HostRuntime) -> Result<(), Fail> {
    for row in &CELLS {
        let next = match row.next {
            Some(word) => Some(spelled(row.mode, word)?),
            None => None,
        };
        let shown = CellsLine {
            frame: row.frame,
            odd: row.odd,
            countdown: row.countdown,
            mode: row.mode,
            now: spelled(row.mode, row.now)?,
            next,
            restored: row.restored,
        };
        assert!(rt; cells_line(&shown).as_str() == row.line, "{}", row.line);
    }
    Ok(())
}
