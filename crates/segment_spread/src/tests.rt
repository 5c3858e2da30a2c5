//! Places by hand, and whole symbols against the rule of the places.

use crate::{gather, spread, spread_place};
use cell_map::Cell;
use isdbt_base::{Mode, carriers};
use std::process::Abort;
use time_inter::CellPlace;

/// Where the cell of a place goes.
#[derive(Clone, Copy)]
struct PlaceRow {
    mode: Mode,
    from: CellPlace,
    to: CellPlace,
}

fn at(segment: u32, carrier: u32) -> CellPlace {
    CellPlace { segment, carrier }
}

fn check_places(rt: &impl Abort, partial: bool, rows: &[PlaceRow]) {
    for row in rows {
        let PlaceRow { mode, from, to } = *row;
        assert!(rt; from.segment < 13 && from.carrier < carriers(mode));
        assert_eq!(rt; spread_place(partial, mode, from), to);
    }
}

#[test]
fn places_with_partial_reception(rt: HostRuntime) {
    let rows = [
        PlaceRow {
            mode: Mode::M1,
            from: at(1, 0),
            to: at(1, 1),
        },
        PlaceRow {
            mode: Mode::M1,
            from: at(1, 13),
            to: at(2, 3),
        },
        PlaceRow {
            mode: Mode::M1,
            from: at(12, 95),
            to: at(12, 11),
        },
        PlaceRow {
            mode: Mode::M1,
            from: at(0, 95),
            to: at(0, 95),
        },
        PlaceRow {
            mode: Mode::M2,
            from: at(7, 100),
            to: at(5, 109),
        },
        PlaceRow {
            mode: Mode::M3,
            from: at(5, 200),
            to: at(9, 153),
        },
    ];
    check_places(&rt, true, &rows);
}

#[test]
fn places_without_partial_reception(rt: HostRuntime) {
    let rows = [
        PlaceRow {
            mode: Mode::M1,
            from: at(1, 0),
            to: at(5, 12),
        },
        PlaceRow {
            mode: Mode::M1,
            from: at(0, 95),
            to: at(4, 11),
        },
        PlaceRow {
            mode: Mode::M2,
            from: at(12, 191),
            to: at(12, 11),
        },
        PlaceRow {
            mode: Mode::M3,
            from: at(6, 7),
            to: at(10, 187),
        },
    ];
    check_places(&rt, false, &rows);
}

/// Marks the places to which the cells of a segment go, and fails where one was marked before.
fn mark_places(rt: &impl Abort, partial: bool, mode: Mode, segment: u32, taken: &mut [bool; 4992]) {
    let size = carriers(mode);
    assert!(rt; segment < 13);
    for carrier in 0..size {
        let to = spread_place(partial, mode, CellPlace { segment, carrier });
        let number = (to.segment * size + to.carrier) as usize;
        assert_eq!(rt; taken.get(number), Some(&false));
        taken[number] = true;
    }
}

/// Marks the place of each cell of a symbol: none twice, and none past the symbol's end.
fn mark_symbol(rt: &impl Abort, partial: bool, mode: Mode) {
    let mut taken = [false; 4992];
    for segment in 0..13 {
        mark_places(rt, partial, mode, segment, &mut taken);
    }
    let count = 13 * carriers(mode) as usize;
    assert!(rt; taken[count..].iter().all(|mark| !*mark));
}

#[test]
fn each_place_is_taken_once(rt: HostRuntime) {
    for mode in [Mode::M1, Mode::M2, Mode::M3] {
        mark_symbol(&rt, false, mode);
        mark_symbol(&rt, true, mode);
    }
}

/// A cell that tells its number, below 4992.
fn numbered(number: usize) -> Cell {
    Cell {
        i: (number / 64 % 128) as i8,
        q: (number % 64) as i8,
    }
}

fn numbered_cells() -> [Cell; 4992] {
    let mut cells = [numbered(0); 4992];
    for (number, cell) in cells.iter_mut().enumerate() {
        *cell = numbered(number);
    }
    cells
}

/// A symbol of numbered cells, spread.
fn spread_symbol(partial: bool, mode: Mode) -> [Cell; 4992] {
    let count = 13 * carriers(mode) as usize;
    let sent = numbered_cells();
    let mut moved = [numbered(0); 4992];
    spread(partial, mode, &sent[..count], &mut moved[..count]);
    moved
}

/// Compares the cells of a section, the largest of the symbol, with the rule of their places.
fn compare_section(rt: &impl Abort, partial: bool, mode: Mode) {
    let size = carriers(mode) as usize;
    let moved = spread_symbol(partial, mode);
    let (first, segments) = if partial { (1, 12) } else { (0, 13) };
    for x in 0..segments * size {
        let segment = first + x % segments;
        let carrier = (x / segments + segment) % size;
        assert_eq!(rt;
            moved.get(segment * size + carrier),
            Some(&numbered(first * size + x))
        );
    }
}

#[test]
fn sections_by_the_rule(rt: HostRuntime) {
    for mode in [Mode::M1, Mode::M2, Mode::M3] {
        compare_section(&rt, false, mode);
        compare_section(&rt, true, mode);
    }
}

/// Compares the first cells of a symbol with their numbers.
fn compare_numbers(rt: &impl Abort, cells: &[Cell]) {
    for (number, cell) in cells.iter().enumerate() {
        assert_eq!(rt; *cell, numbered(number));
    }
}

#[test]
fn segment_0_stays_with_partial_reception(rt: HostRuntime) {
    for mode in [Mode::M1, Mode::M2, Mode::M3] {
        let moved = spread_symbol(true, mode);
        compare_numbers(&rt, &moved[..carriers(mode) as usize]);
    }
}

/// A symbol of numbered cells, spread and gathered again.
fn gathered_symbol(partial: bool, mode: Mode) -> [Cell; 4992] {
    let count = 13 * carriers(mode) as usize;
    let moved = spread_symbol(partial, mode);
    let mut back = [numbered(0); 4992];
    gather(partial, mode, &moved[..count], &mut back[..count]);
    back
}

#[test]
fn gather_undoes_spread(rt: HostRuntime) {
    for mode in [Mode::M1, Mode::M2, Mode::M3] {
        let count = 13 * carriers(mode) as usize;
        compare_numbers(&rt, &gathered_symbol(false, mode)[..count]);
        compare_numbers(&rt, &gathered_symbol(true, mode)[..count]);
    }
}
