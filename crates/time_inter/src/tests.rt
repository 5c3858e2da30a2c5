//! Cells whose places and delays are known.

ghost use Rattle.std.specs.Prelude.{◌≡◌, ◌≤◌, IfOk};
ghost use Rattle.isdbt_base.specs.Numbers.{carriers};

use crate::{
    CellPlace, LayerDeinter, LayerInter, TimeDeinter, TimeInter, layer_partner_law, place,
};
use delay_line::{Line, Stage, through};
use isdbt_base::{
    DepthCode, Layer, LayerSetting, Mode, Modulation, Rate, Setting, adjust_of, carriers, depth_of,
};
use std::alloc::Global;
use std::process::Abort;
use std::test::Fail;

/// One cell of ones among cells of zeros: its carrier, by how many symbols it comes late, and for how many symbols it is
/// looked for.
#[derive(Clone, Copy)]
struct OneCell {
    carrier: usize,
    late: usize,
    symbols: usize,
}

/// Checks that the cell of this carrier is of ones, and that the others of a symbol are zeros.
fn expect_only(rt: &impl Abort, given: &[u8], marked: Option<usize>) {
    for (carrier, bits) in given.iter().enumerate() {
        let wanted = if marked == Some(carrier) { 63 } else { 0 };
        assert_eq!(rt; *bits, wanted, "carrier {carrier}, marked {marked:?}");
    }
}

/// Sends the cell in the first of these symbols, through the adjustment and then the stage, and checks that it comes late as
/// stated, and that at every other symbol and carrier a zero comes.
fn expect_one_cell<S: Stage<Item = u8>, const N: usize>(
    rt: &impl Abort,
    adjustment: &mut Line<u8>,
    stage: &mut S,
    cell: &OneCell,
)
    requires { N ≤ 384 }
{
    for symbol in 0..cell.symbols {
        let mut sent = [0u8; N];
        assert!(rt; cell.carrier < N);
        sent[cell.carrier] = if symbol == 0 { 63 } else { 0 };
        let mut adjusted = [9u8; N];
        adjustment.feed(&sent, &mut adjusted);
        let mut given = [9u8; N];
        assert_eq!(rt; adjusted.len() % stage.paths() as usize, 0);
        stage.feed(&adjusted, &mut given);
        let comes = symbol == cell.late;
        expect_only(rt, &given, if comes { Some(cell.carrier) } else { None });
    }
}

#[test]
fn carrier_twenty_delay(rt: HostRuntime) -> Result<(), Fail> {
    // 16 * (5 * 20 mod 96) is 64, and 112 symbols are the adjustment.
    let adjust = adjust_of(Mode::M1, DepthCode::D3);
    assert_eq!(rt; (depth_of(Mode::M1, DepthCode::D3), adjust), (16, 112));
    let mut adjustment = Line::open(rt.alloc(), 112 * 96, 0u8)?;
    let mut inter = TimeInter::<16>::open(rt.alloc(), Mode::M1)?;
    let cell = OneCell {
        carrier: 20,
        late: 176,
        symbols: 1700,
    };
    expect_one_cell::<_, 96>(&rt, &mut adjustment, &mut inter, &cell);
    Ok(())
}

#[test]
fn last_carrier_delay(rt: HostRuntime) -> Result<(), Fail> {
    // 5 * 383 mod 96 is 91, and 109 symbols are the adjustment.
    let adjust = adjust_of(Mode::M3, DepthCode::D1);
    assert_eq!(rt; (depth_of(Mode::M3, DepthCode::D1), adjust), (1, 109));
    let mut adjustment = Line::open(rt.alloc(), 109 * 384, 0u8)?;
    let mut inter = TimeInter::<1>::open(rt.alloc(), Mode::M3)?;
    let cell = OneCell {
        carrier: 383,
        late: 200,
        symbols: 400,
    };
    expect_one_cell::<_, 384>(&rt, &mut adjustment, &mut inter, &cell);
    Ok(())
}

/// By how many symbols a stage delays each of some carriers.
fn delays<S: Stage>(stage: &S, carriers: [u32; 3]) -> [Option<u32>; 3] {
    carriers.map(|carrier| {
        if carrier < stage.paths() {
            Some(stage.path_delay(carrier))
        } else {
            None
        }
    })
}

#[test]
fn told_delays(rt: HostRuntime) -> Result<(), Fail> {
    let alloc = rt.alloc();
    let inter = TimeInter::<16>::open(alloc, Mode::M1)?;
    assert_eq!(rt; (inter.paths(), inter.delay(), inter.zero()), (96, 1520, 0));
    assert_eq!(rt; delays(&inter, [0, 20, 96]), [Some(0), Some(64), None]);
    let deinter = TimeDeinter::<16>::open(alloc, Mode::M1)?;
    assert_eq!(rt;
        (deinter.paths(), deinter.delay(), deinter.zero()),
        (96, 1520, 0)
    );
    assert_eq!(rt;
        delays(&deinter, [0, 20, 96]),
        [Some(1520), Some(1456), None]
    );
    let inter = TimeInter::<1>::open(alloc, Mode::M3)?;
    assert_eq!(rt; delays(&inter, [96, 383, 384]), [Some(0), Some(91), None]);
    Ok(())
}

#[test]
fn layer_partner_delays(rt: HostRuntime) -> Result<(), Fail> {
    let layer = LayerSetting::new(2, Modulation::Qpsk, Rate::R23, DepthCode::D3).ok_or("refused")?;
    let deinter = LayerDeinter::open(rt.alloc(), &layer, Mode::M1)?;
    assert_eq!(rt;
        (deinter.paths(), deinter.delay(), deinter.zero()),
        (192, 1520, 0)
    );
    assert_eq!(rt;
        delays(&deinter, [0, 116, 192]),
        [Some(1520), Some(1456), None]
    );
    Ok(())
}

/// What a stage of mode 1 gives for a symbol of ones and 99 of zeros, carrier by carrier within each symbol.
fn after_ones<S: Stage<Item = u8>>(rt: &impl Abort, stage: &mut S) -> [u8; 9600] {
    let mut sent = [0u8; 9600];
    for cell in sent.iter_mut().take(96) {
        *cell = 1;
    }
    let mut given = [9u8; 9600];
    assert_eq!(rt; stage.paths(), 96);
    stage.feed(&sent, &mut given);
    given
}

#[test]
fn delay_line_vectors(rt: HostRuntime) -> Result<(), Fail> {
    let mut inter = TimeInter::<1>::open(rt.alloc(), Mode::M1)?;
    let sent = after_ones(&rt, &mut inter);
    let mut deinter = TimeDeinter::<1>::open(rt.alloc(), Mode::M1)?;
    let received = after_ones(&rt, &mut deinter);
    let mut none = TimeInter::<0>::open(rt.alloc(), Mode::M1)?;
    let passed = after_ones(&rt, &mut none);
    for place in 0..9600 {
        let (symbol, late) = (place / 96, 5 * (place % 96) % 96);
        assert_eq!(rt; sent[place], (symbol == late) as u8, "place {place}");
        assert_eq!(rt;
            received[place],
            (symbol == 95 - late) as u8,
            "place {place}"
        );
        assert_eq!(rt; passed[place], (symbol == 0) as u8, "place {place}");
    }
    Ok(())
}

#[test]
fn each_carrier_alone(rt: HostRuntime) -> Result<(), Fail> {
    let mut unadjusted = Line::open(rt.alloc(), 0, 0u8)?;
    let mut inter = TimeInter::<1>::open(rt.alloc(), Mode::M1)?;
    let mut deinter = TimeDeinter::<1>::open(rt.alloc(), Mode::M1)?;
    for carrier in 0..96usize {
        let mut cell = OneCell {
            carrier,
            late: 5 * carrier % 96,
            symbols: 200,
        };
        expect_one_cell::<_, 96>(&rt, &mut unadjusted, &mut inter, &cell);
        cell.late = 95 - cell.late;
        expect_one_cell::<_, 96>(&rt, &mut unadjusted, &mut deinter, &cell);
    }
    Ok(())
}

/// The bits of a cell that is told by symbol and carrier.
fn cell_of(symbol: usize, carrier: usize) -> u8 {
    (symbol
        .wrapping_mul(31)
        .wrapping_add(carrier.wrapping_mul(7))
        % 64) as u8
}

#[test]
fn time_pair(rt: HostRuntime) -> Result<(), Fail> {
    let mut inter = TimeInter::<1>::open(rt.alloc(), Mode::M1)?;
    let mut deinter = TimeDeinter::<1>::open(rt.alloc(), Mode::M1)?;
    let mut middle = [0u8; 96];
    for symbol in 0..200usize {
        let mut cells = [0u8; 96];
        for carrier in 0..96 {
            cells[carrier] = cell_of(symbol, carrier);
        }
        through(&mut inter, &mut deinter, &mut cells, &mut middle);
        for carrier in 0..96 {
            let wanted = if symbol < 95 {
                0
            } else {
                cell_of(symbol - 95, carrier)
            };
            assert_eq!(rt;
                cells[carrier],
                wanted,
                "symbol {symbol}, carrier {carrier}"
            );
        }
    }
    Ok(())
}

/// What a deinterleaver gives at last of so many symbols of two segments of mode 3, each cell told by symbol and place, that
/// an interleaver of the same setting was fed.
fn last_of_pair(alloc: Global, symbols: usize) -> Result<[u8; 768], Fail> {
    let layer = LayerSetting::new(2, Modulation::Qpsk, Rate::R23, DepthCode::D1).ok_or("refused")?;
    let mut inter = LayerInter::open(alloc, &layer, Mode::M3)?;
    let mut deinter = LayerDeinter::open(alloc, &layer, Mode::M3)?;
    layer_partner_law(&layer, Mode::M3);
    let mut middle = [0u8; 768];
    let mut cells = [0u8; 768];
    for symbol in 0..symbols {
        for place in 0..768 {
            cells[place] = cell_of(symbol, place);
        }
        through(&mut inter, &mut deinter, &mut cells, &mut middle);
    }
    Ok(cells)
}

#[test]
fn layer_pair(rt: HostRuntime) -> Result<(), Fail> {
    assert_eq!(rt; last_of_pair(rt.alloc(), 95)?, [0; 768]);
    let cells = last_of_pair(rt.alloc(), 98)?;
    for (place, cell) in cells.iter().enumerate() {
        assert_eq!(rt; *cell, cell_of(2, place), "place {place}");
    }
    Ok(())
}

#[test]
fn places_of_layers(rt: HostRuntime) -> Result<(), Fail> {
    let one = LayerSetting::new(1, Modulation::Qpsk, Rate::R23, DepthCode::D3).ok_or("refused")?;
    let wide = LayerSetting::new(12, Modulation::Qam64, Rate::R34, DepthCode::D2).ok_or("refused")?;
    let Ok(setting) = Setting::new(true, one, Some(wide), None) else {
        return Err(Fail::from("refused"));
    };
    let cell = |segment, carrier| CellPlace { segment, carrier };
    assert_eq!(rt; place(&setting, Layer::A, Mode::M3, 383), cell(0, 383));
    assert_eq!(rt; place(&setting, Layer::B, Mode::M3, 0), cell(1, 0));
    assert_eq!(rt; place(&setting, Layer::B, Mode::M3, 385), cell(2, 1));
    assert_eq!(rt; place(&setting, Layer::B, Mode::M1, 1151), cell(12, 95));
    Ok(())
}
