//! Words whose bits are known.

use crate::{TmccFault, TmccInfo, info_bits, parity, read_info, read_word, word_of};
use isdbt_base::{DepthCode, Layer, LayerSetting, Modulation, Rate, Setting};
use std::process::Abort;
use std::test::Fail;

/// Layer A of one segment with partial reception, and layer B.
fn two_layers() -> Option<Setting> {
    let a = LayerSetting::new(1, Modulation::Qpsk, Rate::R23, DepthCode::D3)?;
    let b = LayerSetting::new(12, Modulation::Qam64, Rate::R34, DepthCode::D2);
    Setting::new(true, a, b, None).ok()
}

fn three_layers() -> Option<Setting> {
    let a = LayerSetting::new(2, Modulation::Qpsk, Rate::R12, DepthCode::D0)?;
    let b = LayerSetting::new(4, Modulation::Qam16, Rate::R23, DepthCode::D1);
    let c = LayerSetting::new(7, Modulation::Qam64, Rate::R56, DepthCode::D3);
    Setting::new(false, a, b, c).ok()
}

/// What the word of the first frame says, without a later switch.
fn first_info() -> Option<TmccInfo> {
    Some(TmccInfo {
        start_up: false,
        countdown: 15,
        now: two_layers()?,
        next: None,
    })
}

fn shows(bits: &[bool], text: &[u8]) -> bool {
    bits.len() == text.len()
        && bits
            .iter()
            .zip(text)
            .all(|(bit, digit)| *bit == (*digit == b'1'))
}

/// The word with other bits from a bit on.
fn changed(word: &[bool; 204], at: usize, text: &[u8]) -> [bool; 204] {
    let mut changed = *word;
    for (bit, digit) in changed.iter_mut().skip(at).zip(text) {
        *bit = *digit == b'1';
    }
    changed
}

/// The information of a word.
fn information(word: &[bool; 204]) -> [bool; 102] {
    let mut info = [false; 102];
    info.copy_from_slice(&word[20..122]);
    info
}

/// The word with the parity that fits its other bits.
fn fitting(word: &[bool; 204]) -> [bool; 204] {
    let mut fitting = *word;
    fitting[122..204].copy_from_slice(&parity(&information(word)));
    fitting
}

#[test]
fn tmcc_word_of_two_layers(rt: HostRuntime) -> Result<(), Fail> {
    let info = first_info().ok_or("accepted")?;
    let word = word_of(&info, false);
    assert!(rt; shows(&word[0..20], b"00011010111101110000"));
    assert!(rt; shows(&word[20..54], b"0011110100100101100010110100101100"));
    assert!(rt; word[54..122].iter().all(|bit| *bit));
    assert!(rt;
        shows(
            &word[122..204],
            b"1001011110000110000011000010000100111011101100010011011000010010101100011011110101"
        )
    );
    assert!(rt; read_word(&word) == Ok((info, false)));
    Ok(())
}

#[test]
fn parity_of_a_last_one(rt: HostRuntime) -> Result<(), Fail> {
    let mut info = [false; 102];
    info[101] = true;
    let exponents = [
        77, 76, 71, 67, 66, 56, 52, 48, 40, 36, 34, 24, 22, 18, 10, 4, 0,
    ];
    for (exponent, bit) in (0..82u32).rev().zip(parity(&info)) {
        assert_eq!(rt; bit, exponents.contains(&exponent), "x^{exponent}");
    }
    Ok(())
}

#[test]
fn announced_switch_of_an_odd_frame(rt: HostRuntime) -> Result<(), Fail> {
    let info = TmccInfo {
        start_up: true,
        countdown: 2,
        now: three_layers().ok_or("accepted")?,
        next: two_layers(),
    };
    let word = word_of(&info, true);
    assert!(rt; shows(&word[0..27], b"011001010000100010000000101"));
    assert!(rt; shows(&word[27..67], b"0001000000001001000100101000110110110111"));
    assert!(rt; shows(&word[67..107], b"1001001011000101101001011001111111111111"));
    assert!(rt; word[107..122].iter().all(|bit| *bit));
    assert!(rt;
        shows(
            &word[122..204],
            b"0000010010111110000000010100011110101111010110101000100010000000111110000110010000"
        )
    );
    assert!(rt; read_word(&word) == Ok((info, true)));
    Ok(())
}

/// Bits that a word has from bit `at` on, and how it is refused for them.
#[derive(Clone, Copy)]
struct RefusedBits<'a> {
    at: usize,
    text: &'a [u8],
    fault: TmccFault,
}

/// The word of the first frame, with a row's bits and the parity that fits them, is refused as the row says; and so is its
/// information alone, where the bits are of it.
fn expect_refused(rt: &impl Abort, rows: &[RefusedBits]) -> Result<(), Fail> {
    let word = word_of(&first_info().ok_or("accepted")?, false);
    for RefusedBits { at, text, fault } in rows {
        let refused = fitting(&changed(&word, *at, text));
        assert!(rt; read_word(&refused) == Err(*fault), "from B{at} on");
        if *at >= 20 {
            assert!(rt;
                read_info(&information(&refused)) == Err(*fault),
                "from B{at} on"
            );
        }
    }
    Ok(())
}

#[test]
fn wrong_parity(rt: HostRuntime) -> Result<(), Fail> {
    let word = word_of(&first_info().ok_or("accepted")?, false);
    let wrong_parity = changed(&word, 203, b"0");
    assert!(rt; read_word(&wrong_parity) == Err(TmccFault::Parity));
    Ok(())
}

#[test]
fn unlawful_heads_and_layer_a(rt: HostRuntime) -> Result<(), Fail> {
    let ones = b"1111111111111";
    let rows = [
        RefusedBits {
            at: 1,
            text: b"1111111111111111",
            fault: TmccFault::Sync,
        },
        RefusedBits {
            at: 17,
            text: b"1",
            fault: TmccFault::SegmentType,
        },
        RefusedBits {
            at: 20,
            text: b"01",
            fault: TmccFault::System,
        },
        RefusedBits {
            at: 28,
            text: b"000",
            fault: TmccFault::LayerField(Layer::A),
        },
        RefusedBits {
            at: 28,
            text: ones,
            fault: TmccFault::LayerField(Layer::A),
        },
        RefusedBits {
            at: 31,
            text: b"101",
            fault: TmccFault::LayerField(Layer::A),
        },
        RefusedBits {
            at: 34,
            text: b"100",
            fault: TmccFault::LayerField(Layer::A),
        },
        RefusedBits {
            at: 37,
            text: b"0010",
            fault: TmccFault::LayerField(Layer::A),
        },
    ];
    expect_refused(&rt, &rows)
}

#[test]
fn unlawful_layers_b_and_c(rt: HostRuntime) -> Result<(), Fail> {
    let ones = b"1111111111111";
    let rows = [
        RefusedBits {
            at: 41,
            text: b"11111111111110010010000001",
            fault: TmccFault::LayerField(Layer::B),
        },
        RefusedBits {
            at: 50,
            text: b"0000",
            fault: TmccFault::LayerField(Layer::B),
        },
        RefusedBits {
            at: 50,
            text: b"1110",
            fault: TmccFault::LayerField(Layer::B),
        },
        RefusedBits {
            at: 54,
            text: b"0010010000000",
            fault: TmccFault::LayerField(Layer::C),
        },
        RefusedBits {
            at: 54,
            text: b"0010010000001",
            fault: TmccFault::Segments(14),
        },
        RefusedBits {
            at: 50,
            text: b"1011",
            fault: TmccFault::Segments(12),
        },
        RefusedBits {
            at: 41,
            text: ones,
            fault: TmccFault::Segments(1),
        },
    ];
    expect_refused(&rt, &rows)
}

/// Bits that a word has from bit `at` on, and that change nothing of what it says.
#[derive(Clone, Copy)]
struct UnreadBits<'a> {
    at: usize,
    text: &'a [u8],
}

#[test]
fn unread_bits(rt: HostRuntime) -> Result<(), Fail> {
    let info = first_info().ok_or("accepted")?;
    let word = word_of(&info, false);
    let rows = [
        UnreadBits { at: 0, text: b"1" },
        UnreadBits {
            at: 107,
            text: b"000000000000000",
        },
        UnreadBits {
            at: 57,
            text: b"0000000000",
        },
        UnreadBits {
            at: 67,
            text: b"0000000000000000000000000000000000000000",
        },
    ];
    for UnreadBits { at, text } in rows {
        let other = fitting(&changed(&word, at, text));
        assert!(rt; read_word(&other) == Ok((info, false)), "from B{at} on");
        assert!(rt;
            read_info(&information(&other)) == Ok(info),
            "from B{at} on"
        );
    }
    Ok(())
}

#[test]
fn information_alone(rt: HostRuntime) -> Result<(), Fail> {
    let info = first_info().ok_or("accepted")?;
    let bits = info_bits(&info);
    assert!(rt; shows(&bits[0..34], b"0011110100100101100010110100101100"));
    assert!(rt; bits[34..102].iter().all(|bit| *bit));
    assert!(rt; read_info(&bits) == Ok(info));
    Ok(())
}
