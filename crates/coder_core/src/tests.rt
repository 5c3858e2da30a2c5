//! Frames that can be coded, and frames that can't.

use crate::{CodeFault, check_frame};
use edge_io::Seat;
use isdbt_base::{DepthCode, Layer, LayerSetting, Mode, Modulation, Rate, Setting};
use std::alloc::Global;
use std::test::Fail;

const SLOTS: usize = 4608;

/// Layer A for partial reception with 64 packets a frame in mode 3, and layer B with 2592.
fn partial_and_wide() -> Result<Setting, Fail> {
    let one = LayerSetting::new(1, Modulation::Qpsk, Rate::R23, DepthCode::D3).ok_or("refused")?;
    let wide = LayerSetting::new(12, Modulation::Qam64, Rate::R34, DepthCode::D2).ok_or("refused")?;
    let Ok(setting) = Setting::new(true, one, Some(wide), None) else {
        return Err(Fail::from("refused"));
    };
    Ok(setting)
}

/// Sets a byte of the packet in a slot.
fn put(frame: &mut [u8], slot: usize, at: usize, value: u8) {
    if let Some(byte) = frame.get_mut(slot.wrapping_mul(204).wrapping_add(at)) {
        *byte = value;
    }
}

/// A frame whose packets begin with the sync byte, with the head flag in slot 0: slots from 1 on name the layers in turn,
/// each by its indicator and so many times.
fn frame_of(alloc: Global, layers: &[(u8, usize)]) -> Result<Vec<u8>, Fail> {
    let mut frame = vec![in alloc; 0; 204 * SLOTS]?;
    for slot in 0..SLOTS {
        put(&mut frame, slot, 0, 0x47);
    }
    put(&mut frame, 0, 188, 0b10);
    let mut slot = 1usize;
    for (indicator, count) in layers {
        for _packet in 0..*count {
            put(&mut frame, slot, 189, indicator.wrapping_mul(16));
            slot = slot.wrapping_add(1);
        }
    }
    Ok(frame)
}

/// What the check says of the third frame of an input, before whose first packet stand 9217 others.
fn checked(frame: &[u8]) -> Result<Result<(), CodeFault>, Fail> {
    if frame.len() > 204 * SLOTS {
        return Err(Fail::from("too long"));
    }
    Ok(check_frame(&partial_and_wide()?, Mode::M3, 2, 9217, frame))
}

/// A layer with another count.
fn count(layer: Layer, found: u32) -> Result<(), CodeFault> {
    Err(CodeFault::WrongCount {
        frame: 2,
        layer,
        found,
    })
}

#[test]
fn count_not_order_of_slots(rt: HostRuntime) -> Result<(), Fail> {
    let alloc = rt.alloc();
    let rows = [
        ([(1, 64), (2, 2592), (0, 0)], Ok(())),
        ([(2, 2000), (1, 64), (2, 592)], Ok(())),
        ([(1, 64), (2, 2592), (4, 100)], Ok(())),
        ([(1, 64), (2, 2593), (0, 0)], count(Layer::B, 2593)),
        ([(1, 64), (2, 2591), (0, 0)], count(Layer::B, 2591)),
        ([(1, 65), (2, 2593), (3, 1)], count(Layer::A, 65)),
        ([(1, 64), (2, 2592), (3, 1)], count(Layer::C, 1)),
    ];
    for (layers, wanted) in rows {
        let frame = frame_of(alloc, &layers)?;
        assert_eq!(rt; checked(&frame)?, wanted);
    }
    Ok(())
}

#[test]
fn first_of_several_causes(rt: HostRuntime) -> Result<(), Fail> {
    let mut frame = frame_of(rt.alloc(), &[(1, 64), (2, 2593)])?;
    put(&mut frame, 7, 188, 0b11);
    let second = Err(CodeFault::HeadMisplaced { frame: 2, slot: 7 });
    assert_eq!(rt; checked(&frame)?, second);
    put(&mut frame, 0, 188, 0b01);
    let none = Err(CodeFault::HeadMisplaced { frame: 2, slot: 0 });
    assert_eq!(rt; checked(&frame)?, none);
    put(&mut frame, 4607, 0, 0xB8);
    let last = Err(CodeFault::BadSync {
        seat: Seat::In,
        packet: 13_824,
    });
    assert_eq!(rt; checked(&frame)?, last);
    put(&mut frame, 5, 0, 0);
    let fifth = Err(CodeFault::BadSync {
        seat: Seat::In,
        packet: 9222,
    });
    assert_eq!(rt; checked(&frame)?, fifth);
    Ok(())
}
