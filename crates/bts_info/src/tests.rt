//! Information whose bytes are known.

use crate::{FrameTag, Info, info_of, layer_of, read, to_bytes};
use isdbt_base::Layer;
use std::test::Fail;

/// The tag of an even first frame with countdown 15.
fn first_even() -> FrameTag {
    FrameTag {
        odd: false,
        first: true,
        start_up: false,
        countdown: 15,
    }
}

/// A slot of a frame with this tag, and the first four bytes of its information.
#[derive(Clone, Copy)]
struct SlotRow {
    tag: FrameTag,
    layer: Option<Layer>,
    slot: u32,
    head: [u8; 4],
}

#[test]
fn written_slots(rt: HostRuntime) -> Result<(), Fail> {
    let odd = FrameTag {
        odd: true,
        first: false,
        start_up: true,
        countdown: 2,
    };
    let ones = 0xFF;
    let table = [
        SlotRow {
            tag: first_even(),
            layer: None,
            slot: 0,
            head: [0xA6, 0x0F, 0xE0, 0x00],
        },
        SlotRow {
            tag: first_even(),
            layer: Some(Layer::A),
            slot: 8,
            head: [0xA0, 0x1F, 0xE0, 0x08],
        },
        SlotRow {
            tag: odd,
            layer: None,
            slot: 0,
            head: [0xAB, 0x02, 0xE0, 0x00],
        },
        SlotRow {
            tag: odd,
            layer: Some(Layer::C),
            slot: 0x1234,
            head: [0xA9, 0x32, 0xF2, 0x34],
        },
    ];
    for SlotRow {
        tag,
        layer,
        slot,
        head,
    } in table {
        let info = info_of(&tag, layer, slot);
        let bytes = [head[0], head[1], head[2], head[3], ones, ones, ones, ones];
        assert_eq!(rt; to_bytes(&info), bytes);
        assert!(rt; read(&bytes) == info);
        assert_eq!(rt; layer_of(&info), layer);
    }
    Ok(())
}

#[test]
fn read_fields(rt: HostRuntime) -> Result<(), Fail> {
    let info = read(&[0x59, 0x2A, 0x5F, 0x01, 0x00, 0x01, 0x02, 0x03]);
    let wanted = Info {
        identifier: 1,
        reserved: false,
        buffer_reset: true,
        start_up: true,
        first: false,
        head: false,
        odd: true,
        layer: 2,
        countdown: 10,
        ac_invalid: false,
        ac_effective: 2,
        counter: 0x1F01,
        ac: 0x0001_0203,
    };
    assert!(rt; info == wanted);
    Ok(())
}

#[test]
fn named_layers(rt: HostRuntime) -> Result<(), Fail> {
    for indicator in 0..16u8 {
        let info = read(&[0xA0, 16 * indicator, 0xE0, 0, 0xFF, 0xFF, 0xFF, 0xFF]);
        let wanted = match indicator {
            1 => Some(Layer::A),
            2 => Some(Layer::B),
            3 => Some(Layer::C),
            _ => None,
        };
        assert_eq!(rt; layer_of(&info), wanted, "indicator {indicator}");
    }
    Ok(())
}
