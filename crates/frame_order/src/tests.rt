//! Worked frames.

ghost use Rattle.std.specs.Prelude.{◌≡◌, IfOk};
ghost use Rattle.frame_order.specs.LayerBytes.{AreWhole};
ghost use Rattle.frame_order.specs.WorkedSettings.{one_layer, two_layers};

use crate::{FrameOrder, LayerPackets, Mark, order};
use bts_info::{FrameTag, Info, layer_of, read};
use isdbt_base::{DepthCode, Guard, Layer, LayerSetting, Mode, Modulation, Rate, Setting};
use std::alloc::Global;
use std::process::Abort;
use std::test::Fail;
use ts_packet::Packet;

fn layer(
    segments: u32,
    modulation: Modulation,
    rate: Rate,
    depth: DepthCode,
) -> Result<LayerSetting, Fail>
    ensures { IfOk result (λ l. l ≡ record { segments = segments; modulation = modulation; rate = rate; depth = depth }) }
{
    match LayerSetting::new(segments, modulation, rate, depth) {
        Some(made) => Ok(made),
        None => Err(Fail::from("no layer")),
    }
}

/// A of 13 segments.
fn one() -> Result<Setting, Fail>
    ensures { IfOk result (λ s. s ≡ one_layer) }
{
    let a = layer(13, Modulation::Qpsk, Rate::R12, DepthCode::D0)?;
    let made = Setting::new(false, a, None, None)?;
    Ok(made)
}

/// A of one segment, partially received, and B of 12.
fn two() -> Result<Setting, Fail>
    ensures { IfOk result (λ s. s ≡ two_layers) }
{
    let a = layer(1, Modulation::Qpsk, Rate::R23, DepthCode::D3)?;
    let b = layer(12, Modulation::Qam64, Rate::R34, DepthCode::D2)?;
    let made = Setting::new(true, a, Some(b), None)?;
    Ok(made)
}

/// A packet that bears this number.
fn numbered(number: u8) -> [u8; 188] {
    let mut bytes = [number; 188];
    bytes[0] = 0x47;
    bytes[1] = 0x01;
    bytes
}

/// The null packet.
fn null() -> [u8; 188] {
    let mut bytes = [0xFF; 188];
    bytes[0] = 0x47;
    bytes[1] = 0x1F;
    bytes[3] = 0x10;
    bytes
}

/// The broadcast packet of a slot is this packet, with information that begins so and goes on with bytes FF.
fn expect_slot(
    rt: &impl Abort,
    frame: &[u8],
    slot: u16,
    packet: &[u8; 188],
    info: [u8; 4],
) -> Result<(), Fail> {
    let at = usize::from(slot) * 204;
    let sent = frame.get(at..at + 204).ok_or("no such slot")?;
    let [a, b, c, d] = info;
    let rest = [
        a, b, c, d, 0xFF, 0xFF, 0xFF, 0xFF, 0xFF, 0xFF, 0xFF, 0xFF, 0xFF, 0xFF, 0xFF, 0xFF,
    ];
    assert!(rt; sent.starts_with(packet), "packet of slot {slot}");
    assert!(rt; sent.ends_with(&rest), "information of slot {slot}");
    Ok(())
}

/// The information in a slot.
fn info_in(frame: &[u8], slot: u16) -> Result<Info, Fail> {
    let at = usize::from(slot) * 204 + 188;
    let mut bytes = [0; 8];
    let sent = frame.get(at..at + 8).ok_or("no such slot")?;
    for (byte, was) in bytes.iter_mut().zip(sent) {
        *byte = *was;
    }
    Ok(read(&bytes))
}

/// How many slots below `count` name this layer in their information, each with its own slot as the counter.
fn named_slots(
    rt: &impl Abort,
    frame: &[u8],
    count: u16,
    layer: Option<Layer>,
) -> Result<u32, Fail> {
    let mut named = 0u32;
    for slot in 0..count {
        let info = info_in(frame, slot)?;
        assert_eq!(rt; info.counter, slot);
        assert_eq!(rt; info.head, slot == 0);
        if layer_of(&info) == layer {
            named = named.wrapping_add(1);
        }
    }
    Ok(named)
}

/// The frame's broadcast packets.
fn written(
    alloc: Global,
    frame: &FrameOrder,
    tag: &FrameTag,
    first: &Packet,
    packets: &LayerPackets,
) -> Result<Vec<u8>, Fail>
    requires { AreWhole packets.now }
{
    let mut out = Vec::new(alloc);
    out.resize(204 * frame.slot_count() as usize, 0)?;
    frame.write(tag, first, packets, &mut out);
    Ok(out)
}

#[test]
fn first_packet_out(rt: HostRuntime) -> Result<(), Fail> {
    let frame = order(rt.alloc(), &one()?, Mode::M1, Guard::G4)?;
    assert_eq!(rt; frame.slot_count(), 1280);
    assert_eq!(rt; frame.slot(Layer::A, 0), 8);
    assert_eq!(rt; frame.slot(Layer::A, 1), 15);
    assert_eq!(rt; frame.slot(Layer::A, 155), 1277);
    let tag = FrameTag {
        odd: false,
        first: true,
        start_up: false,
        countdown: 15,
    };
    let mut a = Vec::new(rt.alloc());
    for number in 0..156u8 {
        a.extend_from_slice(&numbered(number))?;
    }
    assert_eq!(rt; a.len() % 188, 0);
    let packets = LayerPackets {
        a: &a,
        b: &[],
        c: &[],
    };
    let out = written(rt.alloc(), &frame, &tag, &Packet::null(), &packets)?;
    assert_eq!(rt; out.len(), 1280 * 204);
    expect_slot(&rt, &out, 0, &null(), [0xA6, 0x0F, 0xE0, 0x00])?;
    expect_slot(&rt, &out, 7, &null(), [0xA0, 0x0F, 0xE0, 0x07])?;
    expect_slot(&rt, &out, 8, &numbered(0), [0xA0, 0x1F, 0xE0, 0x08])?;
    expect_slot(&rt, &out, 1277, &numbered(155), [0xA0, 0x1F, 0xE4, 0xFD])?;
    assert_eq!(rt; named_slots(&rt, &out, 1280, Some(Layer::A))?, 156);
    Ok(())
}

#[test]
fn partial_and_wide_layer(rt: HostRuntime) -> Result<(), Fail> {
    let setting = two()?;
    assert_eq!(rt; setting.total(Mode::M3), 64 + 2592);
    let frame = order(rt.alloc(), &setting, Mode::M3, Guard::G8)?;
    assert_eq!(rt; frame.slot_count(), 4608);
    let b = |index| {
        Some(Mark {
            layer: Layer::B,
            index,
        })
    };
    assert_eq!(rt; frame.mark(0), None);
    assert_eq!(rt; frame.mark(1), None);
    assert_eq!(rt; frame.mark(2), b(0));
    assert_eq!(rt; frame.mark(3), b(1));
    assert_eq!(rt; frame.slot(Layer::A, 0), 68);
    Ok(())
}

#[test]
fn layers_with_too_few_packets(rt: HostRuntime) -> Result<(), Fail> {
    let frame = order(rt.alloc(), &two()?, Mode::M3, Guard::G8)?;
    let tag = FrameTag {
        odd: true,
        first: false,
        start_up: true,
        countdown: 3,
    };
    let packets = LayerPackets {
        a: &numbered(9),
        b: &[],
        c: &[],
    };
    let first = Packet::read(&numbered(250))?;
    let out = written(rt.alloc(), &frame, &tag, &first, &packets)?;
    assert_eq!(rt; out.len(), 4608 * 204);
    expect_slot(&rt, &out, 0, &numbered(250), [0xAB, 0x03, 0xE0, 0x00])?;
    expect_slot(&rt, &out, 1, &null(), [0xA9, 0x03, 0xE0, 0x01])?;
    expect_slot(&rt, &out, 2, &null(), [0xA9, 0x23, 0xE0, 0x02])?;
    expect_slot(&rt, &out, 68, &numbered(9), [0xA9, 0x13, 0xE0, 0x44])?;
    assert_eq!(rt; named_slots(&rt, &out, 4608, Some(Layer::A))?, 64);
    assert_eq!(rt; named_slots(&rt, &out, 4608, Some(Layer::B))?, 2592);
    assert_eq!(rt; named_slots(&rt, &out, 4608, None)?, 1952);
    Ok(())
}
