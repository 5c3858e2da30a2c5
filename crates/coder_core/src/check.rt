//! The check of a frame of broadcast packets.

ghost use Rattle.std.specs.Prelude.{◌≡◌, ◌+◌, ◌*◌, ◌/◌, ◌≤◌, ◌^◌, None, Some, IfOk, length, MatchResult};
ghost use Rattle.bts_info.specs.Information.{fields_of, has_head, layer_named};
ghost use Rattle.coder_core.specs.FrameChecks.{bad_sync_slot, misplaced_slot, layer_count, bad_sync, misplaced, framing_refusal, wrong_count, refusal, information_in, same_layer, CanCode};

use crate::fault::CodeFault;
use bts_info::{Info, layer_of, read};
use edge_io::Seat;
use isdbt_base::{BROADCAST_BYTES, Layer, Mode, Setting};
use ts_packet::{PACKET_BYTES, SYNC};

/// Slots of a frame.
pub fn slots_of(frame: &[u8]) -> u32
    requires { length frame.now ≤ 2 ^ 32 }
    ensures value { result ≡ length frame.now / 204 }
{
    (frame.len() / BROADCAST_BYTES) as u32
}

/// The information in a slot of a frame.
pub fn info_in(frame: &[u8], slot: u32) -> Info
    requires { 204 * slot + 204 ≤ length frame.now }
    ensures { result ≡ fields_of (information_in frame.now slot) }
{
    let start = BROADCAST_BYTES * slot as usize + PACKET_BYTES;
    let mut bytes = [0u8; 8];
    bytes.copy_from_slice(&frame[start..start + 8]);
    read(&bytes)
}

/// Whether the packet in a slot bears the frame head flag.
pub fn bears_head(frame: &[u8], slot: u32) -> bool
    requires { 204 * slot + 204 ≤ length frame.now }
    ensures { result ≡ has_head (information_in frame.now slot) }
{
    info_in(frame, slot).head
}

/// The layer that the packet in a slot names.
fn layer_in(frame: &[u8], slot: u32) -> Option<Layer>
    requires { 204 * slot + 204 ≤ length frame.now }
    ensures { result ≡ layer_named (information_in frame.now slot) }
{
    layer_of(&info_in(frame, slot))
}

/// Whether the packet in a slot names this layer.
pub fn names(frame: &[u8], slot: u32, layer: Layer) -> bool
    requires { 204 * slot + 204 ≤ length frame.now }
    ensures { result ≡ same_layer layer (layer_named (information_in frame.now slot)) }
{
    match (layer, layer_in(frame, slot)) {
        (Layer::A, Some(Layer::A)) => true,
        (Layer::B, Some(Layer::B)) => true,
        (Layer::C, Some(Layer::C)) => true,
        _ => false,
    }
}

/// The first slot whose packet doesn't begin with the sync byte.
fn bad_sync_slot(frame: &[u8]) -> Option<u32>
    requires { length frame.now ≤ 2 ^ 32 }
    ensures { result ≡ bad_sync_slot frame.now }
{
    for slot in 0..slots_of(frame) {
        if frame[BROADCAST_BYTES * slot as usize] != SYNC {
            return Some(slot);
        }
    }
    None
}

/// The first slot whose frame head flag is wrong: it is set in slot 0 alone.
fn misplaced_slot(frame: &[u8]) -> Option<u32>
    requires { length frame.now ≤ 2 ^ 32 }
    ensures { result ≡ misplaced_slot frame.now }
{
    for slot in 0..slots_of(frame) {
        if bears_head(frame, slot) != (slot == 0) {
            return Some(slot);
        }
    }
    None
}

/// How many slots name a layer.
pub fn layer_count(frame: &[u8], layer: Layer) -> u32
    requires { length frame.now ≤ 2 ^ 32 }
    ensures { result ≡ layer_count frame.now layer }
{
    let mut count = 0;
    for slot in 0..slots_of(frame) {
        if names(frame, slot, layer) {
            count += 1;
        }
    }
    count
}

/// The cause in a packet's first byte.
fn bad_sync(first_packet: u64, frame: &[u8]) -> Option<CodeFault>
    requires first { first_packet ≤ 2 ^ 60 }
    requires size { length frame.now ≤ 2 ^ 32 }
    ensures { result ≡ bad_sync first_packet frame.now }
{
    let slot = bad_sync_slot(frame)?;
    Some(CodeFault::BadSync {
        seat: Seat::In,
        packet: first_packet + u64::from(slot),
    })
}

/// The cause in a head flag.
fn misplaced(number: u32, frame: &[u8]) -> Option<CodeFault>
    requires { length frame.now ≤ 2 ^ 32 }
    ensures { result ≡ misplaced number frame.now }
{
    let slot = misplaced_slot(frame)?;
    Some(CodeFault::HeadMisplaced {
        frame: number,
        slot,
    })
}

/// Why a frame is no frame of broadcast packets, whatever it carries: a packet without sync byte, or a misplaced head flag.
pub fn framing_fault(number: u32, first_packet: u64, frame: &[u8]) -> Option<CodeFault>
    requires first { first_packet ≤ 2 ^ 60 }
    requires size { length frame.now ≤ 2 ^ 32 }
    ensures { result ≡ framing_refusal number first_packet frame.now }
{
    bad_sync(first_packet, frame).or(misplaced(number, frame))
}

/// The cause in the count of a layer's packets.
fn wrong_count(
    setting: &Setting,
    mode: Mode,
    number: u32,
    frame: &[u8],
    layer: Layer,
) -> Option<CodeFault>
    requires { length frame.now ≤ 2 ^ 32 }
    ensures { result ≡ wrong_count setting.now mode number frame.now layer }
{
    let found = layer_count(frame, layer);
    if found == setting.packets(layer, mode) {
        None
    } else {
        Some(CodeFault::WrongCount {
            frame: number,
            layer,
            found,
        })
    }
}

/// The first cause to refuse a frame.
fn cause(
    setting: &Setting,
    mode: Mode,
    number: u32,
    first_packet: u64,
    frame: &[u8],
) -> Option<CodeFault>
    requires first { first_packet ≤ 2 ^ 60 }
    requires size { length frame.now ≤ 2 ^ 32 }
    ensures { result ≡ refusal setting.now mode number first_packet frame.now }
{
    framing_fault(number, first_packet, frame)
        .or(wrong_count(setting, mode, number, frame, Layer::A))
        .or(wrong_count(setting, mode, number, frame, Layer::B))
        .or(wrong_count(setting, mode, number, frame, Layer::C))
}

/// Whether the frame with this number can be coded with the setting, or the first cause to refuse it: a packet without
/// sync byte, a misplaced head flag, a layer (A, B, C) with another count of packets. The frame is whole broadcast
/// packets of 204 bytes, and before its first stand `first_packet` packets of the input.
pub fn check_frame(
    setting: &Setting,
    mode: Mode,
    number: u32,
    first_packet: u64,
    frame: &[u8],
) -> Result<(), CodeFault>
    requires first { first_packet ≤ 2 ^ 60 }
    requires size { length frame.now ≤ 2 ^ 32 }
    ensures answer { MatchResult result (λ coded. refusal setting.now mode number first_packet frame.now ≡ None) (λ fault. refusal setting.now mode number first_packet frame.now ≡ Some fault) }
    ensures codable { IfOk result (λ coded. CanCode setting.now mode frame.now) }
{
    match cause(setting, mode, number, first_packet, frame) {
        Some(fault) => Err(fault),
        None => Ok(()),
    }
}
