//! The commands over streams in memory.

ghost use Rattle.std.specs.Prelude.{◌≡◌, ◌≤◌, ◌<◌, true, IfOk};
ghost use Rattle.edge_io.specs.declared.shelf.Seat.{Seat as Place};
ghost use Rattle.edge_io.specs.declared.shelf.Seat.TheVariants as seats;
ghost use Rattle.edge_io.specs.MemoryShelf.{is_seat_open};

use crate::plans::{PlanRow, SINGLE, plan_of};
use crate::streams::marked_packets;
use coder_core::{CodeFault, code, show_bts};
use edge_io::{MemoryShelf, MemorySink, Seat, Shelf};
use isdbt_base::{Form, Guard, Mode, Plan, Reading, Writing};
use remux_core::{RemuxFault, remux};
use seg_receiver::{ReceiveFault, receive, receive_partial, show_cells};
use std::alloc::Global;
use std::test::Fail;

/// Room for all that a test writes.
pub const ROOM: usize = 30_000_000;

/// More frames than a test has.
pub const LIMIT: u32 = 1000;

/// How a remultiplexing ended, what it wrote, and how many bytes of layer A's input it left.
#[derive(Drop)]
pub struct RemuxEnd {
    pub answer: Result<u32, RemuxFault>,
    pub out: MemorySink,
    pub left: usize,
}

/// How a coding or a listing ended, what it wrote, and how many bytes of its input it left.
#[derive(Drop)]
pub struct CodeEnd {
    pub answer: Result<u32, CodeFault>,
    pub out: MemorySink,
    pub left: usize,
}

/// How a receiving or a listing ended, what it wrote, and how many bytes of its input it left.
#[derive(Drop)]
pub struct ReceiveEnd {
    pub answer: Result<u32, ReceiveFault>,
    pub out: MemorySink,
    pub left: usize,
}

/// How many bytes a seat has left, of an input of at most so many.
fn left_at(alloc: Global, shelf: &mut MemoryShelf, seat: Seat, most: usize) -> Result<usize, Fail>
    requires { is_seat_open shelf.old seat ≡ true }
{
    let mut rest = vec![in alloc; 0; most.max(1)]?;
    shelf.pieces(usize::MAX);
    Ok(shelf.read(seat, &mut rest)?)
}

/// The inputs of layers A, B and C, and the byte of A's from which on a read fails.
#[derive(Clone, Copy)]
pub struct LayerInputs<'a> {
    pub layers: [&'a [u8]; 3],
    pub fails_from: u64,
}

/// Remultiplexes inputs by a plan with a limit on frames.
pub fn remux_plan(
    alloc: Global,
    plan: &Plan,
    inputs: &LayerInputs,
    limit: u32,
    mut out: MemorySink,
) -> Result<RemuxEnd, Fail>
    requires some { 0 < limit }
    requires few { limit ≤ 16777216 }
{
    let layers = inputs.layers;
    let mut shelf = MemoryShelf::new(alloc);
    shelf.put("a", layers[0])?;
    shelf.put("b", layers[1])?;
    shelf.put("c", layers[2])?;
    shelf.fail_from(Seat::A, inputs.fails_from);
    shelf.open(Seat::A, "a")?;
    shelf.open(Seat::B, "b")?;
    shelf.open(Seat::C, "c")?;
    let answer = remux(alloc, plan, limit, &mut shelf, &mut out);
    let left = left_at(alloc, &mut shelf, Seat::A, layers[0].len())?;
    Ok(RemuxEnd { answer, out, left })
}

/// Remultiplexes the packets of layers A, B and C with a limit on frames.
pub fn remux_within(
    alloc: Global,
    row: &PlanRow,
    layers: [&[u8]; 3],
    limit: u32,
    out: MemorySink,
) -> Result<RemuxEnd, Fail>
    requires some { 0 < limit }
    requires few { limit ≤ 16777216 }
{
    let inputs = LayerInputs {
        layers,
        fails_from: u64::MAX,
    };
    remux_plan(alloc, &plan_of(row)?, &inputs, limit, out)
}

/// A lone input: its bytes, the most of them that a read gives, and the byte from which on a read fails, once.
#[derive(Clone, Copy)]
pub struct LoneInput<'a> {
    pub stream: &'a [u8],
    pub pieces: usize,
    pub fails_from: u64,
}

/// The input of which no read fails, and each gives all that it is asked for.
pub fn whole(stream: &[u8]) -> LoneInput<'_> {
    LoneInput {
        stream,
        pieces: usize::MAX,
        fails_from: u64::MAX,
    }
}

/// A shelf with this lone input.
fn lone_shelf(alloc: Global, input: &LoneInput) -> Result<MemoryShelf, Fail>
    ensures { IfOk result (λ shelf. is_seat_open shelf seats.In ≡ true) }
{
    let mut shelf = MemoryShelf::new(alloc);
    shelf.put("in", input.stream)?;
    shelf.pieces(input.pieces.max(1));
    shelf.fail_from(Seat::In, input.fails_from);
    shelf.open(Seat::In, "in")?;
    Ok(shelf)
}

/// Codes a stream of broadcast packets by a plan, in a version of the stream of cells that can carry it.
pub fn code_plan(
    alloc: Global,
    plan: &Plan,
    how: Writing,
    input: &LoneInput,
    mut out: MemorySink,
) -> Result<CodeEnd, Fail> {
    if !how.v2 && plan.changes_mode() {
        return Err(Fail::from("version 1 has one mode and guard interval"));
    }
    let mut shelf = lone_shelf(alloc, input)?;
    let answer = code(alloc, plan, how, LIMIT, &mut shelf, &mut out);
    let left = left_at(alloc, &mut shelf, Seat::In, input.stream.len())?;
    Ok(CodeEnd { answer, out, left })
}

/// Codes a stream of broadcast packets, in version 1.
pub fn code_into(
    alloc: Global,
    row: &PlanRow,
    stream: &[u8],
    out: MemorySink,
) -> Result<CodeEnd, Fail> {
    let how = Writing { v2: false };
    code_plan(alloc, &plan_of(row)?, how, &whole(stream), out)
}

/// Lists the frames of a stream of broadcast packets, in the mode and with the guard interval of a row.
pub fn show_packets(
    alloc: Global,
    row: &PlanRow,
    limit: u32,
    input: &LoneInput,
    mut out: MemorySink,
) -> Result<CodeEnd, Fail>
    requires some { 0 < limit }
    requires few { limit ≤ 16777216 }
{
    let mut shelf = lone_shelf(alloc, input)?;
    let answer = show_bts(alloc, row.mode, row.guard, limit, &mut shelf, &mut out);
    let left = left_at(alloc, &mut shelf, Seat::In, input.stream.len())?;
    Ok(CodeEnd { answer, out, left })
}

/// A stream of this version, read with its TMCC words as they came.
pub fn plain(form: Form) -> Reading {
    Reading { form, fix: false }
}

/// Receives a stream of cells that is read so, with a limit on frames.
pub fn receive_stream(
    alloc: Global,
    how: Reading,
    limit: u32,
    input: &LoneInput,
    mut out: MemorySink,
) -> Result<ReceiveEnd, Fail>
    requires some { 0 < limit }
    requires few { limit ≤ 16777216 }
{
    let mut shelf = lone_shelf(alloc, input)?;
    let answer = receive(alloc, how, limit, &mut shelf, &mut out);
    let left = left_at(alloc, &mut shelf, Seat::In, input.stream.len())?;
    Ok(ReceiveEnd { answer, out, left })
}

/// Receives a stream of cells of version 1.
pub fn receive_into(
    alloc: Global,
    mode: Mode,
    guard: Guard,
    cells: &[u8],
    out: MemorySink,
) -> Result<ReceiveEnd, Fail> {
    let how = plain(Form::V1 { mode, guard });
    receive_stream(alloc, how, LIMIT, &whole(cells), out)
}

/// Receives layer A alone of a stream of cells that is read so.
pub fn receive_part(
    alloc: Global,
    how: Reading,
    input: &LoneInput,
    mut out: MemorySink,
) -> Result<ReceiveEnd, Fail> {
    let mut shelf = lone_shelf(alloc, input)?;
    let answer = receive_partial(alloc, how, LIMIT, &mut shelf, &mut out);
    let left = left_at(alloc, &mut shelf, Seat::In, input.stream.len())?;
    Ok(ReceiveEnd { answer, out, left })
}

/// Lists the frames of a stream of cells that is read so, with a limit on frames.
pub fn show_stream(
    alloc: Global,
    how: Reading,
    limit: u32,
    input: &LoneInput,
    mut out: MemorySink,
) -> Result<ReceiveEnd, Fail>
    requires some { 0 < limit }
    requires few { limit ≤ 16777216 }
{
    let mut shelf = lone_shelf(alloc, input)?;
    let answer = show_cells(alloc, how, limit, &mut shelf, &mut out);
    let left = left_at(alloc, &mut shelf, Seat::In, input.stream.len())?;
    Ok(ReceiveEnd { answer, out, left })
}

/// Receives a stream of cells of version 2.
pub fn receive_headed(alloc: Global, cells: &[u8]) -> Result<ReceiveEnd, Fail> {
    let out = MemorySink::new(alloc, ROOM)?;
    receive_stream(alloc, plain(Form::V2), LIMIT, &whole(cells), out)
}

/// What is sent of a plan: frames of broadcast packets, and their cells.
#[derive(Drop)]
pub struct Sent {
    pub packets: MemorySink,
    pub cells: MemorySink,
}

/// Sends the packets of layers A, B and C by a plan, in a version of the stream of cells.
pub fn send(alloc: Global, plan: &Plan, how: Writing, layers: [&[u8]; 3]) -> Result<Sent, Fail> {
    let inputs = LayerInputs {
        layers,
        fails_from: u64::MAX,
    };
    let sent = remux_plan(alloc, plan, &inputs, LIMIT, MemorySink::new(alloc, ROOM)?)?;
    sent.answer?;
    let out = MemorySink::new(alloc, ROOM)?;
    let coded = code_plan(alloc, plan, how, &whole(sent.out.bytes()), out)?;
    coded.answer?;
    Ok(Sent {
        packets: sent.out,
        cells: coded.out,
    })
}

/// The frames of packets of layers A, B and C, and how many there are.
pub fn remuxed(
    alloc: Global,
    row: &PlanRow,
    inputs: [&[u8]; 3],
) -> Result<(u32, MemorySink), Fail> {
    let out = MemorySink::new(alloc, ROOM)?;
    let ended = remux_within(alloc, row, inputs, LIMIT, out)?;
    Ok((ended.answer?, ended.out))
}

/// The cells of a stream of broadcast packets, and how many frames there are.
pub fn coded(alloc: Global, row: &PlanRow, stream: &[u8]) -> Result<(u32, MemorySink), Fail> {
    let out = MemorySink::new(alloc, ROOM)?;
    let ended = code_into(alloc, row, stream, out)?;
    Ok((ended.answer?, ended.out))
}

/// What is received of cells in the mode of a row, and how many frames there are.
pub fn received(alloc: Global, row: &PlanRow, cells: &[u8]) -> Result<(u32, MemorySink), Fail> {
    let out = MemorySink::new(alloc, ROOM)?;
    let ended = receive_into(alloc, row.mode, row.guard, cells, out)?;
    Ok((ended.answer?, ended.out))
}

/// The cells of packets of layer A.
pub fn cells_of(alloc: Global, row: &PlanRow, packets: &[u8]) -> Result<Vec<u8>, Fail> {
    let (_, stream) = remuxed(alloc, row, [packets, &[], &[]])?;
    let (_, cells) = coded(alloc, row, stream.bytes())?;
    Ok(cells.bytes().to_vec(alloc)?)
}

/// The cells of three frames of a single layer, the first of 156 packets and the others of null packets.
pub fn single_cells(alloc: Global) -> Result<Vec<u8>, Fail> {
    cells_of(alloc, &SINGLE, &marked_packets(alloc, 156, 0x55)?)
}

/// The frames of a partial and a wide layer, of 100 and 6000 packets.
pub fn wide_stream(alloc: Global, row: &PlanRow) -> Result<(u32, MemorySink), Fail> {
    let a = marked_packets(alloc, 100, 0xAA)?;
    let b = marked_packets(alloc, 6000, 0xBB)?;
    remuxed(alloc, row, [&a, &b, &[]])
}
