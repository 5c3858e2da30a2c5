//! The top call.

ghost use Rattle.std.specs.Prelude.{◌≡◌, ℕ, ◌≤◌, Bool, List, ◌↔◌, true, false, Some, option_map};
ghost use Rattle.std.specs.declared.option.Option.{Option as Maybe};
ghost use Rattle.isdbt_base.specs.declared.kinds.Layer.{Layer as Which};
ghost use Rattle.isdbt_base.specs.Plans.{Schedule, IsPlan};
ghost use Rattle.isdbt_base.specs.declared.stream.Reading.{Reading as SomeReading};
ghost use Rattle.isdbt_base.specs.declared.stream.Writing.{Writing as SomeWriting};
ghost use Rattle.isdbt_base.specs.Frames.{FramePackets};
ghost use Rattle.isdbt_base.specs.Outcome.{product};
ghost use Rattle.gf_rs.specs.Codewords.{IsBytes};
ghost use Rattle.edge_io.specs.declared.shelf.Seat.{Seat as Place};
ghost use Rattle.edge_io.specs.declared.shelf.Seat.TheVariants as seats;
ghost use Rattle.edge_io.specs.Causes.{Cause};
ghost use Rattle.edge_io.specs.FrameAnswers.{LoneAnswer, LoneCause, AnswerCause};
ghost use Rattle.remux_core.specs.Multiplex.{multiplexed};
ghost use Rattle.remux_core.specs.Parts.{IsGood};
ghost use Rattle.remux_core.specs.Answers.{RemuxAnswer, RemuxCause};
ghost use Rattle.coder_core.specs.SentCells.{sent_frame};
ghost use Rattle.coder_core.specs.Answers.{code_kind, code_command, show_command};
ghost use Rattle.seg_receiver.specs.CellStream.{View as SomeView, view_of, writing_of, AreInRow, NoBadHead};
ghost use Rattle.seg_receiver.specs.Delivered.{CanCarry, ArePackets};
ghost use Rattle.seg_receiver.specs.ReceiveAnswers.{receive_kind, receive_command};
ghost use Rattle.sample.specs.SamplePlan.{sample_frames};
ghost use Rattle.sample.specs.Answers.{sample_text, sample_kind, SampleAnswer};
ghost use Rattle.isdbt_cli.specs.Chain.{written_stream, IsDoneWith, CanCarryFor, HasFlags, IsNearFor, IsRestorableFor, delivered_for, IsReceivedAs, WroteNear, IsChain};
ghost use Rattle.isdbt_cli.specs.CommandLines.{Command as SomeCommand, remux, code, receive, sample, IsRemux, IsCode, IsCommand, Spells, IsFaultAt};
ghost use Rattle.setting_words.specs.SettingWords.{Word};
ghost use Rattle.isdbt_cli.specs.Faults.{run_fault_of, run_fault_of_code, run_fault_of_receive, run_fault_of_sample};
ghost use Rattle.isdbt_cli.specs.Lines.{line_of, IsTold};
ghost use Rattle.isdbt_cli.specs.Parsing.{command_of};
ghost use Rattle.isdbt_cli.specs.FrameLimit.{frame_limit};
ghost use Rattle.isdbt_cli.specs.Run.{layer_names, lone_name, no_names, names_of, Hold, SeatsAfter, EndsSo, AnswerOf, OpenFailed, CauseOf, RunCause, NothingRose, RefusesNone, IsDoneOrNoMemory, IsFree};

use crate::command::Command;
use crate::fault::{Outcome, RunFault};
use crate::inputs::open_inputs;
use crate::lines::write_line;
use crate::words::Words;
use coder_core::{code, show_bts};
use edge_io::{Failed, Seat, Shelf, Sink};
use isdbt_base::{Guard, Mode, Plan, Reading, Writing};
use remux_core::remux;
use sample::sample;
use seg_receiver::{Aim, ReceiveFault, aim_of, receive, receive_partial, show_cells};
use std::alloc::Global;

/// The most frames of a command.
const MOST_FRAMES: u32 = 16_777_216;

/// Remultiplexes the inputs of these names.
fn run_remux<H: Shelf, K: Sink>(
    alloc: Global,
    plan: &Plan,
    a: &str,
    b: Option<&str>,
    c: Option<&str>,
    shelf: &mut H,
    out: &mut K,
) -> Outcome
    requires accepted { IsRemux plan.now a.now (option_map (λ x. x.now) b) (option_map (λ x. x.now) c) }
    requires closed { (seat : Place) → H.is_open shelf.old seat ≡ false }
    ensures answer { (input : Which → List ℕ) → Hold (H.holds shelf.old) (layer_names a.now (option_map (λ x. x.now) b.entry) (option_map (λ x. x.now) c.entry)) input
        → EndsSo run_fault_of (λ seat. K.written out.new ≡ K.written out.old) (RemuxAnswer plan.now input frame_limit (K.written out.old) (K.written out.new) (H.left shelf.new)) result }
    ensures cause { EndsSo run_fault_of (OpenFailed (layer_names a.now (option_map (λ x. x.now) b.entry) (option_map (λ x. x.now) c.entry)) (H.faults shelf.old) (H.faults shelf.new) (K.faults out.old) (K.faults out.new))
        (RemuxCause plan.now (H.faults shelf.old) (H.faults shelf.new) (K.faults out.old) (K.faults out.new)) result }
    ensures seats { SeatsAfter (layer_names a.now (option_map (λ x. x.now) b.entry) (option_map (λ x. x.now) c.entry)) (H.is_open shelf.new) result }
    ensures unopened { (seat : Place) → result ≡ Outcome.Fault (RunFault.OpenFault seat) → out.new ≡ out.old }
    ensures room { K.room out.new ≡ K.room out.old }
{
    match open_inputs(a, b, c, shelf) {
        Ok(()) => {}
        Err(seat) => return Outcome::Fault(RunFault::OpenFault(seat)),
    }
    match remux(alloc, plan, MOST_FRAMES, shelf, out) {
        Ok(frames) => Outcome::Done(frames),
        Err(fault) => Outcome::Fault(RunFault::from(fault)),
    }
}

/// Codes the input of this name.
fn run_code<H: Shelf, K: Sink>(
    alloc: Global,
    plan: &Plan,
    how: Writing,
    name: &str,
    shelf: &mut H,
    out: &mut K,
) -> Outcome
    requires accepted { IsCode plan.now how name.now }
    requires closed { (seat : Place) → H.is_open shelf.old seat ≡ false }
    ensures answer { (input : List ℕ) → H.holds shelf.old name.now ≡ Some input
        → EndsSo run_fault_of_code (λ seat. K.written out.new ≡ K.written out.old) (LoneAnswer code_kind (code_command how plan.now input frame_limit) (K.written out.old) (K.written out.new) (H.left shelf.new seats.In)) result }
    ensures cause { EndsSo run_fault_of_code (OpenFailed (lone_name name.now) (H.faults shelf.old) (H.faults shelf.new) (K.faults out.old) (K.faults out.new))
        (LoneCause code_kind (H.faults shelf.old) (H.faults shelf.new) (K.faults out.old) (K.faults out.new)) result }
    ensures seats { SeatsAfter (lone_name name.now) (H.is_open shelf.new) result }
    ensures unopened { (seat : Place) → result ≡ Outcome.Fault (RunFault.OpenFault seat) → out.new ≡ out.old }
    ensures room { K.room out.new ≡ K.room out.old }
{
    match shelf.open(Seat::In, name) {
        Ok(()) => {}
        Err(Failed) => return Outcome::Fault(RunFault::OpenFault(Seat::In)),
    }
    match code(alloc, plan, how, MOST_FRAMES, shelf, out) {
        Ok(frames) => Outcome::Done(frames),
        Err(fault) => Outcome::Fault(RunFault::from(fault)),
    }
}

/// Writes what is asked of a stream of cells.
fn read_cells<H: Shelf, K: Sink>(
    alloc: Global,
    how: Reading,
    aim: Aim,
    shelf: &mut H,
    out: &mut K,
) -> Result<u32, ReceiveFault>
    requires { H.is_open shelf.old seats.In ≡ true }
    ensures answer { (stream : List ℕ) → H.left shelf.old seats.In ≡ Some stream
        → LoneAnswer receive_kind (receive_command (view_of how stream) aim stream frame_limit) (K.written out.old) (K.written out.new) (H.left shelf.new seats.In) result }
    ensures still_open { H.is_open shelf.new ≡ H.is_open shelf.old }
    ensures cause { LoneCause receive_kind (H.faults shelf.old) (H.faults shelf.new) (K.faults out.old) (K.faults out.new) result }
    ensures room { K.room out.new ≡ K.room out.old }
{
    match aim {
        Aim::Full => receive(alloc, how, MOST_FRAMES, shelf, out),
        Aim::Partial => receive_partial(alloc, how, MOST_FRAMES, shelf, out),
        Aim::Lines => show_cells(alloc, how, MOST_FRAMES, shelf, out),
    }
}

/// Writes what is asked of the cells of the input of this name, a stream that is read so.
fn run_cells<H: Shelf, K: Sink>(
    alloc: Global,
    how: Reading,
    aim: Aim,
    name: &str,
    shelf: &mut H,
    out: &mut K,
) -> Outcome
    requires { (seat : Place) → H.is_open shelf.old seat ≡ false }
    ensures answer { (stream : List ℕ) → H.holds shelf.old name.now ≡ Some stream
        → EndsSo run_fault_of_receive (λ seat. K.written out.new ≡ K.written out.old) (LoneAnswer receive_kind (receive_command (view_of how stream) aim stream frame_limit) (K.written out.old) (K.written out.new) (H.left shelf.new seats.In)) result }
    ensures cause { EndsSo run_fault_of_receive (OpenFailed (lone_name name.now) (H.faults shelf.old) (H.faults shelf.new) (K.faults out.old) (K.faults out.new))
        (LoneCause receive_kind (H.faults shelf.old) (H.faults shelf.new) (K.faults out.old) (K.faults out.new)) result }
    ensures seats { SeatsAfter (lone_name name.now) (H.is_open shelf.new) result }
    ensures unopened { (seat : Place) → result ≡ Outcome.Fault (RunFault.OpenFault seat) → out.new ≡ out.old }
    ensures room { K.room out.new ≡ K.room out.old }
{
    match shelf.open(Seat::In, name) {
        Ok(()) => {}
        Err(Failed) => return Outcome::Fault(RunFault::OpenFault(Seat::In)),
    }
    match read_cells(alloc, how, aim, shelf, out) {
        Ok(frames) => Outcome::Done(frames),
        Err(fault) => Outcome::Fault(RunFault::from(fault)),
    }
}

/// Shows the frames of broadcast packets of the input of this name.
fn run_show_bts<H: Shelf, K: Sink>(
    alloc: Global,
    mode: Mode,
    guard: Guard,
    name: &str,
    shelf: &mut H,
    out: &mut K,
) -> Outcome
    requires { (seat : Place) → H.is_open shelf.old seat ≡ false }
    ensures answer { (input : List ℕ) → H.holds shelf.old name.now ≡ Some input
        → EndsSo run_fault_of_code (λ seat. K.written out.new ≡ K.written out.old) (LoneAnswer code_kind (show_command mode guard input frame_limit) (K.written out.old) (K.written out.new) (H.left shelf.new seats.In)) result }
    ensures cause { EndsSo run_fault_of_code (OpenFailed (lone_name name.now) (H.faults shelf.old) (H.faults shelf.new) (K.faults out.old) (K.faults out.new))
        (LoneCause code_kind (H.faults shelf.old) (H.faults shelf.new) (K.faults out.old) (K.faults out.new)) result }
    ensures seats { SeatsAfter (lone_name name.now) (H.is_open shelf.new) result }
    ensures unopened { (seat : Place) → result ≡ Outcome.Fault (RunFault.OpenFault seat) → out.new ≡ out.old }
    ensures room { K.room out.new ≡ K.room out.old }
{
    match shelf.open(Seat::In, name) {
        Ok(()) => {}
        Err(Failed) => return Outcome::Fault(RunFault::OpenFault(Seat::In)),
    }
    match show_bts(alloc, mode, guard, MOST_FRAMES, shelf, out) {
        Ok(frames) => Outcome::Done(frames),
        Err(fault) => Outcome::Fault(RunFault::from(fault)),
    }
}

/// Runs the sample of this number.
fn run_sample<K: Sink>(alloc: Global, number: u16, out: &mut K) -> Outcome
    ensures answer { EndsSo run_fault_of_sample (λ seat. K.written out.new ≡ K.written out.old) (SampleAnswer number (K.written out.old) (K.written out.new)) result }
    ensures cause { (shelf : Cause → ℕ) → EndsSo run_fault_of_sample (OpenFailed no_names shelf shelf (K.faults out.old) (K.faults out.new))
        (AnswerCause sample_kind (λ seat. ⊥) shelf shelf (K.faults out.old) (K.faults out.new)) result }
    ensures opens_none { (seat : Place) → result ≡ Outcome.Fault (RunFault.OpenFault seat) → ⊥ }
    ensures room { K.room out.new ≡ K.room out.old }
{
    match sample(alloc, number, out) {
        Ok(frames) => Outcome::Done(frames),
        Err(fault) => Outcome::Fault(RunFault::from(fault)),
    }
}

/// Does what a command says.
fn run_command<H: Shelf, K: Sink>(
    alloc: Global,
    command: Command<'_>,
    shelf: &mut H,
    out: &mut K,
) -> Outcome
    requires accepted { IsCommand (command_of command) }
    requires closed { (seat : Place) → H.is_open shelf.old seat ≡ false }
    ensures answer { AnswerOf (command_of command.entry) (H.holds shelf.old) (K.written out.old) (K.written out.new) (H.left shelf.new) result }
    ensures cause { CauseOf (command_of command.entry) (H.faults shelf.old) (H.faults shelf.new) (K.faults out.old) (K.faults out.new) result }
    ensures seats { SeatsAfter (names_of (command_of command.entry)) (H.is_open shelf.new) result }
    ensures unread { (number : ℕ) → command_of command.entry ≡ sample number → shelf.new ≡ shelf.old }
    ensures unopened { (seat : Place) → result ≡ Outcome.Fault (RunFault.OpenFault seat) → out.new ≡ out.old }
    ensures room { K.room out.new ≡ K.room out.old }
{
    match command {
        Command::Remux { plan, a, b, c } => run_remux(alloc, &plan, a, b, c, shelf, out),
        Command::Code { plan, how, name } => run_code(alloc, &plan, how, name, shelf, out),
        Command::Receive { how, partial, name } => {
            run_cells(alloc, how, aim_of(partial), name, shelf, out)
        }
        Command::ShowBts { mode, guard, name } => run_show_bts(
            alloc, mode, guard, name, shelf, out,
        ),
        Command::ShowCells { how, name } => run_cells(alloc, how, Aim::Lines, name, shelf, out),
        Command::Sample { number } => run_sample(alloc, number, out),
    }
}

/// Does what the words say: opens the inputs that they name, writes the command's product to `out`, and answers how it
/// ended. A fault's line goes to `err`.
pub fn run<H: Shelf, K: Sink, E: Sink>(
    alloc: Global,
    words: &Words,
    shelf: &mut H,
    out: &mut K,
    err: &mut E,
) -> Outcome
    requires { (seat : Place) → H.is_open shelf.old seat ≡ false }

    // Usage comes exactly where the words aren't a command, with the place of their fault; then nothing is touched.
    ensures usage { (word : ℕ) → (result ≡ Outcome.Fault (RunFault.Usage word)) ↔ IsFaultAt words.now word }
    ensures untouched { (word : ℕ) → result ≡ Outcome.Fault (RunFault.Usage word) → (shelf.new ≡ shelf.old) × (out.new ≡ out.old) }

    // Nothing but a fault's line, or a front part of it where a write of it failed, is written to `err`.
    ensures line { IsTold (line_of result) (E.written err.old) (E.written err.new) (E.faults err.old) (E.faults err.new) }

    // Words are of one command at most.
    ensures one_command { (c d : SomeCommand) → Spells words.now c → Spells words.now d → c ≡ d }

    // What the answer to a command says of its inputs and of what was written: what its engine's answer says.
    ensures answer { (c : SomeCommand) → Spells words.now c → AnswerOf c (H.holds shelf.old) (K.written out.old) (K.written out.new) (H.left shelf.new) result }

    // Every named input is opened, and no other seat; at one that can't be opened it stops, and nothing is written.
    ensures seats { (c : SomeCommand) → Spells words.now c → SeatsAfter (names_of c) (H.is_open shelf.new) result }
    ensures unopened { (seat : Place) → result ≡ Outcome.Fault (RunFault.OpenFault seat) → out.new ≡ out.old }

    // A sample reads nothing, and writes the three lines that are computed from the definitions.
    ensures sample_alone { (number : ℕ) → Spells words.now (sample number) → shelf.new ≡ shelf.old }
    ensures sample_lines { (number : ℕ) → Spells words.now (sample number)
        → NothingRose no_names (H.faults shelf.old) (H.faults shelf.new) (K.faults out.old) (K.faults out.new)
        → IsDoneWith sample_frames (sample_text number) (K.written out.old) (K.written out.new) result }

    // A fault of the outside is answered only where its count rose, and another answer only where none rose.
    ensures cause { RunCause words.now (H.faults shelf.old) (H.faults shelf.new) (K.faults out.old) (K.faults out.new) result }

    // No frame refused and no fault of the outside: all frames, or no memory.
    ensures complete { (c : SomeCommand) → Spells words.now c → NothingRose (names_of c) (H.faults shelf.old) (H.faults shelf.new) (K.faults out.old) (K.faults out.new)
        → RefusesNone c (H.holds shelf.old) → IsDoneOrNoMemory result }

    // Good packets and no fault of the outside: all frames, or too many, or no memory.
    ensures good_packets { (p : Schedule) (a : Word) (b c : Maybe Word) (input : Which → List ℕ) → Spells words.now (remux p a b c)
        → Hold (H.holds shelf.old) (layer_names a b c) input
        → NothingRose (layer_names a b c) (H.faults shelf.old) (H.faults shelf.new) (K.faults out.old) (K.faults out.new)
        → ((x : Which) → IsGood (input x)) → IsFree result }

    // A coding of what a remultiplexing writes of good inputs, and no fault of the outside: the cells of the plan and of the
    // multiplexed packets, in version 2 with the heads of the plan's frames, or no memory.
    ensures code_of_remux { (p : Schedule) (how : SomeWriting) (name : Word) (input : Which → List ℕ) (count : ℕ) → Spells words.now (code p how name)
        → H.holds shelf.old name ≡ Some (written_stream p input count) → ((x : Which) → IsGood (input x)) → ((x : Which) → IsBytes (input x)) → count ≤ frame_limit
        → NothingRose (lone_name name) (H.faults shelf.old) (H.faults shelf.new) (K.faults out.old) (K.faults out.new)
        → IsDoneWith count (product (sent_frame how p (multiplexed p input)) count) (K.written out.old) (K.written out.new) result }

    // A coding that is done has written cells that are near the plan and the packets found in the input, which are packets of
    // bytes.
    ensures code_near { (p : Schedule) (how : SomeWriting) (name : Word) (input : List ℕ) (m : ℕ) → Spells words.now (code p how name) → H.holds shelf.old name ≡ Some input → IsBytes input
        → result ≡ Outcome.Done m → WroteNear how p input m (K.written out.old) (K.written out.new) }

    // Cells that are near those of a plan, in either version of the stream, and no fault of the outside: the packets of the
    // plan's frames, each put off by its layer's delay, and no others, or no memory. With partial reception layer A's alone,
    // where the cells are near for layer A, the setting of each frame has the flag, and no head is refused.
    ensures receive_near { (p : Schedule) (frames : FramePackets) (count : ℕ) (how : SomeReading) (partial : Bool) (name : Word) (stream : List ℕ) → Spells words.now (receive how partial name)
        → H.holds shelf.old name ≡ Some stream → IsPlan p → ArePackets p frames count → IsNearFor partial (view_of how stream) p frames count → (partial ≡ true → NoBadHead (view_of how stream) count) → count ≤ frame_limit
        → NothingRose (lone_name name) (H.faults shelf.old) (H.faults shelf.new) (K.faults out.old) (K.faults out.new)
        → IsDoneWith count (delivered_for partial p frames count) (K.written out.old) (K.written out.new) result }

    // Where words are corrected, it is enough that each word differs from the plan's in at most eight of the bits from B20 on and
    // in none before.
    ensures receive_restored { (p : Schedule) (frames : FramePackets) (count : ℕ) (how : SomeReading) (partial : Bool) (name : Word) (stream : List ℕ) → Spells words.now (receive how partial name)
        → H.holds shelf.old name ≡ Some stream → how.fix ≡ true → IsPlan p → ArePackets p frames count → IsRestorableFor partial (view_of how stream) p frames count → (partial ≡ true → NoBadHead (view_of how stream) count) → count ≤ frame_limit
        → NothingRose (lone_name name) (H.faults shelf.old) (H.faults shelf.new) (K.faults out.old) (K.faults out.new)
        → IsDoneWith count (delivered_for partial p frames count) (K.written out.old) (K.written out.new) result }

    // Three facts of the commands, whatever the words are. A view that is near a plan, whose frames stand in a row and of
    // which no head is refused, is received as what is delivered of it, in full and in part: so after a failed read or write
    // too what was written is a front part of the delivered stream. By laws of `seg_receiver` a stream of either version that
    // is near a plan is such a view.
    ensures near_received { (v : SomeView) (p : Schedule) (frames : FramePackets) (count : ℕ) (partial : Bool) → IsPlan p → AreInRow v count → NoBadHead v count → ArePackets p frames count → IsNearFor partial v p frames count
        → count ≤ frame_limit → IsReceivedAs partial v p frames count }

    // The cells of a plan, as a coding writes them in a version of the stream that can carry it, are near it, for partial
    // reception too where each setting has the flag.
    ensures near_cells { (p : Schedule) (frames : FramePackets) (count : ℕ) (how : SomeReading) (partial : Bool) → IsPlan p → CanCarryFor partial how.form p count → ArePackets p frames count → HasFlags partial p count
        → IsNearFor partial (view_of how (product (sent_frame (writing_of how.form) p frames) count)) p frames count }

    // And the commands go one behind another, for inputs of whole packets with their sync bytes: a coding refuses nothing of
    // what a remultiplexing writes of them, the cells that it writes are near the plan and the multiplexed packets, so that a
    // receiving delivers these, with partial reception layer A's where each setting has the flag, and each input packet that a
    // frame places is delivered later by its layer's delay.
    ensures chain { (p : Schedule) (how : SomeReading) (input : Which → List ℕ) (count : ℕ) → IsPlan p → CanCarry how.form p count
        → ((x : Which) → IsGood (input x)) → ((x : Which) → IsBytes (input x)) → count ≤ frame_limit → IsChain p input how count }

    // The rooms of both sinks stay.
    ensures out_room { K.room out.new ≡ K.room out.old }
    ensures err_room { E.room err.new ≡ E.room err.old }
{
    match words.command() {
        Ok(command) => {
            let outcome = run_command(alloc, command, shelf, out);
            write_line(&outcome, err);
            outcome
        }
        Err(word) => {
            let outcome = Outcome::Fault(RunFault::Usage { word });
            write_line(&outcome, err);
            outcome
        }
    }
}
