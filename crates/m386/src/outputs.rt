//! The outputs of a run: the report, RAM and the disk, each opened just before it is written.

ghost use Rattle.std.specs.Prelude.{◌≡◌, ◌<◌, ◌≤◌, ◌+◌, length, take, drop, slice_index, [], IfErr, OnOk, OnErr, None, Some};
ghost use Rattle.std.specs.Option.{option_map};
ghost use Rattle.arrayvec.specs.ArrayVec.{array_vec_len};
ghost use Rattle.host_io.specs.declared.host.InSlot as inputs;
ghost use Rattle.host_io.specs.declared.host.OutSlot as slots;
ghost use Rattle.host_io.specs.declared.host.OutSlot.TheVariants.{Report};
ghost use Rattle.host_io.specs.declared.host.Slot.TheVariants.{In, Out};
ghost use Rattle.host_io.specs.Causes.{HasCause};
ghost use Rattle.host_io.specs.Promises.{IsFull, IsSure, Opens};
ghost use Rattle.host_io.specs.Slots.{Same, SameBut};
ghost use Rattle.host_io.specs.Transfers.{AppendsPrefix};
ghost use Rattle.std.specs.Io.KnownBytes.{Appends};
ghost use Rattle.command_words.specs.Jobs.{run_of, text_of};
ghost use Rattle.m386.specs.Slots.{OpenedAs, OpenedOnly, Gets, GetsPrefix, output_path};
ghost use Rattle.m386.specs.Headline.{report_of, text_for};
ghost use Rattle.m386.specs.Causes.{AreCounted, IsOpenedUpTo, IsReady};
ghost use Rattle.m386.specs.Assured.{AreWritable, OpensAt};
ghost use Rattle.m386.specs.Feeding.{IsNamed};
ghost use Rattle.m386.specs.Writing.{image_bytes, IsReportRefused, IsImageRefused, IsWriteRefused};

use crate::refusals::Refusal;
use crate::view::View;
use arrayvec::ArrayVec;
use command_words::RunJob;
use host_io::{Failed, Host, OutSlot, Slot, write_all};
use pc_machine::Pc;
use reports::write_report;

/// How many bytes of an image are written at a time.
const PIECE: usize = 0x10000;

/// What of a machine is written out, byte by byte.
#[derive(Clone, Copy, Debug, PartialEq, Eq)]
pub(crate) enum Image {
    /// The RAM list.
    Ram,
    /// The sectors of the disk.
    Disk,
}

/// How many bytes an image has.
fn image_len(pc: &Pc, image: Image) -> u32
    ensures { result ≡ length (image_bytes image pc.now) }
{
    match image {
        Image::Ram => pc.ram_len(),
        Image::Disk => pc.disk_len(),
    }
}

/// The byte at a place of an image.
fn image_byte(pc: &Pc, image: Image, at: u32) -> u8
    requires { at < length (image_bytes image pc.now) }
    ensures { result ≡ slice_index (image_bytes image pc.now) at }
{
    match image {
        Image::Ram => pc.byte(at),
        Image::Disk => pc.disk_byte(at),
    }
}

/// The next bytes of an image, from a place inside it.
fn piece_at(pc: &Pc, image: Image, at: u32) -> ArrayVec<u8, PIECE>
    requires { at < length (image_bytes image pc.now) }
    ensures piece { result.items ≡ take (array_vec_len result) (drop at (image_bytes image pc.now)) }
    ensures some { 0 < array_vec_len result }
    ensures inside { at + array_vec_len result ≤ length (image_bytes image pc.now) }
{
    let mut piece = ArrayVec::new();
    let count = (PIECE as u32).min(image_len(pc, image) - at);
    for place in 0..count {
        piece.push(image_byte(pc, image, at + place));
    }
    piece
}

/// Writes an image to an open output.
fn write_image<H: Host>(host: &mut H, slot: OutSlot, pc: &Pc, image: Image) -> Result<(), Failed>
    ensures ok { OnOk result (Appends (H.took host.old slot) (H.took host.new slot) (image_bytes image pc.now)) }
    ensures err { OnErr result (AppendsPrefix (H.took host.old slot) (H.took host.new slot) (image_bytes image pc.now)) }
    ensures outputs { SameBut slot (H.took host.old) (H.took host.new) }
    ensures paths { Same (H.path host.old) (H.path host.new) }
    ensures left { Same (H.left host.old) (H.left host.new) }
    ensures cause { HasCause (H.faults host.old) (H.faults host.new) (Out slot) result }
    ensures promise { H.promise host.new ≡ H.promise host.old }
    ensures sure { OnErr result (IsSure (H.promise host.old) (Out slot) → IsFull (H.promise host.old) slot (H.took host.new slot)) }
{
    let len = image_len(pc, image);
    let mut at = 0;
    while at < len {
        let piece = piece_at(pc, image, at);
        write_all(host, slot, piece.as_slice())?;
        at += piece.len() as u32;
    }
    Ok(())
}

/// Writes an image to the output at a path, or nothing where there is no path.
fn save<H: Host>(
    host: &mut H,
    slot: OutSlot,
    path: Option<&str>,
    pc: &Pc,
    image: Image,
) -> Result<(), Refusal>
    ensures ok { OnOk result (Gets (option_map (λ _. image_bytes image pc.now) (text_of path.entry)) (H.took host.old slot) (H.took host.new slot)) }
    ensures err { OnErr result (GetsPrefix (option_map (λ _. image_bytes image pc.now) (text_of path.entry)) (H.took host.old slot) (H.took host.new slot)) }
    ensures refused { IfErr result (IsImageRefused slot) }
    ensures opened { OnOk result (OpenedAs (text_of path.entry) (H.path host.old (Out slot)) (H.path host.new (Out slot))) }
    ensures only { OpenedOnly (text_of path.entry) (H.path host.old (Out slot)) (H.path host.new (Out slot)) }
    ensures outputs { SameBut slot (H.took host.old) (H.took host.new) }
    ensures paths { SameBut (Out slot) (H.path host.old) (H.path host.new) }
    ensures left { Same (H.left host.old) (H.left host.new) }
    ensures kept { OnOk result (Same (H.faults host.old) (H.faults host.new)) }
    ensures counted { IfErr result (λ refusal. AreCounted refusal (H.faults host.old) (H.faults host.new)) }
    ensures promise { H.promise host.new ≡ H.promise host.old }
    ensures sure { OpensAt (H.promise host.old) (Out slot) (text_of path.entry) → OnErr result (IsNamed (text_of path.entry) × IsFull (H.promise host.old) slot (H.took host.new slot)) }
{
    let Some(path) = path else {
        return Ok(());
    };
    let Ok(()) = host.open_out(slot, path) else {
        return Err(Refusal::Late(slot));
    };
    match write_image(host, slot, pc, image) {
        Ok(()) => Ok(()),
        Err(_) => Err(Refusal::Late(slot)),
    }
}

/// Writes the report.
pub(crate) fn report<H: Host>(host: &mut H, pc: &Pc) -> Result<(), Refusal>
    ensures ok { OnOk result (Appends (H.took host.old Report) (H.took host.new Report) (report_of pc.now pc.now.state.mem.walks)) }
    ensures refused { IfErr result (IsReportRefused (report_of pc.now pc.now.state.mem.walks) (H.took host.old Report) (H.took host.new Report)) }
    ensures opened { OnOk result (OpenedAs (Some []) (H.path host.old (Out Report)) (H.path host.new (Out Report))) }
    ensures only { OpenedOnly (Some []) (H.path host.old (Out Report)) (H.path host.new (Out Report)) }
    ensures outputs { SameBut Report (H.took host.old) (H.took host.new) }
    ensures paths { SameBut (Out Report) (H.path host.old) (H.path host.new) }
    ensures left { Same (H.left host.old) (H.left host.new) }
    ensures kept { OnOk result (Same (H.faults host.old) (H.faults host.new)) }
    ensures counted { IfErr result (λ refusal. AreCounted refusal (H.faults host.old) (H.faults host.new)) }
    ensures promise { H.promise host.new ≡ H.promise host.old }
    ensures sure { Opens (H.promise host.old) (Out Report) [] → OnErr result (IsFull (H.promise host.old) Report (H.took host.new Report)) }
    ensures ready { IfErr result (λ refusal. IsReady refusal (H.path host.new (Out Report))) }
    ensures up_to { IfErr result (λ refusal. IsOpenedUpTo refusal (H.path host.old) (H.path host.new)) }
{
    let Ok(()) = host.open_out(OutSlot::Report, "") else {
        return Err(Refusal::HostFault(Slot::Out(OutSlot::Report)));
    };
    match write_report(host, &View { pc }) {
        Ok(()) => Ok(()),
        Err(_) => Err(Refusal::Late(OutSlot::Report)),
    }
}

/// Writes the outputs of a run, in the order report, RAM, disk.
pub(crate) fn write_outputs<H: Host>(host: &mut H, job: &RunJob, pc: &Pc) -> Result<(), Refusal>
    ensures ok { OnOk result ((slot : slots.OutSlot) →
        Gets (text_for (run_of job.now) pc.now pc.now.state.mem.walks slot) (H.took host.old slot) (H.took host.new slot)) }
    ensures refused { IfErr result (IsWriteRefused (text_for (run_of job.now) pc.now pc.now.state.mem.walks) (H.took host.old) (H.took host.new)) }
    ensures opened { OnOk result ((slot : slots.OutSlot) →
        OpenedAs (output_path (run_of job.now) slot) (H.path host.old (Out slot)) (H.path host.new (Out slot))) }
    ensures only { (slot : slots.OutSlot) →
        OpenedOnly (output_path (run_of job.now) slot) (H.path host.old (Out slot)) (H.path host.new (Out slot)) }
    ensures inputs { (slot : inputs.InSlot) → H.path host.new (In slot) ≡ H.path host.old (In slot) }
    ensures left { Same (H.left host.old) (H.left host.new) }
    ensures kept { OnOk result (Same (H.faults host.old) (H.faults host.new)) }
    ensures counted { IfErr result (λ refusal. AreCounted refusal (H.faults host.old) (H.faults host.new)) }
    ensures promise { H.promise host.new ≡ H.promise host.old }
    ensures sure { OnErr result (¬ (AreWritable (H.promise host.old) (output_path (run_of job.now)) (H.took host.new))) }
    ensures ready { IfErr result (λ refusal. IsReady refusal (H.path host.new (Out Report))) }
    ensures up_to { IfErr result (λ refusal. IsOpenedUpTo refusal (H.path host.old) (H.path host.new)) }
{
    report(host, pc)?;
    save(host, OutSlot::Mem, job.mem, pc, Image::Ram)?;
    save(host, OutSlot::Save, job.save, pc, Image::Disk)
}
