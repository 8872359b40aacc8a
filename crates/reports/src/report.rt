//! The report of a machine: its registers, and its screen.

ghost use Rattle.std.specs.Prelude.{◌≡◌, ◌++◌, ◌+◌, ◌*◌, ◌≤◌, ◌<◌, length, OnOk, OnErr};
ghost use Rattle.std.specs.Io.KnownBytes.{Appends};
ghost use Rattle.arrayvec.specs.ArrayVec.{array_vec_len};
ghost use Rattle.host_io.specs.declared.host.OutSlot.TheVariants.{Report};
ghost use Rattle.host_io.specs.declared.host.Slot.TheVariants.{Out};
ghost use Rattle.host_io.specs.Slots.{Same, SameBut};
ghost use Rattle.host_io.specs.Causes.{HasCause};
ghost use Rattle.host_io.specs.Promises.{IsSure, IsFull};
ghost use Rattle.host_io.specs.Transfers.{AppendsPrefix};
ghost use Rattle.mdl_dev.specs.Screen.{register_of};
ghost use Rattle.mdl_step.specs.Report.{activity_text, steps_line, state_line, accumulators_line, pointers_line, control_line, segment_line, segment_lines, table_line, debug_line, last_line, printed, screen_line, screen_lines, register_lines};
ghost use Rattle.reports.specs.Shown.{start_of, cursor_of, report_of};

use crate::shown::Shown;
use crate::texts::{ROOM, push_decimal, push_named4, push_named8, push_text};
use arrayvec::ArrayVec;
use host_io::{Failed, Host, OutSlot, write_all};
use mdl_dev::screen::{CURSOR_HIGH, CURSOR_LOW, START_HIGH, START_LOW};
use mdl_state::{Activity, Hidden, Regs};

/// How many cells the screen's memory has.
const CELLS: u32 = 0x4000;

/// Where the screen's memory begins.
const SCREEN_BASE: u32 = 0xB8000;

/// How many columns and rows the screen has.
const COLUMNS: u32 = 80;

const ROWS: u32 = 25;

/// Room for the rows of the screen.
pub const SCREEN_ROOM: usize = 2048;

/// What the processor does, in a word.
fn activity_text(activity: Activity) -> &'static str
    ensures text { result.now ≡ activity_text activity }
    ensures short { length result.now ≤ 8 }
{
    match activity {
        Activity::Running => "running",
        Activity::Halted => "halted",
        Activity::Shutdown => "shutdown",
    }
}

#[tactic(auto, unfolding(mdl_step::specs::Report::steps_line))]
fn push_steps(text: &mut ArrayVec<u8, ROOM>, steps: u64)
    requires { array_vec_len text.old + 32 ≤ ROOM }
    ensures text { text.new.items ≡ text.old.items ++ steps_line steps }
    ensures length { array_vec_len text.new ≤ array_vec_len text.old + 32 }
{
    push_text(text, b"steps ");
    push_decimal(text, steps);
    push_text(text, b"\n");
}

#[tactic(auto, unfolding(mdl_step::specs::Report::state_line))]
fn push_state(text: &mut ArrayVec<u8, ROOM>, activity: Activity)
    requires { array_vec_len text.old + 32 ≤ ROOM }
    ensures text { text.new.items ≡ text.old.items ++ state_line activity }
    ensures length { array_vec_len text.new ≤ array_vec_len text.old + 32 }
{
    push_text(text, b"state ");
    push_text(text, activity_text(activity).as_bytes());
    push_text(text, b"\n");
}

#[tactic(auto, unfolding(mdl_step::specs::Report::accumulators_line))]
fn push_accumulators(text: &mut ArrayVec<u8, ROOM>, regs: &Regs)
    requires { array_vec_len text.old + 64 ≤ ROOM }
    ensures text { text.new.items ≡ text.old.items ++ accumulators_line regs.now }
    ensures length { array_vec_len text.new ≤ array_vec_len text.old + 64 }
{
    push_named8(text, b"eax=", regs.gpr[0]);
    push_named8(text, b" ecx=", regs.gpr[1]);
    push_named8(text, b" edx=", regs.gpr[2]);
    push_named8(text, b" ebx=", regs.gpr[3]);
    push_text(text, b"\n");
}

#[tactic(auto, unfolding(mdl_step::specs::Report::pointers_line))]
fn push_pointers(text: &mut ArrayVec<u8, ROOM>, regs: &Regs)
    requires { array_vec_len text.old + 64 ≤ ROOM }
    ensures text { text.new.items ≡ text.old.items ++ pointers_line regs.now }
    ensures length { array_vec_len text.new ≤ array_vec_len text.old + 64 }
{
    push_named8(text, b"esp=", regs.gpr[4]);
    push_named8(text, b" ebp=", regs.gpr[5]);
    push_named8(text, b" esi=", regs.gpr[6]);
    push_named8(text, b" edi=", regs.gpr[7]);
    push_text(text, b"\n");
}

#[tactic(auto, unfolding(mdl_step::specs::Report::control_line))]
fn push_control(text: &mut ArrayVec<u8, ROOM>, regs: &Regs)
    requires { array_vec_len text.old + 80 ≤ ROOM }
    ensures text { text.new.items ≡ text.old.items ++ control_line regs.now }
    ensures length { array_vec_len text.new ≤ array_vec_len text.old + 80 }
{
    push_named8(text, b"eip=", regs.eip);
    push_named8(text, b" efl=", regs.eflags);
    push_named8(text, b" cr0=", regs.cr0);
    push_named8(text, b" cr2=", regs.cr2);
    push_named8(text, b" cr3=", regs.cr3);
    push_text(text, b"\n");
}

#[tactic(auto, unfolding(mdl_step::specs::Report::segment_line))]
fn push_segment(text: &mut ArrayVec<u8, ROOM>, name: &[u8], hidden: &Hidden)
    requires room { array_vec_len text.old + 56 ≤ ROOM }
    requires name { length name.now ≤ 3 }
    ensures text { text.new.items ≡ text.old.items ++ segment_line name.now hidden.now }
    ensures length { array_vec_len text.new ≤ array_vec_len text.old + 56 }
{
    push_text(text, name);
    push_named4(text, b" sel=", hidden.sel);
    push_named8(text, b" base=", hidden.base);
    push_named8(text, b" limit=", hidden.limit);
    push_named4(text, b" rights=", hidden.rights);
    push_text(text, b"\n");
}

#[tactic(auto, unfolding(mdl_step::specs::Report::segment_lines, mdl_state::specs::Registers::seg_of))]
fn push_segments(text: &mut ArrayVec<u8, ROOM>, regs: &Regs)
    requires { array_vec_len text.old + 448 ≤ ROOM }
    ensures text { text.new.items ≡ text.old.items ++ segment_lines regs.now }
    ensures length { array_vec_len text.new ≤ array_vec_len text.old + 448 }
{
    push_segment(text, b"es", &regs.seg[0]);
    push_segment(text, b"cs", &regs.seg[1]);
    push_segment(text, b"ss", &regs.seg[2]);
    push_segment(text, b"ds", &regs.seg[3]);
    push_segment(text, b"fs", &regs.seg[4]);
    push_segment(text, b"gs", &regs.seg[5]);
    push_segment(text, b"ldt", &regs.ldtr);
    push_segment(text, b"tr", &regs.tr);
}

#[tactic(auto, unfolding(mdl_step::specs::Report::table_line))]
fn push_table(text: &mut ArrayVec<u8, ROOM>, name: &[u8], base: u32, limit: u16)
    requires room { array_vec_len text.old + 32 ≤ ROOM }
    requires name { length name.now ≤ 3 }
    ensures text { text.new.items ≡ text.old.items ++ table_line name.now base limit }
    ensures length { array_vec_len text.new ≤ array_vec_len text.old + 32 }
{
    push_text(text, name);
    push_named8(text, b" base=", base);
    push_named4(text, b" limit=", limit);
    push_text(text, b"\n");
}

#[tactic(auto, unfolding(mdl_step::specs::Report::debug_line))]
fn push_debug(text: &mut ArrayVec<u8, ROOM>, regs: &Regs)
    requires { array_vec_len text.old + 80 ≤ ROOM }
    ensures text { text.new.items ≡ text.old.items ++ debug_line regs.now }
    ensures length { array_vec_len text.new ≤ array_vec_len text.old + 80 }
{
    push_named8(text, b"dr0=", regs.dr[0]);
    push_named8(text, b" dr1=", regs.dr[1]);
    push_named8(text, b" dr2=", regs.dr[2]);
    push_named8(text, b" dr3=", regs.dr[3]);
    push_named8(text, b" dr6=", regs.dr6);
    push_named8(text, b" dr7=", regs.dr7);
    push_text(text, b"\n");
}

#[tactic(auto, unfolding(mdl_step::specs::Report::last_line))]
fn push_last(text: &mut ArrayVec<u8, ROOM>, cpl: u8, walks: u64, start: u16, cursor: u16)
    requires { array_vec_len text.old + 80 ≤ ROOM }
    ensures text { text.new.items ≡ text.old.items ++ last_line cpl walks start cursor }
    ensures length { array_vec_len text.new ≤ array_vec_len text.old + 80 }
{
    push_text(text, b"cpl=");
    push_decimal(text, u64::from(cpl));
    push_text(text, b" walks=");
    push_decimal(text, walks);
    push_named4(text, b" start=", start);
    push_named4(text, b" cursor=", cursor);
    push_text(text, b"\n");
}

/// The number of two screen registers.
fn screen_word<M: Shown>(machine: &M, high: u8, low: u8) -> u16
    ensures { result ≡ 0x100 * register_of (M.screen machine.now) high + register_of (M.screen machine.now) low }
{
    u16::from(machine.screen_register(high)) * 0x100 + u16::from(machine.screen_register(low))
}

/// The cell where the screen starts.
fn start_of<M: Shown>(machine: &M) -> u16
    ensures { result ≡ start_of (M.screen machine.now) }
{
    screen_word(machine, START_HIGH, START_LOW)
}

/// The cell of the cursor.
fn cursor_of<M: Shown>(machine: &M) -> u16
    ensures { result ≡ cursor_of (M.screen machine.now) }
{
    screen_word(machine, CURSOR_HIGH, CURSOR_LOW)
}

/// The lines of the registers.
#[tactic(auto, unfolding(mdl_step::specs::Report::register_lines))]
pub fn register_lines<M: Shown>(machine: &M) -> ArrayVec<u8, ROOM>
    ensures { result.items ≡ register_lines (M.state machine.now) (M.state machine.now).mem.walks (start_of (M.screen machine.now)) (cursor_of (M.screen machine.now)) }
{
    let regs = machine.regs();
    let mut text = ArrayVec::new();
    push_steps(&mut text, machine.steps());
    push_state(&mut text, machine.activity());
    push_accumulators(&mut text, &regs);
    push_pointers(&mut text, &regs);
    push_control(&mut text, &regs);
    push_segments(&mut text, &regs);
    push_table(&mut text, b"gdt", regs.gdt_base, regs.gdt_limit);
    push_table(&mut text, b"idt", regs.idt_base, regs.idt_limit);
    push_debug(&mut text, &regs);
    push_last(
        &mut text,
        regs.cpl,
        machine.walks(),
        start_of(machine),
        cursor_of(machine),
    );
    text
}

/// A character of the screen as it is printed.
fn printed(code: u8) -> u8
    ensures { result ≡ printed code }
{
    if code == 0 {
        b' '
    } else if code >= b' ' && code <= b'~' {
        code
    } else {
        b'.'
    }
}

/// A row of the screen.
#[tactic(auto, using(crate::proofs::Screen::rows), unfolding(mdl_step::specs::Report::screen_line))]
fn push_row<M: Shown>(text: &mut ArrayVec<u8, SCREEN_ROOM>, machine: &M, start: u16, row: u32)
    requires row { row < 25 }
    requires room { array_vec_len text.old + 81 ≤ SCREEN_ROOM }
    ensures text { text.new.items ≡ text.old.items ++ screen_line (M.state machine.now).mem.physical start row }
    ensures length { array_vec_len text.new ≡ array_vec_len text.old + 81 }
{
    for column in 0..COLUMNS {
        let cell = (u32::from(start) + (COLUMNS * row + column)) % CELLS;
        text.push(printed(machine.byte_at(SCREEN_BASE + 2 * cell)));
    }
    text.push(b'\n');
}

/// The rows of the screen.
#[tactic(auto, using(crate::proofs::Screen::rows), unfolding(mdl_step::specs::Report::screen_lines))]
pub fn screen_lines<M: Shown>(machine: &M) -> ArrayVec<u8, SCREEN_ROOM>
    ensures { result.items ≡ screen_lines (M.state machine.now).mem.physical (start_of (M.screen machine.now)) }
{
    let start = start_of(machine);
    let mut text = ArrayVec::new();
    for row in 0..ROWS {
        push_row(&mut text, machine, start, row);
    }
    text
}

/// Writes the report of a machine.
#[tactic(auto, using(host_io::specs::Prefixes::prefixes), unfolding(mdl_step::specs::Report::report_text))]
pub fn write_report<H: Host, M: Shown>(host: &mut H, machine: &M) -> Result<(), Failed>
    ensures ok { OnOk result (Appends (H.took host.old Report) (H.took host.new Report) (report_of (M.state machine.now) (M.screen machine.now))) }
    ensures err { OnErr result (AppendsPrefix (H.took host.old Report) (H.took host.new Report) (report_of (M.state machine.now) (M.screen machine.now))) }
    ensures outputs { SameBut Report (H.took host.old) (H.took host.new) }
    ensures paths { Same (H.path host.old) (H.path host.new) }
    ensures left { Same (H.left host.old) (H.left host.new) }
    ensures cause { HasCause (H.faults host.old) (H.faults host.new) (Out Report) result }
    ensures promise { H.promise host.new ≡ H.promise host.old }
    ensures sure { OnErr result (IsSure (H.promise host.old) (Out Report) → IsFull (H.promise host.old) Report (H.took host.new Report)) }
{
    write_all(host, OutSlot::Report, register_lines(machine).as_slice())?;
    write_all(host, OutSlot::Report, screen_lines(machine).as_slice())?;
    Ok(())
}
