//! The rows of the boundary, worked out by hand from the manual, chapter 9.

ghost use Rattle.std.specs.Prelude.{◌≡◌, ◌≤◌, ◌<◌, ◌+◌, ◌^◌, ⊤, true, length, IfOk};
ghost use Rattle.phys_map.specs.Sound.{IsBlank};
ghost use Rattle.mdl_cpu.specs.Steady.{IsSound};
ghost use Rattle.cpu_core.specs.Plain.{IsPlain, IsQuiet};

use crate::Cpu;
use guest_ram::Ram;
use mdl_state::{Activity, Hidden, Latches, Regs, Size};
use mem_iface::{Linear, Phys, Ports};
use phys_map::PhysMap;
use std::alloc::{AllocError, Global};
use std::test::Fail;
use tlb::Tlb;

/// A board whose line asks for vector 20h, until that is acknowledged, and which asks for a reset when a
/// port is written.
#[derive(Clone, Copy)]
struct Lines {
    wanted: bool,
    asked: bool,
}

impl Ports for Lines {
    ghost gives = { λ before port size answer after. ⊤ };

    ghost takes = { λ before port size value after. ⊤ };

    ghost tells = { λ before vector after. ⊤ };

    ghost forgets = { λ before after. ⊤ };

    ghost wants = { λ before. before.wanted };

    ghost gate = { λ before. true };

    ghost asks = { λ before. before.asked };

    fn input(&mut self, _port: u16, _size: Size) -> u32 {
        0
    }

    fn output(&mut self, _port: u16, _size: Size, _value: u32) {
        self.asked = true;
    }

    fn wants_interrupt(&self) -> bool {
        self.wanted
    }

    fn acknowledge(&mut self) -> u8 {
        self.wanted = false;
        0x20
    }

    fn a20(&self) -> bool {
        true
    }

    fn take_reset(&mut self) -> bool {
        let asked = self.asked;
        self.asked = false;
        asked
    }
}

/// RAM of so many bytes.
#[tactic(auto, using(phys_map::specs::SoundLaws::zeros_blank, std::proofs::lemmas::Grind::common_steps))]
fn ram(alloc: Global, bytes: u32) -> Result<Ram, AllocError>
    ensures length { IfOk result (λ ram. length ram ≡ bytes) }
    ensures blank { IfOk result (λ ram. IsBlank ram) }
{
    Ram::new(alloc, bytes)
}

/// Memory with a jump to eight bytes of code at 0:1000h where the processor starts. The handlers of vectors
/// 0, 2, 3 and 20h stand at 0:2000h, 2010h, 2020h and 2030h, and are NOP and IRET. A limit of 2 and a base
/// of 0 for a table stand at 1100h.
fn memory(alloc: Global, code: u64) -> Result<Tlb, AllocError>
    ensures plain { IfOk result (λ memory. IsPlain memory) }
    ensures a20 { IfOk result (λ memory. memory.physical.a20 ≡ true) }
{
    let ram = ram(alloc, 0x10_0000)?;
    let mut rom = vec![in alloc; 0xF4; 0x1000]?;
    rom[0xFF0..0xFF5].copy_from_slice(&[0xEA, 0x00, 0x10, 0x00, 0x00]);
    let mut map = PhysMap::new(ram, rom);
    map.store(0, Size::B4, 0x2000);
    map.store(8, Size::B4, 0x2010);
    map.store(12, Size::B4, 0x2020);
    map.store(128, Size::B4, 0x2030);
    map.store(0x1000, Size::B4, (code & 0xFFFF_FFFF) as u32);
    map.store(0x1004, Size::B4, (code >> 32) as u32);
    map.store(0x1100, Size::B2, 2);
    map.store(0x2000, Size::B2, 0xCF90);
    map.store(0x2010, Size::B2, 0xCF90);
    map.store(0x2020, Size::B2, 0xCF90);
    map.store(0x2030, Size::B2, 0xCF90);
    Ok(Tlb::new(map))
}

/// A board whose line asks for vector 20h or not.
fn asking(wanted: bool) -> Lines {
    Lines {
        wanted,
        asked: false,
    }
}

/// Makes so many steps. An NMI comes before those of these numbers.
fn run(cpu: &mut Cpu<Tlb, Lines>, steps: u32, nmis: [u32; 2])
    requires first { cpu.old.state.core.steps ≡ 0 }
    requires a20 { cpu.old.state.mem.physical.a20 ≡ true }
{
    for step in 0..steps {
        if step == nmis[0] || step == nmis[1] {
            cpu.nmi();
        }
        cpu.step();
    }
}

/// No step has this number.
const NEVER: u32 = 99;

#[rattlefmt::skip]
#[test]
fn a_step_takes_the_first_row_that_holds(rt: HostRuntime) -> Result<(), Fail> {
    // The code, its first byte lowest, whether the line asks, when NMIs come, and the steps; then EIP, SP, what the
    // processor does, and whether the line still asks.
    for (code, wanted, nmis, steps, eip, sp, activity, asks) in [
        // STI holds the line back for one instruction.
        (0x9090FB, true, [NEVER, NEVER], 3, 0x1002, 0, Activity::Running, true),
        (0x9090FB, true, [NEVER, NEVER], 4, 0x2030, 0xFFFA, Activity::Running, false),
        // STI and HLT: the line ends the halt, and returns behind it.
        (0xF4FB, true, [NEVER, NEVER], 3, 0x1002, 0, Activity::Halted, true),
        (0xF4FB, true, [NEVER, NEVER], 4, 0x2030, 0xFFFA, Activity::Running, false),
        (0xF4FB, true, [NEVER, NEVER], 6, 0x1002, 0, Activity::Running, false),
        // Two MOV to SS hold an NMI back twice.
        (0x90_D08E_D08E, false, [2, NEVER], 4, 0x1005, 0, Activity::Running, false),
        (0x90_D08E_D08E, false, [2, NEVER], 5, 0x2010, 0xFFFA, Activity::Running, false),
        // A second NMI waits for IRET.
        (0x9090, false, [1, 2], 3, 0x2011, 0xFFFA, Activity::Running, false),
        (0x9090, false, [1, 2], 4, 0x1000, 0, Activity::Running, false),
        (0x9090, false, [1, 2], 5, 0x2010, 0xFFFA, Activity::Running, false),
        // LIDT of a limit of 2 and INT 3 shut down, and an NMI does not help.
        (0xCC11_001E_010F, false, [NEVER, NEVER], 3, 0x1005, 0, Activity::Shutdown, false),
        (0xCC11_001E_010F, false, [3, NEVER], 5, 0x1005, 0, Activity::Shutdown, false),
        // An interrupt is in service though its delivery fails: LIDT, STI, NOP.
        (0x90_FB11_001E_010F, true, [NEVER, NEVER], 5, 0x1007, 0, Activity::Shutdown, false),
        // The divide error of DIV AL returns to it, and INT 3 behind itself.
        (0xF0F6, false, [NEVER, NEVER], 2, 0x2000, 0xFFFA, Activity::Running, false),
        (0xF0F6, false, [NEVER, NEVER], 4, 0x1000, 0, Activity::Running, false),
        (0xCC, false, [NEVER, NEVER], 2, 0x2020, 0xFFFA, Activity::Running, false),
        (0xCC, false, [NEVER, NEVER], 4, 0x1001, 0, Activity::Running, false),
        // PUSH 0102h and POPF: the trap of TF comes behind the next instruction, to 0:0.
        (0x90_9D01_0268, false, [NEVER, NEVER], 4, 0x1005, 0, Activity::Running, false),
        (0x90_9D01_0268, false, [NEVER, NEVER], 5, 0, 0xFFFA, Activity::Running, false),
        // OUT 80h, AL: the board asks for a reset.
        (0x80E6, false, [NEVER, NEVER], 2, 0xFFF0, 0, Activity::Running, false),
    ] {
        let mut cpu = Cpu::new(memory(rt.alloc(), code)?, asking(wanted));
        run(&mut cpu, steps, nmis);
        let regs = cpu.regs();
        assert_eq!(rt; (regs.eip, regs.gpr[4], cpu.activity()), (eip, sp, activity));
        assert_eq!(rt; cpu.ports().wanted, asks);
        cpu.reset();
        assert_eq!(rt; (cpu.regs().eip, cpu.activity()), (0xFFF0, Activity::Running));
        assert_eq!(rt; cpu.steps(), steps as u64);
    }
    Ok(())
}

/// Registers of real mode, at 0:1000h.
#[tactic(auto, using(crate::proofs::Arriving::real_sound))]
fn regs() -> Regs
    ensures sound { IsSound result }
    ensures control { result.cr0 ≡ 0 }
    ensures directory { result.cr3 ≡ 0 }
    ensures flags { result.eflags ≡ 2 }
    ensures level { result.cpl ≡ 0 }
{
    let data = Hidden {
        sel: 0,
        base: 0,
        limit: 0xFFFF,
        rights: 0x93,
    };
    Regs {
        gpr: [0; 8],
        eip: 0x1000,
        eflags: 2,
        seg: [data; 6],
        ldtr: data,
        tr: data,
        gdt_base: 0,
        gdt_limit: 0xFFFF,
        idt_base: 0,
        idt_limit: 0x3FF,
        cr0: 0,
        cr2: 0,
        cr3: 0,
        dr: [0; 4],
        dr6: 0,
        dr7: 0,
        cpl: 0,
    }
}

#[tactic(auto, using(crate::proofs::Arriving::unpaged_ready))]
#[test]
fn a_halted_processor_takes_the_nmi_that_waits(rt: HostRuntime) -> Result<(), Fail> {
    let latches = Latches {
        nmi: true,
        masked: false,
        hold: 2,
        pending: 0,
    };
    let mut cpu = Cpu::start_at(
        memory(rt.alloc(), 0)?,
        asking(true),
        regs(),
        Activity::Halted,
        latches,
    );
    cpu.step();
    assert_eq!(rt;
        (cpu.regs().eip, cpu.activity()),
        (0x2010, Activity::Running)
    );
    let behind = Latches {
        nmi: false,
        masked: true,
        hold: 2,
        pending: 0,
    };
    assert_eq!(rt; cpu.latches(), behind);
    Ok(())
}

/// Memory that pages, with a directory at 5000h and a table at 6000h. Page 1 and page 3 are at their own addresses, may be
/// written, and were not accessed; the others are not present. In page 1 are eight bytes of code, at 1000h, a descriptor of
/// flat code of 32 bits, at 1208h, and the gate of vector 14, at 1370h: an interrupt gate to 8:1100h.
fn paged(alloc: Global, code: u64) -> Result<Tlb, AllocError>
    ensures paging { IfOk result (λ memory. memory.paging ≡ true) }
    ensures directory { IfOk result (λ memory. memory.cr3 ≡ 0x5000) }
    ensures quiet { IfOk result (λ memory. IsQuiet memory) }
    ensures a20 { IfOk result (λ memory. memory.physical.a20 ≡ true) }
{
    let ram = ram(alloc, 0x10_0000)?;
    let rom = vec![in alloc; 0xF4; 0x1000]?;
    let mut map = PhysMap::new(ram, rom);
    map.store(0x1000, Size::B4, (code & 0xFFFF_FFFF) as u32);
    map.store(0x1004, Size::B4, (code >> 32) as u32);
    map.store(0x1208, Size::B4, 0x0000_FFFF);
    map.store(0x120C, Size::B4, 0x00CF_9B00);
    map.store(0x1370, Size::B4, 0x0008_1100);
    map.store(0x1374, Size::B4, 0x0000_8E00);
    map.store(0x5000, Size::B4, 0x6003);
    map.store(0x6004, Size::B4, 0x1003);
    map.store(0x600C, Size::B4, 0x3003);
    let mut memory = Tlb::new(map);
    memory.load_cr3(0x5000);
    memory.set_paging(true);
    Ok(memory)
}

/// Registers of level 0 over it, at 8:1000h, with flat segments of 32 bits.
#[tactic(auto, using(crate::proofs::Arriving::paged_sound))]
fn flat(esp: u32) -> Regs
    ensures sound { IsSound result }
    ensures control { result.cr0 ≡ 0x80000001 }
    ensures directory { result.cr3 ≡ 0x5000 }
{
    let data = Hidden {
        sel: 0x10,
        base: 0,
        limit: 0xFFFF_FFFF,
        rights: 0xC093,
    };
    let code = Hidden {
        sel: 8,
        rights: 0xC09B,
        ..data
    };
    Regs {
        gpr: [0x1122_3344, 0, 0, 0, esp, 0, 0, 0],
        seg: [data, code, data, data, data, data],
        gdt_base: 0x1200,
        gdt_limit: 0x17,
        idt_base: 0x1300,
        idt_limit: 0x77,
        cr0: 0x8000_0001,
        cr3: 0x5000,
        ..regs()
    }
}

/// The doubleword at an address.
fn word(memory: &Tlb, at: u32) -> u32 {
    let map = memory.phys();
    u32::from_le_bytes([
        map.byte(at),
        map.byte(at.wrapping_add(1)),
        map.byte(at.wrapping_add(2)),
        map.byte(at.wrapping_add(3)),
    ])
}

#[rattlefmt::skip]
#[tactic(auto, using(crate::proofs::Arriving::paged_ready))]
#[test]
fn a_page_fault_leaves_nothing_of_its_instruction(rt: HostRuntime) -> Result<(), Fail> {
    let latches = Latches { nmi: false, masked: false, hold: 0, pending: 0 };
    // The code, its first byte lowest, and ESP; then CR2 and ESP.
    for (code, esp, address, top) in [
        // PUSHAD: the fifth push is to page 2.
        (0x60, 0x3010, 0x2FFC, 0x3000),
        // MOV [3FFEh], EAX: half of it is on page 4.
        (0x3FFE_0589, 0x1800, 0x4000, 0x17F0),
    ] {
        let mut cpu = Cpu::start_at(paged(rt.alloc(), code)?, asking(false), flat(esp), Activity::Running, latches);
        cpu.step();
        let regs = cpu.regs();
        assert_eq!(rt; (regs.cr2, regs.gpr[4], regs.eip), (address, top, 0x1100));
        let memory = cpu.lin();
        // The code of the fault, EIP, CS and EFLAGS.
        for (offset, value) in [(0, 2), (4, 0x1000), (8, 8), (12, 0x1_0002)] {
            assert_eq!(rt; word(memory, top.wrapping_add(offset)), value);
        }
        // What was there before, and the entry of page 3, which was accessed and written.
        assert_eq!(rt; (word(memory, 0x3FFC), word(memory, 0x600C)), (0, 0x3063));
    }
    Ok(())
}

/// Registers of real mode, at 0:1000h, with RF 1 or 0, and the first breakpoint.
#[tactic(auto, using(crate::proofs::Arriving::real_sound, crate::proofs::Arriving::resumed_sound))]
fn breaking(resume: bool, at: u32, dr7: u32) -> Regs
    ensures sound { IsSound result }
    ensures control { result.cr0 ≡ 0 }
    ensures directory { result.cr3 ≡ 0 }
{
    let dr = [at, 0, 0, 0];
    if resume {
        return Regs {
            eflags: 0x1_0002,
            dr,
            dr7,
            ..regs()
        };
    }
    Regs { dr, dr7, ..regs() }
}

#[rattlefmt::skip]
#[tactic(auto, using(crate::proofs::Arriving::unpaged_ready))]
#[test]
fn a_breakpoint_comes_before_its_instruction_or_behind_its_access(rt: HostRuntime) -> Result<(), Fail> {
    let latches = Latches { nmi: false, masked: false, hold: 0, pending: 0 };
    // The code, its first byte lowest, RF, DR0, DR7, and the steps; then EIP, SP and DR6. The handler of vector 1 is at
    // 0:0, and the word at its SP is the EIP to which it returns.
    for (code, resume, at, dr7, steps, eip, sp, dr6) in [
        // G0, on execution of the NOP: a fault, unless RF is 1.
        (0x90, false, 0x1000, 0x2, 1, 0, 0xFFFA, 1),
        (0x90, true, 0x1000, 0x2, 1, 0x1001, 0, 0),
        // G0, on writes of the word FFFEh: PUSH AX meets it, and the trap comes behind it.
        (0x50, false, 0xFFFE, 0x5_0002, 1, 0x1001, 0xFFFE, 0),
        (0x50, false, 0xFFFE, 0x5_0002, 2, 0, 0xFFF8, 1),
        // POP AX reads the word 0. That counts where R/W is 3, and does not where it is 1.
        (0x9058, false, 0, 0x7_0002, 2, 0, 0xFFFC, 1),
        (0x9058, false, 0, 0x5_0002, 2, 0x1002, 2, 0),
        // DIV [3000h] reads a byte of 0, which is watched, and faults: no trap comes behind the NOP of its handler.
        (0x3000_36F6, false, 0x3000, 0x3_0002, 1, 0x2000, 0xFFFA, 0),
        (0x3000_36F6, false, 0x3000, 0x3_0002, 2, 0x2001, 0xFFFA, 0),
    ] {
        let mut cpu = Cpu::start_at(memory(rt.alloc(), code)?, asking(false), breaking(resume, at, dr7), Activity::Running, latches);
        run(&mut cpu, steps, [NEVER, NEVER]);
        let regs = cpu.regs();
        assert_eq!(rt; (regs.eip, regs.gpr[4], regs.dr6), (eip, sp, dr6));
        if dr6 == 1 {
            assert_eq!(rt; word(cpu.lin(), sp) % 0x1_0000, if at == 0x1000 { 0x1000 } else { 0x1001 });
        }
    }
    Ok(())
}
