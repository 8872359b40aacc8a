//! What the clauses do not say: that ample memory is enough, and whole transfers over failing hosts.

use crate::{Failed, Host, InError, InSlot, MemHost, OutSlot, read_all, write_all};
use std::alloc::{AllocError, Global};
use std::test::Fail;

const BYTES: [u8; 5] = [0xf4, 0x90, 0xeb, 0xfe, 0x00];

/// A host with `BYTES` as its ROM and room for as many in its report.
fn host(alloc: Global) -> Result<MemHost, AllocError> {
    let mut host = MemHost::new(alloc);
    host.put(InSlot::Rom, Vec::from_slice(alloc, &BYTES)?);
    host.make_room(OutSlot::Report, BYTES.len() as u32)?;
    Ok(host)
}

/// Opens the ROM and reads it whole.
fn read(alloc: Global, host: &mut MemHost, limit: u32) -> Result<Vec<u8>, InError> {
    if host.open_in(InSlot::Rom, "rom.bin").is_err() {
        return Err(InError::HostFault);
    }
    read_all(alloc, host, InSlot::Rom, limit)
}

/// Opens the report and writes `BYTES` to it.
fn write(host: &mut MemHost) -> Result<(), Failed> {
    host.open_out(OutSlot::Report, "")?;
    write_all(host, OutSlot::Report, &BYTES)
}

#[test]
fn bytes_pass_whole_in_pieces_of_any_length(rt: HostRuntime) -> Result<(), Fail> {
    for most in [1, 2, 5, 4096] {
        let mut host = host(rt.alloc())?;
        host.set_piece(most);
        assert_eq!(rt;
            read(rt.alloc(), &mut host, 5)?.as_slice(),
            BYTES.as_slice()
        );
        write(&mut host)?;
        assert_eq!(rt; host.taken(OutSlot::Report), BYTES.as_slice());
    }
    Ok(())
}

#[test]
fn an_input_of_one_byte_more_than_the_limit_is_too_long(rt: HostRuntime) -> Result<(), Fail> {
    let mut host = host(rt.alloc())?;
    assert_eq!(rt;
        read(rt.alloc(), &mut host, 4).err(),
        Some(InError::TooLong)
    );
    Ok(())
}

// In pieces of one byte: the opening, five reads and the read that finds the end.
#[test]
fn each_failing_call_of_a_reading_is_a_host_fault(rt: HostRuntime) -> Result<(), Fail> {
    for call in 1..8 {
        let mut host = host(rt.alloc())?;
        host.set_piece(1);
        host.fail_at(call)?;
        assert_eq!(rt;
            read(rt.alloc(), &mut host, 5).err(),
            Some(InError::HostFault),
            "call {call}"
        );
    }
    Ok(())
}

// In pieces of one byte: the opening and five writes.
#[test]
fn a_failing_call_of_a_writing_leaves_the_bytes_before_it(rt: HostRuntime) -> Result<(), Fail> {
    for (call, taken) in [(1, 0), (2, 0), (3, 1), (4, 2), (5, 3), (6, 4)] {
        let mut host = host(rt.alloc())?;
        host.set_piece(1);
        host.fail_at(call)?;
        assert_eq!(rt; write(&mut host), Err(Failed), "call {call}");
        assert_eq!(rt; host.taken(OutSlot::Report), &BYTES[..taken], "call {call}");
    }
    Ok(())
}
