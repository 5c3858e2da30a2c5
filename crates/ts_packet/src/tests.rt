//! Packets whose bytes and identifiers are known.

use crate::{NotSync, Packet};
use std::test::Fail;

/// A packet that begins with these bytes, and goes on with zeros.
fn beginning(head: [u8; 3]) -> [u8; 188] {
    let mut bytes = [0u8; 188];
    bytes[0] = head[0];
    bytes[1] = head[1];
    bytes[2] = head[2];
    bytes
}

#[test]
fn null_packet(rt: HostRuntime) -> Result<(), Fail> {
    let null = Packet::null();
    assert_eq!(rt; null.bytes().len(), 188);
    for (index, byte) in null.bytes().iter().enumerate() {
        let wanted = match index {
            0 => 0x47,
            1 => 0x1F,
            3 => 0x10,
            _ => 0xFF,
        };
        assert_eq!(rt; *byte, wanted, "byte {index}");
    }
    assert_eq!(rt; null.pid(), 0x1FFF);
    Ok(())
}

/// The first bytes of a packet, its identifier, and whether its transport error indicator is set.
#[derive(Clone, Copy)]
struct PacketRow {
    head: [u8; 3],
    pid: u16,
    mark: bool,
}

#[test]
fn fields(rt: HostRuntime) -> Result<(), Fail> {
    let table = [
        PacketRow {
            head: [0x47, 0x41, 0x23],
            pid: 0x0123,
            mark: false,
        },
        PacketRow {
            head: [0x47, 0xC1, 0x23],
            pid: 0x0123,
            mark: true,
        },
        PacketRow {
            head: [0x47, 0x00, 0x00],
            pid: 0x0000,
            mark: false,
        },
        PacketRow {
            head: [0x47, 0x1F, 0xFE],
            pid: 0x1FFE,
            mark: false,
        },
        PacketRow {
            head: [0x47, 0x80, 0xFF],
            pid: 0x00FF,
            mark: true,
        },
    ];
    for PacketRow { head, pid, mark } in table {
        let packet = Packet::read(&beginning(head))?;
        assert_eq!(rt; packet.pid(), pid);
        assert_eq!(rt; packet.error_mark(), mark);
        let marked = packet.with_error_mark();
        assert!(rt; marked.error_mark());
        assert_eq!(rt; marked.pid(), pid);
        assert_eq!(rt; marked == packet, mark);
        assert!(rt; Packet::read(packet.bytes()) == Ok(packet));
    }
    Ok(())
}

#[test]
fn refused(rt: HostRuntime) -> Result<(), Fail> {
    for first in [0x00, 0x46, 0x48, 0xB8] {
        let read = Packet::read(&beginning([first, 0x1F, 0xFF]));
        assert!(rt; read == Err(NotSync), "first byte {first}");
    }
    Ok(())
}
