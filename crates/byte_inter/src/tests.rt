//! Bytes whose places are known.

use crate::{ByteDeinter, ByteInter};
use delay_line::{Line, Stage, through};
use std::test::Fail;

#[test]
fn delays_of_the_bytes(rt: HostRuntime) -> Result<(), Fail> {
    let inter = ByteInter::<12, 17>::open(rt.alloc())?;
    let deinter = ByteDeinter::<12, 17>::open(rt.alloc())?;
    assert_eq!(rt; (inter.paths(), inter.delay(), inter.zero()), (12, 187, 0));
    assert_eq!(rt;
        (deinter.paths(), deinter.delay(), deinter.zero()),
        (12, 187, 0)
    );
    for path in 0..12u32 {
        assert_eq!(rt; inter.path_delay(path), 17 * path);
        assert_eq!(rt; deinter.path_delay(path), 187 - 17 * path);
    }
    Ok(())
}

#[test]
fn delay_line_vectors(rt: HostRuntime) -> Result<(), Fail> {
    let mut inter = ByteInter::<12, 17>::open(rt.alloc())?;
    let mut deinter = ByteDeinter::<12, 17>::open(rt.alloc())?;
    // Twelve bytes 01, and then zeros.
    let mut sent = [0u8; 4500];
    for place in 0..12 {
        sent[place] = 1;
    }
    let mut middle = [9u8; 4500];
    inter.feed(&sent, &mut middle);
    for (place, byte) in middle.iter().enumerate() {
        let wanted = (place % 205 == 0 && place <= 2255) as u8;
        assert_eq!(rt; *byte, wanted, "place {place}");
    }
    let mut received = [9u8; 4500];
    deinter.feed(&middle, &mut received);
    for (place, byte) in received.iter().enumerate() {
        let wanted = (2244 <= place && place <= 2255) as u8;
        assert_eq!(rt; *byte, wanted, "place {place}");
    }
    Ok(())
}

#[test]
fn smallest_layer_byte_place(rt: HostRuntime) -> Result<(), Fail> {
    // Twelve packets a frame: the adjustment is 204 bytes.
    let mut line = Line::open(rt.alloc(), 204, 0u8)?;
    let mut inter = ByteInter::<12, 17>::open(rt.alloc())?;
    let mut sent = [0u8; 480];
    sent[13] = 1;
    let mut adjusted = [9u8; 480];
    line.feed(&sent, &mut adjusted);
    let mut placed = [9u8; 480];
    inter.feed(&adjusted, &mut placed);
    for (place, byte) in placed.iter().enumerate() {
        assert_eq!(rt; *byte, (place == 421) as u8, "place {place}");
    }
    Ok(())
}

/// A byte that tells turn and path, and is never 0.
fn byte_of(turn: usize, path: usize) -> u8 {
    (turn % 20 * 12 + path % 12) as u8 + 1
}

#[test]
fn byte_pair(rt: HostRuntime) -> Result<(), Fail> {
    let mut inter = ByteInter::<12, 17>::open(rt.alloc())?;
    let mut deinter = ByteDeinter::<12, 17>::open(rt.alloc())?;
    let mut middle = [0u8; 12];
    for turn in 0..400usize {
        let mut bytes = [0u8; 12];
        for path in 0..12 {
            bytes[path] = byte_of(turn, path);
        }
        through(&mut inter, &mut deinter, &mut bytes, &mut middle);
        for path in 0..12 {
            let wanted = if turn < 187 {
                0
            } else {
                byte_of(turn - 187, path)
            };
            assert_eq!(rt; bytes[path], wanted, "turn {turn}, path {path}");
            let late = 17 * path;
            let between = if turn < late {
                0
            } else {
                byte_of(turn - late, path)
            };
            assert_eq!(rt; middle[path], between, "turn {turn}, path {path}");
        }
    }
    Ok(())
}
