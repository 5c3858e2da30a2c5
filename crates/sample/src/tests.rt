//! Samples, whose sums were computed from the generator alone, by a program of another language.

use crate::generator::Generator;
use crate::{SampleFault, sample};
use edge_io::MemorySink;
use std::test::Fail;

/// The first bytes and the last of packet 0 of layer A of sample 7.
#[test]
fn first_packet(rt: HostRuntime) -> Result<(), Fail> {
    let packet = Generator::new(7).packet();
    assert_eq!(rt;
        &packet[..12],
        [71, 108, 78, 116, 146, 19, 37, 34, 46, 49, 161, 205].as_slice()
    );
    assert_eq!(rt; &packet[185..], [14, 212, 42].as_slice());
    Ok(())
}

/// A sample: its number, and its text.
struct Row {
    number: u16,
    text: &'static [u8],
}

/// All packets are met and none is marked.
const ROWS: [Row; 2] = [
    Row {
        number: 7,
        text: b"frames 15\nA sent 100 met 100 marked 0 sum 2383457\nB sent 3000 met 3000 marked 0 sum 71497833\n",
    },
    Row {
        number: 65535,
        text: b"frames 15\nA sent 100 met 100 marked 0 sum 2365530\nB sent 3000 met 3000 marked 0 sum 71545471\n",
    },
];

#[test]
fn texts(rt: HostRuntime) -> Result<(), Fail> {
    for row in &ROWS {
        let mut sink = MemorySink::new(rt.alloc(), 200)?;
        assert_eq!(rt; sample(rt.alloc(), row.number, &mut sink), Ok(15));
        assert_eq!(rt; sink.bytes(), row.text);
    }
    Ok(())
}

/// Where the room ends inside the text, its front is written.
#[test]
fn full_sinks(rt: HostRuntime) -> Result<(), Fail> {
    for room in [0usize, 20] {
        let mut sink = MemorySink::new(rt.alloc(), room)?;
        assert_eq!(rt;
            sample(rt.alloc(), 7, &mut sink),
            Err(SampleFault::WriteFault)
        );
        assert_eq!(rt; sink.bytes(), &ROWS[0].text[..room]);
    }
    Ok(())
}
