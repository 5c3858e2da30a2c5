//! Lines and banks whose items are known.

use crate::{Line, LineBank};
use std::test::Fail;

/// What a line of this delay, filled with zeros, gives for 1 to 5.
#[derive(Clone, Copy)]
struct Fed {
    delay: u32,
    given: [u8; 5],
}

#[test]
fn delay_line_vectors(rt: HostRuntime) -> Result<(), Fail> {
    let rows = [
        Fed {
            delay: 3,
            given: [0, 0, 0, 1, 2],
        },
        Fed {
            delay: 0,
            given: [1, 2, 3, 4, 5],
        },
        Fed {
            delay: 5,
            given: [0; 5],
        },
        Fed {
            delay: 9,
            given: [0; 5],
        },
    ];
    for row in rows {
        let mut line = Line::open(rt.alloc(), row.delay, 0u8)?;
        let mut given = [9u8; 5];
        line.feed(&[1, 2, 3, 4, 5], &mut given);
        assert_eq!(rt; given, row.given, "delay {}", row.delay);
        assert_eq!(rt; line.delay(), row.delay as usize);
    }
    Ok(())
}

#[test]
fn pieces_and_steps(rt: HostRuntime) -> Result<(), Fail> {
    let mut line = Line::open(rt.alloc(), 2, 'z')?;
    let mut given = ['-'; 5];
    line.feed(&['a', 'b', 'c', 'd', 'e'], &mut given);
    assert_eq!(rt; given, ['z', 'z', 'a', 'b', 'c']);
    assert_eq!(rt; line.step('f'), 'd');
    assert_eq!(rt; line.step('g'), 'e');
    assert_eq!(rt; line.step('h'), 'f');
    Ok(())
}

#[test]
fn paths_side_by_side(rt: HostRuntime) -> Result<(), Fail> {
    let mut bank = LineBank::new(rt.alloc());
    for delay in [1, 0, 3] {
        bank.add(rt.alloc(), delay, 0u8)?;
    }
    assert_eq!(rt; bank.paths(), 3);
    let mut given = [9u8; 12];
    bank.feed(&[1, 2, 3, 4, 5, 6, 7, 8, 9, 10, 11, 12], &mut given);
    assert_eq!(rt; given, [0, 2, 0, 1, 5, 0, 4, 8, 0, 7, 11, 3]);
    Ok(())
}
