//! Products, parities and corrected words that are known.

use crate::{Gf, Nearest, Rs};

/// Two elements of the field, and their product.
#[derive(Clone, Copy)]
struct Product {
    a: Gf,
    b: Gf,
    is: Gf,
}

/// Worked by hand from x^8 = x^4 + x^3 + x^2 + 1.
static PRODUCTS: [Product; 9] = [
    Product {
        a: Gf(0x80),
        b: Gf(0x02),
        is: Gf(0x1D),
    },
    Product {
        a: Gf(0x80),
        b: Gf(0x04),
        is: Gf(0x3A),
    },
    Product {
        a: Gf(0x80),
        b: Gf(0x80),
        is: Gf(0x13),
    },
    Product {
        a: Gf(0xFF),
        b: Gf(0x02),
        is: Gf(0xE3),
    },
    Product {
        a: Gf(0xFF),
        b: Gf(0xFF),
        is: Gf(0xE2),
    },
    Product {
        a: Gf(0x03),
        b: Gf(0x03),
        is: Gf(0x05),
    },
    Product {
        a: Gf(0xFF),
        b: Gf(0x00),
        is: Gf(0x00),
    },
    Product {
        a: Gf(0x00),
        b: Gf(0xFF),
        is: Gf(0x00),
    },
    Product {
        a: Gf(0x01),
        b: Gf(0xA7),
        is: Gf(0xA7),
    },
];

#[test]
fn products_and_inverses(rt: HostRuntime) {
    for row in PRODUCTS.iter() {
        let Product { a, b, is } = *row;
        assert_eq!(rt; a.mul(b), is, "{a:?} times {b:?}");
    }
    let inverses = [0x01, 0x8E, 0xF4, 0x47, 0xA7, 0x7A, 0xBA, 0xAD, 0x9D];
    for a in 1..10u8 {
        assert_eq!(rt; Gf(a).inv(), Gf(inverses[a as usize - 1]), "1 over {a}");
    }
    assert_eq!(rt; Gf(0xFF).add(Gf(0x0F)), Gf(0xF0));
}

#[test]
fn outer_code_vectors(rt: HostRuntime) {
    let mut message = [0u8; 188];
    message[187] = 1;
    let mut parity = [0u8; 16];
    Rs::<16>::parity(&message, &mut parity);
    assert_eq!(rt;
        parity,
        [
            0x3B, 0x0D, 0x68, 0xBD, 0x44, 0xD1, 0x1E, 0x08, 0xA3, 0x41, 0x29, 0xE5, 0x62, 0x32,
            0x24, 0x3B
        ]
    );
    let mut word = [0u8; 204];
    word[0] = 1;
    word[1] = 1;
    word[2] = 1;
    word[50] = 1;
    word[100] = 1;
    word[150] = 1;
    word[202] = 1;
    word[203] = 1;
    assert_eq!(rt; Rs::<16>::nearest(&mut word), Nearest::Codeword(8));
    assert_eq!(rt; word, [0; 204]);
}

#[test]
fn words_of_three_bytes(rt: HostRuntime) {
    let mut near = [1, 0, 0];
    assert_eq!(rt; Rs::<2>::nearest(&mut near), Nearest::Codeword(1));
    assert_eq!(rt; near, [0, 0, 0]);
    let mut far = [1, 1, 0];
    assert_eq!(rt; Rs::<2>::nearest(&mut far), Nearest::Far);
    assert_eq!(rt; far, [1, 1, 0]);
}

/// The shortest and the longest messages, for the fewest and the most roots.
#[test]
fn extreme_parities(rt: HostRuntime) {
    let mut long = [0x47u8; 253];
    long[0] = 1;
    long[252] = 2;
    let mut two = [0u8; 2];
    Rs::<2>::parity(&[1], &mut two);
    assert_eq!(rt; two, [0x03, 0x02]);
    Rs::<2>::parity(&long, &mut two);
    assert_eq!(rt; two, [0x96, 0xD2]);
    let mut many = [0u8; 32];
    Rs::<32>::parity(&[1], &mut many);
    assert_eq!(rt;
        many,
        [
            0x74, 0x40, 0x34, 0xAE, 0x36, 0x7E, 0x10, 0xC2, 0xA2, 0x21, 0x21, 0x9D, 0xB0, 0xC5,
            0xE1, 0x0C, 0x3B, 0x37, 0xFD, 0xE4, 0x94, 0x2F, 0xB3, 0xB9, 0x18, 0x8A, 0xFD, 0x14,
            0x8E, 0x37, 0xAC, 0x58
        ]
    );
    let mut longest = [0x47u8; 223];
    longest[0] = 1;
    longest[222] = 2;
    Rs::<32>::parity(&longest, &mut many);
    assert_eq!(rt;
        many,
        [
            0x7D, 0xC4, 0xF9, 0x4E, 0x88, 0x8B, 0x28, 0x3D, 0xED, 0x14, 0x4F, 0x0E, 0xCD, 0xFF,
            0x0C, 0x7D, 0x50, 0x64, 0xD0, 0x9C, 0x63, 0xF4, 0x5E, 0x25, 0xEC, 0xC9, 0xDE, 0xE0,
            0x3C, 0xED, 0xA5, 0x5C
        ]
    );
}

#[test]
fn sixteen_wrong_bytes(rt: HostRuntime) {
    let mut word = [0u8; 255];
    for error in 0..16 {
        word[error * 16] = error as u8 + 1;
    }
    assert_eq!(rt; Rs::<32>::nearest(&mut word), Nearest::Codeword(16));
    assert_eq!(rt; word, [0; 255]);
}

/// The last 204 bytes of the codeword of 255 bytes that begins with 01 and 238 zeros: one byte from a codeword, but from
/// none of 204 bytes.
#[test]
fn near_only_before_its_first_byte(rt: HostRuntime) {
    let parity = [
        0xA9, 0x01, 0x16, 0xB0, 0xFA, 0x8B, 0xD4, 0xB2, 0x21, 0x48, 0xBC, 0x0C, 0x8C, 0xDE, 0x89,
        0x1A,
    ];
    let mut word = [0u8; 204];
    word[188..].copy_from_slice(&parity);
    let before = word;
    assert_eq!(rt; Rs::<16>::nearest(&mut word), Nearest::Far);
    assert_eq!(rt; word, before);
    let mut whole = [0u8; 255];
    whole[239..].copy_from_slice(&parity);
    assert_eq!(rt; Rs::<16>::nearest(&mut whole), Nearest::Codeword(1));
    assert_eq!(rt; whole[0], 1);
}
