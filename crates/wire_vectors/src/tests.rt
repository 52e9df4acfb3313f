// Vectors made by another program (Python's zlib for the sums), read and written.
use frames::{AtAccess, Settings, inner_frame, read_at_access, same_address};
use messages::{Hello, LinkState, Message, decode_tree, encode_tree};
use std::process::Abort;
use std::test::Fail;
use wire::Fault;

// hello, and one byte more
const HELLO: [u8; 15] = [2, 5, 1, 2, 3, 4, 10, 11, 12, 13, 52, 37, 4, 233, 0];

// link state, and one byte more
const LINK_STATE: [u8; 33] = [
    3, 127, 255, 255, 255, 255, 1, 2, 3, 4, 5, 6, 128, 0, 0, 0, 0, 0, 0, 0, 0, 0, 0, 0, 0, 0, 0, 1,
    95, 205, 217, 253, 0,
];

// ack of link state, and one byte more
const ACK_OF_LINK_STATE: [u8; 22] = [
    5, 0, 0, 0, 9, 3, 4, 17, 34, 51, 68, 0, 0, 0, 0, 0, 77, 170, 147, 206, 129, 0,
];

// ack of tree, and one byte more
const ACK_OF_TREE: [u8; 19] = [
    5, 0, 0, 0, 9, 4, 0, 0, 0, 7, 3, 1, 2, 3, 254, 137, 71, 157, 0,
];

// least frame, and one byte more
const LEAST_FRAME: [u8; 32] = [
    1, 3, 4, 0, 0, 0, 7, 3, 1, 2, 3, 15, 254, 2, 0, 0, 0, 0, 1, 10, 0, 0, 0, 0, 2, 104, 105, 236,
    167, 224, 127, 0,
];

const TREE: [u8; 270] = [
    4, 0, 0, 0, 7, 0, 1, 2, 3, 0, 0, 0, 1, 1, 2, 3, 0, 4, 0, 5, 0, 6, 0, 7, 0, 8, 0, 9, 0, 10, 0,
    11, 0, 12, 0, 13, 0, 14, 0, 15, 0, 16, 0, 17, 0, 18, 0, 19, 0, 20, 0, 21, 0, 22, 0, 23, 0, 24,
    0, 25, 0, 26, 0, 27, 0, 28, 0, 29, 0, 30, 0, 31, 0, 32, 0, 33, 0, 34, 0, 35, 0, 36, 0, 37, 0,
    38, 0, 39, 0, 40, 0, 41, 0, 42, 0, 43, 0, 44, 0, 45, 0, 46, 0, 47, 0, 48, 0, 49, 0, 50, 0, 51,
    0, 52, 0, 53, 0, 54, 0, 55, 0, 56, 0, 57, 0, 58, 0, 59, 0, 60, 0, 61, 0, 62, 0, 63, 0, 64, 0,
    65, 0, 66, 0, 67, 0, 68, 0, 69, 0, 70, 0, 71, 0, 72, 0, 73, 0, 74, 0, 75, 0, 76, 0, 77, 0, 78,
    0, 79, 0, 80, 0, 81, 0, 82, 0, 83, 0, 84, 0, 85, 0, 86, 0, 87, 0, 88, 0, 89, 0, 90, 0, 91, 0,
    92, 0, 93, 0, 94, 0, 95, 0, 96, 0, 97, 0, 98, 0, 99, 0, 100, 0, 101, 0, 102, 0, 103, 0, 104, 0,
    105, 0, 106, 0, 107, 0, 108, 0, 109, 0, 110, 0, 111, 0, 112, 0, 113, 0, 114, 0, 115, 0, 116, 0,
    117, 0, 118, 0, 119, 0, 120, 0, 121, 0, 122, 0, 123, 0, 124, 0, 125, 0, 126, 0, 127, 0, 20,
    165, 162, 65, 0,
];

// The number of the fault, 0 where there is none.
fn number_of<T: Drop>(read: Result<T, Fault>) -> u8 {
    read.err().map_or(0, Fault::number)
}

fn answer(bytes: &[u8]) -> u8 {
    number_of(Message::decode(bytes))
}

// The number of the fault at an access port, 100 for a hello.
fn access_answer(bytes: &[u8]) -> u8 {
    match read_at_access(bytes) {
        Ok(AtAccess::Hello) => 100,
        frame => number_of(frame),
    }
}

// Turns some bits of a byte.
fn flip(bytes: &mut [u8], i: usize, bits: u8) {
    if i < bytes.len() {
        bytes[i] ^= bits;
    }
}

// The answer to all bytes but the last.
fn answer_to_front(bytes: &[u8]) -> u8 {
    if bytes.len() > 0 {
        answer(&bytes[0..bytes.len() - 1])
    } else {
        0
    }
}

// A message with one byte behind it: whole without that byte, and refused with it, cut anywhere, and with any byte changed.
fn check_damage(rt: &impl Abort, bytes: &mut [u8]) {
    assert!(rt; bytes.len() > 0);
    assert_eq!(rt; answer(bytes), 1);
    assert_eq!(rt; answer_to_front(bytes), 0);
    let whole = bytes.len() - 1;
    for n in 0..whole {
        assert_eq!(rt; answer(&bytes[0..n]), 1);
    }
    for i in 0..whole {
        flip(bytes, i, 1);
        assert_eq!(rt; answer_to_front(bytes), 1);
        flip(bytes, i, 254);
        assert_eq!(rt; answer_to_front(bytes), 1);
        flip(bytes, i, 255);
    }
}

#[test]
fn damaged_messages(rt: HostRuntime) {
    let mut bytes = HELLO;
    check_damage(&rt, &mut bytes);
    let mut bytes = LINK_STATE;
    check_damage(&rt, &mut bytes);
    let mut bytes = ACK_OF_LINK_STATE;
    check_damage(&rt, &mut bytes);
    let mut bytes = ACK_OF_TREE;
    check_damage(&rt, &mut bytes);
    let mut bytes = LEAST_FRAME;
    check_damage(&rt, &mut bytes);
    let mut bytes = TREE;
    check_damage(&rt, &mut bytes);
}

#[test]
fn faults_of_messages(rt: HostRuntime) {
    let rows: [(&[u8], u8); 18] = [
        (&[], 1),
        (&[2], 1),
        (&[9, 9, 9, 9, 9, 9, 9, 9, 9, 9, 9, 9, 9, 9], 1),
        (&[0, 0, 0, 0], 1),
        (&[2, 128, 0, 0, 0, 1, 0, 0, 0, 1, 203, 77, 161, 34], 2),
        (
            &[
                3, 200, 0, 0, 0, 1, 0, 0, 0, 0, 0, 1, 0, 0, 0, 0, 0, 0, 0, 0, 0, 0, 0, 0, 0, 0, 0,
                0, 96, 108, 124, 173,
            ],
            2,
        ),
        (
            &[
                5, 0, 0, 0, 1, 3, 128, 0, 0, 0, 1, 0, 0, 0, 0, 0, 1, 49, 216, 24, 249,
            ],
            2,
        ),
        (
            &[5, 0, 0, 0, 1, 4, 0, 0, 0, 1, 128, 0, 0, 1, 64, 8, 130, 133],
            2,
        ),
        (
            &[5, 0, 0, 0, 1, 3, 0, 0, 0, 1, 1, 0, 0, 1, 113, 140, 62, 18],
            1,
        ),
        (
            &[
                1, 3, 4, 0, 0, 0, 7, 3, 1, 2, 3, 0, 1, 2, 0, 0, 0, 0, 1, 11, 0, 0, 0, 0, 2, 104,
                105, 178, 180, 110, 81,
            ],
            1,
        ),
        (
            &[
                1, 200, 4, 0, 0, 0, 7, 3, 1, 2, 3, 0, 1, 2, 0, 0, 0, 0, 1, 11, 0, 0, 0, 0, 2, 104,
                105, 131, 213, 1, 49,
            ],
            1,
        ),
        (
            &[
                1, 200, 4, 0, 0, 0, 7, 3, 1, 2, 3, 0, 1, 2, 0, 0, 0, 0, 1, 10, 0, 0, 0, 0, 2, 104,
                105, 79, 127, 1, 175,
            ],
            2,
        ),
        (
            &[
                1, 3, 128, 0, 0, 0, 7, 3, 1, 2, 3, 0, 1, 2, 0, 0, 0, 0, 1, 10, 0, 0, 0, 0, 2, 104,
                105, 40, 137, 21, 135,
            ],
            2,
        ),
        (
            &[
                1, 3, 4, 0, 0, 0, 1, 128, 0, 0, 1, 0, 1, 2, 0, 0, 0, 0, 1, 10, 0, 0, 0, 0, 2, 104,
                105, 74, 113, 29, 243,
            ],
            2,
        ),
        (
            &[
                1, 3, 4, 0, 0, 0, 7, 3, 1, 2, 3, 0, 0, 2, 0, 0, 0, 0, 1, 10, 0, 0, 0, 0, 2, 104,
                105, 199, 229, 181, 39,
            ],
            2,
        ),
        (
            &[
                1, 3, 4, 0, 0, 0, 7, 3, 1, 2, 3, 15, 255, 2, 0, 0, 0, 0, 1, 10, 0, 0, 0, 0, 2, 104,
                105, 85, 92, 59, 151,
            ],
            2,
        ),
        (
            &[
                1, 3, 4, 0, 0, 0, 7, 3, 1, 2, 3, 0, 1, 2, 0, 0, 0, 0, 1, 10, 0, 0, 0, 0, 2, 104,
                105, 126, 30, 110, 207,
            ],
            0,
        ),
        (
            &[
                1, 3, 4, 0, 0, 0, 7, 3, 1, 2, 3, 0, 1, 2, 0, 0, 0, 0, 1, 10, 0, 0, 0, 0, 2, 104,
                160, 120, 2, 66,
            ],
            1,
        ),
    ];
    for (bytes, number) in rows {
        assert_eq!(rt; answer(bytes), number);
    }
}

#[test]
fn faults_of_settings(rt: HostRuntime) {
    let rows: [(&[u8], u8); 11] = [
        (&[6, 5, 1, 2, 3, 4, 3, 0, 0, 0, 1, 15, 254], 0),
        (&[6, 5, 0, 0, 0, 1, 0], 0),
        (
            &[
                6, 5, 0, 0, 0, 1, 16, 0, 1, 0, 1, 0, 1, 0, 1, 0, 1, 0, 1, 0, 1, 0, 1, 0, 1, 0, 1,
                0, 1, 0, 1, 0, 1, 0, 1, 0, 1, 0, 1,
            ],
            0,
        ),
        (&[], 1),
        (&[6, 5, 0, 0, 0, 1, 1, 0], 1),
        (&[6, 5, 0, 0, 0, 1, 1, 0, 1, 0], 1),
        (&[2, 5, 0, 0, 0, 1, 1, 0, 1], 1),
        (&[6, 128, 0, 0, 0, 1, 1, 0, 1], 10),
        (&[6, 5, 0, 0, 0, 0, 1, 0, 1], 10),
        (
            &[
                6, 5, 0, 0, 0, 1, 17, 0, 1, 0, 1, 0, 1, 0, 1, 0, 1, 0, 1, 0, 1, 0, 1, 0, 1, 0, 1,
                0, 1, 0, 1, 0, 1, 0, 1, 0, 1, 0, 1, 0, 1,
            ],
            10,
        ),
        (&[6, 5, 0, 0, 0, 1, 2, 0, 1, 15, 255], 10),
    ];
    for (bytes, number) in rows {
        assert_eq!(rt; number_of(Settings::decode(bytes)), number);
    }
}

#[test]
fn at_an_access_port(rt: HostRuntime) {
    let rows: [(&[u8], u8); 6] = [
        (&[2, 5, 0, 0, 0, 1, 0, 0, 0, 1, 231, 143, 228, 34], 100),
        (&[2, 200, 0, 0, 0, 1, 0, 0, 0, 1, 174, 7, 0, 61], 100),
        (&[2, 0, 0, 0, 0, 1, 10, 0, 0, 0, 0, 2, 104, 105], 0),
        (&[2, 0, 0, 0, 0, 1, 11, 0, 0, 0, 0, 2, 104, 105], 1),
        (&[2, 0, 0, 0, 0, 1, 10, 0, 0, 0, 0, 2, 104], 1),
        (&[2, 5, 0, 0, 0, 1, 0, 0, 0, 1, 231, 143, 228, 0], 0),
    ];
    for (bytes, number) in rows {
        assert_eq!(rt; access_answer(bytes), number);
    }
}

#[test]
fn trees_that_are_none(rt: HostRuntime) {
    // a place, what stands there, the sum, and the number of the fault
    let rows: [(usize, u8, [u8; 4], u8); 3] = [
        (19, 128, [229, 240, 194, 62], 2),
        (11, 2, [52, 184, 39, 102], 5),
        (5, 200, [166, 188, 158, 143], 2),
    ];
    for (place, byte, [a, b, c, d], number) in rows {
        let mut bytes = TREE;
        assert!(rt; place < 265);
        bytes[place] = byte;
        bytes[265] = a;
        bytes[266] = b;
        bytes[267] = c;
        bytes[268] = d;
        assert_eq!(rt; answer(&bytes[0..269]), number);
    }
}

#[test]
fn fields_and_bytes(rt: HostRuntime) -> Result<(), Fail> {
    let mut out = Vec::new(rt.alloc());
    let Ok(hello) = Hello::decode(&HELLO[0..14]) else {
        return Err(Fail::new("a hello is refused"));
    };
    assert_eq!(rt; hello.bridge.value(), 5);
    assert_eq!(rt; hello.incarnation, 0x0102_0304);
    assert_eq!(rt; hello.heard, 0x0A0B_0C0D);
    hello.encode(&mut out)?;
    assert!(rt; out.as_slice() == &HELLO[0..14]);
    let Ok(state) = LinkState::decode(&LINK_STATE[0..32]) else {
        return Err(Fail::new("a link state is refused"));
    };
    assert_eq!(rt; state.count.value(), 0x0102_0304_0506);
    assert_eq!(rt;
        u128::from_be_bytes(state.neighbours.to_bytes()),
        (1 << 127) + 1
    );
    out.clear();
    state.encode(&mut out)?;
    assert!(rt; out.as_slice() == &LINK_STATE[0..32]);
    let Ok(tree) = decode_tree(&TREE[0..269]) else {
        return Err(Fail::new("a tree is refused"));
    };
    assert_eq!(rt; tree.id().seq(), 7);
    assert_eq!(rt; tree.id().nonce(), 0x01_0203);
    out.clear();
    encode_tree(&tree, &mut out)?;
    assert!(rt; out.as_slice() == &TREE[0..269]);
    let Ok(frame) = inner_frame(&LEAST_FRAME[0..31]) else {
        return Err(Fail::new("a frame is refused"));
    };
    assert!(rt; same_address(&frame.to, &[2, 0, 0, 0, 0, 1]));
    assert!(rt; same_address(&frame.from, &[10, 0, 0, 0, 0, 2]));
    assert_eq!(rt; frame.bytes.len(), 14);
    Ok(())
}
