//! mps_seal: a line is read exactly where it ends in its seal, which is over the seal before and the line.
use mps_seal::Seal;
use std::alloc::AllocGlobal;
use std::process::Abort;

// The protocol on which the first seal of a session depends.
const PROTOCOL: &[u8] = b"roles a b ; a -> b : int . end";

// Lines of its session 1, and the same with their seals, which were computed by Python's hashlib.
const SEALED: &[(&[u8], &[u8])] = &[
    (b"a send b 5", b"a send b 5 adbc17942d87ca56"),
    (b"b recv a x", b"b recv a x 7c3be2f5581bbda6"),
    (b"", b" 75f2b360da68c62d"),
];

// The seal before the first line of the session.
fn first(rt: &(impl Abort + AllocGlobal), session: u64) -> Seal {
    Seal::first(rt.alloc(), PROTOCOL, session).expect(rt, "memory")
}

// The seal after the line of that row, if it is sealed so, and nothing but that is read as the line.
fn written(
    rt: &(impl Abort + AllocGlobal),
    row: usize,
    seal: Seal,
    line: &[u8],
    sealed: &[u8],
) -> Seal {
    let mut text = Vec::from_slice(rt.alloc(), line).expect(rt, "memory");
    let next = seal.close(&mut text).expect(rt, "memory");
    assert_eq!(rt; text.as_slice(), sealed, "line {row} (from 0)");
    next
}

// Whether the sealed line is read as that line.
fn is_read(seal: Seal, sealed: &[u8], line: &[u8]) -> bool {
    match seal.read(sealed) {
        Some((body, _)) => body == line,
        None => false,
    }
}

// `mps_seal::Seal::close` appends to each line its seal, and gives that seal, over which the next one is.
#[test]
fn each_line_is_written_with_its_seal(rt: HostRuntime) {
    let mut seal = first(&rt, 1);
    for (row, (line, sealed)) in SEALED.iter().enumerate() {
        seal = written(&rt, row, seal, line, sealed);
    }
}

// `mps_seal::Seal::read`, by the seal before it, takes the seal off each line, and gives the line.
#[test]
fn a_sealed_line_is_read_without_its_seal(rt: HostRuntime) {
    let mut seal = first(&rt, 1);
    for (row, (line, sealed)) in SEALED.iter().enumerate() {
        assert!(rt; is_read(seal, sealed, line), "line {row} (from 0)");
        seal = seal.next(line);
    }
}

// Whether none of the lines that differ from this one in one bit of that byte is read.
fn sees_each_flip(rt: &(impl Abort + AllocGlobal), seal: Seal, sealed: &[u8], at: usize) -> bool {
    for bit in 0..8u32 {
        let mut bytes = Vec::from_slice(rt.alloc(), sealed).expect(rt, "memory");
        if let Some(byte) = bytes.get_mut(at) {
            *byte ^= 1 << bit;
        }
        if seal.read(bytes.as_slice()).is_some() {
            return false;
        }
    }
    true
}

// `mps_seal::Seal::read` reads no line that differs from a sealed one in one bit, of the line or of the seal.
#[test]
fn a_line_with_a_changed_bit_is_not_read(rt: HostRuntime) {
    let sealed = SEALED[0].1;
    for at in 0..sealed.len() {
        assert!(rt;
            sees_each_flip(&rt, first(&rt, 1), sealed, at),
            "a bit of byte {at}"
        );
    }
}

// `mps_seal::Seal::read` doesn't read a line elsewhere: a seal is over the protocol, the session and all lines before.
#[test]
fn a_line_in_another_place_is_not_read(rt: HostRuntime) {
    // the second line in place of the first, the first again, the first of another session
    assert!(rt;
        first(&rt, 1).read(SEALED[1].1).is_none(),
        "the second line in the first's place"
    );
    assert!(rt;
        first(&rt, 1).next(SEALED[0].0).read(SEALED[0].1).is_none(),
        "the first line again"
    );
    assert!(rt;
        first(&rt, 2).read(SEALED[0].1).is_none(),
        "the first line of another session"
    );
}

// `mps_seal::Seal::alone` reads the seal of a line without a byte, the third above, and no other line, nor that one
// elsewhere.
#[test]
fn a_seal_alone_is_read_in_its_place_only(rt: HostRuntime) {
    // the third line above has nothing but its seal
    let second = first(&rt, 1).next(SEALED[0].0).next(SEALED[1].0);
    assert!(rt;
        second.alone(SEALED[2].1).is_some(),
        "the third seal alone is read"
    );
    assert!(rt;
        second.alone(SEALED[1].1).is_none(),
        "no seal alone is read of a line"
    );
    assert!(rt;
        first(&rt, 1).alone(SEALED[2].1).is_none(),
        "elsewhere the third seal is not read"
    );
}

// `mps_seal::Seal::read` reads no line without a seal, and none whose seal is spelled in capitals.
#[test]
fn a_line_without_its_seal_is_not_read(rt: HostRuntime) {
    assert!(rt;
        first(&rt, 1).read(SEALED[0].0).is_none(),
        "a line without a seal"
    );
    assert!(rt;
        first(&rt, 1).read(b"a send b 5 ADBC17942D87CA56").is_none(),
        "a seal in capitals"
    );
}
