// The chunk that luac writes for `print("hi")` with its debug information stripped, read and written, whole and altered.
use chunk_format::{ChunkFault, read_chunk, read_function, write_chunk, write_function};
use std::alloc::Global;
use std::test::Fail;

const PRINT_HI: [u8; 80] = [
    0x1b, 0x4c, 0x75, 0x61, 0x54, 0x00, 0x19, 0x93, 0x0d, 0x0a, 0x1a, 0x0a, 0x04, 0x08, 0x08, 0x78,
    0x56, 0x00, 0x00, 0x00, 0x00, 0x00, 0x00, 0x00, 0x00, 0x00, 0x00, 0x00, 0x28, 0x77, 0x40, 0x01,
    0x80, 0x80, 0x80, 0x00, 0x01, 0x02, 0x85, 0x51, 0x00, 0x00, 0x00, 0x0b, 0x00, 0x00, 0x00, 0x83,
    0x80, 0x00, 0x00, 0x44, 0x00, 0x02, 0x01, 0x46, 0x00, 0x01, 0x01, 0x82, 0x04, 0x86, 0x70, 0x72,
    0x69, 0x6e, 0x74, 0x04, 0x83, 0x68, 0x69, 0x81, 0x01, 0x00, 0x00, 0x80, 0x80, 0x80, 0x80, 0x80,
];

/// A place, a byte for it, and the kind with which the altered chunk is refused.
const ALTERED: [(usize, u8, u8); 8] = [
    (0, 0x1c, 1),
    (4, 0x53, 2),
    (5, 0x01, 3),
    (12, 0x08, 4),
    (36, 0x02, 8),
    (38, 0x05, 7),
    (60, 0x13, 5),
    (60, 0x20, 8),
];

/// The kind of a refusal, or 0.
fn kind_of(alloc: Global, bytes: &[u8]) -> u8 {
    match read_chunk(alloc, bytes) {
        Err(ChunkFault::Refused { kind }) => kind,
        _ => 0,
    }
}

/// The chunk with a byte in a place of another.
fn altered(alloc: Global, place: usize, byte: u8) -> Result<Vec<u8>, Fail> {
    let mut bytes = PRINT_HI.to_vec(alloc)?;
    if let Some(there) = bytes.get_mut(place) {
        *there = byte;
    }
    Ok(bytes)
}

#[test]
fn a_chunk_is_read_and_written_again(rt: HostRuntime) -> Result<(), Fail> {
    let alloc = rt.alloc();
    let proto = read_chunk(alloc, &PRINT_HI)?;
    assert_eq!(rt; (proto.params, proto.vararg, proto.stack), (0, true, 2));
    assert_eq!(rt;
        (
            proto.code.len(),
            proto.constants.len(),
            proto.upvalues.len()
        ),
        (5, 2, 1)
    );
    let chunk = write_chunk(alloc, &proto, true)?;
    assert_eq!(rt; chunk.as_slice(), PRINT_HI.as_slice());
    Ok(())
}

#[test]
fn altered_chunks_are_refused_by_their_kind(rt: HostRuntime) -> Result<(), Fail> {
    let alloc = rt.alloc();
    for (place, byte, kind) in ALTERED {
        let bytes = altered(alloc, place, byte)?;
        assert_eq!(rt; kind_of(alloc, &bytes), kind, "at {place}");
    }
    for end in 0..80 {
        assert_eq!(rt; kind_of(alloc, &PRINT_HI[..end]), 6, "cut at {end}");
    }
    let mut longer = PRINT_HI.to_vec(alloc)?;
    longer.push(0)?;
    assert_eq!(rt; kind_of(alloc, &longer), 0);
    Ok(())
}

#[test]
fn a_function_is_read_and_written_again(rt: HostRuntime) -> Result<(), Fail> {
    let alloc = rt.alloc();
    let (proto, taken) = read_function(alloc, &PRINT_HI[32..])?;
    assert_eq!(rt; taken, 48);
    let bytes = write_function(alloc, &proto)?;
    assert_eq!(rt; bytes.as_slice(), &PRINT_HI[32..]);
    Ok(())
}
