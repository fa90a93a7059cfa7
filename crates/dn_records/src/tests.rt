use super::*;
use dn_wire::Round;
use std::alloc::Global;
use std::test::*;

const SUBMISSION: &[u8] = &[
    1, 16, 0, 0, 0, 0, 0, 0, 1, 0, 0, 0, 0, 0, 0, 0, 0, 0, 0, 0, 3, 192, 245, 24, 186, 245, 212,
    255, 213, 154, 227, 101, 206, 182, 176, 210, 20, 56, 96, 50, 107, 174, 247, 202, 28, 34, 155,
    71, 11, 5, 49, 220, 204,
];

const RECEIPT: &[u8] = &[
    2, 0, 0, 0, 0, 0, 0, 3, 1, 0, 0, 0, 2, 207, 127, 179, 55, 186, 244, 48, 149, 1, 84, 111, 46,
    237, 143, 107, 9, 221, 227, 169, 6, 210, 176, 90, 138, 64, 118, 203, 212, 10, 221, 208, 143, 2,
];

const INVENTORY: &[u8] = &[
    3, 0, 0, 0, 0, 0, 0, 0, 1, 0, 0, 0, 0, 0, 0, 0, 0, 0, 0, 0, 2, 0, 0, 0, 3, 193, 183, 135, 183,
    54, 45, 3, 143, 145, 18, 164, 34, 88, 106, 244, 149, 145, 151, 57, 77, 254, 179, 110, 177, 31,
    71, 46, 41, 9, 210, 114, 1, 0, 3, 11, 14, 151, 0, 0, 0, 8, 193, 183, 135, 183, 54, 45, 3, 143,
    145, 18, 164, 34, 88, 106, 244, 149, 145, 151, 57, 77, 254, 179, 110, 177, 31, 71, 46, 41, 9,
    210, 114, 1, 0, 4, 42, 47, 55, 3,
];

const COMMIT: &[u8] = &[
    4, 0, 0, 0, 0, 0, 0, 0, 2, 90, 90, 90, 90, 90, 90, 90, 90, 90, 90, 90, 90, 90, 90, 90, 90, 90,
    90, 90, 90, 90, 90, 90, 90, 90, 90, 90, 90, 90, 90, 90, 90,
];

const REVEAL: &[u8] = &[5, 0, 0, 0, 0, 0, 0, 0, 3, 0, 0, 0, 3, 96];

const SIGN: &[u8] = &[
    6, 1, 0, 0, 0, 32, 0, 0, 0, 2, 0, 0, 0, 0, 0, 0, 0, 3, 0, 0, 0, 3, 0, 0, 0, 1, 0, 0, 0, 1, 20,
    153, 221, 151, 45, 163, 248, 205, 180, 77, 157, 54, 161, 96, 138, 177, 208, 70, 13, 205, 217,
    85, 115, 65, 45, 160, 113, 184, 95, 146, 74, 66, 0, 0, 0, 3, 0, 0, 0, 1, 61, 139, 189, 82, 200,
    29, 12, 4, 169, 195, 66, 141, 185, 219, 100, 134, 221, 208, 22, 124, 29, 106, 195, 104, 10,
    163, 228, 71, 254, 80, 6, 136, 0, 0, 0, 8, 0, 0, 0, 0, 75, 165, 123, 146, 7, 221, 248, 190,
    100, 155, 45, 114, 78, 217, 120, 147, 182, 193, 221, 49, 15, 55, 100, 200, 109, 214, 209, 60,
    137, 171, 75, 102, 0, 0, 0, 0, 0, 0, 0, 3, 0,
];

const SIGN_2: &[u8] = &[
    6, 2, 0, 0, 2, 0, 0, 0, 2, 0, 0, 0, 0, 0, 0, 0, 0, 3, 0, 0, 0, 0, 1, 0, 0, 0, 3, 0, 0, 0, 1,
    202, 151, 129, 18, 202, 27, 189, 202, 250, 194, 49, 179, 154, 35, 220, 77, 167, 134, 239, 248,
    20, 124, 78, 114, 185, 128, 119, 133, 175, 238, 72, 187, 0, 0, 0, 2, 46, 125, 44, 3, 169, 80,
    122, 226, 101, 236, 245, 181, 53, 104, 133, 165, 51, 147, 162, 2, 157, 36, 19, 148, 153, 114,
    101, 161, 162, 90, 239, 198, 24, 172, 62, 115, 67, 240, 22, 137, 12, 81, 14, 147, 249, 53, 38,
    17, 105, 217, 227, 245, 101, 67, 100, 41, 131, 15, 175, 9, 52, 244, 248, 228, 0, 0, 0, 3, 96,
];

// A thin body, and one with a digest and an output, which no round has.
const SIGN_THIN: &[u8] = &[
    6, 2, 0, 0, 0, 0, 0, 0, 0, 9, 0, 0, 0, 0, 0, 0, 0, 8, 1, 0, 0, 0, 2, 0, 0, 0, 0, 0, 0, 0, 0,
    202, 151, 129, 18, 202, 27, 189, 202, 250, 194, 49, 179, 154, 35, 220, 77, 167, 134, 239, 248,
    20, 124, 78, 114, 185, 128, 119, 133, 175, 238, 72, 187, 0, 0, 0, 5, 0, 0, 0, 1, 62, 35, 232,
    22, 0, 57, 89, 74, 51, 137, 79, 101, 100, 225, 177, 52, 139, 189, 122, 0, 136, 212, 44, 74,
    203, 115, 238, 174, 213, 156, 0, 157, 0, 0, 0, 0, 0, 0, 0, 0,
];

const SIGN_THIN_WITH_MORE: &[u8] = &[
    6, 2, 0, 0, 0, 0, 0, 0, 0, 9, 0, 0, 0, 0, 0, 0, 0, 8, 1, 0, 0, 0, 0, 0, 0, 0, 1, 46, 125, 44,
    3, 169, 80, 122, 226, 101, 236, 245, 181, 53, 104, 133, 165, 51, 147, 162, 2, 157, 36, 19, 148,
    153, 114, 101, 161, 162, 90, 239, 198, 0, 0, 0, 9, 255, 128,
];

const PAD_BITS: &[u8] = &[7, 0, 0, 0, 0, 0, 0, 0, 1, 0, 0, 16, 2, 0, 0, 0, 0];

const SHOWN: &[u8] = &[
    8, 0, 0, 0, 0, 0, 3, 0, 1, 0, 0, 0, 14, 135, 152, 0, 0, 0, 3, 0, 0, 0, 2, 0, 0, 0, 16, 242,
    147, 0, 0, 0, 3, 0, 0, 0, 38, 208, 241, 226, 175, 144, 0, 0, 0, 7, 0, 0, 0, 3, 32,
];

const ACCUSATION: &[u8] = &[9, 0, 0, 0, 0, 0, 0, 0, 1, 0, 0, 0, 2, 0, 0, 0, 3];

const REBUTTAL: &[u8] = &[
    10, 0, 0, 0, 0, 0, 0, 0, 1, 0, 0, 0, 3, 0, 1, 0, 3, 2, 117, 2, 4, 140, 224, 55, 166, 52, 113,
    41, 111, 56, 141, 203, 168, 69, 88, 255, 112, 88, 185, 37, 235, 21, 14, 171, 147, 154, 129,
    148, 156, 0, 0, 0, 2, 145, 126,
];

const CONCEDE: &[u8] = &[11, 0, 0, 0, 0, 0, 0, 0, 1, 0, 0, 0, 0];

const CLIENTS_ENVELOPE: &[u8] = &[
    1, 0, 0, 0, 2, 0, 0, 0, 13, 11, 0, 0, 0, 0, 0, 0, 0, 1, 0, 0, 0, 2, 88, 156, 166,
];

const SERVERS_ENVELOPE: &[u8] = &[
    2, 0, 0, 0, 0, 0, 0, 0, 13, 11, 0, 0, 1, 0, 0, 0, 0, 1, 0, 0, 0, 2, 212, 111, 77,
];

const SLOTS_ENVELOPE: &[u8] = &[
    3, 0, 0, 0, 3, 0, 0, 0, 13, 11, 0, 0, 0, 0, 0, 0, 0, 1, 0, 0, 0, 2, 94, 124, 3,
];

const CIPHER: &[u8] = &[1, 0, 0, 0, 0, 2, 0, 0, 0, 0, 0, 0, 0, 17, 9, 0, 0, 0];

const PLAIN: &[u8] = &[2, 1, 0, 0, 0, 1, 0, 0, 0, 13, 11, 0, 0, 0, 0];

const CERTIFICATE: &[u8] = &[
    3, 0, 0, 0, 101, 1, 0, 0, 0, 0, 0, 0, 0, 2, 0, 0, 0, 0, 0, 0, 0, 1, 0, 0, 0, 1, 0, 0, 0, 0, 0,
    0, 0, 1, 0, 0, 0, 0, 0, 0, 0, 0, 0, 0, 0, 0, 0, 0, 0, 0, 0, 0, 0, 0, 0, 0, 0, 0, 0, 0, 0, 0, 0,
    0, 0, 0, 0, 0, 0, 1, 0, 0, 0, 0, 0, 0, 0, 0, 0, 0, 0, 0, 0, 0, 0, 0, 0, 0, 0, 0, 0, 0, 0, 0, 0,
    0, 0, 0, 0, 0, 0, 0, 0, 0, 0, 0, 0, 0, 0, 0,
];

const THIN_CERTIFICATE: &[u8] = &[
    3, 0, 0, 0, 110, 2, 0, 0, 0, 0, 0, 0, 0, 9, 0, 0, 0, 0, 0, 0, 0, 8, 1, 0, 0, 0, 2, 0, 0, 0, 0,
    0, 0, 0, 0, 202, 151, 129, 18, 202, 27, 189, 202, 250, 194, 49, 179, 154, 35, 220, 77, 167,
    134, 239, 248, 20, 124, 78, 114, 185, 128, 119, 133, 175, 238, 72, 187, 0, 0, 0, 5, 0, 0, 0, 1,
    62, 35, 232, 22, 0, 57, 89, 74, 51, 137, 79, 101, 100, 225, 177, 52, 139, 189, 122, 0, 136,
    212, 44, 74, 203, 115, 238, 174, 213, 156, 0, 157, 0, 0, 0, 0, 0, 0, 0, 0, 0, 0, 0, 1, 0, 2, 1,
    2,
];

const CHALLENGE: &[u8] = &[4, 0, 0, 0, 0, 0, 0, 0, 3, 0, 0, 0, 2, 0, 0, 0, 0];

/// Whether the bytes are written again as they were read, and a copy equals what was read.
fn statement_again(alloc: Global, bytes: &[u8]) -> Result<bool, RecordFault> {
    let value = decode(alloc, bytes)?;
    let written = encode(alloc, &value)?;
    let copy = value.copy(alloc)?;
    Ok(written.as_slice() == bytes && copy.equals(&value))
}

fn envelope_again(alloc: Global, bytes: &[u8]) -> Result<bool, RecordFault> {
    let value = decode_envelope(alloc, bytes)?;
    let written = encode_envelope(alloc, &value)?;
    let copy = value.copy(alloc)?;
    Ok(written.as_slice() == bytes && copy.equals(&value))
}

fn payload_again(alloc: Global, bytes: &[u8]) -> Result<bool, RecordFault> {
    let value = decode_payload(alloc, bytes)?;
    let written = encode_payload(alloc, &value)?;
    Ok(written.as_slice() == bytes)
}

fn body_again(alloc: Global, bytes: &[u8]) -> Result<bool, RecordFault> {
    let value = decode_body(alloc, bytes)?;
    let written = encode_body(alloc, &value)?;
    let copy = value.copy(alloc)?;
    Ok(written.as_slice() == bytes && copy.equals(&value))
}

#[test]
fn concede(rt: HostRuntime) -> Result<(), Fail> {
    let value = Statement::Concede { r: Round(1), k: 0 };
    let bytes = encode(rt.alloc(), &value).ok().ok_or("memory")?;
    assert_eq!(rt; bytes.as_slice(), CONCEDE);
    assert_eq!(rt;
        decode(rt.alloc(), &CONCEDE[..12]).err(),
        Some(RecordFault::Cut { at: 9 })
    );
    Ok(())
}

#[test]
fn faults(rt: HostRuntime) {
    let mut longer = [0; 14];
    longer[..13].copy_from_slice(CONCEDE);
    assert_eq!(rt;
        decode(rt.alloc(), &longer).err(),
        Some(RecordFault::Trailing { at: 13 })
    );
    let mut other = [0; 13];
    other.copy_from_slice(CONCEDE);
    other[0] = 12;
    assert_eq!(rt;
        decode(rt.alloc(), &other).err(),
        Some(RecordFault::Kind { byte: 12 })
    );
    // An inventory of two entries without signatures, both of client 3.
    let mut twice = [0; 97];
    twice[0] = 3;
    twice[20] = 2;
    twice[24] = 3;
    twice[62] = 3;
    assert_eq!(rt;
        decode(rt.alloc(), &twice).err(),
        Some(RecordFault::Shape { at: 59 })
    );
}

/// What reading answers to a statement with another byte at a place.
fn with_byte(
    alloc: Global,
    bytes: &[u8],
    at: usize,
    byte: u8,
) -> Result<Option<RecordFault>, Fail> {
    let mut other = Vec::from_slice(alloc, bytes)?;
    *other.get_mut(at).ok_or("no such place")? = byte;
    Ok(decode(alloc, &other).err())
}

/// The version of the body that a statement signs, and whether the body is thin.
fn version_of(alloc: Global, bytes: &[u8]) -> Result<(u8, bool), Fail> {
    match decode(alloc, bytes) {
        Ok(Statement::Sign(body)) => Ok((body.version, body.thin)),
        _ => Err(Fail::from("no body")),
    }
}

#[test]
fn versions_and_thin_bytes(rt: HostRuntime) -> Result<(), Fail> {
    let alloc = rt.alloc();
    let answers = [
        with_byte(alloc, SIGN_THIN, 1, 0)?,
        with_byte(alloc, SIGN_THIN, 1, 3)?,
        with_byte(alloc, SIGN_THIN, 18, 2)?,
        with_byte(alloc, SIGN_THIN, 18, 0)?,
        // In version 1 the thin byte is the first of the number of clients.
        with_byte(alloc, SIGN_THIN, 1, 1)?,
    ];
    let wanted = [
        Some(RecordFault::Shape { at: 1 }),
        Some(RecordFault::Shape { at: 1 }),
        Some(RecordFault::Shape { at: 18 }),
        None,
        Some(RecordFault::Over { at: 18, limit: 512 }),
    ];
    assert_eq!(rt; answers, wanted);
    let told = [
        version_of(alloc, SIGN)?,
        version_of(alloc, SIGN_2)?,
        version_of(alloc, SIGN_THIN)?,
    ];
    assert_eq!(rt; told, [(1, false), (2, false), (2, true)]);
    Ok(())
}

#[test]
fn read_and_written(rt: HostRuntime) {
    for bytes in [
        SUBMISSION,
        RECEIPT,
        INVENTORY,
        COMMIT,
        REVEAL,
        SIGN,
        SIGN_2,
        SIGN_THIN,
        SIGN_THIN_WITH_MORE,
        PAD_BITS,
        SHOWN,
        ACCUSATION,
        REBUTTAL,
        CONCEDE,
    ] {
        assert_eq!(rt; statement_again(rt.alloc(), bytes), Ok(true), "{bytes:?}");
    }
    for bytes in [CLIENTS_ENVELOPE, SERVERS_ENVELOPE, SLOTS_ENVELOPE] {
        assert_eq!(rt; envelope_again(rt.alloc(), bytes), Ok(true), "{bytes:?}");
    }
    for bytes in [CIPHER, PLAIN, CERTIFICATE, THIN_CERTIFICATE, CHALLENGE] {
        assert_eq!(rt; payload_again(rt.alloc(), bytes), Ok(true), "{bytes:?}");
    }
    assert_eq!(rt; body_again(rt.alloc(), &SIGN[1..]), Ok(true));
}
