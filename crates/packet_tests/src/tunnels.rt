//! Frames between chassis.

use geneve_frames::{GeneveFault, View, read, write};
use std::test::*;

/// Network 1 from key 1 to key 2, with OVN's option alone.
const PLAIN: [u8; 16] = [
    0x02, 0x40, 0x65, 0x58, 0x00, 0x00, 0x01, 0x00, 0x01, 0x02, 0x80, 0x01, 0x00, 0x01, 0x00, 0x02,
];

/// The same behind an option that may be passed over.
const PASSED_OVER: [u8; 20] = [
    0x03, 0x40, 0x65, 0x58, 0x00, 0x00, 0x01, 0x00, 0x01, 0x03, 0x01, 0x00, 0x01, 0x02, 0x80, 0x01,
    0x00, 0x01, 0x00, 0x02,
];

/// The same behind an option that must not be passed over.
const CRITICAL: [u8; 20] = [
    0x03, 0x40, 0x65, 0x58, 0x00, 0x00, 0x01, 0x00, 0x01, 0x03, 0x81, 0x00, 0x01, 0x02, 0x80, 0x01,
    0x00, 0x01, 0x00, 0x02,
];

/// The options end two words before the length that the header gives.
const CUT: [u8; 16] = [
    0x04, 0x40, 0x65, 0x58, 0x00, 0x00, 0x01, 0x00, 0x01, 0x02, 0x80, 0x01, 0x00, 0x01, 0x00, 0x02,
];

/// A control frame.
const CONTROL: [u8; 16] = [
    0x02, 0xc0, 0x65, 0x58, 0x00, 0x00, 0x01, 0x00, 0x01, 0x02, 0x80, 0x01, 0x00, 0x01, 0x00, 0x02,
];

/// A base header that says that there are no options.
const BARE: [u8; 8] = [0x00, 0x40, 0x65, 0x58, 0x00, 0x00, 0x01, 0x00];

/// What [`PLAIN`] says, with this inner frame.
fn plain_view(inner: &[u8]) -> View<'_> {
    View {
        vni: 1,
        in_key: 1,
        out_key: 2,
        inner,
    }
}

/// Each frame cut before each of its bytes: under eight bytes are Short, and from there on all cuts of a frame have one
/// answer.
#[test]
fn geneve_frames(rt: HostRuntime) {
    let rows: [(&[u8], GeneveFault, Result<View<'_>, GeneveFault>); 6] = [
        (&PLAIN, GeneveFault::OptionsCut, Ok(plain_view(&[]))),
        (&PASSED_OVER, GeneveFault::OptionsCut, Ok(plain_view(&[]))),
        (
            &CRITICAL,
            GeneveFault::OptionsCut,
            Err(GeneveFault::UnknownCritical),
        ),
        (&CUT, GeneveFault::OptionsCut, Err(GeneveFault::OptionsCut)),
        (&CONTROL, GeneveFault::Control, Err(GeneveFault::Control)),
        (&BARE, GeneveFault::Short, Err(GeneveFault::NoOvnOption)),
    ];
    for (frame, cut, whole) in rows {
        for length in 0..frame.len() {
            let expected = if length < 8 { GeneveFault::Short } else { cut };
            assert_eq!(rt; read(&frame[..length]), Err(expected), "{length} bytes");
        }
        assert_eq!(rt; read(frame), whole);
    }
}

/// The fields of the header and of the options, one at a time.
#[test]
fn single_fields(rt: HostRuntime) {
    let rows: [(&[u8], Result<View<'_>, GeneveFault>); 7] = [
        // Version 1, as a control frame too.
        (
            &[0x42, 0xc0, 0x65, 0x58, 0, 0, 1, 0],
            Err(GeneveFault::Version),
        ),
        // IPv4 within, and options that are cut.
        (
            &[0x02, 0x00, 0x08, 0x00, 0, 0, 1, 0],
            Err(GeneveFault::Protocol),
        ),
        // An option of one word, where none is left.
        (
            &[0x01, 0, 0x65, 0x58, 0, 0, 1, 0, 1, 3, 1, 1],
            Err(GeneveFault::OptionsCut),
        ),
        // OVN's class and type without data are another option, which is critical.
        (
            &[0x01, 0, 0x65, 0x58, 0, 0, 1, 0, 1, 2, 0x80, 0],
            Err(GeneveFault::UnknownCritical),
        ),
        // OVN's option twice.
        (
            &[
                0x04, 0, 0x65, 0x58, 0, 0, 1, 0, 1, 2, 0x80, 1, 0, 1, 0, 2, 1, 2, 0x80, 1, 0, 1, 0,
                2,
            ],
            Err(GeneveFault::TwoOvnOptions),
        ),
        // Each bit that is ignored is set.
        (
            &[
                0x02, 0x7f, 0x65, 0x58, 0, 0, 1, 0xff, 1, 2, 0x80, 0xe1, 0x80, 1, 0, 2, 0xaa, 0xbb,
            ],
            Ok(plain_view(&[0xaa, 0xbb])),
        ),
        // Each number is the greatest one.
        (
            &[
                0x02, 0x40, 0x65, 0x58, 0xff, 0xff, 0xff, 0, 1, 2, 0x80, 1, 0x7f, 0xff, 0xff, 0xff,
            ],
            Ok(View {
                vni: 0xff_ffff,
                in_key: 0x7fff,
                out_key: 0xffff,
                inner: &[],
            }),
        ),
    ];
    for (frame, expected) in rows {
        assert_eq!(rt; read(frame), expected);
    }
}

/// A frame is appended to what is there, and a frame is read back.
#[test]
fn written(rt: HostRuntime) -> Result<(), Fail> {
    let mut out = Vec::new(rt.alloc());
    assert_eq!(rt; write(1, 1, 2, &[], &mut out), Ok(()));
    assert_eq!(rt; out.as_slice(), PLAIN.as_slice());
    assert_eq!(rt;
        write(0x0a_0b0c, 0x7001, 0xfe02, &[0xaa, 0xbb], &mut out),
        Ok(())
    );
    let expected = [
        0x02, 0x40, 0x65, 0x58, 0x00, 0x00, 0x01, 0x00, 0x01, 0x02, 0x80, 0x01, 0x00, 0x01, 0x00,
        0x02, 0x02, 0x40, 0x65, 0x58, 0x0a, 0x0b, 0x0c, 0x00, 0x01, 0x02, 0x80, 0x01, 0x70, 0x01,
        0xfe, 0x02, 0xaa, 0xbb,
    ];
    assert_eq!(rt; out.as_slice(), expected.as_slice());
    let mut frame = Vec::new(rt.alloc());
    assert_eq!(rt; write(1, 1, 2, &[0xaa, 0xbb], &mut frame), Ok(()));
    assert_eq!(rt; read(frame.as_slice()), Ok(plain_view(&[0xaa, 0xbb])));
    Ok(())
}
