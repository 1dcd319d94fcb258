//! The ends of a stream that fail from a chosen call on.

use rs_disk::{FaultyReader, FaultyWriter};
use std::io::{Read, Write};

#[test]
fn ends_of_a_stream(rt: HostRuntime) {
    let mut reader = FaultyReader::new(b"abcde", 2, 3);
    let mut writer = FaultyWriter::new(rt.alloc(), 3);
    let mut room = [0; 4];
    for wanted in [b"ab".as_slice(), b"cd", b"e"] {
        let n = reader.read(&mut room).unwrap_or(9);
        assert!(rt; n <= 4);
        assert_eq!(rt; &room[..n], wanted);
        assert_eq!(rt; writer.write(&room[..n]).unwrap_or(9), n);
    }
    assert!(rt; reader.read(&mut room).is_err());
    assert!(rt; writer.write(b"f").is_err());
    assert!(rt; writer.flush().is_ok());
    assert_eq!(rt; writer.bytes(), b"abcde".as_slice());
}
