//! Texts that are printed, texts that no line of a script can hold, and laws.

use rs_io::{ReadFault, WriteFault};
use rs_record::{MediaType, Name, ValueFault, count_digits, number};
use rs_time::Moment;
use std::test::Fail;

#[test]
fn moments_and_faults_are_printed(rt: HostRuntime) -> Result<(), Fail> {
    let moment = Moment::new(951_782_400_000).ok_or("no moment")?;
    let text = format!(in rt.alloc();
        "from {} to {moment}: {ReadFault}, {WriteFault}, {}, {}",
        Moment::first(),
        ValueFault::Malformed,
        ValueFault::NoMemory
    )?;
    assert_eq!(rt;
        text.as_str(),
        "from 1970-01-01T00:00:00.000Z to 2000-02-29T00:00:00.000Z: the reader failed, the writer failed, \
         the bytes are no lawful value, out of memory"
    );
    Ok(())
}

#[test]
fn bytes_of_no_line(rt: HostRuntime) {
    let name = Name::new(rt.alloc(), b"a b");
    assert!(rt; matches!(name, Err(ValueFault::Malformed)));
    for kind in [b"a/b\n", b"a/b\x7f"] {
        let kind = MediaType::new(rt.alloc(), kind);
        assert!(rt; matches!(kind, Err(ValueFault::Malformed)));
    }
}

#[test]
fn numbers_of_at_most_some_digits(rt: HostRuntime) {
    assert!(rt; number(b"007", 3) == Some(7));
    assert!(rt; number(b"999999999999999999", 18) == Some(999_999_999_999_999_999));
    assert!(rt; number(b"1000", 3).is_none());
    assert!(rt; number(b"", 3).is_none());
    assert!(rt; number(b"+7", 3).is_none());
    assert!(rt; number(b"7 ", 3).is_none());
    assert!(rt; count_digits(0) == 1);
    assert!(rt; count_digits(9) == 1);
    assert!(rt; count_digits(10) == 2);
    assert!(rt; count_digits(u64::MAX) == 20);
}

#[test]
fn the_laws(_rt: HostRuntime) {
    rs_time::laws::dates_lie_on_their_days();
    rs_time::laws::moment_texts_need_no_escaping();
    rs_time::laws::moment_texts_read_back();
    rs_fixity::laws::cut_texts_join();
    rs_fixity::laws::digests_are_bytes();
    rs_fixity::laws::hash_texts_need_no_escaping();
    rs_fixity::laws::hash_texts_read_back();
    rs_fixity::laws::joined_texts_are_cut();
    rs_record::formats_stand_alone();
    rs_record::grammars_are_the_standards();
    rs_record::lawful_values_are_clean();
}
