use crate::{Letters, read_word, unhex, word_bytes};
use std::test::Fail;

#[test]
fn capital_letters_are_digits_where_either_case_is_taken(rt: HostRuntime) -> Result<(), Fail> {
    let heap = rt.alloc();
    assert!(rt;
        word_bytes(heap, Letters::Lower, "0aff")?
            .ok_or("no bytes")?
            .as_slice()
            == [10, 255].as_slice()
    );
    assert!(rt; word_bytes(heap, Letters::Lower, "0aFF")?.is_none());
    assert!(rt;
        word_bytes(heap, Letters::Either, "0aFF")?
            .ok_or("no bytes")?
            .as_slice()
            == [10, 255].as_slice()
    );
    assert!(rt; unhex(heap, "0aFF")?.ok_or("no bytes")?.as_slice() == [10, 255].as_slice());
    assert!(rt; read_word(heap, "0aFF")?.as_slice() == [10, 255].as_slice());
    Ok(())
}

#[test]
fn a_word_may_have_no_bytes(rt: HostRuntime) -> Result<(), Fail> {
    let heap = rt.alloc();
    assert!(rt;
        word_bytes(heap, Letters::Lower, "-")?
            .ok_or("no bytes")?
            .is_empty()
    );
    assert!(rt; word_bytes(heap, Letters::Lower, "0")?.is_none());
    assert!(rt; unhex(heap, "-")?.is_none());
    Ok(())
}
