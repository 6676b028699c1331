// Texts that the scanner refuses, and its longest pieces.
use crate::answer::{Answer, is_bad, is_spelled, read_text};
use std::test::Fail;

#[test]
fn bytes_that_begin_no_token(rt: HostRuntime) -> Result<(), Fail> {
    let alloc = rt.alloc();
    is_bad(&rt, alloc, b"", b"?")?;
    is_bad(&rt, alloc, b"a", b"*b")?;
    is_bad(&rt, alloc, b"a", b"_b")?;
    is_bad(&rt, alloc, b"a ", b"/ b")?;
    is_bad(&rt, alloc, b"a", b"'b")?;
    is_bad(&rt, alloc, b"a", b"\x00")?;
    is_bad(&rt, alloc, b"a", b"\x7f")?;
    is_bad(&rt, alloc, b"a", b"\xff")?;
    is_bad(&rt, alloc, b"a\x20\x09\x0d\x0a", b"\x0b")?;
    is_bad(&rt, alloc, b"(* (* *) ", b"*)")
}

#[test]
fn numbers(rt: HostRuntime) -> Result<(), Fail> {
    let alloc = rt.alloc();
    is_bad(&rt, alloc, b"1", b"A")?;
    is_bad(&rt, alloc, b"1", b"BEGIN")?;
    is_bad(&rt, alloc, b"12", b"'")?;
    is_bad(&rt, alloc, b"1H", b"'x")?;
    is_bad(&rt, alloc, b"1", b"A ?")?;
    assert_eq!(rt;
        read_text(alloc, b"a 340282366920938463463374607431768211456"),
        Answer::NumberTooLarge { at: 2 }
    );
    assert_eq!(rt;
        read_text(alloc, b"a 100000000000000000000000000000000H"),
        Answer::NumberTooLarge { at: 2 }
    );
    assert_eq!(rt;
        read_text(alloc, b"a 5'340282366920938463463374607431768211456"),
        Answer::NumberTooLarge { at: 2 }
    );
    is_spelled(
        &rt,
        alloc,
        b"MODULE A(); CONST n := 340282366920938463463374607431768211455; END A.",
    );
    is_spelled(
        &rt,
        alloc,
        b"MODULE A(); CONST n := 0FFFFFFFFFFFFFFFFFFFFFFFFFFFFFFFFH'128; END A.",
    );
    assert_eq!(rt;
        read_text(alloc, b"MODULE A(); CONST n := 12HH; END A."),
        Answer::Syntax { at: 26 }
    );
    Ok(())
}

#[test]
fn patterns_and_comments(rt: HostRuntime) -> Result<(), Fail> {
    let alloc = rt.alloc();
    is_bad(&rt, alloc, b"a ", b"\"01")?;
    is_bad(&rt, alloc, b"a \"0", b"x\"")?;
    is_bad(&rt, alloc, b"a \"0 1-", b"\n\"")?;
    assert_eq!(rt; read_text(alloc, b"(*"), Answer::OpenComment { at: 0 });
    assert_eq!(rt; read_text(alloc, b"(*)"), Answer::OpenComment { at: 0 });
    assert_eq!(rt;
        read_text(alloc, b"a (* b * )"),
        Answer::OpenComment { at: 2 }
    );
    is_spelled(&rt, alloc, b"(***)MODULE A();(* ? ' \" \xff (* **)END A.");
    Ok(())
}
