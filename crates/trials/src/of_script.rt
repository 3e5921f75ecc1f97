// Scripts: what lines say, and what a session prints.
use script::command::Command;
use script::mistake::{Mistake, Unread};
use session::replay::replay;
use std::alloc::{AllocError, Global};
use std::test::Fail;

// What is wrong with a line, if anything.
fn mistake_of(heap: Global, line: &str) -> Result<Option<Mistake>, AllocError> {
    match Command::read(heap, line.as_bytes()) {
        Ok(_) => Ok(None),
        Err(Unread::Wrong(mistake)) => Ok(Some(mistake)),
        Err(Unread::Memory(error)) => Err(error),
    }
}

#[test]
fn mistakes(rt: HostRuntime) -> Result<(), Fail> {
    for (line, mistake) in [
        ("", None),
        (" \t\r", None),
        ("# next x", None),
        ("next 0 255", None),
        ("nxt 0 0", Some(Mistake::NoSuchCommand)),
        ("next x", Some(Mistake::TooFewWords)),
        ("next x y z", Some(Mistake::TooManyWords)),
        ("next x y", Some(Mistake::NotANumber)),
        ("label 18446744073709551616", Some(Mistake::NotANumber)),
        ("next 0 256", Some(Mistake::NotAByte)),
        ("load 0 1 2", Some(Mistake::NotHexadecimal)),
    ] {
        assert_eq!(rt; mistake_of(rt.alloc(), line)?, mistake);
    }
    Ok(())
}

#[test]
fn a_script(rt: HostRuntime) -> Result<(), Fail> {
    let text = replay(
        rt.alloc(),
        b"table\n#\nload 01 00 00\nshare\nnext 00 048\nlabel 11\ngo",
    )?;
    assert!(rt;
        text.as_str()
            == "table -> loaded table, states 1\n\
                load 3 bytes -> refused: image ends early (layer B, number 1, place 3)\n\
                share -> ok\n\
                next 0 48 -> 1\n\
                label 11 -> none\n\
                line 7: no such command\n"
    );
    Ok(())
}
