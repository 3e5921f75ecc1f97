// Munch of whole slices: the longest beginnings, a failure, and a list that is too short.
use munch::plain::{Ending, Lexeme, munch};
use std::test::Fail;
use tables::share::ShareTable;

const NONE: Lexeme = Lexeme {
    rule: 0,
    place: 0,
    length: 0,
};

// A token, by its rule, place and length.
fn lexeme(rule: u8, place: usize, length: usize) -> Lexeme {
    Lexeme {
        rule,
        place,
        length,
    }
}

#[test]
fn share_lists(rt: HostRuntime) -> Result<(), Fail> {
    let mut list = [NONE; 8];
    let Some(munched) = munch(&ShareTable, b"3 12.5%\n", &mut list) else {
        return Err(Fail::new("the list is long enough"));
    };
    assert_eq!(rt; (munched.count, munched.ending), (5, Ending::Done));
    assert_eq!(rt; list[0], lexeme(1, 0, 1));
    assert_eq!(rt; list[2], lexeme(1, 2, 4));
    assert_eq!(rt; list[4], lexeme(4, 7, 1));
    assert_eq!(rt; list[5], NONE);
    let Some(stuck) = munch(&ShareTable, b"12.\rA", &mut list) else {
        return Err(Fail::new("the list is long enough"));
    };
    assert_eq!(rt;
        (stuck.count, stuck.ending),
        (2, Ending::Stuck { place: 3 })
    );
    assert_eq!(rt; list[1], lexeme(6, 2, 1));
    assert!(rt; munch(&ShareTable, b"123456789", &mut list).is_none());
    assert_eq!(rt; list[0], lexeme(1, 0, 2));
    Ok(())
}
