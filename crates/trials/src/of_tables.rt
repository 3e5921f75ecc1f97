// Rule tables: the empty table, each fault of an image, and the share table.
use images::loaded::LoadedTable;
use std::test::Fail;
use tables::share::ShareTable;
use tables::table::RuleTable;

// The image of the empty table, with a byte behind it.
fn empty_image() -> [u8; 265] {
    let mut image = [0; 265];
    image[0] = 1;
    image[259] = 1;
    image[262] = 1;
    image
}

#[test]
fn empty_table(rt: HostRuntime) -> Result<(), Fail> {
    let mut table = LoadedTable::empty();
    table.load(&empty_image()[0..264])?;
    assert_eq!(rt; table.states(), 1);
    assert_eq!(rt; table.label(0), Some(0));
    assert_eq!(rt; table.label(1), None);
    assert_eq!(rt; table.next(0, 0), Some(0));
    assert_eq!(rt; table.next(0, 255), Some(0));
    assert_eq!(rt; table.next(1, 0), None);
    Ok(())
}

// The empty table's image with `value` at `place`, of which `length` bytes are given: its fault tells `told`.
#[derive(Clone, Copy)]
struct Damaged {
    place: usize,
    value: u8,
    length: usize,
    told: (char, u8, usize),
}

const DAMAGED: [Damaged; 9] = [
    Damaged {
        place: 0,
        value: 1,
        length: 263,
        told: ('B', 1, 263),
    },
    Damaged {
        place: 1,
        value: 1,
        length: 264,
        told: ('L', 2, 0),
    },
    Damaged {
        place: 257,
        value: 64,
        length: 264,
        told: ('L', 2, 257),
    },
    Damaged {
        place: 259,
        value: 0,
        length: 264,
        told: ('L', 3, 258),
    },
    Damaged {
        place: 259,
        value: 129,
        length: 264,
        told: ('L', 3, 258),
    },
    Damaged {
        place: 262,
        value: 2,
        length: 264,
        told: ('L', 4, 261),
    },
    Damaged {
        place: 257,
        value: 1,
        length: 264,
        told: ('L', 4, 261),
    },
    Damaged {
        place: 263,
        value: 1,
        length: 264,
        told: ('L', 5, 263),
    },
    Damaged {
        place: 264,
        value: 0,
        length: 265,
        told: ('L', 6, 264),
    },
];

#[test]
fn each_fault(rt: HostRuntime) -> Result<(), Fail> {
    let mut table = LoadedTable::empty();
    for damaged in DAMAGED {
        let mut image = empty_image();
        assert!(rt; damaged.place < 265 && damaged.length <= 265);
        image[damaged.place] = damaged.value;
        let Err(fault) = table.load(&image[0..damaged.length]) else {
            return Err(Fail::new("a damaged image was loaded"));
        };
        let told = (fault.layer().letter(), fault.number(), fault.place());
        assert_eq!(rt; told, damaged.told);
    }
    assert_eq!(rt; table.states(), 1);
    Ok(())
}

#[test]
fn share_table(rt: HostRuntime) {
    let table = ShareTable;
    assert_eq!(rt; table.states(), 11);
    // a byte of each kind: where it leads from the start, and the label there
    for (byte, state, label) in [
        (b'7', 1, 1),
        (b'Q', 4, 2),
        (b'q', 4, 2),
        (b' ', 5, 3),
        (b'\t', 5, 3),
        (b'\r', 6, 0),
        (b'\n', 7, 4),
        (b'%', 8, 5),
        (b'.', 9, 6),
        (b'#', 10, 0),
    ] {
        assert_eq!(rt; table.next(0, byte), Some(state));
        assert_eq!(rt; table.label(state), Some(label));
    }
    assert_eq!(rt; table.next(1, b'.'), Some(2));
    assert_eq!(rt; table.next(2, b'5'), Some(3));
    assert_eq!(rt; table.next(11, b'5'), None);
}
