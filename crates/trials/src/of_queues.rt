// Queues: rings that wrap, both kinds at bytes and at a struct, and a queue over no memory.
use queues::queue::Queue;
use queues::refusals::{DropRefusal, PutRefusal};
use queues::ring::Ring;
use queues::straight::Straight;
use std::fmt::Debug;
use std::test::Fail;

#[derive(Clone, Copy, PartialEq, Debug)]
struct Pair {
    left: u8,
    right: u32,
}

// A failure where the answer is not what it should be.
fn check_eq<T: PartialEq + Debug + Drop>(answer: T, wanted: T) -> Result<(), Fail> {
    if answer == wanted {
        Ok(())
    } else {
        Err(Fail::new(format_args!("{answer:?} is not {wanted:?}")))
    }
}

// Puts and drops until a queue of 4 has gone round twice.
fn goes_round<Q: Queue<u8>>(queue: &mut Q, letter: char) -> Result<(), Fail> {
    for byte in 0..4u8 {
        check_eq(queue.put(byte), Ok(()))?;
    }
    for byte in 4..12u8 {
        check_eq(queue.put(byte), Err(PutRefusal::Full { letter }))?;
        check_eq(queue.element(0), Some(byte - 4))?;
        check_eq(queue.drop_front(1), Ok(()))?;
        check_eq(queue.put(byte), Ok(()))?;
        check_eq(queue.element(3), Some(byte))?;
        check_eq(queue.element(4), None)?;
    }
    check_eq(queue.drop_front(5), Err(DropRefusal::BeyondCount))?;
    check_eq(queue.drop_front(0), Ok(()))?;
    check_eq(queue.count(), 4)?;
    check_eq(queue.drop_front(4), Ok(()))?;
    check_eq(queue.count(), 0)
}

// One pair goes in and comes out.
fn keeps_pairs<Q: Queue<Pair>>(queue: &mut Q) -> Result<(), Fail> {
    let pair = Pair {
        left: 1,
        right: 70_000,
    };
    check_eq(queue.put(pair), Ok(()))?;
    check_eq(queue.element(0), Some(pair))?;
    check_eq(queue.drop_front(1), Ok(()))?;
    check_eq(queue.element(0), None)
}

// Nothing fits.
fn holds_nothing<Q: Queue<u8>>(queue: &mut Q, letter: char) -> Result<(), Fail> {
    check_eq(queue.limit(), 0)?;
    check_eq(queue.put(7), Err(PutRefusal::Full { letter }))?;
    check_eq(queue.drop_front(0), Ok(()))?;
    check_eq(queue.drop_front(usize::MAX), Err(DropRefusal::BeyondCount))?;
    check_eq(queue.element(0), None)
}

// A test for each kind: how a queue is made is of no trait.
#[test]
fn rings(rt: HostRuntime) -> Result<(), Fail> {
    assert_eq!(rt; <Ring<'_, u8> as Queue<u8>>::LETTER, 'R');
    goes_round(&mut Ring::new(&mut [0u8; 4]), 'R')?;
    holds_nothing(&mut Ring::new(&mut [0u8; 0]), 'R')?;
    keeps_pairs(&mut Ring::new(&mut [Pair { left: 0, right: 0 }; 2]))
}

#[test]
fn straight_queues(rt: HostRuntime) -> Result<(), Fail> {
    assert_eq!(rt; <Straight<'_, u8> as Queue<u8>>::LETTER, 'S');
    goes_round(&mut Straight::new(&mut [0u8; 4]), 'S')?;
    holds_nothing(&mut Straight::new(&mut [0u8; 0]), 'S')?;
    keeps_pairs(&mut Straight::new(&mut [Pair { left: 0, right: 0 }; 2]))
}
