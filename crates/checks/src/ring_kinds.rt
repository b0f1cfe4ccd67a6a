// Examples of each kind, and of bytes that read as none.
use ring::{Coefficient, MODULUS, Pair, Residue, Ring, RingError, Word};

fn residue(number: u64) -> Residue {
    Residue::new(number)
}

fn pair(a: u64, b: u64) -> Pair<Residue> {
    Pair {
        a: residue(a),
        b: residue(b),
    }
}

#[test]
fn operations(rt: HostRuntime) {
    assert_eq!(rt; residue(3).minus(residue(5)).number(), 2013265919);
    assert_eq!(rt; residue(u64::MAX).number(), 1172168162);
    assert_eq!(rt; residue(2013265920).times(residue(2013265920)).number(), 1);
    assert_eq!(rt;
        Word::new(3).minus(Word::new(5)).number(),
        18446744073709551614
    );
    assert_eq!(rt; Word::from_bool(true).plus(Word::new(u64::MAX)).number(), 0);
    // (3 + 5u)(7 + 2u) = 21 + 110 + (6 + 35)u
    assert!(rt; pair(3, 5).times(pair(7, 2)) == pair(131, 41));
    // u' u' is the one below, eleven times, in pairs of pairs too
    let deep = Pair {
        a: pair(0, 0),
        b: pair(0, 1),
    };
    let square = deep.times(deep);
    assert!(rt; square.a == pair(121, 0) && square.b == pair(0, 0));
}

#[test]
fn bytes(rt: HostRuntime) {
    let mut room = [9u8; 17];
    assert_eq!(rt; pair(1, 2013265920).encode(&mut room), Ok(16));
    let spelled = [0, 0, 0, 0, 0, 0, 0, 1, 0, 0, 0, 0, 120, 0, 0, 0, 9];
    assert!(rt; room == spelled);
    let few = RingError::BufferTooShort {
        required: 16,
        available: 15,
    };
    assert_eq!(rt; few.number(), 18);
    assert_eq!(rt; pair(4, 4).encode(&mut room[0..15]), Err(few));
    assert!(rt; room == spelled);
    assert!(rt; Pair::<Residue>::read(&room[0..16]) == Some(pair(1, 2013265920)));
    assert!(rt; Pair::<Residue>::read(&room).is_none());
    assert_eq!(rt; Residue::new(MODULUS as u64 - 1).encode(&mut room), Ok(8));
    assert!(rt; Residue::read(&room[0..8]).is_some() && Residue::read(&room[0..7]).is_none());
    assert_eq!(rt; Word::new(MODULUS as u64).encode(&mut room), Ok(8));
    assert!(rt; Residue::read(&room[0..8]).is_none() && Word::read(&room[0..8]).is_some());
    assert_eq!(rt; Pair::<Pair<Word>>::byte_length(), 32);
}
