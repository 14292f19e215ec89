//! One turn of small orbits, and the tests of lists.
use scr_orbit::{PlaceTurn, Placed, are_twists, is_permutation};

#[test]
fn a_turn(rt: HostRuntime) {
    let turn = PlaceTurn {
        places: [2, 0, 1],
        added: [1, 2, 0],
    };
    let turned = Placed::new([0, 1, 2], [0, 1, 2]).turned(&turn, 3);
    assert_eq!(rt; turned, Placed::new([2, 0, 1], [0, 2, 1]));
    assert_eq!(rt; turned.pieces(), [2, 0, 1]);
    assert_eq!(rt; turned.digits(), [0, 2, 1]);
    assert!(rt; turned.is_zero_sum(3) && !turned.is_zero_sum(2));
}

#[test]
fn an_exchange(rt: HostRuntime) {
    let exchange = PlaceTurn {
        places: [1, 0],
        added: [0, 0],
    };
    assert_eq!(rt;
        Placed::new([0, 1], [0, 0]).turned(&exchange, 1).pieces(),
        [1, 0]
    );
}

/// Lists, whether each is a permutation, and whether it is one of twists by thirds.
static LISTS: [(&[u8], bool, bool); 3] = [
    (&[0, 2, 1], true, true),
    (&[0, 2, 2], false, false),
    (&[3, 0], false, false),
];

#[test]
fn tests_of_lists(rt: HostRuntime) {
    for (list, is_list, has_sum) in &LISTS {
        assert!(rt; list.len() <= 256);
        assert_eq!(rt; is_permutation(list), *is_list);
        assert_eq!(rt; are_twists(list, 3), *has_sum);
    }
}
