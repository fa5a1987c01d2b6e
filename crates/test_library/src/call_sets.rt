// The calls of a set, each once.

use group_spec::calls::Call;
use group_spec::hand::Hand;

const UP: Call = Call { from: 3, to: 5 };

const DOWN: Call = Call { from: 4, to: 1 };

fn has_both(hand: &Hand) -> bool {
    hand.has(UP) && hand.has(DOWN)
}

// Whether the set has calls from floor 4 and none from floor 5.
fn has_floors(hand: &Hand) -> bool {
    hand.has_from(4) && !hand.has_from(5) && !hand.has(Call { from: 5, to: 3 })
}

// Takes three calls out: each, and before the second one the first that is left.
fn taken(hand: &mut Hand) -> [Option<Call>; 4] {
    [
        hand.take_first(),
        hand.first(),
        hand.take_first(),
        hand.take_first(),
    ]
}

#[test]
fn set_of_calls(rt: HostRuntime) {
    let mut hand = Hand::new();
    assert!(rt; hand.first().is_none());
    hand.insert(UP);
    hand.insert(UP);
    hand.insert(DOWN);
    assert!(rt; has_both(&hand) && has_floors(&hand));
    assert!(rt; hand.mask_from(3) == 16 && hand.first() == Some(UP));
    let before = hand;
    assert!(rt; taken(&mut hand) == [Some(UP), Some(DOWN), Some(DOWN), None]);
    assert!(rt; has_both(&before) && Hand::default().first().is_none());
}
