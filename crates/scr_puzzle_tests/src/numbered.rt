//! Numbers of states, tried both ways.
ghost use Rattle.std.specs.Prelude.{◌<◌};

use scr_draw::Numbering;
use std::process::Abort;

/// This is the number of this state, and the state that of this number.
pub(crate) fn is_number<N: Numbering>(
    rt: &impl Abort,
    numbers: &N,
    number: u128,
    state: Option<N::State>,
)
where
    N::State: PartialEq,
    requires { number < (N.numbered numbers.now).count }
{
    assert!(rt; number < numbers.count());
    let shown = numbers.state_at(number);
    assert_eq!(rt; numbers.number_of(&shown), number);
    assert!(rt; state == Some(shown));
}
