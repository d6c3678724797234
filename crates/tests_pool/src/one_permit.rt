//! Tickets 1, 2 and 3 ask for one permit: the edge moves once for each time that it is free.
ghost use Rattle.std.specs.Prelude.{◌≡◌, ◌<◌};

use sqlx_pool_core::{Line, Steps, Took};
use sqlx_pool_places::laws;
use std::alloc::Global;
use std::marker::Brand;
use std::sync::ledger::{Blank, Ledger};
use std::test::Fail;

// What the takes of ticket 3 before its turn and of ticket 1, and the removal of 2, come to.
fn play<L: Ledger>(alloc: Global, blank: Blank) -> Result<(Took, Took, bool, Line), Fail>
    requires named { blank.name ≡ L.name }
    requires whole { blank.parts ≡ L.parts }
    requires some { 0 < blank.parts }
{
    let mut steps = Steps::<L>::new(blank);
    let mut line = Line::new(alloc);
    line.push(alloc, 1, &mut steps)?;
    line.advance(&mut steps);
    line.push(alloc, 2, &mut steps)?;
    line.push(alloc, 3, &mut steps)?;
    let early = line.take(3, &mut steps);
    let first = line.take(1, &mut steps);
    let gone = line.remove(2, &mut steps);
    line.advance(&mut steps);
    Ok((early, first, gone, line))
}

#[test]
fn the_edge_moves_once_a_permit(rt: HostRuntime) -> Result<(), Fail> {
    let (early, first, gone, line) = play::<Brand>(rt.alloc(), Blank::new(1))?;
    assert_eq!(rt; early, Took::Beyond);
    assert_eq!(rt; first, Took::Taken);
    assert!(rt; gone);
    assert_eq!(rt; line.waiting(), 1);
    assert_eq!(rt; line.beyond(), 0);
    assert_eq!(rt; line.moves(), 2);
    assert!(rt; line.is_entitled(3));
    assert!(rt; !line.is_entitled(4));
    laws::edge_tells_the_order();
    laws::one_move_a_permit();
    laws::leaves_with_a_permit();
    Ok(())
}
