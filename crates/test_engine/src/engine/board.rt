//! Tests of `dbg_board`: views show what was published, also in another thread.

ghost use Rattle.std.specs.Prelude.{◌≡◌, ◌+◌, ◌≤◌, [], length};
ghost use Rattle.dbg_base.specs.declared.limits.TheConstants.{BREAKPOINTS, CALLS};
ghost use Rattle.dbg_board.specs.Boards.{listing};

use crate::expecting::{expect_same, expect_true};
use dbg_board::{Board, Glance, Publisher, SeatView};
use std::alloc::Global;
use std::process::Abort;
use std::thread;

// Expects the view to show so many calls, and the position of the breakpoint that halts.
fn expect_look(rt: &impl Abort, board: &Board, view: &mut SeatView, wanted: (u64, u64))
    requires { view.old.board ≡ board.now }
    ensures { view.new.board ≡ view.old.board }
{
    let Glance { calls, halt } = board.look(view);
    expect_same(rt, (calls, halt), wanted);
}

// Publishes the next call.
fn publish(publisher: &mut Publisher, calls: u64, halt: u64)
    requires next { calls ≡ length publisher.old.pairs + 1 }
    requires few { calls ≤ CALLS }
    requires halt { halt ≤ BREAKPOINTS }
    ensures board { publisher.new.board ≡ publisher.old.board }
    ensures next { length publisher.new.pairs ≡ calls }
{
    publisher.publish(calls, halt);
}

// A board with a view.
fn viewed(rt: &impl Abort, alloc: Global) -> (Board, Publisher, SeatView)
    ensures publisher { result.1 ≡ listing result.0 [] }
    ensures view { result.2 ≡ listing result.0 [] }
{
    let (board, publisher, mut views) = Board::new(alloc, 1).expect(rt, "a board");
    let view = views.pop().expect(rt, "a view");
    (board, publisher, view)
}

// Publishes three calls, and reports the second to the view; expects what the view shows meanwhile.
fn expect_published(rt: &impl Abort, board: &Board, publisher: &mut Publisher, view: &mut SeatView)
    requires publisher { publisher.old ≡ listing board.now [] }
    requires view { view.old.board ≡ board.now }
{
    expect_look(rt, board, view, (0, 0));
    publish(publisher, 1, 64);
    expect_look(rt, board, view, (1, 64));
    publish(publisher, 2, 1);
    publisher.tell(view);
    expect_look(rt, board, view, (2, 1));
    publish(publisher, 3, 0);
    expect_look(rt, board, view, (3, 0));
}

#[test]
fn a_view_shows_what_was_published(rt: HostRuntime) {
    let (board, mut publisher, mut view) = viewed(&rt, rt.alloc());
    expect_published(&rt, &board, &mut publisher, &mut view);
}

// Two looks, one after the other.
fn two_looks(board: &Board, mut view: SeatView) -> (Glance, Glance)
    requires { view.board ≡ board.now }
{
    let first = board.look(&mut view);
    (first, board.look(&mut view))
}

fn publish_next(mut publisher: Publisher) -> Publisher
    requires { length publisher.pairs ≡ 1 }
    ensures { length result.pairs ≡ 2 }
{
    publisher.publish(2, 5);
    publisher
}

// Expects each look to show the first call or the second, and the second look none that is before that of the first.
fn expect_looks(rt: &impl Abort, first: Glance, second: Glance) {
    let before = Glance { calls: 1, halt: 0 };
    let after = Glance { calls: 2, halt: 5 };
    expect_true(rt, first == before || first == after);
    expect_true(rt, second == after || first == before && second == before);
}

#[test]
fn looks_are_made_beside_a_publish(rt: HostRuntime) {
    let (board, mut publisher, view) = viewed(&rt, rt.alloc());
    publisher.publish(1, 0);
    let ((first, second), _publisher) = thread::join(
        &rt,
        || two_looks(&board, view),
        || publish_next(publisher),
    );
    expect_looks(&rt, first, second);
}
