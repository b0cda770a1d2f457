//! A board, and how it is made.

ghost use Rattle.std.specs.Prelude.{◌≡◌, ◌≤◌, [], length, replicate, IfOk, IfErr};
ghost use Rattle.dbg_base.specs.declared.refusal.Refusal.TheVariants.{Memory};
ghost use Rattle.dbg_base.specs.declared.limits.TheConstants.{BREAKPOINTS, SEATS};
ghost use Rattle.dbg_board.specs.Pairs.{Begins, last_of};
ghost use Rattle.dbg_board.specs.Boards.{listing};
ghost use Rattle.dbg_board.specs.Rules.{publishing};

use crate::glance::Glance;
use crate::publisher::Publisher;
use crate::seat_view::SeatView;
use crate::word::{BoardWord, Looks, Shows, WordSeat, glance};
use atomic_table::Table;
use dbg_base::Refusal;
use std::alloc::Global;
use std::marker::Model;
use std::sync::Arc;

/// What displays read. Threads share it, and no call on it waits. Contracts see which board it is.
pub struct Board {
    word: Arc<BoardWord>,
}

impl Drop for Board {
    fn drop(self) {
        let Self { word } = self;
    }
}

impl Model for Board {
    ghost use Rattle.std.specs.Prelude.{◌≡◌};
    ghost use Rattle.std.specs.Arc.{arc_value};
    ghost use Rattle.atomic_table.specs.Seated.{table_id_coded};
    ghost use Rattle.dbg_board.specs.Boards.{BoardId};

    ghost Value = { BoardId };

    ghost coded = { table_id_coded };

    ghost view = { λ board. (arc_value board.word).shared.table_id };

    ghost invariant = { λ board. (arc_value board.word).shared.table_id.words ≡ 1 };
}

// So many views of a board to which nothing was published.
fn make_views(
    alloc: Global,
    word: &BoardWord,
    publisher: &mut WordSeat,
    looks: u32,
) -> Result<Vec<SeatView>, Refusal>
    requires word { word.now.shared.table_id.words ≡ 1 }
    requires own { publisher.old.table_id ≡ word.now.shared.table_id }
    requires knows { publisher.old.me ≡ (publishing [], []) }
    ensures kept { (publisher.new.table_id ≡ publisher.old.table_id) × (publisher.new.me ≡ publisher.old.me) }
    ensures views { IfOk result (λ views. views.items ≡ replicate looks (listing word.now.shared.table_id [])) }
    ensures refuses { IfErr result (λ refusal. refusal ≡ Memory) }
{
    let mut views = Vec::new(alloc);
    for _ in 0..looks {
        let seat = word.shared.split_seat::<Shows>(publisher);
        views.push(SeatView { seat })?;
    }
    Ok(views)
}

impl Board {
    /// A board to which nothing was published, its publisher, and so many views of it. Error: `Memory`, if an allocation fails.
    pub fn new(alloc: Global, looks: u32) -> Result<(Board, Publisher, Vec<SeatView>), Refusal>
        requires one { 1 ≤ looks }
        requires few { looks ≤ SEATS }
        ensures publisher { IfOk result (λ made. made.1 ≡ listing made.0 []) }
        ensures views { IfOk result (λ made. made.2.items ≡ replicate looks (listing made.0 [])) }
        ensures refuses { IfErr result (λ refusal. refusal ≡ Memory) }
    {
        let (word, mut seat) = Table::of_words(alloc, &[0], &())?;
        let views = make_views(alloc, &word, &mut seat, looks)?;
        let word = Arc::new(alloc, word)?;
        let board = Board {
            word: Arc::try_clone(&word)?,
        };
        Ok((board, Publisher { word, seat }, views))
    }

    /// The last pair that was published, or zeros. The view has then seen this pair and all before it. It does not allocate.
    pub fn look(&self, view: &mut SeatView) -> Glance
        requires { view.old.board ≡ self.now }
        ensures board { view.new.board ≡ view.old.board }
        ensures begins { Begins view.old.pairs view.new.pairs }
        ensures last { result ≡ last_of view.new.pairs }
        ensures calls { result.calls ≡ length view.new.pairs }
        ensures halt { result.halt ≤ BREAKPOINTS }
    {
        glance(self.word.shared.load::<Looks>(&mut view.seat, 0))
    }
}
