//! Laws of orders and histories, over their definitions alone.

ghost use Rattle.std.specs.Prelude.{◌≡◌, ℕ, List, length, map, Ok};
ghost use Rattle.dbg_base.specs.declared.said.Said.{Said};
ghost use Rattle.dbg_base.specs.Trees.{Program};
ghost use Rattle.dbg_base.specs.Configurations.{Configuration, start_of};
ghost use Rattle.dbg_base.specs.Histories.{History, IsPossible, play, progress_of};
ghost use Rattle.dbg_base.specs.Orders.{Event, order, IsLegalOrder, choices_of, states_of, GoesOver};
ghost use Rattle.dbg_base.specs.Cuts.{IsConsistent, history_at};
ghost use Rattle.dbg_base.specs.Reversal.{IsPermitted, after_undos, unfire_all};
ghost use Rattle.dbg_base.specs.SystemStates.{IsStateOf, history_of};
ghost use Rattle.dbg_base.specs.ModelStates.{ModelState};
ghost use Rattle.dbg_base.specs.Calls.{Order, Call};
ghost use Rattle.dbg_base.specs.Acts.{Follows};
ghost use Rattle.dbg_base.specs.Journals.{Journal, effective, LeadsTo, IsDue, IsLegal};
ghost use Rattle.dbg_laws.specs.Outcomes.{HasOne, HasOneState};
ghost use Rattle.dbg_laws.specs.Remaining.{call_in, given_call};

/// The order of independent events does not matter. A list of events that fire one after the other makes a possible history. It ends where
/// the play of that history ends, with the same local states on the way. Two such lists of one history become each other by swaps of
/// neighbours of different processes, and the events of every list between them fire too.
pub fn any_order()
    ensures played { (P : Program) (E : List Event) (c : Configuration) → order P E ≡ Ok c
        → IsPossible P (choices_of (length P) E) × (play P (choices_of (length P) E) ≡ c) }
    ensures states { (P : Program) (E : List Event) → IsLegalOrder P E
        → states_of P E ≡ (progress_of P (choices_of (length P) E)).states }
    ensures swapped { (P : Program) (E F : List Event) → IsLegalOrder P E → IsLegalOrder P F
        → choices_of (length P) E ≡ choices_of (length P) F → GoesOver P (start_of P) E F }
{}

/// Undo reaches exactly the consistent cuts. A list of undos, each permitted after those before it, leads from a possible history to a
/// consistent cut of it. Some such list leads to each consistent cut. Carried out from the play of the history, every list that leads to a
/// cut ends in the play of the history at that cut.
pub fn any_undo()
    ensures reached { (P : Program) (H : History) (undos : List ℕ) → IsPossible P H → IsPermitted P H undos
        → (cut : List ℕ) × IsConsistent P H cut × (after_undos H undos ≡ history_at H cut) }
    ensures leads { (P : Program) (H : History) (cut : List ℕ) → IsPossible P H → IsConsistent P H cut
        → (undos : List ℕ) × IsPermitted P H undos × (after_undos H undos ≡ history_at H cut) }
    ensures ends { (P : Program) (H : History) (cut undos : List ℕ) → IsPossible P H → IsPermitted P H undos
        → after_undos H undos ≡ history_at H cut → unfire_all P H undos (play P H) ≡ play P (history_at H cut) }
{}

/// A command, or a batch of commands, has exactly one reply and exactly one state after it, in each state of a program whose events are
/// possible. Everything that a definition leaves open exists and is determined: which breakpoint halts, whether a breakpoint has a cut, the
/// cut to which a rollback leads, why an event may not be undone, and which command of a batch is refused.
pub fn one_outcome()
    ensures { (P : Program) (order : Order) (M : ModelState) → IsStateOf P M.system → IsPossible P (history_of M.system)
        → HasOne (Follows P order M) }
{}

/// What a session shows depends only on the commands that remain, as if the commands that were taken back had never been given. If each
/// call has the answer that is due, the commands that count lead to exactly one state. If the same commands count after two such journals,
/// each further call (a command, `back` or a query) has the same answer after both. The commands that count can be given alone, in their
/// order and by the same seats: each is accepted, and the same commands count then.
pub fn never_given()
    ensures leads_to { (P : Program) (J : Journal) → IsLegal P J → HasOneState (LeadsTo P (effective J)) }
    ensures same { (P : Program) (J J' : Journal) → IsLegal P J → IsLegal P J' → effective J ≡ effective J'
        → (seat : ℕ) (call : Call) (said said' : Said) → IsDue P (effective J) seat call said → IsDue P (effective J') seat call said'
        → said ≡ said' }
    ensures remaining { (P : Program) (J : Journal) → IsLegal P J
        → (J' : Journal) × IsLegal P J' × (map call_in J' ≡ map given_call (effective J)) × (effective J' ≡ effective J) }
{}
