//! The headline: a session shows what a replay of the events that remain shows.

ghost use Rattle.std.specs.Prelude.{◌≡◌, ◌↔◌, ◌<◌, ◌++◌, ◌∷◌, ℕ, ℤ, suc, List, [], length, slice_index, Ok, ◌≤◌};
ghost use Rattle.dbg_base.specs.declared.said.Said.{Said};
ghost use Rattle.dbg_base.specs.declared.said.Reply.{Reply};
ghost use Rattle.dbg_base.specs.Trees.{Program};
ghost use Rattle.dbg_base.specs.Configurations.{Configuration, state_in, channel_of};
ghost use Rattle.dbg_base.specs.Histories.{local_state};
ghost use Rattle.dbg_base.specs.Orders.{Event, order, choices_of, IsLegalOrder};
ghost use Rattle.dbg_base.specs.SystemStates.{configuration_of, history_of};
ghost use Rattle.dbg_base.specs.Cuts.{IsConsistent};
ghost use Rattle.dbg_base.specs.Clocks.{IsClock};
ghost use Rattle.dbg_base.specs.Predicates.{Conjunct, IsLeast, NoCut};
ghost use Rattle.dbg_base.specs.Reversal.{MayUndo, IsRollback};
ghost use Rattle.dbg_base.specs.ModelStates.{ModelState};
ghost use Rattle.dbg_base.specs.Calls.{Call, Query, Ask, Plan, One, Batch};
ghost use Rattle.dbg_base.specs.Journals.{Journal, IsLegal, effective, LeadsTo, IsDue};
ghost use Rattle.dbg_base.specs.Reference.{line, IsMessage, Happens, HappenedBefore, IsInPast, IsClosed, events_of, IsMet, IsLeastMet};
ghost use Rattle.dbg_base.specs.Reference.{IsMaximal, IsGreatest};
ghost use Rattle.dbg_base.specs.Sessions.{IsReplay, remaining, AreGiven, remaining_after};
ghost use Rattle.dbg_base.specs.Shown.{Shows};
ghost use Rattle.dbg_laws.specs.Outcomes.{HasOneState};
ghost use Rattle.dbg_laws.specs.Remaining.{with_order};
ghost use Rattle.dbg_laws.specs.Transcripts.{first_stage, IsTranscript};

/// A session shows what a replay of the events that remain shows, in any order in which each of them fires. A legal journal leads to exactly
/// one state, there is such a replay, and exactly one answer is due to each further call. In the replay, what happened before an event is
/// before it, and a receive takes from the head of its channel the value that the send of its message put at the tail. After an accepted
/// command, the events that its reply says remain, and they fire in that order. A journal in which the same orders remain has the same
/// replays, whatever was taken back. After an accepted batch, the events remain that the replies to its commands say if these are given one
/// by one. The answer to a query is what the replay shows.
pub fn headline()
    ensures one_state { (P : Program) (J : Journal) → IsLegal P J → HasOneState (LeadsTo P (effective J)) }
    ensures some_replay { (P : Program) (J : Journal) → IsLegal P J
        → (M : ModelState) × (E : List Event) × (c : Configuration) × IsReplay P J M E c }
    ensures one_answer { (P : Program) (J : Journal) → IsLegal P J
        → (seat : ℕ) (call : Call) → (said : Said) × IsDue P (effective J) seat call said
        × ((other : Said) → IsDue P (effective J) seat call other → other ≡ said) }
    ensures forward { (P : Program) (J : Journal) (M : ModelState) (A B : List Event) (e : Event) (c : Configuration)
        → IsReplay P J M (A ++ e ∷ B) c → (i m : ℕ)
        → HappenedBefore P (A ++ e ∷ B) i m e.process (length (line P A e.process)) → m < length (line P A i) }
    ensures command { (P : Program) (J : Journal) (M : ModelState) (E : List Event) (c : Configuration) → IsReplay P J M E c
        → (seat : ℕ) (plan : Plan) (reply : Reply) → IsLegal P (with_order J seat (One plan) reply)
        → (after : ModelState) × (d : Configuration)
        × IsReplay P (with_order J seat (One plan) reply) after (remaining P reply.done E) d }
    ensures back { (P : Program) (J J' : Journal) (M : ModelState) (E : List Event) (c : Configuration) → IsReplay P J M E c
        → IsLegal P J' → effective J' ≡ effective J → IsReplay P J' M E c }
    ensures batch { (P : Program) (J : Journal) (M : ModelState) (E : List Event) (c : Configuration) → IsReplay P J M E c
        → (seat : ℕ) (plans : List Plan) (reply : Reply) → IsLegal P (with_order J seat (Batch plans) reply)
        → (after : ModelState) × (d : Configuration) × (replies : List Reply) × AreGiven P plans replies M after
        × IsReplay P (with_order J seat (Batch plans) reply) after (remaining_after P replies E) d }
    ensures message { (P : Program) (J : Journal) (M : ModelState) (E : List Event) (c : Configuration) → IsReplay P J M E c
        → (i m j n : ℕ) → IsMessage P E i m j n
        → (value : ℤ) × (a b d e : Configuration) × Happens P E i m a b × (channel_of b i j ≡ channel_of a i j ++ value ∷ [])
        × Happens P E j n d e × (channel_of d i j ≡ value ∷ channel_of e i j) }
    ensures shown { (P : Program) (J : Journal) (M : ModelState) (E : List Event) (c : Configuration) → IsReplay P J M E c
        → (seat : ℕ) (query : Query) (said : Said) → IsDue P (effective J) seat (Ask query) said → Shows P M.breakpoints E c query said }
{}

/// The notions by which the commands are defined are those of the replay. The configuration of a state is the end of the replay. Its
/// consistent cuts are the sets of events that are closed under happened-before. These are exactly the sets of first events that can be
/// replayed alone. A predicate is judged in the local states at the end of that replay. The clock of an event has the event itself and all
/// that happened before it. A breakpoint's cut is the least closed set of events after whose replay its conjuncts hold. It has none exactly
/// if there is no such set. The last event of a process may be undone exactly if no event happened after it. A rollback leads to the
/// greatest closed set with at most so many events of its process.
pub fn notions()
    ensures state { (P : Program) (J : Journal) (M : ModelState) (E : List Event) (c : Configuration) → IsReplay P J M E c
        → configuration_of P M.system ≡ c }
    ensures cuts { (P : Program) (J : Journal) (M : ModelState) (E : List Event) (c : Configuration) → IsReplay P J M E c
        → (cut : List ℕ) → IsConsistent P (history_of M.system) cut ↔ IsClosed P E cut }
    ensures alone { (P : Program) (J : Journal) (M : ModelState) (E : List Event) (c : Configuration) → IsReplay P J M E c
        → (cut : List ℕ) → length cut ≡ length P → ((p : ℕ) → slice_index cut p ≤ length (line P E p))
        → IsClosed P E cut ↔ IsLegalOrder P (events_of cut E) }
    ensures judged { (P : Program) (J : Journal) (M : ModelState) (E : List Event) (c : Configuration) → IsReplay P J M E c
        → (cut : List ℕ) → IsClosed P E cut → (d : Configuration) → order P (events_of cut E) ≡ Ok d
        → (p : ℕ) → local_state P (history_of M.system) p (slice_index cut p) ≡ state_in d p }
    ensures clock { (P : Program) (J : Journal) (M : ModelState) (E : List Event) (c : Configuration) → IsReplay P J M E c
        → (p n : ℕ) (cut : List ℕ) → n < length (line P E p) → IsClock P (history_of M.system) p (suc n) cut
        → (q m : ℕ) → (m < slice_index cut q) ↔ IsInPast P E q m p n }
    ensures least { (P : Program) (J : Journal) (M : ModelState) (E : List Event) (c : Configuration) → IsReplay P J M E c
        → (conjuncts : List Conjunct) (cut : List ℕ) → IsLeast P (history_of M.system) conjuncts cut ↔ IsLeastMet P E conjuncts cut }
    ensures none { (P : Program) (J : Journal) (M : ModelState) (E : List Event) (c : Configuration) → IsReplay P J M E c
        → (conjuncts : List Conjunct) → NoCut P (history_of M.system) conjuncts ↔ ((cut : List ℕ) → ¬ IsMet P E conjuncts cut) }
    ensures undo { (P : Program) (J : Journal) (M : ModelState) (E : List Event) (c : Configuration) → IsReplay P J M E c
        → (p : ℕ) → MayUndo P (history_of M.system) p ↔ IsMaximal P E p }
    ensures rollback { (P : Program) (J : Journal) (M : ModelState) (E : List Event) (c : Configuration) → IsReplay P J M E c
        → (p n : ℕ) (cut : List ℕ) → IsRollback P (history_of M.system) p n cut ↔ IsGreatest P E p n cut }
{}

/// A reader can follow a legal journal from its calls and answers alone, with a list of events and the breakpoints. It begins with no event.
/// After an accepted command, the events are those that its reply says, and they fire in that order. An undo needs a maximal event, and a
/// rollback and a `goto` lead to the set that they name. An accepted `back` returns to the events and the breakpoints before the last order
/// that counts. The answer to a query is what the replay of the events shows then. The reply to a command says which breakpoint halts then.
pub fn transcript()
    ensures { (P : Program) (J : Journal) → IsLegal P J → IsTranscript P (first_stage ∷ []) J }
{}
