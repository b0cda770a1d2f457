//! Laws of the process language, over its definitions alone.

ghost use Rattle.std.specs.Prelude.{◌≡◌, ◌⊎◌, ℕ, List, IsTrue};
ghost use Rattle.dbg_base.specs.Trees.{Tree, Program};
ghost use Rattle.dbg_base.specs.Tokens.{Placed, HasTokens, IsTokenFault};
ghost use Rattle.dbg_base.specs.declared.fault.ProgFault.{ProgFault};
ghost use Rattle.dbg_base.specs.declared.expr.Sort.TheVariants as sort;
ghost use Rattle.dbg_base.specs.Grammar.{WrittenProcess, DerivesProgram};
ghost use Rattle.dbg_base.specs.Checks.{Reads, IsFault, ReadsPredicate, IsPredicateFault};
ghost use Rattle.dbg_base.specs.WellFormed.{is_well_formed, is_fit, bounds_of};

/// A text has at most one list of tokens, and if it has one, no fault among its tokens.
pub fn one_token_list()
    ensures one { (text : List ℕ) (tokens others : List Placed) → HasTokens text tokens → HasTokens text others → tokens ≡ others }
    ensures no_fault { (text : List ℕ) (tokens : List Placed) (fault : ProgFault) → HasTokens text tokens → IsTokenFault text fault → ⊥ }
{}

/// Tokens derive at most one parsed program.
pub fn one_derivation()
    ensures { (tokens : List Placed) (written other : List WrittenProcess) → DerivesProgram tokens written → DerivesProgram tokens other
        → written ≡ other }
{}

/// Each text has exactly one of a program and a first fault, and at most one of each.
pub fn program_or_fault()
    ensures some { (text : List ℕ) → ((P : Program) × Reads text P) ⊎ ((fault : ProgFault) × IsFault text fault) }
    ensures not_both { (text : List ℕ) (P : Program) (fault : ProgFault) → Reads text P → IsFault text fault → ⊥ }
    ensures one_program { (text : List ℕ) (P Q : Program) → Reads text P → Reads text Q → P ≡ Q }
    ensures one_fault { (text : List ℕ) (fault other : ProgFault) → IsFault text fault → IsFault text other → fault ≡ other }
{}

/// For each process of a program, each text has exactly one of a predicate and a first fault, and at most one of each.
pub fn predicate_or_fault()
    ensures some { (P : Program) (p : ℕ) (text : List ℕ)
        → ((tree : Tree) × ReadsPredicate P p text tree) ⊎ ((fault : ProgFault) × IsPredicateFault P p text fault) }
    ensures not_both { (P : Program) (p : ℕ) (text : List ℕ) (tree : Tree) (fault : ProgFault)
        → ReadsPredicate P p text tree → IsPredicateFault P p text fault → ⊥ }
    ensures one_predicate { (P : Program) (p : ℕ) (text : List ℕ) (tree other : Tree)
        → ReadsPredicate P p text tree → ReadsPredicate P p text other → tree ≡ other }
    ensures one_fault { (P : Program) (p : ℕ) (text : List ℕ) (fault other : ProgFault)
        → IsPredicateFault P p text fault → IsPredicateFault P p text other → fault ≡ other }
{}

/// An accepted program is well formed, as `Program` keeps it. All that its commands name exists. No process sends to itself or counts
/// messages with itself. Types fit, names differ, no command sets a variable twice, and all numbers are within the limits.
pub fn reads_well_formed()
    ensures { (text : List ℕ) (P : Program) → Reads text P → IsTrue (is_well_formed P) }
{}

/// An accepted predicate fits its process: it is a truth expression, and all that it names exists.
pub fn predicate_fits()
    ensures { (P : Program) (p : ℕ) (text : List ℕ) (tree : Tree) → ReadsPredicate P p text tree
        → IsTrue (is_fit (bounds_of P p) sort.Truth tree) }
{}
