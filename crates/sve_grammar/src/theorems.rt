//! Laws of the grammar and of its machine.

ghost use Rattle.std.specs.Prelude.{◌≡◌, ◌≤◌, ℕ, List, Option, Ok};
ghost use Rattle.sve_token.specs.declared.kind.Kind.{Kind};
ghost use Rattle.sve_token.specs.declared.token.Token.{Token};
ghost use Rattle.sve_grammar.specs.declared.symbol.Symbol.{Symbol};
ghost use Rattle.sve_grammar.specs.Token.{kinds};
ghost use Rattle.sve_grammar.specs.Rule.{Rule, opens, starts};
ghost use Rattle.sve_grammar.specs.Grammar.{rule};
ghost use Rattle.sve_grammar.specs.Machine.{Cell, Move, State, Halt, step, done, Comes, Stops};
ghost use Rattle.sve_grammar.specs.Reading.{Tree, at_depth, leaves, Numbered, ReadTheSame};
ghost use Rattle.sve_grammar.specs.Meaning.{Runs};

/// What a symbol is said to begin with is what its rule begins with.
#[tactic(auto, using(crate::proofs::Begins::opens_is))]
pub fn firsts_are_exact()
    ensures { (s : Symbol) (k : Option Kind) → opens s k ≡ starts (rule s) k }
{}

/// The machine does what reading says, for every rule, at every depth, above any stack and from any place: it comes to the
/// stack below by the moves of the tree, or it stops where reading does. `run` of `sve_run` says it of a chunk: its clause
/// `machine` is about the machine, and its clause `reading` about what is read.
#[tactic(auto, using(crate::proofs::Runs::runs))]
pub fn machine_reads()
    ensures { (ts : List Token) (d : ℕ) → d ≤ 512 → (r : Rule) (rest : List Cell) (i : ℕ) (ms : List Move) → Runs ts d r rest i ms (at_depth ts d r i) }
{}

/// What is read depends on the kinds of the tokens alone: neither on their places nor on how they are spelled. So the contract
/// of a call that gives an element may compare the elements of two chunks by the words of their tokens.
#[tactic(auto, using(crate::proofs::ByKind::read_by_kinds))]
pub fn kinds_decide()
    ensures { (ts us : List Token) → kinds ts ≡ kinds us → ReadTheSame ts us }
{}

/// The tokens of a tree are those from its first to its last, each once and in order. So the contract of a call that gives an
/// element may say that its tokens are numbered as those of its chunk.
#[tactic(auto, using(crate::proofs::Spelled::spelled))]
pub fn tokens_are_in_order()
    ensures { (ts : List Token) (d : ℕ) (r : Rule) (i : ℕ) (t : Tree) (j : ℕ) → at_depth ts d r i ≡ Ok (t, j) → Numbered i j (leaves t) }
{}

/// The machine has one run: it comes to an empty stack in one way, or it stops, and in one way.
#[tactic(auto, using(crate::proofs::Unique::ends_once, crate::proofs::Unique::stops_once, crate::proofs::Unique::never_both))]
pub fn machine_has_one_run()
    ensures end { (ts : List Token) (s t u : State) → Comes ts s t → step ts t ≡ done → Comes ts s u → step ts u ≡ done → t ≡ u }
    ensures stop { (ts : List Token) (s : State) (h g : Halt) → Stops ts s h → Stops ts s g → h ≡ g }
    ensures either { (ts : List Token) (s u : State) (h : Halt) → Stops ts s h → Comes ts s u → step ts u ≡ done → ⊥ }
{}
