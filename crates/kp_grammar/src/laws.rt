//! The laws of predictive grammars. Each function is a law and does nothing; other crates may depend on its clause. The tokens are counted from the
//! end: "at k" is the first of the last k tokens, and 0 is the end of the text.

ghost use Rattle.std.specs.Prelude.{◌≡◌, ◌++◌, [], ◌∷◌, ℕ, List, Bool, true, false, Some};
ghost use Rattle.kp_grammar.specs.Sample.{number, plus, opening, closing, SUM, tables, sums, start, is_over, alike, two_vanish, followed, followed_tables, ranks, round};
ghost use Rattle.kp_grammar.specs.Grammar.{Symbol, Nonterminal, Grammar, Derives, IsSentence, IsWrongAt, IsLimit, IsWithin, IsOverAt};
ghost use Rattle.kp_grammar.specs.{Tables.Tables, Tables.rules_fit, Tables.IsPredictive, Ranks.Ranks, Ranks.ranks_fit};
ghost use Rattle.kp_grammar.specs.Machine.{Outcome, Accepts, Stops, Exceeds, Leads, Config, advance};

/// Uniqueness: in a predictive grammar a sentence builds one state.
pub fn a_sentence_builds_one_state<W, B, X, S>()
    ensures { (g : Grammar W B X S) (tables : Tables) (n : ℕ) → IsPredictive g tables n → (v w w' : S) (ts : List X) → IsSentence g n v ts w → IsSentence g n v ts w' → w ≡ w' }
{}

/// Soundness: a text that the machine accepts is a sentence, and builds the machine's final state.
pub fn what_is_accepted_is_a_sentence<W, B, X, S>()
    ensures { (g : Grammar W B X S) (tables : Tables) (n : ℕ) → IsPredictive g tables n → (over : S → Bool) (v w : S) (ts : List X)
        → Leads g over tables (Nonterminal n ∷ []) v ts (Accepts w) → IsSentence g n v ts w }
{}

/// Completeness: a sentence whose state never exceeds the limit is accepted with that state.
pub fn a_sentence_is_accepted<W, B, X, S>()
    ensures { (g : Grammar W B X S) (tables : Tables) (n : ℕ) → IsPredictive g tables n → (over : S → Bool) → IsLimit g over → (v w : S) (ts : List X)
        → IsSentence g n v ts w → over w ≡ false → Leads g over tables (Nonterminal n ∷ []) v ts (Accepts w) }
{}

/// Longest viable prefix: where the machine stops is the first wrong token, and nothing before it exceeds the limit.
pub fn a_stop_is_the_first_wrong_token<W, B, X, S>()
    ensures { (g : Grammar W B X S) (tables : Tables) (n : ℕ) → IsPredictive g tables n → (over : S → Bool) → IsLimit g over → (v : S) (ts : List X) (k : ℕ)
        → over v ≡ false → Leads g over tables (Nonterminal n ∷ []) v ts (Stops k) → IsWrongAt g n v ts k × IsWithin g over n v ts k }
{}

/// Where the machine finds the limit exceeded is the first token that exceeds it.
pub fn an_excess_is_the_first<W, B, X, S>()
    ensures { (g : Grammar W B X S) (tables : Tables) (n : ℕ) → IsPredictive g tables n → (over : S → Bool) → IsLimit g over → (v : S) (ts : List X) (k : ℕ)
        → over v ≡ false → Leads g over tables (Nonterminal n ∷ []) v ts (Exceeds k) → IsOverAt g over n v ts k }
{}

/// A text has at most one first wrong token and at most one first token that exceeds the limit; and a text that has
/// one of the two, with nothing over the limit before a wrong token, doesn't have the other.
pub fn a_text_has_one_verdict<W, B, X, S>()
    ensures wrong { (g : Grammar W B X S) (n : ℕ) (v : S) (ts : List X) (k k' : ℕ) → IsWrongAt g n v ts k → IsWrongAt g n v ts k' → k ≡ k' }
    ensures over { (g : Grammar W B X S) (over : S → Bool) (n : ℕ) (v : S) (ts : List X) (k k' : ℕ) → IsOverAt g over n v ts k → IsOverAt g over n v ts k' → k ≡ k' }
    ensures apart { (g : Grammar W B X S) (over : S → Bool) (n : ℕ) (v : S) (ts : List X) (k k' : ℕ) → IsOverAt g over n v ts k → IsWrongAt g n v ts k' → IsWithin g over n v ts k' → ⊥ }
{}

/// If a token exceeds the limit, each sentence of a predictive grammar ends over the limit.
pub fn an_excess_stays<W, B, X, S>()
    ensures { (g : Grammar W B X S) (tables : Tables) (n : ℕ) → IsPredictive g tables n → (over : S → Bool) → IsLimit g over → (v w : S) (ts : List X) (k : ℕ)
        → IsOverAt g over n v ts k → IsSentence g n v ts w → over w ≡ true }
{}

/// Termination: if, before a token is read, each name leads only to names of lower rank, then the machine accepts
/// each text, stops in it, or finds the limit exceeded.
pub fn the_machine_ends<W, B, X, S>()
    ensures { (g : Grammar W B X S) (tables : Tables) (rank : Ranks) → rules_fit tables g.rules ≡ true → ranks_fit tables rank g.rules ≡ true
        → (over : S → Bool) (n : ℕ) (v : S) (ts : List X) → (o : Outcome S) × Leads g over tables (Nonterminal n ∷ []) v ts o }
{}

/// A derivation reads a prefix of the tokens, and reads it in the same way before any other tokens: whether a prefix
/// is viable depends on the prefix alone.
pub fn a_derivation_reads_a_front<W, B, X, S>()
    ensures { (g : Grammar W B X S) (s s' : List (Symbol W B)) (v v' : S) (ts left : List X) → Derives g s v ts s' v' left
        → (front : List X) × (ts ≡ front ++ left) × ((other : List X) → Derives g s v (front ++ other) s' v' other) }
{}

/// A derivation by computation: if k steps of the machine end with a rest of the tokens that stays a variable, what
/// is derived from there is derived from the start.
pub fn computed_steps_are_a_derivation<W, B, X, S>()
    ensures { (g : Grammar W B X S) (tables : Tables) (k : ℕ) (s s' : List (Symbol W B)) (v v' : S) (ts left : List X) (c : Config W B X S)
        → advance g tables k s v ts ≡ Some c → Derives g c.symbols c.state c.tokens s' v' left → Derives g s v ts s' v' left }
{}

/// Example: sums with brackets, of which at most two may be open. The grammar is predictive, `1 + (2 + 3)` is a
/// sentence that builds 6, in `1 + )` the last token is wrong, and in `( ( (` the last one exceeds the limit. Rules
/// that the next token doesn't determine fail the test, and there are no ranks for a name that leads back to itself
/// before a token is read.
pub fn sums_are_an_example()
    ensures predictive { IsPredictive sums tables SUM }
    ensures ranked { ranks_fit tables ranks sums.rules ≡ true }
    ensures sentence { IsSentence sums SUM start (number 1 ∷ plus ∷ opening ∷ number 2 ∷ plus ∷ number 3 ∷ closing ∷ []) (record { depth = 0; over = false; sums = 6 ∷ [] }) }
    ensures wrong { IsWrongAt sums SUM start (number 1 ∷ plus ∷ closing ∷ []) 1 }
    ensures over { IsOverAt sums is_over SUM start (opening ∷ opening ∷ opening ∷ []) 1 }
    ensures refused { (rules_fit tables alike ≡ false) × (rules_fit tables two_vanish ≡ false) × (rules_fit followed_tables followed ≡ false) }
    ensures unranked { (some : Ranks) → ranks_fit tables some round ≡ false }
{}
