// Properties of every text.
ghost use Rattle.std.specs.Prelude.{◌≡◌, ◌≤◌, ℕ, List, Result, Ok, All, length, take, drop};
ghost use Rattle.kp_base.specs.declared.refusal.Refusal.{Refusal};
ghost use Rattle.kp_lex.specs.declared.token.{Lexed.Lexed, Token.Token, TokenKind.TheVariants.Ident};
ghost use Rattle.kp_lex.specs.Text.{HasOutcome, StandsIn, IsIdentifier};

/// A text has one outcome: its tokens, or its first violated rule.
pub fn a_text_has_one_outcome()
    ensures some { (text : List ℕ) → (outcome : Result Lexed Refusal) × HasOutcome text outcome }
    ensures one { (text : List ℕ) (a b : Result Lexed Refusal) → HasOutcome text a → HasOutcome text b → a ≡ b }
{}

/// The tokens of a text occur in it, each at the position of its first byte, and the offset after them is within the text.
pub fn tokens_stand_in_their_text()
    ensures { (text : List ℕ) (lexed : Lexed) → HasOutcome text (Ok lexed) → All (StandsIn text) lexed.tokens × (lexed.rest ≤ length text) }
{}

/// The bytes of a name are an identifier that is not a keyword.
pub fn a_name_is_an_identifier()
    ensures { (text : List ℕ) (token : Token) → StandsIn text token → token.kind ≡ Ident → IsIdentifier (take token.len (drop token.start text)) }
{}
