//! Laws of a text's tokens together.
ghost use Rattle.std.specs.Prelude.{◌≡◌, ℕ, List};
ghost use Rattle.sql_tokens.specs.Tokens.{tokens_of};
ghost use Rattle.sql_tokens.specs.PieceType.{Piece};
ghost use Rattle.token_laws.specs.Cuts.{IsCut, tokens_among};

/// Every text has a cut into pieces, each of them of the first rule of the table that fits at its
/// place, and has only one: so each byte lies in one token or is skipped.
pub fn each_byte_lies_in_one_piece()
    ensures some { (text : List ℕ) → (pieces : List Piece) × IsCut text pieces }
    ensures one { (text : List ℕ) → (pieces others : List Piece) → IsCut text pieces
        → IsCut text others → pieces ≡ others }
{}

/// The tokens of a text are those pieces of its cut that aren't skipped, where they stand. With the
/// law before, the table alone says which tokens a text has.
pub fn tokens_are_those_of_the_cut()
    ensures { (text : List ℕ) → (pieces : List Piece) → IsCut text pieces
        → tokens_of text ≡ tokens_among 0 pieces }
{}
