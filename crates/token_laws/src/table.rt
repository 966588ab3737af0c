//! Laws of the table of tokens.
ghost use Rattle.std.specs.Prelude.{◌≡◌, ℕ, List, ◌∷◌, Some};
ghost use Rattle.sql_tokens.specs.Pieces.{piece_at};
ghost use Rattle.sql_tokens.specs.PieceType.{Piece};
ghost use Rattle.sql_tokens.specs.declared.token.TokenKind.TheVariants as kind;
ghost use Rattle.token_laws.specs.Rules.{Rule};
ghost use Rattle.token_laws.specs.Table.{table, kind_of, BeginsWith, IsFirst};

/// The piece at a place is of the first rule of the table that fits there, and is the only such
/// piece, since no rule fits with two lengths. So the table alone says what stands at each place.
pub fn the_first_rule_that_fits_is_the_piece()
    ensures first { (b : ℕ) (bs : List ℕ) → IsFirst table (b ∷ bs) (piece_at (b ∷ bs)) }
    ensures only { (b : ℕ) (bs : List ℕ) (piece : Piece) → IsFirst table (b ∷ bs) piece
        → piece ≡ piece_at (b ∷ bs) }
    ensures one_length { (rule : Rule) (bytes : List ℕ) (m n : ℕ) → BeginsWith rule bytes m
        → BeginsWith rule bytes n → m ≡ n }
{}

/// At each place fits one rule of bad tokens at most: a bad token went wrong in one way.
pub fn bad_tokens_went_wrong_in_one_way()
    ensures { (one other : Rule) (b : ℕ) (bs : List ℕ) (m n : ℕ) → kind_of one ≡ Some kind.Bad
        → kind_of other ≡ Some kind.Bad → BeginsWith one (b ∷ bs) m
        → BeginsWith other (b ∷ bs) n → one ≡ other }
{}
