//! What stands at each level of an expression.
ghost use Rattle.std.specs.Prelude.{◌≡◌, ◌⊎◌, false, filter, List, [], ◌∷◌};
ghost use Rattle.std.specs.List.{list_any};
ghost use Rattle.sql_tree.specs.Trees.{Tree};
ghost use Rattle.sql_read.specs.Lexemes.{Lexeme};
ghost use Rattle.sql_read.specs.declared.lexeme.Mark.TheVariants as mark;
ghost use Rattle.sql_parse.specs.Grammar.{Spells};
ghost use Rattle.sql_parse.specs.Grammar as level;
ghost use Rattle.grammar_laws.specs.Outside.{outside, is_or, is_between_or_and, is_above_operand};

/// Which words and symbols stand outside of parentheses at a level of the grammar. So the first
/// place where a level can be split is the only one that its first member allows.
pub fn levels_split_at_one_place()
    // An operand holds no comparison, no word of a test (BETWEEN, IN, LIKE, IS, ISNULL, NOTNULL)
    // and none of AND, OR and NOT.
    ensures operand { (run : List Lexeme) → (tree : Tree) → Spells level.operand run tree
        → list_any is_above_operand (outside run) ≡ false }
    // A member of AND holds an AND only as the AND of its one BETWEEN.
    ensures member { (run : List Lexeme) → (tree : Tree) → Spells level.not run tree
        → (filter is_between_or_and (outside run) ≡ [])
        ⊎ (filter is_between_or_and (outside run) ≡ mark.Between ∷ mark.And ∷ []) }
    // A member of OR holds no OR.
    ensures conjunction { (run : List Lexeme) → (tree : Tree) → Spells level.and run tree
        → list_any is_or (outside run) ≡ false }
{}
