//! The grammar beside the refusals that come before it.
ghost use Rattle.std.specs.Prelude.{◌≡◌, ℕ, cond, nat_lt, List, None, Some};
ghost use Rattle.sql_tokens.specs.declared.token.Token.{Token};
ghost use Rattle.sql_tree.specs.Statements.{StatementTree};
ghost use Rattle.sql_lex.specs.Constructs.{first_foreign};
ghost use Rattle.sql_lex.specs.Depth.{depth_limit, depth_of};
ghost use Rattle.sql_parse.specs.declared.refusals.ParseFault.TheVariants as fault;
ghost use Rattle.sql_parse.specs.Refusals.{first_refusal};
ghost use Rattle.sql_parse.specs.Statements.{IsSpelled};
ghost use Rattle.sql_lexemes.specs.TokenLexemes.{lexemes_of};

/// No statement that the grammar spells has a part that isn't read: each construct of `Foreign`
/// stands nowhere in it. So the refusal of such parts takes nothing from the grammar.
pub fn spelled_runs_are_known()
    ensures { (text : List ℕ) → (tokens : List Token) → (tree : StatementTree)
        → IsSpelled (lexemes_of text tokens) tree → first_foreign text tokens ≡ None }
{}

/// A statement that the grammar spells is refused for its depth alone: it has no bad token, no part
/// that isn't read and no number outside the profile. So `parse` reads every spelled statement that
/// nests within the limit of depth, unless memory runs out.
pub fn spelled_runs_are_refused_for_depth_alone()
    ensures { (text : List ℕ) → (tokens : List Token) → (tree : StatementTree)
        → IsSpelled (lexemes_of text tokens) tree
        → first_refusal text tokens ≡ cond (nat_lt depth_limit (depth_of text tokens))
        (Some fault.TooDeep) None }
{}
