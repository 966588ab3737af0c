//! Laws of what tokens mean.
ghost use Rattle.std.specs.Prelude.{◌≡◌, ◌==◌, ◌++◌, ◌∷◌, [], ℕ, List, false};
ghost use Rattle.sql_tokens.specs.TokenValues.{undoubled, quoted_value};
ghost use Rattle.token_laws.specs.Forms.{doubled};

/// To write each quote twice is undone by reading. So a text that is written between quotes, each
/// quote inside doubled, means that text.
///
/// <https://www.sqlite.org/lang_expr.html#literal_values_constants_>
pub fn quoted_texts_mean_what_was_written()
    ensures undone { (quote : ℕ) → (text : List ℕ) → undoubled quote (doubled quote text) ≡ text }
    ensures meant { (quote : ℕ) → (text : List ℕ) → (quote == 91) ≡ false
        → quoted_value (quote ∷ (doubled quote text ++ quote ∷ [])) ≡ text }
{}
