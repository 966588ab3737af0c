//! Laws of terms (SQLite's optoverview), each on a function that does nothing.

ghost use Rattle.sql_meaning.specs.TermLaws.{DerivedTermsHold, LinkedColumnsAreEqual};
ghost use Rattle.sql_meaning.specs.TermLaws.{ListsHaveTheLinkedColumns, ServingIsExact};
ghost use Rattle.sql_meaning.specs.TermLaws.{OrTermsAreOfConjuncts, TermsSayTheirConjuncts};

/// A conjunct that serves a column is true exactly where its term is true of the column. And the
/// function by which terms are listed answers exactly where a conjunct serves a column of the item,
/// with that column and what the conjunct says of it.
pub fn terms_say_their_conjuncts()
    ensures same_truth { TermsSayTheirConjuncts }
    ensures listed { ServingIsExact }
{}

/// Where the conjuncts hold, columns that they link are equal, under the collation that all of them
/// own. And the columns that are listed as linked with a column are all those that links and chains
/// of links join with it, and no others, by item and column, each once.
pub fn linked_columns_are_equal()
    ensures equal { LinkedColumnsAreEqual }
    ensures listed { ListsHaveTheLinkedColumns }
{}

/// Where the common conjuncts hold, each derived equality holds. So a walk by it loses no row of an
/// answer, though it consumes no conjunct.
pub fn derived_terms_hold()
    ensures { DerivedTermsHold }
{}

/// Each OR term that is listed for an item is of an OR conjunct that may serve it, and lists for
/// each branch of this OR the terms of that branch, of which there are some.
pub fn or_terms_are_of_conjuncts()
    ensures { OrTermsAreOfConjuncts }
{}
