//! Laws of LIKE (SQLite's lang_expr and optoverview), each on a function that does nothing.

ghost use Rattle.sql_meaning.specs.LikeLaws.{CharactersStayWhole, LikesIgnoreCase};
ghost use Rattle.sql_meaning.specs.LikeLaws.{LikesStandInBounds};
ghost use Rattle.sql_meaning.specs.TermLaws.{LikeTermsHold};

/// Under NOCASE a text that is like a pattern isn't before the pattern's lower bound, and is before
/// its upper one. LIKE is blind to the case of the 26 letters, and `_` takes a whole character.
pub fn likes_stand_in_bounds()
    ensures within { LikesStandInBounds }
    ensures letters { LikesIgnoreCase }
    ensures characters { CharactersStayWhole }
{}

/// On a row of a database, where a LIKE holds, so do the bounds that it gives its column. They have
/// no conjunct, so a path by them consumes nothing.
pub fn like_terms_hold()
    ensures { LikeTermsHold }
{}
