//! Laws of the pieces of each kind.
ghost use Rattle.token_laws.specs.KindLaws.{SkippedIsSpaceOrComment, WordIsLongest};
ghost use Rattle.token_laws.specs.KindLaws.{NumberIsLongest, TextIsBetweenQuotes, BlobIsOfPairs};
ghost use Rattle.token_laws.specs.KindLaws.{QuotedIsBetweenQuotes, ParameterIsLongest};
ghost use Rattle.token_laws.specs.KindLaws.{SymbolIsLongest, BadWentWrong};

/// Each piece has the form of its kind. Spaces, line comments, words, numbers, parameters, symbols
/// and names in brackets are the longest front that has their form; behind a number stands no byte
/// of a word, a parameter's number is 1 to 32766, and a symbol begins no comment. A block comment
/// ends at its first `*/`, or with the text. A form between quotes ends at its first quote that
/// isn't doubled; a blob's inside is pairs of hexadecimal digits.
///
/// A bad piece is a quoted form that isn't closed, to the end of the text; a blob whose inside
/// isn't pairs of hexadecimal digits, all of it; a number with the bytes of a word directly behind
/// it, all of them; `?` with the digits of another number, all of them; or one byte that begins
/// nothing.
///
/// <https://www.sqlite.org/lang_expr.html#literal_values_constants_> and
/// <https://www.sqlite.org/lang_comment.html> have the forms of SQLite.
pub fn pieces_have_the_form_of_their_kind()
    ensures skipped { SkippedIsSpaceOrComment }
    ensures words { WordIsLongest }
    ensures numbers { NumberIsLongest }
    ensures texts { TextIsBetweenQuotes }
    ensures quoted_names { QuotedIsBetweenQuotes }
    ensures blobs { BlobIsOfPairs }
    ensures parameters { ParameterIsLongest }
    ensures symbols { SymbolIsLongest }
    ensures bad { BadWentWrong }
{}
