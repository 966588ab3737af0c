//! Laws of the choice of terms (SQLite's optoverview and queryplanner), on a function that does
//! nothing: what is chosen is an offer, so the laws of walks and plans hold of it.

ghost use Rattle.sql_meaning.specs.ChoiceLaws.{IndexScansAreOffers, IndexSeeksAreOffers};
ghost use Rattle.sql_meaning.specs.ChoiceLaws.{RowidSeeksAreOffers, TableScansAreOffers};
ghost use Rattle.sql_meaning.specs.ChoiceLaws.{UnionsAreOffers};

/// A scan of the table or of an index is an offer for each item that isn't placed; and so are the
/// seek by rowid and the seek by an index that are chosen of an item's terms, and a union with a
/// chosen seek for each branch of an OR.
pub fn chosen_paths_are_offers()
    ensures table_scans { TableScansAreOffers }
    ensures index_scans { IndexScansAreOffers }
    ensures rowid_seeks { RowidSeeksAreOffers }
    ensures index_seeks { IndexSeeksAreOffers }
    ensures unions { UnionsAreOffers }
{}
