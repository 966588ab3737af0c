//! Laws of offers, plans and advice, each on a function that does nothing.

ghost use Rattle.plan_choice.specs.AdviceLaws.{AdviceCostsNoMore, AdvicePlansMean};
ghost use Rattle.plan_choice.specs.AdviceLaws.{NamesWhatPlansUse};
ghost use Rattle.plan_choice.specs.ChoiceLaws.{ChosenPlansAreOffered, ChosenPlansCostNoMore};
ghost use Rattle.plan_choice.specs.ChoiceLaws.{ChosenPlansMean, OneItemTakesTheNearest};
ghost use Rattle.plan_choice.specs.CostLaws.{AdviceCostsAreSmall, ChosenCostsAreSmall};
ghost use Rattle.plan_choice.specs.CostLaws.{PrefixesAreSmall, WrittenPlansAreSmall};
ghost use Rattle.plan_choice.specs.FigureLaws.{AdviceFiguresFit, CountedFiguresFit};
ghost use Rattle.plan_choice.specs.FigureLaws.{GivenFiguresFit, LogarithmsAreSmall};
ghost use Rattle.plan_choice.specs.FitLaws.{AdvicePlansFit, ChosenPlansFit, ListedOffersFit};
ghost use Rattle.plan_choice.specs.KeptLaws.{StatesGoOn, TermsAreOfTables};
ghost use Rattle.plan_choice.specs.NameLaws.{CandidateNamesAreFree};
ghost use Rattle.plan_choice.specs.OfferLaws.{ListedOffersAreOffers};

/// What is listed for an item that isn't placed are offers, so the laws of walks hold of them.
pub fn listed_offers_are_offers()
    ensures { ListedOffersAreOffers }
{}

/// The paths of listed offers, and so those of chosen plans, fit the schema: each index that they
/// walk is usable and of the item's table, has a column for each equality part, and one more where
/// there are bounds; and the branches of a union are seeks.
pub fn chosen_paths_fit()
    ensures offers { ListedOffersFit }
    ensures plans { ChosenPlansFit }
    ensures advice { AdvicePlansFit }
{}

/// The chosen plan gives the rows of its statement, as often and in the asked order, on every
/// database of its schema and for all parameters, whatever the figures are. And it costs no more
/// than the plan in written order. Of one item the offer of least key is taken.
pub fn chosen_plans_mean()
    ensures means { ChosenPlansMean }
    ensures offered { ChosenPlansAreOffered }
    ensures costs { ChosenPlansCostNoMore }
    ensures one_item { OneItemTakesTheNearest }
{}

/// Each plan of an advice means its statement, over the schema with all candidates, and costs no
/// more than the plan in written order. The candidates that are recommended rise, and are just
/// those that some plan uses; and so it is with those that are told of each plan.
pub fn advice_names_what_plans_use()
    ensures means { AdvicePlansMean }
    ensures costs { AdviceCostsNoMore }
    ensures used { NamesWhatPlansUse }
{}

/// Figures, counted or given, are as many as the schema's tables and indexes ask for, and each is
/// at most 1,000.
pub fn figures_fit_their_schema()
    ensures counted { CountedFiguresFit }
    ensures given { GivenFiguresFit }
    ensures advice { AdviceFiguresFit }
    ensures logarithms { LogarithmsAreSmall }
{}

/// Over figures of at most 1,000 the rows, the cost and the weight of each prefix, kept or in
/// written order, grow by at most 1,000 with each loop; so with 64 items at most what is printed is
/// below 1,000,000.
pub fn costs_stay_small()
    ensures kept { PrefixesAreSmall }
    ensures written { WrittenPlansAreSmall }
    ensures chosen { ChosenCostsAreSmall }
    ensures advice { AdviceCostsAreSmall }
{}

/// A prefix may carry its order state, and terms may be looked for once, before there are
/// candidates.
pub fn states_and_terms_are_kept()
    ensures states { StatesGoOn }
    ensures terms { TermsAreOfTables }
{}

/// The name of no candidate is that of a table, of an index or of another candidate.
pub fn names_are_free()
    ensures { CandidateNamesAreFree }
{}
