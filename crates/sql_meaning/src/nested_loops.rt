//! Laws of plans (SQLite's eqp, lang_select and optoverview), each on a function that does nothing.
//! They hold on every database of the schema, its indexes kept true, and for all parameters.

ghost use Rattle.sql_meaning.specs.PlanLaws.{BlocksLeaveOutWhatFails, LoopsGiveTheRows};
ghost use Rattle.sql_meaning.specs.PlanLaws.{OfferedPlansFit, OfferedPlansMean, PlansGiveTheOrder};

/// Let a block be a run of consecutive FROM items that aren't LEFT, with its loops together in a
/// plan, and take any assignments of the items to its left, missing rows among them. Then the
/// block's loops, in any order, give the extensions by one row of each of its items on which the
/// common conjuncts hold that are first known in the block, but for some that are left out. One is
/// left out only where for each choice of rows or missing rows of the items to the right some
/// common conjunct fails: a derived equality or a union may drop it early.
pub fn blocks_leave_out_what_fails()
    ensures { BlocksLeaveOutWhatFails }
{}

/// The loops of a plan give its statement's rows, each as often, in whatever order its items stand
/// as far as LEFT JOIN allows.
pub fn loops_give_the_rows()
    ensures { LoopsGiveTheRows }
{}

/// A plan gives its rows in the order of ORDER BY, also where it doesn't sort.
pub fn plans_give_the_order()
    ensures { PlansGiveTheOrder }
{}

/// A plan whose loops are offers fits the schema: its statement does, each item has one loop, each
/// path fits the table of its item by keys of earlier loops, and what is consumed are conjuncts.
pub fn offered_plans_fit()
    ensures { OfferedPlansFit }
{}

/// A plan whose loops are offers, with the flags that its order state asks, means its statement: on
/// every database of its schema and for all parameters it gives the statement's rows, as often and
/// in the asked order.
pub fn offered_plans_mean()
    ensures { OfferedPlansMean }
{}
