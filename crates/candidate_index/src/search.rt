//! The search for candidates: each list of columns that a scan may want, one after the other.
ghost use Rattle.std.specs.Prelude.{◌≡◌, ◌<◌, ◌++◌, ◌∷◌, [], map, length, IfOk, IfErr, OnOk};
ghost use Rattle.std.specs.List.{flat_map};
ghost use Rattle.plan_choice.specs.Candidates as meant;
ghost use Rattle.plan_choice.specs.Scans.{apart_from};
ghost use Rattle.schema_model.specs.CreateTexts.{AreInTable};
ghost use Rattle.schema_model.specs.Schemas.{columns_at};
ghost use Rattle.schema_model.specs.PlainSchemas.{plain_index_column};
ghost use Rattle.candidate_index.specs.Faults.{IsWhy};
ghost use Rattle.candidate_index.specs.Known.{behind_usable};
ghost use Rattle.candidate_index.specs.Scans.{scan_of, join_of, IsScanOf, AreScansOf};
ghost use Rattle.candidate_index.specs.Searches.{known, Finds};

use crate::asked::Scan;
use crate::beginnings::{Beginnings, own_beginnings};
use crate::found::{CANDIDATE_LIMIT, CandidateFault, Candidates};
use crate::names::candidate_name;
use crate::starts::Start;
use schema_model::{Index, IndexColumns, Names, Schema};
use sql_value::{Items, Memory};
use std::alloc::Global;

/// The candidates so far, with their names, and what indexes and candidates begin with.
#[derive(Drop)]
pub(crate) struct Search {
    pub(crate) found: Candidates,
    pub(crate) names: Names,
    pub(crate) beginnings: Beginnings,
}

impl Search {
    /// No candidates yet.
    pub(crate) fn new(alloc: Global, schema: &Schema) -> Result<Search, Memory>
        ensures finds { IfOk result (λ search. Finds schema.now search) }
        ensures none { IfOk result (λ search. search.found ≡ []) }
    {
        Ok(Search {
            found: Items::new(alloc),
            names: Names::new(alloc),
            beginnings: own_beginnings(alloc, schema)?,
        })
    }

    /// Adds a candidate on these columns, unless some index begins with them.
    fn try_list(
        &mut self,
        alloc: Global,
        schema: &Schema,
        table: u32,
        columns: IndexColumns,
    ) -> Result<(), CandidateFault>
        requires finds { Finds schema.now self.old }
        requires table { table < length schema.now.tables }
        requires columns { AreInTable (columns_at schema.now.tables table) columns }
        ensures finds { OnOk result (Finds schema.now self.new) }
        ensures added { OnOk result (known schema.now self.new
            ≡ meant.add_list table (known schema.now self.old) (map plain_index_column columns)) }
        ensures many { IfErr result (IsWhy (behind_usable schema.now
            (meant.add_list table (known schema.now self.old)
            (map plain_index_column columns)))) }
    {
        if self.beginnings.has(table, columns.as_slice()) {
            return Ok(());
        }
        let count = self.found.as_slice().len();
        if count >= CANDIDATE_LIMIT {
            return Err(CandidateFault::TooMany);
        }
        let name = candidate_name(alloc, schema, &self.names, count, table, columns.as_slice())?;
        self.names.add(alloc, name.as_slice())?;
        self.beginnings.add(table, columns.as_slice())?;
        self.found.push(Index {
            name,
            table,
            columns,
            unique: false,
            usable: true,
        })?;
        Ok(())
    }

    /// A start with the columns of ORDER BY behind it, where there are some.
    fn try_order(
        &mut self,
        alloc: Global,
        schema: &Schema,
        scan: &Scan,
        start: &Start,
    ) -> Result<(), CandidateFault>
        requires finds { Finds schema.now self.old }
        requires scan { IsScanOf schema.now.tables scan.now }
        requires start { AreInTable (columns_at schema.now.tables scan.now.table) start.now }
        ensures finds { OnOk result (Finds schema.now self.new) }
        ensures added { OnOk result (known schema.now self.new
            ≡ meant.add_lists scan.now.table (known schema.now self.old)
            (meant.then_order (map plain_index_column start.now)
            (map plain_index_column scan.now.order))) }
        ensures many { IfErr result (IsWhy (behind_usable schema.now
            (meant.add_lists scan.now.table (known schema.now self.old)
            (meant.then_order (map plain_index_column start.now)
            (map plain_index_column scan.now.order))))) }
    {
        if scan.order.as_slice().is_empty() {
            return Ok(());
        }
        let list = start.then(alloc, scan.order.as_slice())?;
        self.try_list(alloc, schema, scan.table, list)
    }

    /// A start with the column of each bound behind it, where it isn't there yet.
    fn try_bounds(
        &mut self,
        alloc: Global,
        schema: &Schema,
        scan: &Scan,
        start: &Start,
    ) -> Result<(), CandidateFault>
        requires finds { Finds schema.now self.old }
        requires scan { IsScanOf schema.now.tables scan.now }
        requires start { AreInTable (columns_at schema.now.tables scan.now.table) start.now }
        ensures finds { OnOk result (Finds schema.now self.new) }
        ensures added { OnOk result (known schema.now self.new
            ≡ meant.add_lists scan.now.table (known schema.now self.old)
            (map (λ r. map plain_index_column start.now ++ r ∷ [])
            (apart_from (map plain_index_column start.now)
            (map plain_index_column scan.now.bounds)))) }
        ensures many { IfErr result (IsWhy (behind_usable schema.now
            (meant.add_lists scan.now.table (known schema.now self.old)
            (map (λ r. map plain_index_column start.now ++ r ∷ [])
            (apart_from (map plain_index_column start.now)
            (map plain_index_column scan.now.bounds)))))) }
    {
        let bounds = scan.bounds.as_slice();
        for bound in bounds {
            if !start.has(bound.column) {
                let list = start.and(alloc, *bound)?;
                self.try_list(alloc, schema, scan.table, list)?;
            }
        }
        Ok(())
    }

    /// The lists of a start: with the order, with each bound, and alone.
    fn try_start(
        &mut self,
        alloc: Global,
        schema: &Schema,
        scan: &Scan,
        start: &Start,
    ) -> Result<(), CandidateFault>
        requires finds { Finds schema.now self.old }
        requires scan { IsScanOf schema.now.tables scan.now }
        requires start { AreInTable (columns_at schema.now.tables scan.now.table) start.now }
        ensures finds { OnOk result (Finds schema.now self.new) }
        ensures added { OnOk result (known schema.now self.new
            ≡ meant.add_lists scan.now.table (known schema.now self.old)
            (meant.lists_from (scan_of scan.now) (map plain_index_column start.now))) }
        ensures many { IfErr result (IsWhy (behind_usable schema.now
            (meant.add_lists scan.now.table (known schema.now self.old)
            (meant.lists_from (scan_of scan.now) (map plain_index_column start.now))))) }
    {
        self.try_order(alloc, schema, scan, start)?;
        self.try_bounds(alloc, schema, scan, start)?;
        let alone = start.alone(alloc)?;
        self.try_list(alloc, schema, scan.table, alone)
    }

    /// The starts that one item gives the rest of, by item.
    fn try_joins(
        &mut self,
        alloc: Global,
        schema: &Schema,
        scan: &Scan,
    ) -> Result<(), CandidateFault>
        requires finds { Finds schema.now self.old }
        requires scan { IsScanOf schema.now.tables scan.now }
        ensures finds { OnOk result (Finds schema.now self.new) }
        ensures added { OnOk result (known schema.now self.new
            ≡ meant.add_lists scan.now.table (known schema.now self.old)
            (flat_map (meant.lists_from (scan_of scan.now))
            (map (λ columns. map plain_index_column scan.now.equal ++ columns)
            (map join_of scan.now.by_item)))) }
        ensures many { IfErr result (IsWhy (behind_usable schema.now
            (meant.add_lists scan.now.table (known schema.now self.old)
            (flat_map (meant.lists_from (scan_of scan.now))
            (map (λ columns. map plain_index_column scan.now.equal ++ columns)
            (map join_of scan.now.by_item)))))) }
    {
        let joins = scan.by_item.as_slice();
        for join in joins {
            let start = Start::new(alloc, scan.equal.as_slice(), join.columns.as_slice())?;
            self.try_start(alloc, schema, scan, &start)?;
        }
        Ok(())
    }

    /// The lists of a scan: of each start in turn.
    fn try_scan(
        &mut self,
        alloc: Global,
        schema: &Schema,
        scan: &Scan,
    ) -> Result<(), CandidateFault>
        requires finds { Finds schema.now self.old }
        requires scan { IsScanOf schema.now.tables scan.now }
        ensures finds { OnOk result (Finds schema.now self.new) }
        ensures added { OnOk result (known schema.now self.new
            ≡ meant.add_lists scan.now.table (known schema.now self.old)
            (meant.lists_of (scan_of scan.now))) }
        ensures many { IfErr result (IsWhy (behind_usable schema.now
            (meant.add_lists scan.now.table (known schema.now self.old)
            (meant.lists_of (scan_of scan.now))))) }
    {
        let all = Start::new(alloc, scan.equal.as_slice(), scan.joined.as_slice())?;
        self.try_start(alloc, schema, scan, &all)?;
        self.try_joins(alloc, schema, scan)?;
        let equal = Start::new(alloc, scan.equal.as_slice(), &[])?;
        self.try_start(alloc, schema, scan, &equal)
    }

    /// The scans of a statement.
    pub(crate) fn try_scans(
        &mut self,
        alloc: Global,
        schema: &Schema,
        scans: &[Scan],
    ) -> Result<(), CandidateFault>
        requires finds { Finds schema.now self.old }
        requires scans { AreScansOf schema.now.tables scans.now }
        ensures finds { OnOk result (Finds schema.now self.new) }
        ensures added { OnOk result (known schema.now self.new
            ≡ meant.with_candidates (known schema.now self.old) (map scan_of scans.now)) }
        ensures many { IfErr result (IsWhy (behind_usable schema.now
            (meant.with_candidates (known schema.now self.old) (map scan_of scans.now)))) }
    {
        for scan in scans {
            self.try_scan(alloc, schema, scan)?;
        }
        Ok(())
    }
}
