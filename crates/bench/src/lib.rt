#![tactic(auto)]
// The rows of the bench: one table, and what is proved of it.

ghost use Rattle.bench.specs.Rows.{TableHolds, TableAnswered};

/// Every row of the table is as the definitions have it, and so is every answer that they permit.
pub fn bench_laws()
    ensures holds { TableHolds }
    ensures answered { TableAnswered }
{}
