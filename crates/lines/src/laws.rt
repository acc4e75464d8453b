// The theorems about plans, each on a contract, so that the check stands for every one. The statements are in specs/Demands.antt.

ghost use Rattle.lines.specs.Demands.{PlanIsValid, PlanFits, PlanIsNarrow};

/// A plan is written as valid lines, which have room in L lines of 16-bit numbers.
pub fn plan_laws()
    ensures valid { PlanIsValid }
    ensures fits { PlanFits }
    ensures narrow { PlanIsNarrow }
{}
