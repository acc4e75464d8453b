// The theorems about the definitions, each on a contract, so that the check stands for every one. The statements are in specs/Demands.antt.

ghost use Rattle.paper.specs.Demands.{AdmittedIsWritten, AdmittedIsGrammar, RowFits, HouseMeant, LanguageByTrees, Theorem7, Theorem1, SheetExists, SheetUnique, WordReadBack, OnesLeft, DistinctSubMultisets, EntriesBound, StepsBound, StepsPrice, LinesExist, LinesSound, LinesBound, JudgedUnique, CheckingUnique, BracketingUnique, ViewUnique, ReadingUnique};

/// What an image means, and which are admitted.
pub fn image_laws()
    ensures admitted_is_written { AdmittedIsWritten }
    ensures admitted_is_grammar { AdmittedIsGrammar }
    ensures row_fits { RowFits }
    ensures house_meant { HouseMeant }
{}

/// Derivation and the sheet: what stands is what the steps find, and each row has one sheet.
pub fn sheet_laws()
    ensures language_by_trees { LanguageByTrees }
    ensures theorem_7 { Theorem7 }
    ensures theorem_1 { Theorem1 }
    ensures exists { SheetExists }
    ensures unique { SheetUnique }
    ensures word_read_back { WordReadBack }
    ensures ones_left { OnesLeft }
{}

/// What a reading can cost at the most.
pub fn price_laws()
    ensures distinct_sub_multisets { DistinctSubMultisets }
    ensures entries { EntriesBound }
    ensures steps { StepsBound }
    ensures price { StepsPrice }
{}

/// Derivation lines: every row read has some, nothing else has, and they are few.
pub fn line_laws()
    ensures exist { LinesExist }
    ensures sound { LinesSound }
    ensures bound { LinesBound }
{}

/// Two permitted outcomes of one call are equal.
pub fn outcome_laws()
    ensures judged { JudgedUnique }
    ensures checking { CheckingUnique }
    ensures bracketing { BracketingUnique }
    ensures view { ViewUnique }
    ensures reading { ReadingUnique }
{}
