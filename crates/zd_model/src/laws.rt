//! What follows from the definitions. The bodies are empty: the clauses are the laws.

ghost use Rattle.zd_model.specs.Laws.{EachRecordHasABlock, NoOtherRecordHasABlock};
ghost use Rattle.zd_model.specs.Laws.{OneRecordHasOneBlock};
ghost use Rattle.zd_model.specs.Laws.{OneBlockHasOneRecord, DecodesToItsRecord, PatternsAreSectors};
ghost use Rattle.zd_model.specs.Laws.{ArraysStaySectors, LegalHistoriesAreReported};
ghost use Rattle.zd_model.specs.Laws.{HistoriesPartAtTheLastFlush};
ghost use Rattle.zd_model.specs.Laws.{TouchedBlocksHaveASector};
ghost use Rattle.zd_model.specs.Laws.{PiecesCutARequest, OneScriptHasOnePlan, OneTextHasOneRefusal};
ghost use Rattle.zd_model.specs.Laws.{OneOutputHasOneHistory, OneReportHasOneHistory};
ghost use Rattle.zd_model.specs.Laws.{AReportIsAnOutput, AnOutcomeTellsItsStatus};
ghost use Rattle.zd_model.specs.Laws.{NoBadChunkIsRight, NoBadBitIsRight, ContentsAreSectors};
ghost use Rattle.zd_model.specs.Laws.{SameImagesChooseTheSame, SameImagesAreFormedTheSame};
ghost use Rattle.zd_model.specs.Laws.{SameImagesHaveTheSameContent};

/// A super block is one record's, and a record has one super block.
pub fn super_block_laws()
    ensures block { EachRecordHasABlock }
    ensures no_other { NoOtherRecordHasABlock }
    ensures one_block { OneRecordHasOneBlock }
    ensures one_record { OneBlockHasOneRecord }
    ensures decoded { DecodesToItsRecord }
{}

/// Requests touch the blocks of their sectors, are cut at the bounds of chunks and keep an array of
/// sectors; a history can be reported, and is parted at its last flush.
pub fn request_laws()
    ensures blocks { TouchedBlocksHaveASector }
    ensures pieces { PiecesCutARequest }
    ensures pattern { PatternsAreSectors }
    ensures array { ArraysStaySectors }
    ensures reported { LegalHistoriesAreReported }
    ensures flush { HistoriesPartAtTheLastFlush }
{}

/// A script has one plan, other bytes have one refusal, and an output tells one run.
pub fn text_laws()
    ensures script { OneScriptHasOnePlan }
    ensures refusal { OneTextHasOneRefusal }
    ensures output { OneOutputHasOneHistory }
    ensures report { OneReportHasOneHistory }
    ensures ended { AReportIsAnOutput }
    ensures status { AnOutcomeTellsItsStatus }
{}

/// The rules of a volume's tables and the first one that is broken are the same rules; and what a
/// volume holds depends on what its disk holds, and on nothing else.
pub fn volume_laws()
    ensures map { NoBadChunkIsRight }
    ensures bits { NoBadBitIsRight }
    ensures sectors { ContentsAreSectors }
    ensures chosen { SameImagesChooseTheSame }
    ensures well_formed { SameImagesAreFormedTheSame }
    ensures content { SameImagesHaveTheSameContent }
{}
