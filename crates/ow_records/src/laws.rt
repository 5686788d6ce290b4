// What is true of what is written and read. The functions do nothing: their contracts are the laws.
ghost use Rattle.ow_records.specs.Laws.{AbandonedIsRecorded, FieldsReadBack, IdTextsDiffer, IdsReadBack, LowerIdsReadBack, LowerIsRead, ReadIsWritten, WrittenIsRead};

/// The text of an id reads as that id.
#[tactic(auto, using(crate::proofs::IdLaws::id_back))]
pub fn ids_read_back()
    ensures { IdsReadBack }
{}

/// The text of an id also reads as that id in lower-case digits.
#[tactic(auto, using(crate::proofs::LowerIds::lower_ids_back))]
pub fn lower_ids_read_back()
    ensures { LowerIdsReadBack }
{}

/// A text that is an id's in lower case is the text of that id, and reads as it in either case.
pub fn lower_is_read()
    ensures { LowerIsRead }
{}

/// No two ids have one text.
#[tactic(auto, using(crate::proofs::IdLaws::ids_differ))]
pub fn id_texts_differ()
    ensures { IdTextsDiffer }
{}

/// What is read of a value is written as that value.
#[tactic(auto, using(crate::proofs::Confirmed::read_written))]
pub fn read_is_written()
    ensures { ReadIsWritten }
{}

/// What is written of a record reads as that record.
#[tactic(auto, using(crate::proofs::ReadBack::record_back))]
pub fn written_is_read()
    ensures { WrittenIsRead }
{}

/// The fields of a written record give that record.
#[tactic(auto, using(crate::proofs::ReadBack::fields_back))]
pub fn fields_read_back()
    ensures { FieldsReadBack }
{}

/// An activation that is abandoned has the same record by what is kept of it.
#[tactic(auto, unfolding(crate::specs::Outcome::outcome))]
pub fn abandoned_is_recorded()
    ensures { AbandonedIsRecorded }
{}
