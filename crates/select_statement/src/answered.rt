use pg_values::Answer;
use row_store::Trail;

/// What a SELECT answers, and the leaves that it has read.
#[derive(Drop)]
pub struct Answered {
    pub answer: Answer,
    pub trail: Trail,
}
