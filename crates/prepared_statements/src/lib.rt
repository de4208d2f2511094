//! The prepared statements of a session: PREPARE, EXECUTE and DEALLOCATE by the list of them, and the kinds of their
//! parameters.
//!
//! PREPARE only parses. What it keeps is the statement as its text says it, under a name that no other one of the
//! session has, with the kinds that are declared of its first parameters; which names it holds and which kinds the
//! others have is found anew at each EXECUTE. So nothing in here looks a table up, and the list belongs to no
//! transaction: who keeps it decides that it does not roll back.
//!
//! A statement has as many parameters as are declared, and up to the greatest number that it names: `$3` alone makes
//! three. `numbers.rt` finds that number by a walk through the tree, with the greatest so far; the definition is of the
//! list of all numbers in the order of the text. It is a number and nothing more, so `$4294967295` costs as little as
//! `$1`.
//!
//! A parameter for which no kind is declared, and whose argument is a string literal or null, has the kind that the
//! first of its places gives it, in the order of the text. A place gives the kind that a string literal would have
//! there: beside an operand that of the operand, in a row of VALUES and in SET that of the column, behind LIMIT and
//! OFFSET `bigint`. Beside an operand that has no kind itself it gives none, and where no place gives one, the
//! parameter is a `text`. The definition is a list, all places that give a kind, in the order of the text
//! (`specs/ParameterPlaces.antt`, `specs/StatementPlaces.antt`). One walk goes over them and notes for each parameter
//! the kind of its first place.
//!
//! The list is in the order of PREPARE, and a name is found in it by its hash. DEALLOCATE leaves the place of its statement
//! empty, and moves no other one. A refused call leaves the list as it was, and so does one for which memory runs out.
#![tactic(auto)]

mod arithmetic;
mod changes;
mod first_kinds;
mod givens;
mod kinds;
mod name;
mod numbers;
mod parameter_places;
mod parameters;
mod place;
mod places;
mod prepared_list;
mod prepared_statement;
mod selects;

pub use parameters::{bind_parameters, kinds_in_statement};
pub use prepared_list::PreparedList;
pub use prepared_statement::PreparedStatement;
