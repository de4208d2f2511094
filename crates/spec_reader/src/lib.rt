//! Reads scripts in the manner of PostgreSQL's isolationtester.
//!
//! A script says how to set tables up, which steps the sessions have, and in which order the steps
//! run. It is read in two parts.
//!
//! First its text is cut into tokens, from the left. What stands at the front of the text is a gap
//! (a blank or a comment), a token, or a fault: something that begins no token, or a quoted name or
//! block without its end. A gap is passed over, the others are noted with their places. In a text that
//! is no UTF-8 the tokens end at the first byte that is none, with a fault there. A token holds no bytes
//! of its own; a name or a block is copied out of the text when it is asked for.
//!
//! Then the tokens are parsed by a grammar (`specs/Scripts.antt`), of which each rule says which tokens
//! are a text of which value, and what was read is judged by the rules on limits and names
//! (`specs/Faults.antt`). `read_spec` answers the only script that the text is, or the first fault.
#![tactic(auto)]

mod bytes;
mod check;
mod contents;
mod fault;
mod in_order;
mod kind;
mod laws;
mod limit_checks;
mod limits;
mod names;
mod piece;
mod productions;
mod read;
mod reader;
mod spec;
mod step_names;
mod token;
mod use_checks;
mod words;
mod written;

pub use fault::SpecFault;
pub use in_order::InOrder;
pub use laws::{
    no_two_scripts, refused_for_one_reason, refused_is_no_script, written_scripts_are_read_back,
};
pub use limits::{
    MOST_MARKERS, MOST_PERMUTATIONS, MOST_SESSIONS, MOST_SETUP_BLOCKS, MOST_STEPS, MOST_USES,
};
pub use read::read_spec;
pub use spec::{
    BlockList, Marker, Markers, PermutationList, SessionSpec, SessionSpecs, Spec, StepSpec,
    StepSpecs, StepUse, UseList,
};
