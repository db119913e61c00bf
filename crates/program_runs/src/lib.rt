//! A run over one document: the input is read whole, the answer to it written, or the fault told, and
//! the status says how it ended.
#![tactic(auto)]

mod command;
mod fault;
mod run;
mod show;
mod words;

pub use command::{Command, run_command};
pub use fault::{Answer, Fault, HistoryFault, LinesFault};
pub use run::{FSR, Program, give_answer, take_document, tell_fault, tell_untaken};
pub use show::{MOST_BUDGET, Show, budget_of};
pub use words::words_of;
