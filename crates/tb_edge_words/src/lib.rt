//! The words of a command line, read by a table of forms. A form has a word, operands in their order, and options in any order between
//! them, each at most once.
//!
//! Modules, each over those before it:
//!
//! - `table`: the words, operands and options of each form.
//! - `given`: what the words of a form give.
//! - `faults`: what is wrong with words that no form takes.
//! - `reading`: `read`, from words to a form and what is given for it.
//!
//! specs/Table is the table, specs/Words which words a form takes, and what is wrong with all others.
#![tactic(auto)]

mod faults;
mod given;
mod reading;
mod table;

pub use faults::{Fault, Wrong};
pub use given::{Given, NOTHING};
pub use reading::{Asked, given_word, read};
pub use table::{FormName, Operand, OptionName};
