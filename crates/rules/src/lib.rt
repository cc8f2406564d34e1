// The words and numbers of the RAB controller as plain data.
// What the controller does with them is told in specs/, whose files follow the chapters of docs/RULES.md.
//
// A code's number is its public method `number`, which programs call: `From` beside it would say the same twice.
#![tactic(auto)]

pub mod bearer;
pub mod code;
pub mod connection;
pub mod item;
pub mod refusal;
pub mod report;
