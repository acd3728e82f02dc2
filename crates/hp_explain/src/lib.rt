//! Finds an order of a scenario's calls that explains the answers that its processors got in
//! threads.
//!
//! What was seen is the answer to each line of each processor and, if known, when the line began
//! and when its answer came (`observed`). An order explains it if each line is answered as it was
//! seen, and each line comes after all lines that had been answered before it began. What was seen
//! is then linearizable (Herlihy and Wing 1990; Wing and Gong 1993 search in the same way).
//! `explaining` finds the first such order by the search of hp_explore, or reports that there is
//! none, with the longest beginning that is explained.
//!
//! Read specs/Explaining first, then specs/Explainers.
#![tactic(auto)]

mod answer_lines;
mod answer_objects;
mod answer_words;
mod answers;
mod answers_fault;
mod explain_fault;
mod explainer;
mod explaining;
mod observed;
mod seen_scripts;
mod standing;
mod telling;
mod unexplained;

pub use answers::read_answers;
pub use answers_fault::AnswersFault;
pub use explain_fault::ExplainFault;
pub use explaining::{Explanation, explain};
pub use observed::{Observed, ObservedLine, ObservedScript};
pub use telling::{ExplainResult, ExplainText, explain_text};
