//! Rules that decide what a line of a log is, and the expressions file that contains them.
#![tactic(auto)]

mod build;
mod decision;
mod file;
mod law;
mod line_rules;
mod listed_patterns;
mod matchers;
mod misses;
mod needle;
mod patterns;
mod regex_patterns;
mod rule;
mod spans;
mod spelling;
mod time;

pub use decision::{DecideError, Decision, Named};
pub use law::alike_rules_decide_alike;
pub use line_rules::{LineRules, RuleError};
pub use listed_patterns::ListedPatterns;
pub use matchers::Matchers;
pub use patterns::{BuildFault, Patterns};
pub use regex_patterns::RegexPatterns;
