// The decoder's steps, in the order that docs/ARCHITECTURE.md takes them: marked places are peeled from the power sums, a kernel vector of what
// is left has the wrong places as roots, these and the marked ones are the candidates, and each candidate is corrected. They are inner calls
// of the word code, which checks every setting before it makes them; what they ask of their callers is in their `requires`.
#![tactic(auto)]

pub mod correct;
pub mod kernel;
pub mod locate;
pub mod peel;
