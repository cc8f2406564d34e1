#![tactic(auto)]

// Runs of a controller over both pools, and what is told in them.
#[cfg(test)]
mod calls;
#[cfg(test)]
mod pitfalls;
#[cfg(test)]
mod runs;
#[cfg(test)]
mod steps;
