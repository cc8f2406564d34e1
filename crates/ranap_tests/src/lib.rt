#![tactic(auto)]

// Frames at the edges of the format, and what is answered to them.
#[cfg(test)]
mod faults;
#[cfg(test)]
mod frames;
#[cfg(test)]
mod lengths;
#[cfg(test)]
mod repeats;
