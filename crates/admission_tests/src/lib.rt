#![tactic(auto)]

// Tests of the radio pools at the edges of what may be asked. They stand in a crate of their own, since a crate with tests is proved twice.
#[cfg(test)]
mod edges;
#[cfg(test)]
mod worked;
