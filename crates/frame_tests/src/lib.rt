// The frame crate on examples computed by hand. Each test is proved safe, then run.
#![tactic(auto)]

#[cfg(test)]
mod hex;
#[cfg(test)]
mod reading;
#[cfg(test)]
mod writing;
