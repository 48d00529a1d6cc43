// The drives on examples computed by hand. Each test is proved safe, then run.
#![tactic(auto)]

#[cfg(test)]
mod asked;
#[cfg(test)]
mod cells;
#[cfg(test)]
mod fan;
#[cfg(test)]
mod lent;
#[cfg(test)]
mod lists;
#[cfg(test)]
mod motion;
#[cfg(test)]
mod owner;
#[cfg(test)]
mod plan;
