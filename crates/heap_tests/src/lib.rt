// Tests of the heap functions' words, which run on the flat machine.
#![tactic(auto)]

#[cfg(test)]
mod counting;
#[cfg(test)]
mod figures;
#[cfg(test)]
mod programs;
