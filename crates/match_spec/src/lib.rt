// What is said of both machines: which words stand for which values, when a state of the flat machine
// matches one of the symbol machine, and that a new file keeps the behaviour of its source.
#![tactic(auto)]
