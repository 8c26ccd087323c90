// The words of a stub and, in specs/, the file that a plan makes of an executable.
#![tactic(auto)]
