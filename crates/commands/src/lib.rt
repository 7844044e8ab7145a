// The commands of the console that leave the lengths of the tables as they are: the one that a line asks for, by its first word, carried out.
#![tactic(auto)]

pub mod choice;
