// The words of hallscore's text, and what a line of them says. The definition of the whole text stands in specs/Text.antt.
#![tactic(auto)]

pub mod read;
