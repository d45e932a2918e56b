// Definitions and laws only: what a change of costs does to the rows. See specs/.
#![tactic(auto)]
