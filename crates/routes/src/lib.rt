// Definitions and laws only: the routes of a hall and what is counted over them. See specs/.
#![tactic(auto)]
