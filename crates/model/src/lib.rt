// Definitions only: what the calls mean, and what is claimed of them. See specs/.
#![tactic(auto)]
