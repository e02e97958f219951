// Laws only: what each call does to the window, it does at the positions. See specs/.
#![tactic(auto)]
