// Laws only: demotions by cause. See specs/.
#![tactic(auto)]
