// Laws only: loss lists (request S-4), written and read. See specs/.
#![tactic(auto)]
