// Laws only: the values that wait for release as a queue of pages, and two visits against one. See specs/.
#![tactic(auto)]
