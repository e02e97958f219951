// Laws only: a sound window stays sound. See specs/.
#![tactic(auto)]
